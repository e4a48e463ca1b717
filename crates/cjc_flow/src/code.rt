//! A method with its instructions, as intervals read it. Called by ranging.rt. Knows no interval but those of
//! arguments.

ghost use Rattle.std.specs.Prelude.{◌≡◌, ◌<◌, ◌+◌, ◌^◌, ◌++◌, filter_map, length, slice_get, option_map, option_to_list, replicate, take, IfOk, OnOk};
ghost use Rattle.cjc_classfile.specs.Code.{CodeTree};
ghost use Rattle.cjc_classfile.specs.declared.tree.ClassTree.{ClassTree as Class};
ghost use Rattle.cjc_classfile.specs.declared.tree.MethodTree.{MethodTree as ClassMethod};
ghost use Rattle.cjc_types.specs.Flow.{body_of, covers as covers_offset, next_place as next_by, place_at as place_by, successors as successors_of};
ghost use Rattle.cjc_types.specs.Index.{AreInOrder};
ghost use Rattle.cjc_types.specs.Tables.{IsMethodOf, IsOfPackage};
ghost use Rattle.cjc_range_flow.specs.Flow.{argument_ranges, first_state};

use crate::intervals::{Intervals, full_interval};
use crate::state::Ranges;
use crate::{insns, values};
use cjc_bytes::{NoMemory, Row, is_static};
use cjc_classfile::{Catch, ClassTree, Code, MethodTree};
use cjc_code::{JInsn, JOp, MethodCode};
use cjc_range::Interval;
use cjc_world::World;
use std::alloc::Global;
use std::marker::Model;

/// A method with code. Contracts see it as its body.
pub(crate) struct Method<'a> {
    /// The class that holds the method.
    class: &'a [u8],
    flags: u16,
    desc: &'a [u8],
    max_stack: u16,
    max_locals: u16,
    catches: &'a [Catch],
    insns: &'a [JInsn],
}

impl Drop for Method<'_> {
    fn drop(self) {
        let Method {
            class: _class,
            flags: _flags,
            desc: _desc,
            max_stack: _max_stack,
            max_locals: _max_locals,
            catches: _catches,
            insns: _insns,
        } = self;
    }
}

impl<'a> Model for Method<'a> {
    ghost use Rattle.std.specs.Prelude.{◌<◌, ◌^◌, length};
    ghost use Rattle.cjc_types.specs.Flow.{Body};
    ghost use Rattle.cjc_types.specs.Index.{AreInOrder};

    ghost Value = { Body };

    ghost view = { λ m. record { class = m.class.now; flags = m.flags; desc = m.desc.now; max_stack = m.max_stack; max_locals = m.max_locals; catches = m.catches.now; insns = m.insns.now } };

    ghost invariant = { λ m. AreInOrder m.insns.now × (length m.insns.now < 2 ^ 32) };
}

/// Whether a handler is that of the instruction at an offset.
pub(crate) fn covers(catch: &Catch, offset: u32) -> bool
    ensures { result ≡ covers_offset catch.now offset }
{
    u32::from(catch.start) <= offset && offset < u32::from(catch.end)
}

/// Puts the place at the end, where there is one.
fn put_some(places: &mut Row<u32>, place: Option<u32>) -> Result<(), NoMemory>
    ensures { OnOk result (places.new ≡ places.old ++ option_to_list place) }
{
    match place {
        Some(place) => places.push(place),
        None => Ok(()),
    }
}

impl<'a> Method<'a> {
    /// A method of a class with its code and its instructions.
    fn of(
        class: &'a ClassTree<'_>,
        method: &'a MethodTree<'_>,
        tree: &'a Code<'_>,
        insns: &'a [JInsn],
    ) -> Method<'a>
        requires few { length insns.now < 2 ^ 32 }
        requires order { AreInOrder insns.now }
        ensures { result ≡ body_of class.now method.now tree.now insns.now }
    {
        Method {
            class: class.name.items(),
            flags: method.flags,
            desc: method.desc.items(),
            max_stack: tree.max_stack,
            max_locals: tree.max_locals,
            catches: tree.catches.items(),
            insns,
        }
    }

    /// The method that the code names. Takes no memory.
    pub(crate) fn new(world: &'a World<'_>, code: &'a MethodCode) -> Method<'a>
        requires { IsOfPackage world.now code.now }
        ensures { (c : Class) (m : ClassMethod) (t : CodeTree) → IsMethodOf world.now code.now c m t → result ≡ body_of c m t code.now.insns }
    {
        let class = &world.classes().items()[code.class as usize];
        let method = &class.methods.items()[code.method as usize];
        match &method.code {
            Some(tree) => Method::of(class, method, tree, code.insns.items()),
            None => unreachable!(),
        }
    }

    pub(crate) fn insns(&self) -> &'a [JInsn]
        ensures { result.now ≡ self.now.insns }
    {
        self.insns
    }

    pub(crate) fn catches(&self) -> &'a [Catch]
        ensures { result.now ≡ self.now.catches }
    {
        self.catches
    }

    pub(crate) fn max_locals(&self) -> u16
        ensures { result ≡ self.now.max_locals }
    {
        self.max_locals
    }

    /// The number of instructions.
    pub(crate) fn places(&self) -> u32
        ensures { result ≡ length self.now.insns }
    {
        self.insns.len() as u32
    }

    /// The instruction at a place.
    pub(crate) fn insn_at(&self, at: u32) -> Option<&'a JInsn>
        ensures { option_map (λ insn. insn.now) result ≡ slice_get self.now.insns at }
    {
        self.insns.get(at as usize)
    }

    /// The place of the instruction at an offset.
    pub(crate) fn place_at(&self, offset: u32) -> Option<u32>
        ensures { result ≡ place_by self.now.insns offset }
    {
        insns::place_at(self.insns, offset)
    }

    /// Puts the place behind at the end, where an instruction stands there and may follow.
    fn put_next(&self, places: &mut Row<u32>, goes_on: bool, at: u32) -> Result<(), NoMemory>
        requires { at < length self.now.insns }
        ensures { OnOk result (places.new ≡ places.old ++ next_by goes_on (length self.now.insns) at) }
    {
        let next = at as usize + 1;
        if goes_on && next < self.insns.len() {
            places.push(next as u32)?;
        }
        Ok(())
    }

    /// Puts the places at some offsets at the end.
    fn put_places(&self, places: &mut Row<u32>, offsets: &[u32]) -> Result<(), NoMemory>
        ensures { OnOk result (places.new ≡ places.old ++ filter_map (place_by self.now.insns) offsets.now) }
    {
        for offset in offsets {
            put_some(places, self.place_at(*offset))?;
        }
        Ok(())
    }

    /// The places of the instructions that may follow.
    pub(crate) fn successors(&self, alloc: Global, at: u32, op: &JOp) -> Result<Row<u32>, NoMemory>
        requires { at < length self.now.insns }
        ensures { IfOk result (λ places. places ≡ successors_of self.now.insns at op.now) }
    {
        let mut places = Row::new(alloc);
        self.put_next(&mut places, insns::goes_on(op), at)?;
        let offsets = insns::targets(alloc, op)?;
        self.put_places(&mut places, offsets.items())?;
        Ok(places)
    }

    /// The intervals of the arguments.
    fn arguments(&self, alloc: Global) -> Result<Row<Interval>, NoMemory>
        ensures { IfOk result (λ cells. cells ≡ argument_ranges self.now) }
    {
        let mut cells = Row::new(alloc);
        if !is_static(self.flags) {
            cells.push(full_interval())?;
        }
        values::put_parameters(&mut cells, self.desc)?;
        Ok(cells)
    }

    /// How the method begins.
    pub(crate) fn first(&self, alloc: Global) -> Result<Ranges, NoMemory>
        ensures { IfOk result (λ state. state ≡ first_state self.now) }
    {
        let mut locals = self.arguments(alloc)?.into_vec();
        for _ in 0..self.max_locals {
            locals.push(full_interval())?;
        }
        locals.truncate(self.max_locals as usize);
        Ok(Ranges {
            stack: Some(Intervals::new(alloc)),
            locals: Row::of(locals),
        })
    }
}
