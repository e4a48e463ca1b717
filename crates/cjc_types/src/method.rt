//! A method as the solver has it: places are instructions, states are what is known before them, and edges go
//! along jumps, switches and handlers.

ghost use Rattle.std.specs.Prelude.{◌≡◌, ◌<◌, ◌≤◌, ◌+◌, ◌^◌, [], ◌∷◌, ◌++◌, map, filter_map, length, slice_get};
ghost use Rattle.std.specs.Prelude.{option_map, IfOk, OnOk};
ghost use Rattle.cjc_types.specs.Flow.{Body, body_of, arguments, entry, place_at as place_by, next_place as next_by};
ghost use Rattle.cjc_types.specs.Flow.{successors, edge, covers, caught_type as type_caught, caught as caught_by};
ghost use Rattle.cjc_types.specs.Flow.{handler_edge, insn_edges, place_edges as edges_of_place};
ghost use Rattle.cjc_types.specs.Index.{AreInOrder};
ghost use Rattle.cjc_types.specs.Tables.{IsMethodOf, IsOfPackage};
ghost use Rattle.cjc_types.specs.Working.Onward.{gone_on};
ghost use Rattle.cjc_types.specs.Types.{parts, value_of};
ghost use Rattle.cjc_classfile.specs.Code.{CodeTree};
ghost use Rattle.cjc_classfile.specs.declared.tree.ClassTree.{ClassTree as Class};
ghost use Rattle.cjc_classfile.specs.declared.tree.MethodTree.{MethodTree as ClassMethod};

use crate::cell::Cell;
use crate::operands::Operands;
use crate::recent::Recent;
use crate::rows::{put_all, put_some};
use crate::state::{self, Stack, State};
use crate::{index, insns, names, steps, types};
use cjc_bytes::{Bytes, NoMemory, Row, is_static};
use cjc_classfile::{Catch, ClassTree, Code, MethodTree};
use cjc_code::{JInsn, JOp, MethodCode};
use cjc_fixpoint::{Edge, Flow};
use cjc_world::World;
use std::alloc::Global;
use std::marker::Model;

/// What inference reads of a method with code. Contracts see it as its body.
#[derive(Drop)]
pub struct Method<'a> {
    /// The class that holds the method.
    pub(crate) class: &'a [u8],
    pub(crate) flags: u16,
    pub(crate) desc: &'a [u8],
    pub(crate) max_stack: u16,
    pub(crate) max_locals: u16,
    pub(crate) catches: &'a [Catch],
    pub(crate) insns: &'a [JInsn],
}

impl<'a> Model for Method<'a> {
    ghost use Rattle.std.specs.Prelude.{◌<◌, ◌^◌, length};
    ghost use Rattle.cjc_types.specs.Flow.{Body};
    ghost use Rattle.cjc_types.specs.Index.{AreInOrder};

    ghost Value = { Body };

    ghost view = { λ m. record {
      class = m.class.now;
      flags = m.flags;
      desc = m.desc.now;
      max_stack = m.max_stack;
      max_locals = m.max_locals;
      catches = m.catches.now;
      insns = m.insns.now;
    } };

    ghost invariant = { λ m. AreInOrder m.insns.now × (length m.insns.now < 2 ^ 32) };
}

/// The class that a handler catches.
fn caught_type(class: &Option<Bytes>) -> &[u8]
    ensures { result.now ≡ type_caught class.now }
{
    match class {
        Some(class) => class.items(),
        None => b"java/lang/Throwable",
    }
}

/// Whether a handler is that of the instruction at an offset.
pub fn covers(catch: &Catch, offset: u32) -> bool
    ensures { result ≡ covers catch.now offset }
{
    u32::from(catch.start) <= offset && offset < u32::from(catch.end)
}

/// The state in which a handler is entered.
fn caught(alloc: Global, catch: &Catch, before: &State) -> Result<State, NoMemory>
    ensures { IfOk result (λ caught. caught ≡ caught_by catch.now before.now) }
{
    let mut stack = Operands::new(alloc);
    let types = names::one_name(alloc, caught_type(&catch.class))?;
    stack.push(alloc, Cell::Refs(types))?;
    Ok(State {
        stack: Stack::Cells(stack),
        locals: state::copied_cells(alloc, before.locals.items())?,
    })
}

/// An edge with the state to each of these places.
fn edges_to(alloc: Global, state: State, places: &[u32]) -> Result<Row<Edge<State>>, NoMemory>
    ensures { IfOk result (λ edges. edges ≡ map (edge state) places.now) }
{
    let mut edges = Row::new(alloc);
    if let [more @ .., last] = places {
        for to in more {
            edges.push(Edge {
                to: *to,
                state: state::copied(alloc, &state)?,
            })?;
        }
        edges.push(Edge { to: *last, state })?;
    }
    Ok(edges)
}

/// Puts what values of the parameters are at the end.
fn put_parameters(alloc: Global, cells: &mut Row<Cell>, desc: &[u8]) -> Result<(), NoMemory>
    ensures { OnOk result (cells.new ≡ cells.old ++ map value_of (parts desc.now).params) }
{
    if let Some(parsed) = types::parsed(desc) {
        for (kind, class) in parsed.parameters() {
            cells.push(types::value_of(alloc, kind, class)?)?;
        }
    }
    Ok(())
}

impl<'a> Method<'a> {
    /// A method of a class with its code and its instructions.
    fn of(
        class: &'a ClassTree<'_>,
        method: &'a MethodTree<'_>,
        tree: &'a Code<'_>,
        insns: &'a [JInsn],
    ) -> Method<'a>
        requires few { length insns.now < 2 ^ 32 }
        requires order { AreInOrder insns.now }
        ensures { result ≡ body_of class.now method.now tree.now insns.now }
    {
        Method {
            class: class.name.items(),
            flags: method.flags,
            desc: method.desc.items(),
            max_stack: tree.max_stack,
            max_locals: tree.max_locals,
            catches: tree.catches.items(),
            insns,
        }
    }

    /// The method that the code names. Takes no memory.
    pub fn new(world: &'a World<'_>, code: &'a MethodCode) -> Method<'a>
        requires { IsOfPackage world.now code.now }
        ensures { (c : Class) (m : ClassMethod) (t : CodeTree) → IsMethodOf world.now code.now c m t
            → result ≡ body_of c m t code.now.insns }
    {
        let class = &world.classes().items()[code.class as usize];
        let method = &class.methods.items()[code.method as usize];
        match &method.code {
            Some(tree) => Method::of(class, method, tree, code.insns.items()),
            None => unreachable!(),
        }
    }

    /// The instructions, in order.
    pub fn insns(&self) -> &'a [JInsn]
        ensures { result.now ≡ self.now.insns }
    {
        self.insns
    }

    /// The handlers, in the order of the class file.
    pub fn catches(&self) -> &'a [Catch]
        ensures { result.now ≡ self.now.catches }
    {
        self.catches
    }

    /// The method's access flags.
    pub fn flags(&self) -> u16
        ensures { result ≡ self.now.flags }
    {
        self.flags
    }

    /// The method's descriptor.
    pub fn desc(&self) -> &'a [u8]
        ensures { result.now ≡ self.now.desc }
    {
        self.desc
    }

    /// The number of locals.
    pub fn max_locals(&self) -> u16
        ensures { result ≡ self.now.max_locals }
    {
        self.max_locals
    }

    /// The instruction at a place.
    pub fn insn_at(&self, at: u32) -> Option<&'a JInsn>
        ensures { option_map (λ insn. insn.now) result ≡ slice_get self.now.insns at }
    {
        self.insns.get(at as usize)
    }

    /// The number of instructions.
    pub fn places(&self) -> u32
        ensures { result ≡ length self.now.insns }
    {
        self.insns.len() as u32
    }

    /// What the arguments of the method are.
    fn arguments(&self, alloc: Global) -> Result<Row<Cell>, NoMemory>
        ensures { IfOk result (λ cells. cells ≡ arguments self.now) }
    {
        let mut cells = Row::new(alloc);
        if !is_static(self.flags) {
            let types = names::one_name(alloc, self.class)?;
            cells.push(Cell::Refs(types))?;
        }
        put_parameters(alloc, &mut cells, self.desc)?;
        Ok(cells)
    }

    /// The place of the instruction at an offset.
    pub fn place_at(&self, offset: u32) -> Option<u32>
        ensures { result ≡ place_by self.now.insns offset }
    {
        index::place_at(self.insns, offset)
    }

    /// Puts the place behind at the end, where an instruction stands there and may follow.
    fn put_next(&self, places: &mut Row<u32>, goes_on: bool, at: u32) -> Result<(), NoMemory>
        requires { at < length self.now.insns }
        ensures { OnOk result (places.new ≡ places.old ++ next_by goes_on (length self.now.insns) at) }
    {
        let next = at as usize + 1;
        if goes_on && next < self.insns.len() {
            places.push(next as u32)?;
        }
        Ok(())
    }

    /// Puts the places at some offsets at the end.
    fn put_places(&self, places: &mut Row<u32>, offsets: &[u32]) -> Result<(), NoMemory>
        ensures { OnOk result (places.new ≡ places.old ++ filter_map (place_by self.now.insns) offsets.now) }
    {
        for offset in offsets {
            put_some(places, self.place_at(*offset))?;
        }
        Ok(())
    }

    /// The places of the instructions that may follow.
    pub fn successors(&self, alloc: Global, at: u32, op: &JOp) -> Result<Row<u32>, NoMemory>
        requires { at < length self.now.insns }
        ensures { IfOk result (λ places. places ≡ successors self.now.insns at op.now) }
    {
        let mut places = Row::new(alloc);
        self.put_next(&mut places, insns::goes_on(op), at)?;
        let offsets = insns::targets(alloc, op)?;
        self.put_places(&mut places, offsets.items())?;
        Ok(places)
    }

    /// The edge to a handler, where it is that of the instruction at an offset.
    fn handler_edge(
        &self,
        alloc: Global,
        offset: u32,
        before: &State,
        catch: &Catch,
    ) -> Result<Option<Edge<State>>, NoMemory>
        ensures { IfOk result (λ edge. edge ≡ handler_edge self.now.insns offset before.now catch.now) }
    {
        if !covers(catch, offset) {
            return Ok(None);
        }
        match self.place_at(u32::from(catch.target)) {
            Some(to) => Ok(Some(Edge {
                to,
                state: caught(alloc, catch, before)?,
            })),
            None => Ok(None),
        }
    }

    /// Puts the edges to the handlers of the instruction at an offset at the end.
    fn put_handlers(
        &self,
        alloc: Global,
        edges: &mut Row<Edge<State>>,
        offset: u32,
        before: &State,
    ) -> Result<(), NoMemory>
        ensures { OnOk result (edges.new ≡ edges.old ++ filter_map (handler_edge self.now.insns offset before.now)
            self.now.catches) }
    {
        for catch in self.catches {
            put_some(edges, self.handler_edge(alloc, offset, before, catch)?)?;
        }
        Ok(())
    }

    /// What an instruction hands on. The state is not used again: what goes to handlers is copied of it before it is
    /// changed in place.
    fn insn_edges(
        &self,
        alloc: Global,
        at: u32,
        insn: &JInsn,
        before: State,
    ) -> Result<Row<Edge<State>>, NoMemory>
        requires { at < length self.now.insns }
        ensures { IfOk result (λ edges. edges ≡ insn_edges self.now at insn.now before) }
    {
        let mut handled = Row::new(alloc);
        self.put_handlers(alloc, &mut handled, insn.at, &before)?;
        let places = self.successors(alloc, at, &insn.op)?;
        let after = steps::after(alloc, &insn.op, before)?;
        let mut edges = edges_to(alloc, after, places.items())?;
        put_all(&mut edges, handled)?;
        Ok(edges)
    }

    /// What a place hands on.
    fn place_edges(
        &self,
        alloc: Global,
        at: u32,
        before: State,
    ) -> Result<Row<Edge<State>>, NoMemory>
        ensures { IfOk result (λ edges. edges ≡ edges_of_place self.now at (slice_get self.now.insns at) before) }
    {
        match self.insns.get(at as usize) {
            Some(insn) => self.insn_edges(alloc, at, insn, before),
            None => Ok(Row::new(alloc)),
        }
    }

    /// What an instruction hands to the next, where no jump and no handler leads there.
    pub(crate) fn go_on(
        &self,
        alloc: Global,
        at: u32,
        before: State,
    ) -> Result<Option<State>, NoMemory>
        requires { at < 4294967295 }
        ensures { IfOk result (λ next. next ≡ gone_on self.now at before) }
    {
        if at as usize + 1 >= self.insns.len() {
            return Ok(None);
        }
        let op = &self.insns[at as usize].op;
        if !insns::goes_on(op) {
            return Ok(None);
        }
        Ok(Some(steps::after(alloc, op, before)?))
    }
}

impl Flow for Method<'_> {
    ghost use Rattle.cjc_types.specs.Flow.{type_flow};
    ghost use Rattle.cjc_types.specs.Working.FlowLaws.{type_laws};

    type State = State;

    ghost meaning = { λ method. type_flow method };

    ghost laws = { λ method. type_laws method };

    fn copy(&self, alloc: Global, state: &State) -> Result<State, NoMemory> {
        state::copied(alloc, state)
    }

    fn join(&self, alloc: Global, left: &State, right: &State) -> Result<State, NoMemory> {
        let left = state::copied(alloc, left)?;
        state::joined(alloc, &mut Recent::new(alloc), self.max_locals, left, right)
    }

    fn join_into(&self, alloc: Global, left: State, right: &State) -> Result<State, NoMemory> {
        state::joined(alloc, &mut Recent::new(alloc), self.max_locals, left, right)
    }

    fn is_above(&self, row: &State, state: &State) -> bool {
        state::is_above(self.max_locals, row, state)
    }

    fn transfer(
        &self,
        alloc: Global,
        at: u32,
        before: &State,
    ) -> Result<Row<Edge<State>>, NoMemory> {
        self.place_edges(alloc, at, state::copied(alloc, before)?)
    }

    fn step(&self, alloc: Global, at: u32, before: State) -> Result<Row<Edge<State>>, NoMemory> {
        self.place_edges(alloc, at, before)
    }

    fn entry(&self, alloc: Global) -> Result<State, NoMemory> {
        let mut locals = self.arguments(alloc)?.into_vec();
        for _ in 0..self.max_locals {
            locals.push(Cell::Unusable)?;
        }
        locals.truncate(self.max_locals as usize);
        Ok(State {
            stack: Stack::Cells(Operands::new(alloc)),
            locals: Row::of(locals),
        })
    }

    fn rank(&self, state: &State) -> u64 {
        state::rank(self.max_locals, state)
    }

    #[tactic(auto, unfolding(crate::specs::States::most_cells, crate::specs::Cells::most_names))]
    fn height(&self) -> u64 {
        393_216 * (1 << 32) + 1 + u64::from(self.max_locals) * (1 << 32)
    }
}
