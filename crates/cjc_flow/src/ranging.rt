//! The intervals of a method as a dataflow problem, whose places are its instructions, and the table that solves it.

ghost use Rattle.std.specs.Prelude.{◌≡◌, ◌<◌, ◌==◌, ◌||◌, not, ◌++◌, ℕ, Option, List, ℤ, Some, None, map, filter_map};
ghost use Rattle.std.specs.Prelude.{length, slice_get, get_or, IfOk, OnOk};
ghost use Rattle.cjc_fixpoint.specs.Bytes.declared.fault.MemberId.{MemberId as Field};
ghost use Rattle.cjc_types.specs.ClassFile.Code.{CodeTree};
ghost use Rattle.cjc_types.specs.ClassFile.declared.tree.ClassTree.{ClassTree as Class};
ghost use Rattle.cjc_types.specs.ClassFile.declared.tree.MethodTree.{MethodTree as ClassMethod};
ghost use Rattle.cjc_types.specs.Bytecode.declared.insn.JInsn.{JInsn as Insn};
ghost use Rattle.cjc_fixpoint.specs.Kept.{IsAscending, StandsForLeast, mark_of as mark_by};
ghost use Rattle.cjc_types.specs.World.Classes.{all_classes};
ghost use Rattle.cjc_types.specs.declared.state.State.{State as TypeState};
ghost use Rattle.cjc_types.specs.Flow.{body_of};
ghost use Rattle.cjc_types.specs.Marks.{is_marked, marks_of};
ghost use Rattle.cjc_types.specs.Repeats.{repeats_at as repeats_here};
ghost use Rattle.cjc_types.specs.Search.{cells_of};
ghost use Rattle.cjc_types.specs.Tables.{IsMethodOf, IsOfPackage, IsTypeTable, rows_of};
ghost use Rattle.cjc_intervals.specs.Flow.{caught as caught_by, is_target};
ghost use Rattle.cjc_flow.specs.Constants.{AreNumbers, values_of};
ghost use Rattle.cjc_flow.specs.Tables.{IsRangeTable, ranges_of};
ghost use Rattle.cjc_flow.specs.Working.Given.{after_by, element_at as element_by, element_given};
ghost use Rattle.cjc_flow.specs.Working.Kept.{kept_arrival, kept_edge, kept_edges, kept_flow, kept_handler, kept_on};
ghost use Rattle.cjc_flow.specs.Working.Kept.{kept_place, value_at as value_by};

use crate::elements::elements;
use crate::intervals::{Intervals, full_interval};
use crate::repeats::Bounded;
use crate::state::{self, Ranges};
use crate::targets::is_target;
use crate::{arrival, entry, steps};
use cjc_fixpoint::bytes::{NoMemory, Row};
use cjc_fixpoint::{Edge, Flow, Repeating, Table, Walk, moved_on, solve};
use cjc_range::Interval;
use cjc_types::bytecode::{JInsn, JOp, MethodCode};
use cjc_types::classfile::Catch;
use cjc_types::rows::{put_all, put_some};
use cjc_types::world::World;
use cjc_types::{Method, TypeTable, bounds_of, covers, insns, repeats_at};
use std::alloc::Global;
use std::marker::Model;

/// The intervals at the marked places of a method: the first instruction, and each to which a jump, a switch or a
/// handler leads. It stands for the intervals before all instructions.
pub type RangeTable = Table<Ranges>;

/// Which mark a place is.
fn mark_of(marks: &[u32], at: u32) -> Option<usize>
    requires { IsAscending marks.now }
    ensures { result ≡ mark_by marks.now at }
{
    match marks.binary_search(&at) {
        Ok(mark) => Some(mark),
        Err(_) => None,
    }
}

/// What is kept of a place.
fn kept_at(elements: &[Option<Interval>], at: u32) -> Option<Interval>
    ensures { result ≡ get_or elements.now at None }
{
    match elements.get(at as usize) {
        Some(element) => *element,
        None => None,
    }
}

/// The state in which a handler is entered.
fn caught(alloc: Global, before: &Ranges) -> Result<Ranges, NoMemory>
    ensures { IfOk result (λ caught. caught ≡ caught_by before.now) }
{
    let mut stack = Intervals::new(alloc);
    stack.push(full_interval())?;
    Ok(Ranges {
        stack: Some(stack),
        locals: Row::of(Vec::from_slice(alloc, before.locals.items())?),
    })
}

/// A method with its types, as its intervals are found. Contracts see its body, the constant that each instruction
/// gets, and the types before all instructions.
pub struct Ranging<'a> {
    method: Method<'a>,
    types: &'a TypeTable,
    values: Row<Option<i32>>,
    /// For each instruction that the types reach what it gives where it loads from an array.
    elements: Row<Option<Interval>>,
    /// Whether a jump, a switch or a handler leads to the first instruction.
    first: bool,
}

impl Drop for Ranging<'_> {
    fn drop(self) {
        let Ranging {
            method: _method,
            types: _types,
            values: _values,
            elements: _elements,
            first: _first,
        } = self;
    }
}

impl<'a> Model for Ranging<'a> {
    ghost use Rattle.cjc_types.specs.Tables.{rows_of};
    ghost use Rattle.cjc_flow.specs.Working.Invariant.{IsRanging};
    ghost use Rattle.cjc_flow.specs.Working.Kept.{Ranged};

    ghost Value = { Ranged };

    ghost view = { λ r. record { body = r.method; values = r.values; types = rows_of r.method r.types.now } };

    ghost invariant = { λ r. IsRanging r.method r.types.now r.elements r.first };
}

impl<'a> Ranging<'a> {
    /// A method with the types that `infer` gave for it, and for each instruction the constant that it gets: the
    /// value of the field that a getstatic names, where that is a constant.
    pub fn new(
        alloc: Global,
        world: &'a World<'_>,
        code: &'a MethodCode,
        types: &'a TypeTable,
        values: Row<Option<i32>>,
    ) -> Result<Ranging<'a>, NoMemory>
        requires code { IsOfPackage world.now code.now }
        requires types { (c : Class) (m : ClassMethod) (t : CodeTree) → IsMethodOf world.now code.now c m t
            → IsTypeTable (all_classes world.now) (body_of c m t code.now.insns) types.now }
        ensures { (c : Class) (m : ClassMethod) (t : CodeTree) → IsMethodOf world.now code.now c m t
            → IfOk result (λ r. r ≡ record {
              body = body_of c m t code.now.insns;
              values = values;
              types = rows_of (body_of c m t code.now.insns) types.now;
            }) }
    {
        let method = Method::new(world, code);
        let elements = elements(alloc, &method, types, code.insns.items())?;
        let first = is_target(alloc, &method, 0)?;
        Ok(Ranging {
            method,
            types,
            values,
            elements,
            first,
        })
    }

    /// Whether a place is marked.
    fn is_marked(&self, at: u32) -> bool
        requires { at ≡ 0 → 0 < length self.now.body.insns }
        ensures { result ≡ is_marked self.now.body at }
    {
        cjc_fixpoint::is_marked(self.types.marks.items(), at)
    }

    /// Whether a place hands its handlers nothing that the place before does not hand them. The bounds are those of the
    /// ranges of handlers.
    pub(crate) fn repeats_at(&self, bounds: &[bool], at: u32) -> bool
        ensures { result ≡ repeats_here self.now.body bounds.now at }
    {
        repeats_at(&self.method, self.types.marks.items(), bounds, at)
    }

    /// Whether what comes to a marked place is rounded.
    fn rounds(&self, to: u32) -> bool
        ensures { result ≡ (not (to == 0) || is_target self.now.body 0) }
    {
        to != 0 || self.first
    }

    /// The state as it comes to a place.
    fn arrived(&self, alloc: Global, to: u32, state: Ranges) -> Result<Ranges, NoMemory>
        requires { 0 < length self.now.body.insns }
        ensures { IfOk result (λ arrived. arrived ≡ kept_arrival self.now to state) }
    {
        let rounds = self.rounds(to);
        match mark_of(self.types.marks.items(), to) {
            Some(mark) => {
                arrival::arrived(alloc, &self.types.frames.items()[mark], rounds, &state)
            }
            None => Ok(state),
        }
    }

    /// An edge with the state to each of these places.
    fn edges_to(
        &self,
        alloc: Global,
        state: Ranges,
        places: &[u32],
    ) -> Result<Row<Edge<Ranges>>, NoMemory>
        requires { 0 < length self.now.body.insns }
        ensures { IfOk result (λ edges. edges ≡ map (kept_edge self.now state) places.now) }
    {
        let mut edges = Row::new(alloc);
        if let [more @ .., last] = places {
            for to in more {
                let state = self.arrived(alloc, *to, state::copied(alloc, &state)?)?;
                edges.push(Edge { to: *to, state })?;
            }
            let state = self.arrived(alloc, *last, state)?;
            edges.push(Edge { to: *last, state })?;
        }
        Ok(edges)
    }

    /// The edge to a handler, where it is that of the instruction at an offset.
    fn handler_edge(
        &self,
        alloc: Global,
        offset: u32,
        before: &Ranges,
        catch: &Catch,
    ) -> Result<Option<Edge<Ranges>>, NoMemory>
        requires { 0 < length self.now.body.insns }
        ensures { IfOk result (λ edge. edge ≡ kept_handler self.now offset before.now catch.now) }
    {
        if !covers(catch, offset) {
            return Ok(None);
        }
        match self.method.place_at(u32::from(catch.target)) {
            Some(to) => {
                let state = self.arrived(alloc, to, caught(alloc, before)?)?;
                Ok(Some(Edge { to, state }))
            }
            None => Ok(None),
        }
    }

    /// Puts the edges to the handlers of the instruction at an offset at the end.
    fn put_handlers(
        &self,
        alloc: Global,
        edges: &mut Row<Edge<Ranges>>,
        offset: u32,
        before: &Ranges,
    ) -> Result<(), NoMemory>
        requires { 0 < length self.now.body.insns }
        ensures { OnOk result (edges.new ≡ edges.old ++ filter_map (kept_handler self.now offset before.now)
            self.now.body.catches) }
    {
        for catch in self.method.catches() {
            put_some(edges, self.handler_edge(alloc, offset, before, catch)?)?;
        }
        Ok(())
    }

    /// The constant that an instruction gets.
    fn value_at(&self, at: u32) -> Option<i32>
        ensures { result ≡ value_by self.now at }
    {
        match self.values.items().get(at as usize) {
            Some(value) => *value,
            None => None,
        }
    }

    /// What an instruction gives where it loads from an array; nothing where the types don't reach it.
    fn element_at(&self, at: u32) -> Option<Interval>
        ensures { (insn : Insn) → slice_get self.now.body.insns at ≡ Some insn
            → result ≡ element_by insn (get_or self.now.types at None) }
    {
        kept_at(self.elements.items(), at)
    }

    /// The state behind an instruction, made of the one before it.
    fn after(
        &self,
        alloc: Global,
        at: u32,
        element: Interval,
        op: &JOp,
        before: Ranges,
    ) -> Result<Ranges, NoMemory>
        ensures { IfOk result (λ after. after ≡ after_by (value_by self.now at) element op.now before) }
    {
        steps::after(alloc, self.value_at(at), element, op, before)
    }

    /// What an instruction hands on. The state is not used again: what goes to handlers is copied of it before it is
    /// changed in place.
    fn insn_edges(
        &self,
        alloc: Global,
        at: u32,
        insn: &JInsn,
        element: Interval,
        before: Ranges,
    ) -> Result<Row<Edge<Ranges>>, NoMemory>
        requires { at < length self.now.body.insns }
        ensures { (t : TypeState) → element ≡ element_given insn.now.op (cells_of t.stack)
            → IfOk result (λ edges. edges ≡ kept_edges self.now at insn.now t before) }
    {
        let mut handled = Row::new(alloc);
        self.put_handlers(alloc, &mut handled, insn.at, &before)?;
        let places = self.method.successors(alloc, at, &insn.op)?;
        let after = self.after(alloc, at, element, &insn.op, before)?;
        let mut edges = self.edges_to(alloc, after, places.items())?;
        put_all(&mut edges, handled)?;
        Ok(edges)
    }

    /// What a place hands on.
    fn place_edges(
        &self,
        alloc: Global,
        at: u32,
        before: Ranges,
    ) -> Result<Row<Edge<Ranges>>, NoMemory>
        ensures { IfOk result (λ edges. edges ≡ kept_place self.now at (slice_get self.now.body.insns at)
            (get_or self.now.types at None) before) }
    {
        match self.method.insn_at(at) {
            Some(insn) => match self.element_at(at) {
                Some(element) => self.insn_edges(alloc, at, insn, element, before),
                None => Ok(Row::new(alloc)),
            },
            None => Ok(Row::new(alloc)),
        }
    }

    /// What an instruction hands to the next, where that has no mark.
    fn go_on(&self, alloc: Global, at: u32, before: Ranges) -> Result<Option<Ranges>, NoMemory>
        requires { at < 4294967295 }
        ensures { IfOk result (λ next. next ≡ kept_on self.now at before) }
    {
        let here = at as usize;
        let insns = self.method.insns();
        if here + 1 >= insns.len() {
            return Ok(None);
        }
        let op = &insns[here].op;
        if !insns::goes_on(op) {
            return Ok(None);
        }
        match self.element_at(at) {
            Some(element) => Ok(Some(self.after(alloc, at, element, op, before)?)),
            None => Ok(None),
        }
    }

    /// The range table of the method: it stands for the least table of intervals that is closed under the
    /// instructions, over the least type table.
    pub fn ranges(&self, alloc: Global) -> Result<RangeTable, NoMemory>
        ensures { (constant : Field → Option ℤ) → AreNumbers constant
            → self.now.values ≡ values_of constant self.now.body.insns
            → IfOk result (λ table. IsRangeTable self.now.body constant self.now.types table.marks table.rows) }
    {
        let bounds = bounds_of(alloc, &self.method)?;
        let bounded = Bounded {
            ranging: self,
            bounds: bounds.items(),
        };
        solve(alloc, &bounded, self.method.places(), &self.types.marks)
    }

    /// Goes through the intervals before all instructions. It begins at the first, and takes no memory.
    pub fn walk<'w>(&'w self, table: &'w RangeTable) -> Walk<'w, Ranging<'a>>
        requires { (constant : Field → Option ℤ) × (numbers : AreNumbers constant)
            × (values : self.now.values ≡ values_of constant self.now.body.insns)
            × IsRangeTable self.now.body constant self.now.types table.now.marks table.now.rows }
        ensures { (constant : Field → Option ℤ) → AreNumbers constant
            → self.now.values ≡ values_of constant self.now.body.insns
            → result ≡ record {
              at = 0;
              rows = ranges_of self.now.body constant self.now.types table.now.marks
                  table.now.rows;
            } }
    {
        Walk::new(self, table, self.method.places())
    }
}

impl Flow for Ranging<'_> {
    ghost use Rattle.cjc_flow.specs.Working.Kept.{kept_flow};
    ghost use Rattle.cjc_flow.specs.Working.KeptLaws.{kept_laws};

    type State = Ranges;

    ghost meaning = { λ r. kept_flow r };

    ghost laws = { λ r. kept_laws r };

    fn copy(&self, alloc: Global, state: &Ranges) -> Result<Ranges, NoMemory> {
        state::copied(alloc, state)
    }

    fn join(&self, alloc: Global, left: &Ranges, right: &Ranges) -> Result<Ranges, NoMemory> {
        Ok(state::joined(self.method.max_locals(), state::copied(alloc, left)?, right))
    }

    fn join_into(&self, _alloc: Global, left: Ranges, right: &Ranges) -> Result<Ranges, NoMemory> {
        Ok(state::joined(self.method.max_locals(), left, right))
    }

    fn is_above(&self, row: &Ranges, state: &Ranges) -> bool {
        state::is_above(self.method.max_locals(), row, state)
    }

    fn transfer(
        &self,
        alloc: Global,
        at: u32,
        before: &Ranges,
    ) -> Result<Row<Edge<Ranges>>, NoMemory> {
        self.place_edges(alloc, at, state::copied(alloc, before)?)
    }

    fn step(&self, alloc: Global, at: u32, before: Ranges) -> Result<Row<Edge<Ranges>>, NoMemory> {
        self.place_edges(alloc, at, before)
    }

    fn entry(&self, alloc: Global) -> Result<Ranges, NoMemory> {
        let first = entry::first(alloc, &self.method)?;
        if self.method.places() == 0 {
            return Ok(first);
        }
        self.arrived(alloc, 0, first)
    }

    fn rank(&self, state: &Ranges) -> u64 {
        state::rank(self.method.max_locals(), state)
    }

    #[tactic(auto, unfolding(cjc_types::specs::States::most_cells))]
    fn height(&self) -> u64 {
        393_216 * 4_294_967_295 + 1 + u64::from(self.method.max_locals()) * 4_294_967_295
    }
}

/// A walk asks for what a place hands to the next one alone; which places repeat what the place before hands on
/// is asked of `Bounded`.
impl Repeating for Ranging<'_> {
    ghost use Rattle.std.specs.Prelude.{false};
    ghost use Rattle.cjc_flow.specs.Working.Kept.{kept_flow};
    ghost use Rattle.cjc_fixpoint.specs.Working.ShortenedLaws.{never};

    ghost again = { λ _ _. false };

    ghost repeated = { λ r. never (kept_flow r) };

    fn repeats(&self, _at: u32) -> bool {
        false
    }

    fn pass(&self, alloc: Global, at: u32, before: Ranges) -> Result<Option<Ranges>, NoMemory> {
        if self.is_marked(at + 1) {
            return moved_on(alloc, self, at, Some(before));
        }
        self.go_on(alloc, at, before)
    }
}
