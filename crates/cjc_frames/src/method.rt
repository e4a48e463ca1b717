//! A method as the solver has it: places are instructions, states are what is known before them, and edges go along
//! jumps, switches and handlers.

ghost use Rattle.std.specs.Prelude.{◌≡◌, ◌<◌, ◌^◌, ◌++◌, map, filter_map, length, option_to_list, IfOk, IfSome, OnOk};
ghost use Rattle.cjc_frames.specs.Flow.{caught as caught_by, covers as is_covered, edge, handler_edge};
ghost use Rattle.cjc_frames.specs.Flow.{next_place as next_by, place_at as place_by, step_edges, successors};
ghost use Rattle.cjc_types.specs.declared.cell.Cell.TheVariants as known;

use crate::acts::{Act, Catch, Given, Step};
use crate::cells::Cell;
use crate::changes::{after, all_given};
use crate::states::{self, Frame, copied_cells};
use cjc_fixpoint::bytes::{Bytes, NoMemory, Row};
use cjc_fixpoint::{Edge, Flow, Repeating, moved_on};
use cjc_types::rows::put_some;
use std::alloc::Global;
use std::marker::Model;

/// What is read of a method with code. Contracts see it as its body.
#[derive(Drop)]
pub struct Method<'a> {
    pub(crate) max_stack: u8,
    pub(crate) local_count: u16,
    pub(crate) arguments: &'a [Given],
    pub(crate) steps: &'a [Step],
    pub(crate) catches: &'a [Catch],
}

impl<'a> Model for Method<'a> {
    ghost use Rattle.std.specs.Prelude.{◌<◌, ◌^◌, length};
    ghost use Rattle.cjc_frames.specs.Flow.{Body};

    ghost Value = { Body };

    ghost view = { λ m. record {
      max_stack = m.max_stack;
      local_count = m.local_count;
      arguments = m.arguments.now;
      steps = m.steps.now;
      catches = m.catches.now;
    } };

    ghost invariant = { λ m. length m.steps.now < 2 ^ 32 };
}

/// The place of the instruction at an offset.
#[tactic(auto, using(crate::proofs::Firsts::position_within))]
fn place_of(steps: &[Step], offset: u64) -> Option<usize>
    ensures place { result ≡ place_by steps.now offset }
    ensures within { IfSome result (λ place. place < length steps.now) }
{
    steps.iter().position(|step| u64::from(step.at) == offset)
}

/// The same, where places are counted in 32 bits.
fn place_at(steps: &[Step], offset: u64) -> Option<u32>
    requires { length steps.now < 2 ^ 32 }
    ensures { result ≡ place_by steps.now offset }
{
    match place_of(steps, offset) {
        Some(place) => Some(place as u32),
        None => None,
    }
}

/// Whether a handler covers an offset.
fn covers(catch: &Catch, offset: u32) -> bool
    ensures { result ≡ is_covered catch.now offset }
{
    let offset = u64::from(offset);
    catch.start <= offset && offset - catch.start < catch.length
}

/// The cells of an exception.
fn exception(alloc: Global, caught: &Option<Bytes>) -> Result<Cell, NoMemory>
    ensures { IfOk result (λ cell. cell ≡ known.Refs (option_to_list caught.now)) }
{
    match caught {
        Some(type_) => Cell::object(alloc, type_.items()),
        None => Ok(Cell::null(alloc)),
    }
}

/// The state in which a handler is entered.
fn caught(alloc: Global, catch: &Catch, before: &Frame) -> Result<Frame, NoMemory>
    ensures { IfOk result (λ caught. caught ≡ caught_by catch.now before.now) }
{
    let mut stack = Row::new(alloc);
    stack.push(exception(alloc, &catch.caught)?)?;
    Ok(Frame {
        stack: Some(stack),
        locals: copied_cells(alloc, before.locals.items())?,
    })
}

/// An edge with the state to each of these places.
fn edges_to(alloc: Global, state: Frame, places: &[u32]) -> Result<Row<Edge<Frame>>, NoMemory>
    ensures { IfOk result (λ edges. edges ≡ map (edge state) places.now) }
{
    let mut edges = Row::new(alloc);
    if let [more @ .., last] = places {
        for to in more {
            edges.push(Edge {
                to: *to,
                state: states::copied(alloc, &state)?,
            })?;
        }
        edges.push(Edge { to: *last, state })?;
    }
    Ok(edges)
}

impl<'a> Method<'a> {
    /// A method of these.
    pub fn new(
        max_stack: u8,
        local_count: u16,
        arguments: &'a [Given],
        steps: &'a [Step],
        catches: &'a [Catch],
    ) -> Method<'a>
        requires { length steps.now < 2 ^ 32 }
        ensures { result ≡ record {
          max_stack = max_stack;
          local_count = local_count;
          arguments = arguments.now;
          steps = steps.now;
          catches = catches.now;
        } }
    {
        Method {
            max_stack,
            local_count,
            arguments,
            steps,
            catches,
        }
    }

    /// The number of instructions.
    pub(crate) fn places(&self) -> u32
        ensures { result ≡ length self.now.steps }
    {
        self.steps.len() as u32
    }

    /// The place of the instruction at an offset.
    fn place_at(&self, offset: u64) -> Option<u32>
        ensures { result ≡ place_by self.now.steps offset }
    {
        place_at(self.steps, offset)
    }

    /// Puts the place behind at the end, where an instruction stands there and may follow.
    fn put_next(&self, places: &mut Row<u32>, falls: bool, at: u32) -> Result<(), NoMemory>
        requires { at < length self.now.steps }
        ensures { OnOk result (places.new ≡ places.old ++ next_by falls (length self.now.steps) at) }
    {
        let next = at as usize + 1;
        if falls && next < self.steps.len() {
            places.push(next as u32)?;
        }
        Ok(())
    }

    /// Puts the places at some offsets at the end.
    fn put_places(&self, places: &mut Row<u32>, offsets: &[u64]) -> Result<(), NoMemory>
        ensures { OnOk result (places.new ≡ places.old ++ filter_map (place_by self.now.steps) offsets.now) }
    {
        for offset in offsets {
            put_some(places, self.place_at(*offset))?;
        }
        Ok(())
    }

    /// The places of the instructions that may follow.
    fn successors(&self, alloc: Global, at: u32, act: &Act) -> Result<Row<u32>, NoMemory>
        requires { at < length self.now.steps }
        ensures { IfOk result (λ places. places ≡ successors self.now.steps at act.now) }
    {
        let mut places = Row::new(alloc);
        self.put_next(&mut places, act.falls, at)?;
        self.put_places(&mut places, act.targets.items())?;
        Ok(places)
    }

    /// The edge to a handler, where it covers an offset.
    fn handler_edge(
        &self,
        alloc: Global,
        offset: u32,
        before: &Frame,
        catch: &Catch,
    ) -> Result<Option<Edge<Frame>>, NoMemory>
        ensures { IfOk result (λ edge. edge ≡ handler_edge self.now.steps offset before.now catch.now) }
    {
        if !covers(catch, offset) {
            return Ok(None);
        }
        match self.place_at(catch.target) {
            Some(to) => Ok(Some(Edge {
                to,
                state: caught(alloc, catch, before)?,
            })),
            None => Ok(None),
        }
    }

    /// Puts the edges to the handlers of the instruction at an offset at the end.
    fn put_handlers(
        &self,
        alloc: Global,
        edges: &mut Row<Edge<Frame>>,
        offset: u32,
        before: &Frame,
    ) -> Result<(), NoMemory>
        ensures { OnOk result (edges.new ≡ edges.old ++ filter_map (handler_edge self.now.steps offset before.now)
            self.now.catches) }
    {
        for catch in self.catches {
            put_some(edges, self.handler_edge(alloc, offset, before, catch)?)?;
        }
        Ok(())
    }

    /// What an instruction hands on.
    fn step_edges(
        &self,
        alloc: Global,
        at: u32,
        step: &Step,
        before: &Frame,
    ) -> Result<Row<Edge<Frame>>, NoMemory>
        requires { at < length self.now.steps }
        ensures { IfOk result (λ edges. edges ≡ step_edges self.now at step.now step.now.act.ends before.now) }
    {
        if step.act.ends {
            return Ok(Row::new(alloc));
        }
        let places = self.successors(alloc, at, &step.act)?;
        let behind = after(alloc, &step.act, before)?;
        let mut edges = edges_to(alloc, behind, places.items())?;
        self.put_handlers(alloc, &mut edges, step.at, before)?;
        Ok(edges)
    }
}

impl Flow for Method<'_> {
    ghost use Rattle.cjc_frames.specs.Flow.{frame_flow};
    ghost use Rattle.cjc_frames.specs.Working.FlowLaws.{frame_laws};

    type State = Frame;

    ghost meaning = { λ method. frame_flow method };

    ghost laws = { λ method. frame_laws method };

    fn copy(&self, alloc: Global, state: &Frame) -> Result<Frame, NoMemory> {
        states::copied(alloc, state)
    }

    fn join(&self, alloc: Global, left: &Frame, right: &Frame) -> Result<Frame, NoMemory> {
        states::joined(alloc, self.local_count, left, right)
    }

    fn transfer(
        &self,
        alloc: Global,
        at: u32,
        before: &Frame,
    ) -> Result<Row<Edge<Frame>>, NoMemory> {
        match self.steps.get(at as usize) {
            Some(step) => self.step_edges(alloc, at, step, before),
            None => Ok(Row::new(alloc)),
        }
    }

    fn entry(&self, alloc: Global) -> Result<Frame, NoMemory> {
        let mut locals = all_given(alloc, &[], &[], self.arguments)?.into_vec();
        for _ in 0..self.local_count {
            locals.push(Cell::unusable())?;
        }
        locals.truncate(self.local_count as usize);
        Ok(Frame {
            stack: Some(Row::new(alloc)),
            locals: Row::of(locals),
        })
    }

    fn rank(&self, state: &Frame) -> u64 {
        states::rank(self.local_count, state)
    }

    #[tactic(auto, unfolding(cjc_types::specs::States::most_cells, cjc_types::specs::Cells::most_names))]
    fn height(&self) -> u64 {
        393_216 * (1 << 32) + 1 + u64::from(self.local_count) * (1 << 32)
    }
}

impl Repeating for Method<'_> {
    ghost use Rattle.std.specs.Prelude.{false};
    ghost use Rattle.cjc_frames.specs.Working.FlowLaws.{none_repeat};

    ghost again = { λ method at. false };

    ghost repeated = { λ method. none_repeat method };

    fn repeats(&self, _at: u32) -> bool {
        false
    }

    fn pass(&self, alloc: Global, at: u32, before: Frame) -> Result<Option<Frame>, NoMemory> {
        moved_on(alloc, self, at, Some(before))
    }
}
