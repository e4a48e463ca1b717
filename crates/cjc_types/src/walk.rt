//! Going through the frames of a method. A type table has those at marked instructions; a walk gives those of all.

ghost use Rattle.std.specs.Prelude.{◌≡◌, List, ◌+◌, ◌<◌, None, Some, MatchOption, length, slice_get, option_map, OnErr};
ghost use Rattle.std.specs.Prelude.{OnOk, IfOk};
ghost use Rattle.cjc_fixpoint.specs.Kept.{handed_on, mark_of};
ghost use Rattle.cjc_world.specs.Classes.{Class};
ghost use Rattle.cjc_types.specs.Flow.{type_flow};
ghost use Rattle.cjc_types.specs.Search.{frame_of};
ghost use Rattle.cjc_types.specs.Marks.{marks_of};
ghost use Rattle.cjc_types.specs.Tables.{IsTypeTable, state_of, rows_of};
ghost use Rattle.cjc_types.specs.Walks.{IsNextFrame};

use crate::method::Method;
use crate::table::{Frame, TypeTable, copied_frame, frame_in, state_of};
use cjc_bytes::NoMemory;
use cjc_fixpoint::is_at;
use std::alloc::Global;
use std::marker::Model;
use std::mem;

/// What an instruction hands to the next, where that has no mark; else anything. `mark` is the mark that it may have.
fn handed_frame(
    alloc: Global,
    method: &Method<'_>,
    marks: &[u32],
    mark: usize,
    at: u32,
    frame: Option<Frame>,
) -> Result<Option<Frame>, NoMemory>
    requires marks { marks.now ≡ marks_of method.now }
    requires at { at < length method.now.insns }
    ensures { IfOk result (λ next. at + 1 < length method.now.insns → mark_of marks.now (at + 1) ≡ None
        → next ≡ option_map frame_of (handed_on (type_flow method.now) at (option_map state_of frame))) }
{
    let places = method.places();
    let next = at + 1;
    if next == places {
        return Ok(None);
    }
    if is_at(marks, mark, next) {
        return Ok(None);
    }
    match frame {
        None => Ok(None),
        Some(frame) => {
            let handed = method.go_on(alloc, at, state_of(frame))?;
            Ok(frame_in(alloc, handed))
        }
    }
}

/// The same of a frame that is kept.
fn handed_copy(
    alloc: Global,
    method: &Method<'_>,
    marks: &[u32],
    mark: usize,
    at: u32,
    frame: &Option<Frame>,
) -> Result<Option<Frame>, NoMemory>
    requires marks { marks.now ≡ marks_of method.now }
    requires at { at < length method.now.insns }
    ensures { IfOk result (λ next. at + 1 < length method.now.insns → mark_of marks.now (at + 1) ≡ None
        → next ≡ option_map frame_of (handed_on (type_flow method.now) at (option_map state_of frame.now))) }
{
    let places = method.places();
    let next = at + 1;
    if next == places {
        return Ok(None);
    }
    if is_at(marks, mark, next) {
        return Ok(None);
    }
    let frame = copied_frame(alloc, frame)?;
    handed_frame(alloc, method, marks, mark, at, frame)
}

/// The instructions of a method in order, each with the frame before it. Contracts see it as the states before
/// all, and the place that is next.
#[derive(Drop)]
pub struct TypeWalk<'a> {
    method: &'a Method<'a>,
    types: &'a TypeTable,
    /// The place that is next.
    at: u32,
    /// How many marks lie before it.
    mark: usize,
    /// The frame that it is handed. If it is marked, any.
    handed: Option<Frame>,
}

impl<'a> Model for TypeWalk<'a> {
    ghost use Rattle.cjc_fixpoint.specs.Walks.{Walking};
    ghost use Rattle.cjc_types.specs.declared.state.State.{State};
    ghost use Rattle.cjc_types.specs.Tables.{rows_of};
    ghost use Rattle.cjc_types.specs.Walks.{IsTypeWalk};

    ghost Value = { Walking State };

    ghost view = { λ w. record { at = w.at; rows = rows_of w.method.now w.types.now } };

    ghost invariant = { λ w. IsTypeWalk w.method.now w.types.now w.at w.mark w.handed };
}

impl<'a> TypeWalk<'a> {
    /// A walk over the types that `infer` gave for a method. It begins at the first instruction, and takes no memory.
    pub fn new(method: &'a Method<'a>, types: &'a TypeTable) -> TypeWalk<'a>
        requires { (w : List Class) × IsTypeTable w method.now types.now }
        ensures { result ≡ record { at = 0; rows = rows_of method.now types.now } }
    {
        TypeWalk {
            method,
            types,
            at: 0,
            mark: 0,
            handed: None,
        }
    }

    /// The next place with the frame before its instruction; none where no way leads there. After `NoMemory`
    /// the walk is as before.
    pub fn next(&mut self, alloc: Global) -> Result<Option<(u32, Option<Frame>)>, NoMemory>
        ensures given { IfOk result (IsNextFrame self.old self.new) }
        ensures kept { OnErr result (self.new ≡ self.old) }
    {
        let at = self.at;
        if at == self.method.places() {
            return Ok(None);
        }
        let marks = self.types.marks.items();
        if is_at(marks, self.mark, at) {
            let frame = copied_frame(alloc, &self.types.frames.items()[self.mark])?;
            let handed = handed_copy(alloc, self.method, marks, self.mark + 1, at, &frame)?;
            self.at = at + 1;
            self.mark += 1;
            self.handed = handed;
            Ok(Some((at, frame)))
        } else {
            let handed = handed_copy(alloc, self.method, marks, self.mark, at, &self.handed)?;
            let frame = mem::replace(&mut self.handed, handed);
            self.at = at + 1;
            Ok(Some((at, frame)))
        }
    }

    /// The place that is next; none behind the last one.
    pub fn place(&self) -> Option<u32>
        ensures { MatchOption result (self.now.at ≡ length self.now.rows) (λ place. (place ≡ self.now.at)
            × (place < length self.now.rows)) }
    {
        if self.at == self.method.places() {
            return None;
        }
        Some(self.at)
    }

    /// The frame before the instruction that is next; none where no way leads there.
    pub fn frame(&self) -> &Option<Frame>
        requires { self.now.at < length self.now.rows }
        ensures { slice_get self.now.rows self.now.at ≡ Some (option_map state_of result.now) }
    {
        if is_at(self.types.marks.items(), self.mark, self.at) {
            return &self.types.frames.items()[self.mark];
        }
        &self.handed
    }

    /// Goes on to the place behind. The frame that was lent is changed in place, so after `NoMemory` the walk is over.
    pub fn advance(&mut self, alloc: Global) -> Result<(), NoMemory>
        requires { self.old.at < length self.old.rows }
        ensures ok { OnOk result (self.new ≡ record { at = self.old.at + 1; rows = self.old.rows }) }
        ensures err { OnErr result (self.new ≡ record { at = length self.old.rows; rows = self.old.rows }) }
    {
        let at = self.at;
        let mark = self.mark;
        let types = self.types;
        let marks = types.marks.items();
        let frame = mem::replace(&mut self.handed, None);
        self.at = self.method.places();
        self.mark = marks.len();
        if is_at(marks, mark, at) {
            let frames = types.frames.items();
            let next = handed_copy(alloc, self.method, marks, mark + 1, at, &frames[mark])?;
            self.at = at + 1;
            self.mark = mark + 1;
            self.handed = next;
            Ok(())
        } else {
            let next = handed_frame(alloc, self.method, marks, mark, at, frame)?;
            self.at = at + 1;
            self.mark = mark;
            self.handed = next;
            Ok(())
        }
    }
}
