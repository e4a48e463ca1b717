//! The state of a run by name beside the frame under way: callers, heap, static cells, what is left of the
//! script, notes and the count of instructions.

ghost use Rattle.std.specs.Prelude.{◌≡◌, ◌∷◌, [], length, ◌<◌, IfSome, IfNone};

use cjc_jvm_semantics::bytes::Row;
use cjc_jvm_semantics::script::{Answer, Entry, Note};
use cjc_jvm_step::frame::{Activation, Caller, Pile};
use cjc_jvm_step::heap::{Heap, Statics};
use std::marker::Model;

/// The callers, the heap and the static cells, what is left of the script, the notes, and how many instructions
/// were run.
pub struct Machine<'a> {
    pub callers: Pile<Caller<'a>>,
    pub heap: Heap<'a>,
    pub statics: Statics<'a>,
    pub entries: &'a [Entry],
    pub answers: &'a [Answer],
    pub notes: Row<Note>,
    pub spent: u32,
}

impl Drop for Machine<'_> {
    fn drop(self) {
        let Machine {
            callers: _callers,
            heap: _heap,
            statics: _statics,
            entries: _,
            answers: _,
            notes: _notes,
            spent: _,
        } = self;
    }
}

impl<'a> Model for Machine<'a> {
    ghost use Rattle.cjc_jvm_semantics.specs.Machine.{State};
    ghost use Rattle.cjc_jvm_step.specs.Step.Rows.{store_of};

    ghost Value = { State };

    ghost view = { λ m. record {
      frames = m.callers;
      store = store_of m.heap m.statics;
      entries = m.entries.now;
      answers = m.answers.now;
      notes = m.notes;
      spent = m.spent;
    } };
}

impl<'a> Machine<'a> {
    /// The notes alone.
    pub fn into_notes(self) -> Row<Note>
        ensures { result ≡ self.entry.notes }
    {
        let Machine {
            callers: _callers,
            heap: _heap,
            statics: _statics,
            entries: _,
            answers: _,
            notes,
            spent: _,
        } = self;
        notes
    }
}

/// The newest caller comes back.
pub fn pop<'a>(callers: &mut Pile<Caller<'a>>) -> Option<Activation<'a>>
    ensures some { IfSome result (λ f. callers.old ≡ f ∷ callers.new) }
    ensures inside { IfSome result (λ f. f.at < length f.method.insns) }
    ensures none { IfNone result (callers.old ≡ []) }
    ensures same { IfNone result (callers.new ≡ []) }
{
    if let Some(caller) = callers.pop() {
        return Some(caller.into_frame());
    }
    None
}
