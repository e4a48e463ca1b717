//! The state of a run by token beside the frame under way: callers, heap, static cells, what is left of the
//! script, notes and the count of instructions.

ghost use Rattle.std.specs.Prelude.{◌≡◌};

use cjc_card_frame::frames::Frame;
use cjc_card_frame::heap::Heap;
use cjc_card_frame::image::Statics;
use cjc_card_frame::jvm_step::frame::Pile;
use cjc_script::bytes::Row;
use cjc_script::{Answer, Entry, Note};
use std::marker::Model;

/// The callers, the heap and the static cells, what is left of the script, the notes, and how many instructions were
/// run.
pub struct Machine<'a> {
    pub callers: Pile<Frame>,
    pub heap: Heap,
    pub statics: Statics,
    pub entries: &'a [Entry],
    pub answers: &'a [Answer],
    pub notes: Row<Note>,
    pub spent: u32,
}

impl Drop for Machine<'_> {
    fn drop(self) {
        let Machine {
            callers: _callers,
            heap: _heap,
            statics: _statics,
            entries: _,
            answers: _,
            notes: _notes,
            spent: _,
        } = self;
    }
}

impl<'a> Model for Machine<'a> {
    ghost use Rattle.cjc_card_step.specs.Effects.Deeds.{memory};
    ghost use Rattle.cjc_card.specs.Acts.States.{StateByToken};

    ghost Value = { StateByToken };

    ghost view = { λ m. record {
      frames = m.callers;
      memory = memory m.heap m.statics;
      entries = m.entries.now;
      answers = m.answers.now;
      notes = m.notes;
      spent = m.spent;
    } };
}

impl<'a> Machine<'a> {
    /// The notes alone.
    pub fn into_notes(self) -> Row<Note>
        ensures { result ≡ self.entry.notes }
    {
        let Machine {
            callers: _callers,
            heap: _heap,
            statics: _statics,
            entries: _,
            answers: _,
            notes,
            spent: _,
        } = self;
        notes
    }
}
