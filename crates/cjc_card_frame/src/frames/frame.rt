//! A method under way: where it is in code, its words, and what becomes of these when it begins, goes on behind
//! a call, or goes on at a handler. It does no instruction.

ghost use Rattle.std.specs.Prelude.{◌≡◌, ◌≤◌, ◌∷◌, [], ◌++◌, length, reverse, nat_le, true, IfOk, OnOk, if◌then◌else◌};
ghost use Rattle.std.specs.List.{All};
ghost use Rattle.cjc_card_semantics.specs.Script.declared.value.Value.TheVariants.{Obj};
ghost use Rattle.cjc_card_semantics.specs.Bytecode.Machine.{frame_for_call};
ghost use Rattle.cjc_card_frame.specs.Frame.Frames.{IsWord};
ghost use Rattle.cjc_card_frame.specs.Kinds.{start_of};

use crate::frame::Cells;
use crate::frames::taking::{locals_of, put_words};
use crate::parts::{Code, Start};
use cjc_card_semantics::bytes::NoMemory;
use cjc_card_semantics::script::Value;
use std::alloc::Global;
use std::marker::Model;

/// A frame: the method's code, the offset of the instruction that is next or under way, the offset behind its call, and
/// its operands and locals.
#[derive(Drop)]
pub struct Frame {
    pub code: Code,
    pub at: u32,
    pub next: u32,
    pub cells: Cells,
}

impl Model for Frame {
    ghost use Rattle.cjc_card_semantics.specs.Bytecode.Machine.{Frame as FrameOf};
    ghost use Rattle.cjc_card_semantics.specs.Machine.Methods.{Code as CodeByToken};
    ghost use Rattle.cjc_card_frame.specs.Kinds.{code_of};

    ghost Value = { FrameOf CodeByToken };

    ghost view = { λ f. record {
      code = code_of f.code;
      at = f.at;
      next = f.next;
      stack = f.cells.stack;
      locals = f.cells.locals;
    } };
}

impl Frame {
    /// A method that begins with these words.
    pub fn enter(alloc: Global, start: Start, args: &[Value]) -> Result<Frame, NoMemory>
        requires { All IsWord args.now }
        ensures { IfOk result (λ f. f ≡ frame_for_call (start_of start) args.now) }
    {
        let locals = locals_of(alloc, start.nargs, start.max_locals, args)?;
        Ok(Frame {
            code: start.code,
            at: start.at,
            next: start.at,
            cells: Cells::new(alloc, locals),
        })
    }

    /// How many words its stack may have.
    pub fn room(&self) -> usize
        ensures { result ≡ (let code = self.now.code in code.room) }
    {
        usize::from(self.code.room)
    }

    /// Goes on behind its call, with these words more, the first of them deepest.
    pub fn resume(&mut self, words: &[Value]) -> Result<bool, NoMemory>
        requires { All IsWord words.now }
        ensures room { IfOk result (λ fits. fits ≡ nat_le (length (reverse words.now ++ self.old.stack))
            (let code = self.old.code in code.room)) }
        ensures goes { IfOk result (λ fits. self.new ≡ (if fits then record self.old {
          at = self.old.next;
          stack = reverse words.now ++ self.old.stack;
        } else self.old)) }
    {
        let room = self.room();
        if words.len() > room || self.cells.height() > room - words.len() {
            return Ok(false);
        }
        put_words(&mut self.cells, words)?;
        self.at = self.next;
        Ok(true)
    }

    /// Goes on at a handler, with an exception as the only operand.
    pub fn catch(&mut self, target: u32, object: u32) -> Result<(), NoMemory>
        ensures { OnOk result (self.new ≡ record self.old { at = target; stack = Obj object ∷ [] }) }
    {
        let height = self.cells.height();
        self.cells.put(height, Value::Obj(object))?;
        self.at = target;
        Ok(())
    }
}
