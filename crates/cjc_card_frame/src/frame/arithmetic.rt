//! Arithmetic, shifts and logic on words: sadd to sxor, sneg and s2b.

ghost use Rattle.std.specs.Prelude.{ℕ, ℤ, List, IfOk};
ghost use Rattle.cjc_card_frame.specs.declared.opcodes.kinds.Calculation.TheVariants.{DivideWords, NegateWord};
ghost use Rattle.cjc_card_frame.specs.declared.opcodes.kinds.Calculation.TheVariants.{WordToByte, Words};
ghost use Rattle.cjc_card_frame.specs.Meanings.{calculation_of};
ghost use Rattle.cjc_card_frame.specs.Frame.Frames.{Does};

use crate::frame::cells::Cells;
use crate::frame::ending::Ending;
use crate::frame::words::{divided, low_word, word_of};
use crate::opcodes::{Division, Operation};
use cjc_card_semantics::bytes::NoMemory;
use cjc_card_semantics::script::Value;
use cjc_jvm_step::frame::Exception;
use cjc_jvm_step::frame::number::{byte_of, negation_of};

impl Cells {
    /// An operation of two words.
    pub(crate) fn operate(&mut self, op: Operation) -> Result<Ending, NoMemory>
        ensures { IfOk result (λ e. (operands : List ℤ) (room : ℕ) → Does (calculation_of (Words op) operands) room e
            self.old self.new) }
    {
        match self.numbers(0) {
            Some((x, y)) => {
                self.put(2, Value::Num(word_of(op, x, y)))?;
                Ok(Ending::Fine)
            }
            None => Ok(Ending::Wrong),
        }
    }

    /// sdiv and srem.
    pub(crate) fn divide(&mut self, op: Division) -> Result<Ending, NoMemory>
        ensures { IfOk result (λ e. (operands : List ℤ) (room : ℕ) → Does (calculation_of (DivideWords op) operands)
            room e self.old self.new) }
    {
        match self.numbers(0) {
            Some((x, y)) => {
                if y == 0 {
                    return Ok(Ending::Fails(Exception::Arithmetic));
                }
                self.put(2, Value::Num(low_word(divided(op, x, y))))?;
                Ok(Ending::Fine)
            }
            None => Ok(Ending::Wrong),
        }
    }

    /// sneg.
    pub(crate) fn negate(&mut self) -> Result<Ending, NoMemory>
        ensures { IfOk result (λ e. (operands : List ℤ) (room : ℕ) → Does (calculation_of NegateWord operands) room e
            self.old self.new) }
    {
        match self.number(0) {
            Some(x) => {
                self.put(1, Value::Num(low_word(negation_of(x))))?;
                Ok(Ending::Fine)
            }
            None => Ok(Ending::Wrong),
        }
    }

    /// s2b.
    pub(crate) fn keep_byte(&mut self) -> Result<Ending, NoMemory>
        ensures { IfOk result (λ e. (operands : List ℤ) (room : ℕ) → Does (calculation_of WordToByte operands) room e
            self.old self.new) }
    {
        match self.number(0) {
            Some(x) => {
                self.put(1, Value::Num(low_word(byte_of(x))))?;
                Ok(Ending::Fine)
            }
            None => Ok(Ending::Wrong),
        }
    }
}
