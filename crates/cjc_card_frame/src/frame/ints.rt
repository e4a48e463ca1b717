//! Instructions of int, which takes two words, the high one deeper: iadd to ixor, ineg, s2i, i2b, i2s and icmp.

ghost use Rattle.std.specs.Prelude.{ℕ, ℤ, List, IfOk};
ghost use Rattle.cjc_card_frame.specs.declared.opcodes.kinds.Calculation.TheVariants.{CompareInts, DivideInts};
ghost use Rattle.cjc_card_frame.specs.declared.opcodes.kinds.Calculation.TheVariants.{IntToByte};
ghost use Rattle.cjc_card_frame.specs.declared.opcodes.kinds.Calculation.TheVariants.{IntToWord, Ints, NegateInt};
ghost use Rattle.cjc_card_frame.specs.declared.opcodes.kinds.Calculation.TheVariants.{WordToInt};
ghost use Rattle.cjc_card_frame.specs.Meanings.{calculation_of};
ghost use Rattle.cjc_card_frame.specs.Frame.Frames.{Does};

use crate::frame::cells::Cells;
use crate::frame::ending::Ending;
use crate::frame::words::{compared, divided, int_of, low_byte, low_word};
use crate::opcodes::{Division, Operation};
use cjc_card_semantics::bytes::NoMemory;
use cjc_card_semantics::script::Value;
use cjc_jvm_step::frame::Exception;
use cjc_jvm_step::frame::number::negation_of;

impl Cells {
    /// An operation of two ints.
    pub(crate) fn operate_ints(&mut self, op: Operation) -> Result<Ending, NoMemory>
        ensures { IfOk result (λ e. (operands : List ℤ) (room : ℕ) → Does (calculation_of (Ints op) operands) room e
            self.old self.new) }
    {
        match (self.int(2), self.int(0)) {
            (Some(x), Some(y)) => {
                self.put_int(4, int_of(op, x, y))?;
                Ok(Ending::Fine)
            }
            (None, _) => Ok(Ending::Wrong),
            (_, None) => Ok(Ending::Wrong),
        }
    }

    /// idiv and irem.
    pub(crate) fn divide_ints(&mut self, op: Division) -> Result<Ending, NoMemory>
        ensures { IfOk result (λ e. (operands : List ℤ) (room : ℕ) → Does (calculation_of (DivideInts op) operands) room
            e self.old self.new) }
    {
        match (self.int(2), self.int(0)) {
            (Some(x), Some(y)) => {
                if y == 0 {
                    return Ok(Ending::Fails(Exception::Arithmetic));
                }
                self.put_int(4, divided(op, x, y))?;
                Ok(Ending::Fine)
            }
            (None, _) => Ok(Ending::Wrong),
            (_, None) => Ok(Ending::Wrong),
        }
    }

    /// ineg.
    pub(crate) fn negate_int(&mut self) -> Result<Ending, NoMemory>
        ensures { IfOk result (λ e. (operands : List ℤ) (room : ℕ) → Does (calculation_of NegateInt operands) room e
            self.old self.new) }
    {
        match self.int(0) {
            Some(x) => {
                self.put_int(2, negation_of(x))?;
                Ok(Ending::Fine)
            }
            None => Ok(Ending::Wrong),
        }
    }

    /// s2i.
    pub(crate) fn widen(&mut self, room: usize) -> Result<Ending, NoMemory>
        ensures { IfOk result (λ e. (operands : List ℤ) → Does (calculation_of WordToInt operands) room e self.old
            self.new) }
    {
        match self.number(0) {
            Some(x) if self.height() < room => {
                self.put_int(1, x)?;
                Ok(Ending::Fine)
            }
            Some(_) => Ok(Ending::Wrong),
            None => Ok(Ending::Wrong),
        }
    }

    /// i2b.
    pub(crate) fn int_to_byte(&mut self) -> Result<Ending, NoMemory>
        ensures { IfOk result (λ e. (operands : List ℤ) (room : ℕ) → Does (calculation_of IntToByte operands) room e
            self.old self.new) }
    {
        match self.int(0) {
            Some(x) => {
                self.put(2, Value::Num(low_byte(x)))?;
                Ok(Ending::Fine)
            }
            None => Ok(Ending::Wrong),
        }
    }

    /// i2s.
    pub(crate) fn int_to_word(&mut self) -> Result<Ending, NoMemory>
        ensures { IfOk result (λ e. (operands : List ℤ) (room : ℕ) → Does (calculation_of IntToWord operands) room e
            self.old self.new) }
    {
        match self.int(0) {
            Some(x) => {
                self.put(2, Value::Num(low_word(x)))?;
                Ok(Ending::Fine)
            }
            None => Ok(Ending::Wrong),
        }
    }

    /// icmp.
    pub(crate) fn compare(&mut self) -> Result<Ending, NoMemory>
        ensures { IfOk result (λ e. (operands : List ℤ) (room : ℕ) → Does (calculation_of CompareInts operands) room e
            self.old self.new) }
    {
        match (self.int(2), self.int(0)) {
            (Some(x), Some(y)) => {
                self.put(4, Value::Num(compared(x, y)))?;
                Ok(Ending::Fine)
            }
            (None, _) => Ok(Ending::Wrong),
            (_, None) => Ok(Ending::Wrong),
        }
    }
}
