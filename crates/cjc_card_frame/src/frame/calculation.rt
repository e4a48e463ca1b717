//! The calculations that opcodes mean, with their operands. Called by whoever runs instructions.

ghost use Rattle.std.specs.Prelude.{◌≡◌, ◌<◌, ◌^◌, ◌∷◌, [], ℕ, ℤ, List, Option, pos, IfNone, IfOk, IfSome};
ghost use Rattle.cjc_card_semantics.specs.Script.declared.value.Value.{Value};
ghost use Rattle.cjc_card_semantics.specs.Bytecode.Calculations.{Wrong, by_nibbles, dup_x, increased, int_increased};
ghost use Rattle.cjc_card_semantics.specs.Bytecode.Calculations.{int_literal};
ghost use Rattle.cjc_card_semantics.specs.Bytecode.Calculations.{literal, numbered, swap_x};
ghost use Rattle.cjc_card_frame.specs.declared.opcodes.kinds.Calculation.TheVariants.{Literal};
ghost use Rattle.cjc_card_frame.specs.Meanings.{calculation_of, load_of, store_of};
ghost use Rattle.cjc_card_semantics.specs.CapRead.Decoder.Decoded.{values};
ghost use Rattle.cjc_card_frame.specs.Frame.Frames.{AreOperands, Does, NoLocal};

use crate::frame::cells::Cells;
use crate::frame::ending::Ending;
use crate::opcodes::{Calculation, Kind};
use cjc_card_semantics::bytes::NoMemory;
use cjc_card_semantics::capread::decoder::Operands;
use cjc_card_semantics::script::Value;

/// The number of a local, where there is one operand and it is not negative.
fn local_of(operands: Operands) -> Option<usize>
    ensures none { IfNone result (NoLocal (values operands)) }
    ensures some { IfSome result (λ l. values operands ≡ pos l ∷ []) }
    ensures small { IfSome result (λ l. l < 2 ^ 31) }
{
    match operands {
        Operands::None => None,
        Operands::One(local) => {
            if local >= 0 {
                Some(local as usize)
            } else {
                None
            }
        }
        Operands::Two(_, _) => None,
        Operands::Three(_, _, _) => None,
    }
}

/// The number of a local and what is added to it.
fn increase_of(operands: Operands) -> Option<(usize, i32)>
    ensures none { IfNone result ((room : ℕ) (locals : List (Option Value)) (stack : List Value)
        → increased (values operands) room locals stack ≡ Wrong) }
    ensures int { IfNone result ((room : ℕ) (locals : List (Option Value)) (stack : List Value)
        → int_increased (values operands) room locals stack ≡ Wrong) }
    ensures some { IfSome result (λ p. values operands ≡ pos p.0 ∷ p.1 ∷ []) }
    ensures small { IfSome result (λ p. p.0 < 2 ^ 31) }
{
    match operands {
        Operands::None => None,
        Operands::One(_) => None,
        Operands::Two(local, by) => {
            if local >= 0 {
                Some((local as usize, by))
            } else {
                None
            }
        }
        Operands::Three(_, _, _) => None,
    }
}

impl Cells {
    /// bspush and sspush.
    fn push_literal(&mut self, room: usize, operands: Operands) -> Result<Ending, NoMemory>
        requires { AreOperands Literal (values operands) }
        ensures { IfOk result (λ e. Does (literal (values operands)) room e self.old self.new) }
    {
        match operands {
            Operands::One(number) => Ok(self.push(room, Value::Num(number))?),
            Operands::None => Ok(Ending::Wrong),
            Operands::Two(_, _) => Ok(Ending::Wrong),
            Operands::Three(_, _, _) => Ok(Ending::Wrong),
        }
    }

    /// bipush, sipush and iipush.
    fn push_int_literal(&mut self, room: usize, operands: Operands) -> Result<Ending, NoMemory>
        ensures { IfOk result (λ e. Does (int_literal (values operands)) room e self.old self.new) }
    {
        match operands {
            Operands::One(number) => Ok(self.push_int(room, number)?),
            Operands::None => Ok(Ending::Wrong),
            Operands::Two(_, _) => Ok(Ending::Wrong),
            Operands::Three(_, _, _) => Ok(Ending::Wrong),
        }
    }

    /// aload, sload and iload, with their operand.
    fn load_numbered(
        &mut self,
        room: usize,
        kind: Kind,
        operands: Operands,
    ) -> Result<Ending, NoMemory>
        ensures { IfOk result (λ e. Does (numbered (load_of kind) (values operands)) room e self.old self.new) }
    {
        match local_of(operands) {
            Some(local) => Ok(self.load(room, kind, local)?),
            None => Ok(Ending::Wrong),
        }
    }

    /// astore, sstore and istore, with their operand.
    fn store_numbered(&mut self, kind: Kind, operands: Operands) -> Ending
        ensures { (room : ℕ) → Does (numbered (store_of kind) (values operands)) room result self.old self.new }
    {
        match local_of(operands) {
            Some(local) => self.store(kind, local),
            None => Ending::Wrong,
        }
    }

    /// sinc.
    fn increase_by(&mut self, operands: Operands) -> Ending
        ensures { (room : ℕ) → Does (increased (values operands)) room result self.old self.new }
    {
        match increase_of(operands) {
            Some((local, by)) => self.increase(local, by),
            None => Ending::Wrong,
        }
    }

    /// iinc.
    fn increase_int_by(&mut self, operands: Operands) -> Ending
        ensures { (room : ℕ) → Does (int_increased (values operands)) room result self.old self.new }
    {
        match increase_of(operands) {
            Some((local, by)) => self.increase_int(local, by),
            None => Ending::Wrong,
        }
    }

    /// dup_x, of which one byte gives both numbers.
    fn copy_by(&mut self, room: usize, operands: Operands) -> Result<Ending, NoMemory>
        ensures { IfOk result (λ e. Does (by_nibbles dup_x (values operands)) room e self.old self.new) }
    {
        match local_of(operands) {
            Some(nibbles) => Ok(self.dup_x(room, nibbles / 16, nibbles % 16)?),
            None => Ok(Ending::Wrong),
        }
    }

    /// swap_x, of which one byte gives both numbers.
    fn swap_by(&mut self, operands: Operands) -> Result<Ending, NoMemory>
        ensures { IfOk result (λ e. (room : ℕ) → Does (by_nibbles swap_x (values operands)) room e self.old self.new) }
    {
        match local_of(operands) {
            Some(nibbles) => Ok(self.swap_x(nibbles / 16, nibbles % 16)?),
            None => Ok(Ending::Wrong),
        }
    }

    /// Makes a calculation, where the stack may have so many words.
    pub fn calculate(
        &mut self,
        room: usize,
        calculation: Calculation,
        operands: Operands,
    ) -> Result<Ending, NoMemory>
        requires { AreOperands calculation (values operands) }
        ensures { IfOk result (λ e. Does (calculation_of calculation (values operands)) room e self.old self.new) }
    {
        match calculation {
            Calculation::Nothing => Ok(Ending::Fine),
            Calculation::Null => Ok(self.push(room, Value::Null)?),
            Calculation::Word(z) => Ok(self.push(room, Value::Num(i32::from(z)))?),
            Calculation::Int(z) => Ok(self.push_int(room, i32::from(z))?),
            Calculation::Literal => Ok(self.push_literal(room, operands)?),
            Calculation::IntLiteral => Ok(self.push_int_literal(room, operands)?),
            Calculation::Load(kind) => Ok(self.load_numbered(room, kind, operands)?),
            Calculation::LoadAt(kind, local) => Ok(self.load(room, kind, usize::from(local))?),
            Calculation::Store(kind) => Ok(self.store_numbered(kind, operands)),
            Calculation::StoreAt(kind, local) => Ok(self.store(kind, usize::from(local))),
            Calculation::Increase => Ok(self.increase_by(operands)),
            Calculation::IncreaseInt => Ok(self.increase_int_by(operands)),
            Calculation::Pop(count) => Ok(self.pop(usize::from(count))),
            Calculation::Copy(count) => {
                Ok(self.copy(room, usize::from(count), usize::from(count))?)
            }
            Calculation::CopyBelow => Ok(self.copy_by(room, operands)?),
            Calculation::Swap => Ok(self.swap_by(operands)?),
            Calculation::Words(op) => Ok(self.operate(op)?),
            Calculation::Ints(op) => Ok(self.operate_ints(op)?),
            Calculation::DivideWords(op) => Ok(self.divide(op)?),
            Calculation::DivideInts(op) => Ok(self.divide_ints(op)?),
            Calculation::NegateWord => Ok(self.negate()?),
            Calculation::NegateInt => Ok(self.negate_int()?),
            Calculation::WordToByte => Ok(self.keep_byte()?),
            Calculation::WordToInt => Ok(self.widen(room)?),
            Calculation::IntToByte => Ok(self.int_to_byte()?),
            Calculation::IntToWord => Ok(self.int_to_word()?),
            Calculation::CompareInts => Ok(self.compare()?),
        }
    }
}
