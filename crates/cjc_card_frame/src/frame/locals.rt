//! Constants and locals on words of 16 bits: sconst_m1 to iipush, loads and stores, sinc and iinc. An int takes
//! two words.

ghost use Rattle.std.specs.Prelude.{◌≡◌, ◌<◌, ◌+◌, ◌^◌, ◌∷◌, [], ℕ, pos, slice_get, FitsSigned, IfOk, IfSome};
ghost use Rattle.std.specs.Int.{w16};
ghost use Rattle.cjc_card_semantics.specs.Bytecode.Calculations.{increased, int_increased, int_words, is_number};
ghost use Rattle.cjc_card_semantics.specs.Bytecode.Calculations.{is_reference};
ghost use Rattle.cjc_card_semantics.specs.Bytecode.Calculations.{load_int, load_reference, load_word, pushed, store_if};
ghost use Rattle.cjc_card_semantics.specs.Bytecode.Calculations.{store_int};
ghost use Rattle.cjc_card_frame.specs.Meanings.{load_of, store_of};
ghost use Rattle.cjc_card_frame.specs.Frame.Frames.{Does, IsWord, number_of, pair_of, set_in};

use crate::frame::cells::{Cells, number_of, pair_of};
use crate::frame::ending::Ending;
use crate::frame::words::{increased, low_word, spelt_by};
use crate::opcodes::Kind;
use cjc_card_semantics::bytes::NoMemory;
use cjc_card_semantics::script::Value;
use cjc_jvm_step::frame::number::sum_of;

/// Whether a word is a reference.
pub fn is_reference(word: Value) -> bool
    ensures { result ≡ is_reference word }
{
    match word {
        Value::Num(_) => false,
        Value::Null => true,
        Value::Obj(_) => true,
    }
}

/// Whether a word is a number.
pub fn is_number(word: Value) -> bool
    ensures { result ≡ is_number word }
{
    match word {
        Value::Num(_) => true,
        Value::Null => false,
        Value::Obj(_) => false,
    }
}

impl Cells {
    /// A word more.
    pub fn push(&mut self, room: usize, word: Value) -> Result<Ending, NoMemory>
        requires { IsWord word }
        ensures { IfOk result (λ e. Does (pushed (word ∷ [])) room e self.old self.new) }
    {
        if self.height() < room {
            self.put(0, word)?;
            Ok(Ending::Fine)
        } else {
            Ok(Ending::Wrong)
        }
    }

    /// An int more.
    pub fn push_int(&mut self, room: usize, number: i32) -> Result<Ending, NoMemory>
        ensures { IfOk result (λ e. Does (pushed (int_words number)) room e self.old self.new) }
    {
        if room >= 2 && self.height() <= room - 2 {
            self.put_int(0, number)?;
            Ok(Ending::Fine)
        } else {
            Ok(Ending::Wrong)
        }
    }

    /// The word in a local, where it is set.
    fn local_word(&self, local: usize) -> Option<Value>
        ensures is { result ≡ set_in (slice_get self.now.locals local) }
        ensures fits { IfSome result IsWord }
    {
        match self.local(local) {
            Some(Some(word)) => Some(word),
            Some(None) => None,
            None => None,
        }
    }

    /// aload.
    fn load_reference(&mut self, room: usize, local: usize) -> Result<Ending, NoMemory>
        ensures { IfOk result (λ e. Does (load_reference local) room e self.old self.new) }
    {
        match self.local_word(local) {
            Some(word) if is_reference(word) => Ok(self.push(room, word)?),
            Some(_) => Ok(Ending::Wrong),
            None => Ok(Ending::Wrong),
        }
    }

    /// sload.
    fn load_word(&mut self, room: usize, local: usize) -> Result<Ending, NoMemory>
        ensures { IfOk result (λ e. Does (load_word local) room e self.old self.new) }
    {
        match self.local_word(local) {
            Some(word) if is_number(word) => Ok(self.push(room, word)?),
            Some(_) => Ok(Ending::Wrong),
            None => Ok(Ending::Wrong),
        }
    }

    /// The two numbers in a local and the next.
    fn int_local(&self, local: usize) -> Option<(i32, i32)>
        requires { local < 2 ^ 32 }
        ensures is { result ≡ pair_of (number_of (set_in (slice_get self.now.locals local)))
            (number_of (set_in (slice_get self.now.locals (local + 1)))) }
        ensures first { IfSome result (λ p. FitsSigned w16 p.0) }
        ensures second { IfSome result (λ p. FitsSigned w16 p.1) }
    {
        pair_of(
            number_of(self.local_word(local)),
            number_of(self.local_word(local + 1)),
        )
    }

    /// iload.
    fn load_int(&mut self, room: usize, local: usize) -> Result<Ending, NoMemory>
        requires { local < 2 ^ 32 }
        ensures { IfOk result (λ e. Does (load_int local) room e self.old self.new) }
    {
        match self.int_local(local) {
            Some((high, low)) if room >= 2 && self.height() <= room - 2 => {
                self.put(0, Value::Num(high))?;
                self.put(0, Value::Num(low))?;
                Ok(Ending::Fine)
            }
            Some(_) => Ok(Ending::Wrong),
            None => Ok(Ending::Wrong),
        }
    }

    /// aload, sload and iload.
    pub(crate) fn load(&mut self, room: usize, kind: Kind, local: usize) -> Result<Ending, NoMemory>
        requires { local < 2 ^ 32 }
        ensures { IfOk result (λ e. Does (load_of kind local) room e self.old self.new) }
    {
        match kind {
            Kind::Reference => Ok(self.load_reference(room, local)?),
            Kind::Word => Ok(self.load_word(room, local)?),
            Kind::Int => Ok(self.load_int(room, local)?),
        }
    }

    /// astore.
    fn store_reference(&mut self, local: usize) -> Ending
        ensures { (room : ℕ) → Does (store_if is_reference local) room result self.old self.new }
    {
        match self.word(0) {
            Some(word) if is_reference(word) && self.has_local(local) => {
                self.forget(1);
                self.set(local, word);
                Ending::Fine
            }
            Some(_) => Ending::Wrong,
            None => Ending::Wrong,
        }
    }

    /// sstore.
    fn store_word(&mut self, local: usize) -> Ending
        ensures { (room : ℕ) → Does (store_if is_number local) room result self.old self.new }
    {
        match self.word(0) {
            Some(word) if is_number(word) && self.has_local(local) => {
                self.forget(1);
                self.set(local, word);
                Ending::Fine
            }
            Some(_) => Ending::Wrong,
            None => Ending::Wrong,
        }
    }

    /// istore.
    fn store_int(&mut self, local: usize) -> Ending
        requires { local < 2 ^ 32 }
        ensures { (room : ℕ) → Does (store_int local) room result self.old self.new }
    {
        match self.numbers(0) {
            Some((high, low)) if self.has_local(local + 1) => {
                self.forget(2);
                self.set(local, Value::Num(high));
                self.set(local + 1, Value::Num(low));
                Ending::Fine
            }
            Some(_) => Ending::Wrong,
            None => Ending::Wrong,
        }
    }

    /// astore, sstore and istore.
    pub(crate) fn store(&mut self, kind: Kind, local: usize) -> Ending
        requires { local < 2 ^ 32 }
        ensures { (room : ℕ) → Does (store_of kind local) room result self.old self.new }
    {
        match kind {
            Kind::Reference => self.store_reference(local),
            Kind::Word => self.store_word(local),
            Kind::Int => self.store_int(local),
        }
    }

    /// sinc.
    pub(crate) fn increase(&mut self, local: usize, by: i32) -> Ending
        ensures { (room : ℕ) → Does (increased (pos local ∷ by ∷ [])) room result self.old self.new }
    {
        match number_of(self.local_word(local)) {
            Some(x) => {
                self.set(local, Value::Num(low_word(sum_of(x, by))));
                Ending::Fine
            }
            None => Ending::Wrong,
        }
    }

    /// iinc.
    pub(crate) fn increase_int(&mut self, local: usize, by: i32) -> Ending
        requires { local < 2 ^ 32 }
        ensures { (room : ℕ) → Does (int_increased (pos local ∷ by ∷ [])) room result self.old self.new }
    {
        match self.int_local(local) {
            Some((high, low)) => {
                let (high, low) = increased(spelt_by(high, low), by);
                self.set(local, Value::Num(high));
                self.set(local + 1, Value::Num(low));
                Ending::Fine
            }
            None => Ending::Wrong,
        }
    }
}
