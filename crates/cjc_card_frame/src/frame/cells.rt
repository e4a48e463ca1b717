//! The words of a frame: what instructions read and write of them. Called by the instructions.

ghost use Rattle.std.specs.Prelude.{◌≡◌, ◌<◌, ◌≤◌, ◌+◌, ◌∷◌, ◌++◌, [], length, drop, take, slice_get, slice_set};
ghost use Rattle.std.specs.Prelude.{is_some, FitsSigned, IfSome, OnOk, Some};
ghost use Rattle.std.specs.Int.{w16};
ghost use Rattle.std.specs.List.{All};
ghost use Rattle.cjc_card_semantics.specs.Bytecode.Calculations.{int_words};
ghost use Rattle.cjc_card_frame.specs.Frame.Frames.{IsLocal, IsWord, int_at, number_at, number_of, numbers_at, pair_of};

use crate::frame::words::{high_word, low_word, spelt_by};
use cjc_card_semantics::bytes::NoMemory;
use cjc_card_semantics::script::Value;
use cjc_jvm_step::frame::Pile;
use std::alloc::Global;
use std::marker::Model;

/// An operand stack, and locals of which some may not be set. Its numbers have 16 bits.
#[derive(Drop)]
pub struct Cells {
    stack: Pile<Value>,
    locals: Vec<Option<Value>>,
}

impl Model for Cells {
    ghost use Rattle.cjc_card_frame.specs.Frame.Frames.{AreWords, Words};

    ghost Value = { Words };

    ghost view = { λ c. record { stack = c.stack; locals = c.locals.items } };

    ghost invariant = { λ c. AreWords (record { stack = c.stack; locals = c.locals.items }) };
}

/// A word as a number.
pub(crate) fn number_of(word: Option<Value>) -> Option<i32>
    ensures is { result ≡ number_of word }
    ensures fits { IfSome word IsWord → IfSome result (λ x. FitsSigned w16 x) }
{
    match word {
        Some(Value::Num(x)) => Some(x),
        Some(Value::Null) => None,
        Some(Value::Obj(_)) => None,
        None => None,
    }
}

/// Two numbers, where both are.
pub(crate) fn pair_of(lower: Option<i32>, upper: Option<i32>) -> Option<(i32, i32)>
    ensures { result ≡ pair_of lower upper }
{
    match (lower, upper) {
        (Some(x), Some(y)) => Some((x, y)),
        (Some(_), None) => None,
        (None, _) => None,
    }
}

impl Cells {
    /// A frame with these locals and no operands.
    pub fn new(alloc: Global, locals: Vec<Option<Value>>) -> Cells
        requires { All IsLocal locals.items }
        ensures { result ≡ record { stack = []; locals = locals.items } }
    {
        Cells {
            stack: Pile::new(alloc),
            locals,
        }
    }

    /// How many words the stack has.
    pub fn height(&self) -> usize
        ensures { result ≡ length self.now.stack }
    {
        self.stack.len()
    }

    /// The word at a depth of the stack, 0 for the top.
    pub fn word(&self, depth: usize) -> Option<Value>
        ensures is { result ≡ slice_get self.now.stack depth }
        ensures fits { IfSome result IsWord }
    {
        self.stack.peek(depth)
    }

    /// The number at a depth.
    pub fn number(&self, depth: usize) -> Option<i32>
        ensures is { result ≡ number_at depth self.now.stack }
        ensures fits { IfSome result (λ x. FitsSigned w16 x) }
    {
        number_of(self.word(depth))
    }

    /// The two numbers from a depth on, the upper one second.
    pub fn numbers(&self, depth: usize) -> Option<(i32, i32)>
        requires { depth ≤ 2 }
        ensures is { result ≡ numbers_at depth self.now.stack }
        ensures first { IfSome result (λ p. FitsSigned w16 p.0) }
        ensures second { IfSome result (λ p. FitsSigned w16 p.1) }
    {
        pair_of(self.number(depth + 1), self.number(depth))
    }

    /// The int from a depth on.
    pub fn int(&self, depth: usize) -> Option<i32>
        requires { depth ≤ 2 }
        ensures { result ≡ int_at depth self.now.stack }
    {
        match self.numbers(depth) {
            Some((high, low)) => Some(spelt_by(high, low)),
            None => None,
        }
    }

    /// Takes so many words off the stack.
    pub fn forget(&mut self, count: usize)
        requires { count ≤ length self.old.stack }
        ensures { self.new ≡ record self.old { stack = drop count self.old.stack } }
    {
        self.stack.forget(count);
    }

    /// Puts a word on top of the stack.
    fn add(&mut self, word: Value) -> Result<(), NoMemory>
        requires { IsWord word }
        ensures { OnOk result (self.new ≡ record self.old { stack = word ∷ self.old.stack }) }
    {
        if let Err(stop) = self.stack.push(word) {
            // What stands there then is not known.
            let height = self.stack.len();
            self.stack.forget(height);
            return Err(stop);
        }
        Ok(())
    }

    /// Puts a word in the place of so many on top of the stack.
    pub fn put(&mut self, count: usize, word: Value) -> Result<(), NoMemory>
        requires height { count ≤ length self.old.stack }
        requires fits { IsWord word }
        ensures { OnOk result (self.new ≡ record self.old { stack = word ∷ drop count self.old.stack }) }
    {
        self.forget(count);
        self.add(word)?;
        Ok(())
    }

    /// Puts an int in the place of so many words on top of the stack.
    pub fn put_int(&mut self, count: usize, number: i32) -> Result<(), NoMemory>
        requires { count ≤ length self.old.stack }
        ensures { OnOk result (self.new ≡ record self.old { stack = int_words number ++ drop count self.old.stack }) }
    {
        self.put(count, Value::Num(high_word(number)))?;
        self.add(Value::Num(low_word(number)))?;
        Ok(())
    }

    /// Puts a word below the top `depth`.
    pub fn put_under(&mut self, depth: usize, word: Value) -> Result<(), NoMemory>
        requires height { depth ≤ length self.old.stack }
        requires fits { IsWord word }
        ensures { OnOk result (self.new ≡ record self.old {
          stack = take depth self.old.stack
              ++ word ∷ drop depth self.old.stack;
        }) }
    {
        if let Err(stop) = self.stack.put_under(depth, word) {
            // What stands there then is not known.
            let height = self.stack.len();
            self.stack.forget(height);
            return Err(stop);
        }
        Ok(())
    }

    /// What a local holds, where it is there and where it is set.
    pub fn local(&self, local: usize) -> Option<Option<Value>>
        ensures is { result ≡ slice_get self.now.locals local }
        ensures fits { IfSome result IsLocal }
    {
        self.locals.get(local).copied()
    }

    /// Whether there is a local of this number.
    pub fn has_local(&self, local: usize) -> bool
        ensures { result ≡ is_some (slice_get self.now.locals local) }
    {
        local < self.locals.len()
    }

    /// Sets a local that is there.
    pub fn set(&mut self, local: usize, word: Value)
        requires there { local < length self.old.locals }
        requires fits { IsWord word }
        ensures { self.new ≡ record self.old { locals = slice_set self.old.locals local (Some word) } }
    {
        self.locals[local] = Some(word);
    }
}
