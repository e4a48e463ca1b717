//! A method under way, and what its instructions read and write of it. Called by the rows of the instructions.

ghost use Rattle.std.specs.Prelude.{◌≡◌, ◌<◌, ◌≤◌, ◌+◌, ◌∷◌, ℤ, List, length, drop, slice_get, slice_set, Some};
ghost use Rattle.std.specs.Prelude.{MatchOption, OnOk, if◌then◌else◌};
ghost use Rattle.cjc_script.specs.declared.value.Value.{Value};
ghost use Rattle.cjc_script.specs.declared.value.Value.TheVariants.{Num};
ghost use Rattle.cjc_jvm_semantics.specs.Effects;
ghost use Rattle.cjc_jvm_semantics.specs.Effects.{Effect, one_value, one_number, two_numbers, is_kind, is_same_kind};
ghost use Rattle.cjc_jvm_semantics.specs.Effects.{place};

use crate::frame::method::Method;
use crate::frame::pile::Pile;
use cjc_script::Value;
use cjc_script::bytes::NoMemory;
use std::marker::Model;

/// A frame: the method, which has fewer than 2^32 instructions, the place of the one that is next or under way,
/// operands and locals.
#[derive(Drop)]
pub struct Activation<'a> {
    pub(crate) method: &'a Method<'a>,
    pub(crate) at: u32,
    pub(crate) stack: Pile<Value>,
    pub(crate) locals: Vec<Option<Value>>,
}

impl<'a> Model for Activation<'a> {
    ghost use Rattle.std.specs.Prelude.{◌<◌, ◌^◌, length};
    ghost use Rattle.cjc_jvm_semantics.specs.Machine.{Frame};

    ghost Value = { Frame };

    ghost view = { λ f. record { method = f.method.now; at = f.at; stack = f.stack; locals = f.locals.items } };

    ghost invariant = { λ f. length f.method.now.insns < 2 ^ 32 };
}

/// Whether a value is a reference, or a number.
pub fn is_kind(refs: bool, value: Value) -> bool
    ensures { result ≡ is_kind refs value }
{
    match value {
        Value::Num(_) => !refs,
        Value::Null => refs,
        Value::Obj(_) => refs,
    }
}

/// Whether both values are numbers, or both are references.
pub fn is_same_kind(a: Value, b: Value) -> bool
    ensures { result ≡ is_same_kind a b }
{
    match a {
        Value::Num(_) => is_kind(false, b),
        Value::Null => is_kind(true, b),
        Value::Obj(_) => is_kind(true, b),
    }
}

impl<'a> Activation<'a> {
    /// The value on top of the stack.
    pub fn value(&self) -> Option<Value>
        ensures { MatchOption result
            ((go : Value → List Value → Effect) → one_value self.now.stack go ≡ Effects.Stick)
            (λ v. self.now.stack ≡ v ∷ drop 1 self.now.stack) }
    {
        self.stack.peek(0)
    }

    /// The number on top of the stack.
    pub fn number(&self) -> Option<i32>
        ensures { MatchOption result
            ((go : ℤ → List Value → Effect) → one_number self.now.stack go ≡ Effects.Stick)
            (λ x. self.now.stack ≡ Num x ∷ drop 1 self.now.stack) }
    {
        match self.stack.peek(0) {
            Some(Value::Num(x)) => Some(x),
            _ => None,
        }
    }

    /// The two numbers on top of the stack, the upper one last.
    pub fn two_numbers(&self) -> Option<(i32, i32)>
        ensures { MatchOption result
            ((go : ℤ → ℤ → List Value → Effect) → two_numbers self.now.stack go ≡ Effects.Stick)
            (λ p. self.now.stack ≡ Num p.1 ∷ Num p.0 ∷ drop 2 self.now.stack) }
    {
        match (self.stack.peek(0), self.stack.peek(1)) {
            (Some(Value::Num(y)), Some(Value::Num(x))) => Some((x, y)),
            _ => None,
        }
    }

    /// The two values on top of the stack, the upper one last.
    pub fn two_values(&self) -> Option<(Value, Value)>
        ensures { MatchOption result
            ((go : Value → Value → List Value → Effect) → one_value self.now.stack (λ b below. one_value below (go b))
            ≡ Effects.Stick)
            (λ p. self.now.stack ≡ p.1 ∷ p.0 ∷ drop 2 self.now.stack) }
    {
        match (self.stack.peek(0), self.stack.peek(1)) {
            (Some(b), Some(a)) => Some((a, b)),
            _ => None,
        }
    }

    /// A number on top of a value.
    pub fn value_and_number(&self) -> Option<(Value, i32)>
        ensures { MatchOption result
            ((go : ℤ → Value → List Value → Effect) → one_number self.now.stack (λ i below. one_value below (go i))
            ≡ Effects.Stick)
            (λ p. self.now.stack ≡ Num p.1 ∷ p.0 ∷ drop 2 self.now.stack) }
    {
        match (self.stack.peek(0), self.stack.peek(1)) {
            (Some(Value::Num(i)), Some(r)) => Some((r, i)),
            _ => None,
        }
    }

    /// A value on top of a number on top of a value, the lowest first.
    pub fn value_number_value(&self) -> Option<(Value, i32, Value)>
        ensures { MatchOption result
            ((go : Value → ℤ → Value → List Value → Effect)
            → one_value self.now.stack (λ v under. one_number under (λ i below. one_value below (go v i)))
            ≡ Effects.Stick)
            (λ p. self.now.stack ≡ p.2 ∷ Num p.1 ∷ p.0 ∷ drop 3 self.now.stack) }
    {
        match (self.stack.peek(0), self.stack.peek(1), self.stack.peek(2)) {
            (Some(v), Some(Value::Num(i)), Some(r)) => Some((r, i, v)),
            _ => None,
        }
    }

    /// How many operands there are.
    pub fn height(&self) -> usize
        ensures { result ≡ length self.now.stack }
    {
        self.stack.len()
    }

    /// How many operands there may be.
    pub fn max_stack(&self) -> usize
        ensures { result ≡ self.now.method.max_stack }
    {
        self.method.max_stack()
    }

    /// The place of the instruction that is next or under way.
    pub fn at(&self) -> u32
        ensures { result ≡ self.now.at }
    {
        self.at
    }

    /// Goes on at the next instruction, with some operands taken off.
    pub fn pass(&mut self, taken: usize)
        requires room { taken ≤ length self.old.stack }
        requires inside { self.old.at < length self.old.method.insns }
        ensures { self.new ≡ record self.old { at = self.old.at + 1; stack = drop taken self.old.stack } }
    {
        self.stack.forget(taken);
        self.at += 1;
    }

    /// Goes on at the next instruction, with a value in place of some operands.
    pub fn put(&mut self, taken: usize, value: Value) -> Result<(), NoMemory>
        requires room { taken ≤ length self.old.stack }
        requires inside { self.old.at < length self.old.method.insns }
        ensures { OnOk result (self.new ≡ record self.old {
          at = self.old.at + 1;
          stack = value ∷ drop taken self.old.stack;
        }) }
    {
        self.stack.forget(taken);
        self.stack.push(value)?;
        self.at += 1;
        Ok(())
    }

    /// Goes on at an offset or at the next instruction, with some operands taken off.
    pub fn jump_if(&mut self, holds: bool, taken: usize, target: u32)
        requires room { taken ≤ length self.old.stack }
        requires inside { self.old.at < length self.old.method.insns }
        ensures { self.new ≡ record self.old {
          at = (if holds then place self.old.method.insns target
              else self.old.at + 1);
          stack = drop taken self.old.stack;
        } }
    {
        self.stack.forget(taken);
        if holds {
            self.at = self.method.place(target);
        } else {
            self.at += 1;
        }
    }
}
