//! Constants and locals: nop, aconst_null, the constants of int, iload, aload, istore, astore and iinc (Java Virtual
//! Machine Specification, 6.5).

ghost use Rattle.std.specs.Prelude.{◌≡◌, ◌<◌, ◌≤◌, ◌+◌, length, drop, slice_get, slice_set, Some, IfOk};
ghost use Rattle.cjc_jvm_semantics.specs.Effects.{onward, push, after_load, after_store, after_increase, local_value};
ghost use Rattle.cjc_jvm_step.specs.Frame.Deeds.{Follows};

use crate::frame::activation::{Activation, is_kind};
use crate::frame::deed::Deed;
use crate::frame::number::sum_of;
use cjc_script::Value;
use cjc_script::bytes::NoMemory;

impl<'a> Activation<'a> {
    /// What a local holds, if it is set.
    pub fn local(&self, local: u16) -> Option<Option<Value>>
        ensures { result ≡ slice_get self.now.locals local }
    {
        self.locals.get(local as usize).copied()
    }

    /// Sets a local, and goes on at the next instruction with an operand taken off if it came from there.
    fn keep(&mut self, taken: usize, local: u16, value: Value)
        requires room { taken ≤ length self.old.stack }
        requires there { local < length self.old.locals }
        requires inside { self.old.at < length self.old.method.insns }
        ensures { self.new ≡ record self.old {
          at = self.old.at + 1;
          stack = drop taken self.old.stack;
          locals = slice_set self.old.locals local (Some value);
        } }
    {
        self.locals[local as usize] = Some(value);
        self.pass(taken);
    }

    /// nop.
    pub fn do_nothing(&mut self) -> Deed<'a>
        requires { self.old.at < length self.old.method.insns }
        ensures { Follows (λ l m at locals store. onward l m at locals store) result self.old self.new }
    {
        self.pass(0);
        Deed::Go
    }

    /// A value more, where the stack has room: aconst_null, and the constants of int.
    pub fn push(&mut self, value: Value) -> Result<Deed<'a>, NoMemory>
        requires { self.old.at < length self.old.method.insns }
        ensures { IfOk result (λ deed. Follows (λ l m at locals store. push l m at locals store value) deed self.old
            self.new) }
    {
        if self.height() < self.max_stack() {
            self.put(0, value)?;
            Ok(Deed::Go)
        } else {
            Ok(Deed::Stick)
        }
    }

    /// iload, aload.
    pub fn load(&mut self, refs: bool, local: u16) -> Result<Deed<'a>, NoMemory>
        requires { self.old.at < length self.old.method.insns }
        ensures { IfOk result (λ deed. Follows (λ l m at locals store. after_load l m at locals store refs local) deed
            self.old self.new) }
    {
        match self.local(local) {
            Some(Some(value)) if is_kind(refs, value) => self.push(value),
            _ => Ok(Deed::Stick),
        }
    }

    /// istore, astore.
    pub fn store(&mut self, refs: bool, local: u16) -> Deed<'a>
        requires { self.old.at < length self.old.method.insns }
        ensures { Follows (λ l m at locals store. after_store l m at locals store refs local) result self.old self.new }
    {
        match self.value() {
            Some(value) if is_kind(refs, value) && (local as usize) < self.locals.len() => {
                self.keep(1, local, value);
                Deed::Go
            }
            Some(_) => Deed::Stick,
            None => Deed::Stick,
        }
    }

    /// iinc.
    pub fn increase(&mut self, local: u16, by: i16) -> Deed<'a>
        requires { self.old.at < length self.old.method.insns }
        ensures { Follows (λ l m at locals store stack. local_value (slice_get locals local) (λ v. after_increase l m at
            locals store local by v stack)) result self.old self.new }
    {
        match self.local(local) {
            Some(Some(Value::Num(x))) => {
                self.keep(0, local, Value::Num(sum_of(x, i32::from(by))));
                Deed::Go
            }
            Some(Some(Value::Null)) => Deed::Stick,
            Some(Some(Value::Obj(_))) => Deed::Stick,
            Some(None) => Deed::Stick,
            None => Deed::Stick,
        }
    }
}
