//! ireturn, areturn, return and athrow (Java Virtual Machine Specification, 6.5).

ghost use Rattle.std.specs.Prelude.{◌≡◌};
ghost use Rattle.cjc_jvm_semantics.specs.LowerBytecode.Jvm as jvm;
ghost use Rattle.cjc_jvm_semantics.specs.Effects.{one_value, at_return, on_throw};
ghost use Rattle.cjc_jvm_step.specs.Frame.Deeds.{Follows};

use crate::frame::activation::{Activation, is_kind};
use crate::frame::deed::{Deed, Exception};
use cjc_jvm_semantics::bytecode::jvm;
use cjc_script::Value;

impl<'a> Activation<'a> {
    // A reference is returned.
    fn leave_with_reference(&self) -> Deed<'a>
        ensures { Follows (λ l m at locals store. at_return l m at locals store jvm.areturn) result self.now self.now }
    {
        match self.value() {
            Some(value) if is_kind(true, value) => Deed::Leave(Some(value)),
            Some(_) => Deed::Stick,
            None => Deed::Stick,
        }
    }

    /// ireturn, areturn, return, by opcode.
    pub fn leave(&self, op: u8) -> Deed<'a>
        ensures { Follows (λ l m at locals store. at_return l m at locals store op) result self.now self.now }
    {
        match op {
            jvm::IRETURN => match self.number() {
                Some(x) => Deed::Leave(Some(Value::Num(x))),
                None => Deed::Stick,
            },
            jvm::ARETURN => self.leave_with_reference(),
            jvm::RETURN => Deed::Leave(None),
            _ => Deed::Stick,
        }
    }

    /// athrow.
    pub fn throw(&self) -> Deed<'a>
        ensures { Follows (λ l m at locals store stack. one_value stack (λ v rest. on_throw l m at locals store v))
            result self.now self.now }
    {
        match self.value() {
            Some(Value::Null) => Deed::Raise(Exception::NullPointer),
            Some(Value::Obj(k)) => Deed::Toss(k),
            Some(Value::Num(_)) => Deed::Stick,
            None => Deed::Stick,
        }
    }
}
