//! Arithmetic, shifts and logic on int, i2b and i2s (Java Virtual Machine Specification, 6.5).

ghost use Rattle.std.specs.Prelude.{◌≡◌, ◌<◌, length, IfOk};
ghost use Rattle.cjc_jvm_semantics.specs.LowerBytecode.Jvm as jvm;
ghost use Rattle.cjc_jvm_semantics.specs.Arithmetic.{operation};
ghost use Rattle.cjc_jvm_semantics.specs.Effects.{after_operation, after_arithmetic, after_narrowing};
ghost use Rattle.cjc_jvm_step.specs.Frame.Deeds.{Follows};

use crate::frame::activation::Activation;
use crate::frame::calculation::{Calculation, calculate};
use crate::frame::deed::{Deed, Exception};
use crate::frame::number::{byte_of, negation_of, short_of};
use cjc_jvm_semantics::bytecode::jvm;
use cjc_script::Value;
use cjc_script::bytes::NoMemory;

impl<'a> Activation<'a> {
    // An instruction of two numbers.
    fn operate(&mut self, op: u8) -> Result<Deed<'a>, NoMemory>
        requires { self.old.at < length self.old.method.insns }
        ensures { IfOk result (λ deed. Follows (λ l m at locals store. after_operation l m at locals store
            (operation op)) deed self.old self.new) }
    {
        let Some((x, y)) = self.two_numbers() else {
            return Ok(Deed::Stick);
        };
        match calculate(op, x, y) {
            Calculation::Number(z) => {
                self.put(2, Value::Num(z))?;
                Ok(Deed::Go)
            }
            Calculation::ByZero => Ok(Deed::Raise(Exception::Arithmetic)),
            Calculation::Nothing => Ok(Deed::Stick),
        }
    }

    // ineg.
    fn negate(&mut self) -> Result<Deed<'a>, NoMemory>
        requires { self.old.at < length self.old.method.insns }
        ensures { IfOk result (λ deed. Follows (λ l m at locals store. after_arithmetic l m at locals store jvm.ineg)
            deed self.old self.new) }
    {
        match self.number() {
            Some(x) => {
                self.put(1, Value::Num(negation_of(x)))?;
                Ok(Deed::Go)
            }
            None => Ok(Deed::Stick),
        }
    }

    /// iadd, isub, imul, idiv, irem, ineg, ishl, ishr, iushr, iand, ior, ixor, by opcode.
    pub fn calculate(&mut self, op: u8) -> Result<Deed<'a>, NoMemory>
        requires { self.old.at < length self.old.method.insns }
        ensures { IfOk result (λ deed. Follows (λ l m at locals store. after_arithmetic l m at locals store op) deed
            self.old self.new) }
    {
        if op == jvm::INEG {
            return Ok(self.negate()?);
        }
        Ok(self.operate(op)?)
    }

    /// i2b, i2s, by opcode.
    pub fn narrow(&mut self, op: u8) -> Result<Deed<'a>, NoMemory>
        requires { self.old.at < length self.old.method.insns }
        ensures { IfOk result (λ deed. Follows (λ l m at locals store. after_narrowing l m at locals store op) deed
            self.old self.new) }
    {
        match (op, self.number()) {
            (jvm::I2B, Some(x)) => {
                self.put(1, Value::Num(byte_of(x)))?;
                Ok(Deed::Go)
            }
            (jvm::I2S, Some(x)) => {
                self.put(1, Value::Num(short_of(x)))?;
                Ok(Deed::Go)
            }
            _ => Ok(Deed::Stick),
        }
    }
}
