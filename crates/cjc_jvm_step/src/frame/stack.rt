//! Operands that change places: pop to swap (Java Virtual Machine Specification, 6.5).

ghost use Rattle.std.specs.Prelude.{◌≡◌, ◌<◌, ◌≤◌, ◌+◌, ◌++◌, ◌∷◌, [], length, take, drop, IfOk, OnOk};
ghost use Rattle.cjc_jvm_semantics.specs.Effects.{after_pop, after_copy, after_swap, after_stack};
ghost use Rattle.cjc_jvm_step.specs.Frame.Deeds.{Follows};

use crate::frame::activation::Activation;
use crate::frame::deed::Deed;
use cjc_jvm_semantics::bytecode::jvm;
use cjc_script::Value;
use cjc_script::bytes::NoMemory;

impl<'a> Activation<'a> {
    // Operands leave.
    fn pop(&mut self, count: usize) -> Deed<'a>
        requires { self.old.at < length self.old.method.insns }
        ensures { Follows (λ l m at locals store. after_pop l m at locals store count) result self.old self.new }
    {
        if count <= self.height() {
            self.pass(count);
            Deed::Go
        } else {
            Deed::Stick
        }
    }

    // A value is put below the top `below`.
    fn put_below(&mut self, below: usize, value: Value) -> Result<(), NoMemory>
        requires { below ≤ length self.old.stack }
        ensures { OnOk result (self.new ≡ record self.old {
          stack = take below self.old.stack
              ++ value ∷ drop below self.old.stack;
        }) }
    {
        self.stack.put_under(below, value)?;
        Ok(())
    }

    // dup, dup_x1, dup_x2.
    fn copy_one(&mut self, below: usize) -> Result<Deed<'a>, NoMemory>
        requires some { 1 ≤ below }
        requires inside { self.old.at < length self.old.method.insns }
        ensures { IfOk result (λ deed. Follows (λ l m at locals store. after_copy l m at locals store 1 below) deed
            self.old self.new) }
    {
        let height = self.height();
        if height < below || height >= self.max_stack() {
            return Ok(Deed::Stick);
        }
        let Some(value) = self.stack.peek(0) else {
            return Ok(Deed::Stick);
        };
        self.put_below(below, value)?;
        self.pass(0);
        Ok(Deed::Go)
    }

    // dup2, dup2_x1, dup2_x2.
    fn copy_two(&mut self, below: usize) -> Result<Deed<'a>, NoMemory>
        requires some { 2 ≤ below }
        requires inside { self.old.at < length self.old.method.insns }
        ensures { IfOk result (λ deed. Follows (λ l m at locals store. after_copy l m at locals store 2 below) deed
            self.old self.new) }
    {
        let height = self.height();
        if height < below || self.max_stack() < 2 || height > self.max_stack() - 2 {
            return Ok(Deed::Stick);
        }
        let (Some(top), Some(second)) = (self.stack.peek(0), self.stack.peek(1)) else {
            return Ok(Deed::Stick);
        };
        self.put_below(below, second)?;
        self.put_below(below, top)?;
        self.pass(0);
        Ok(Deed::Go)
    }

    // swap.
    fn swap(&mut self) -> Result<Deed<'a>, NoMemory>
        requires { self.old.at < length self.old.method.insns }
        ensures { IfOk result (λ deed. Follows (λ l m at locals store. after_swap l m at locals store) deed self.old
            self.new) }
    {
        match self.two_values() {
            Some((second, top)) => {
                self.stack.forget(2);
                self.stack.push(top)?;
                self.put(0, second)?;
                Ok(Deed::Go)
            }
            None => Ok(Deed::Stick),
        }
    }

    /// pop, pop2, dup, dup_x1, dup_x2, dup2, dup2_x1, dup2_x2, swap, by opcode.
    pub fn arrange(&mut self, op: u8) -> Result<Deed<'a>, NoMemory>
        requires { self.old.at < length self.old.method.insns }
        ensures { IfOk result (λ deed. Follows (λ l m at locals store. after_stack l m at locals store op) deed self.old
            self.new) }
    {
        match op {
            jvm::POP => Ok(self.pop(1)),
            jvm::POP2 => Ok(self.pop(2)),
            jvm::DUP => self.copy_one(1),
            jvm::DUP_X1 => self.copy_one(2),
            jvm::DUP_X2 => self.copy_one(3),
            jvm::DUP2 => self.copy_two(2),
            jvm::DUP2_X1 => self.copy_two(3),
            jvm::DUP2_X2 => self.copy_two(4),
            jvm::SWAP => self.swap(),
            _ => Ok(Deed::Stick),
        }
    }
}
