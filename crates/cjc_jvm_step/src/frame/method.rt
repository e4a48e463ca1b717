//! A method as the machine by name runs it: its class, name and descriptor, its limits, its instructions with
//! their index by offset, and its handlers, all lent.

ghost use Rattle.std.specs.Prelude.{◌≡◌, ◌<◌, ◌^◌, length};
ghost use Rattle.cjc_jvm_semantics.specs.Effects.{place};

use cjc_jvm_semantics::bytecode::JInsn;
use cjc_jvm_semantics::classfile::Catch;
use std::marker::Model;

/// A method of a class file.
#[derive(Drop)]
pub struct Method<'a> {
    /// The class that declares it, its name and its descriptor.
    pub class: &'a [u8],
    pub name: &'a [u8],
    pub desc: &'a [u8],
    /// Whether it has no code.
    pub is_abstract: bool,
    pub max_stack: u16,
    pub max_locals: u16,
    pub insns: &'a [JInsn],
    /// By each offset the place of the instruction there.
    pub places: &'a [u32],
    pub catches: &'a [Catch],
}

impl<'a> Model for Method<'a> {
    ghost use Rattle.std.specs.Prelude.{◌<◌, ◌^◌, length};
    ghost use Rattle.cjc_jvm_semantics.specs.Linked.{Method as Runnable};
    ghost use Rattle.cjc_jvm_step.specs.Frame.Places.{IsIndex};

    ghost Value = { Runnable };

    ghost view = { λ m. record {
      id = record { class = m.class.now; name = m.name.now; desc = m.desc.now };
      is_abstract = m.is_abstract;
      max_stack = m.max_stack;
      max_locals = m.max_locals;
      insns = m.insns.now;
      catches =
          m.catches.now;
    } };

    ghost invariant = { λ m. IsIndex m.insns.now m.places.now × (length m.insns.now < 2 ^ 32) };
}

impl<'a> Method<'a> {
    /// How many operands the stack may have.
    pub fn max_stack(&self) -> usize
        ensures { result ≡ self.now.max_stack }
    {
        self.max_stack as usize
    }

    /// Its instructions are counted by 32 bits.
    pub fn count(&self)
        ensures { length self.now.insns < 2 ^ 32 }
    {
        let _insns = self.insns;
    }

    /// The place of the instruction at an offset, or the place behind the last where none stands there.
    pub fn place(&self, offset: u32) -> u32
        ensures { result ≡ place self.now.insns offset }
    {
        match self.places.get(offset as usize) {
            Some(place) => *place,
            None => self.insns.len() as u32,
        }
    }
}
