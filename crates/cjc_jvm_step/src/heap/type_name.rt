//! The name of an object's type, lent where a class file or the code has it, and owned where it is made, as
//! anewarray makes it.

ghost use Rattle.std.specs.Prelude.{◌≡◌};

use cjc_script::bytes::Bytes;
use std::marker::Model;

#[derive(Drop)]
enum Text<'a> {
    Told(&'a [u8]),
    Made(Bytes),
}

/// The name of a class, or the descriptor of an array: one that others hold, or one of its own.
#[derive(Drop)]
pub struct TypeName<'a> {
    text: Text<'a>,
}

impl<'a> Model for TypeName<'a> {
    ghost use Rattle.std.specs.Prelude.{List, ℕ};

    ghost Value = { List ℕ };

    ghost use Rattle.cjc_jvm_step.specs.Heap.Names.{text_bytes};

    ghost view = { λ t. text_bytes t.text };
}

impl<'a> TypeName<'a> {
    /// A name that others hold.
    pub fn told(bytes: &'a [u8]) -> TypeName<'a>
        ensures { result ≡ bytes.now }
    {
        TypeName {
            text: Text::Told(bytes),
        }
    }

    /// A name of its own.
    pub fn made(bytes: Bytes) -> TypeName<'a>
        ensures { result ≡ bytes }
    {
        TypeName {
            text: Text::Made(bytes),
        }
    }

    /// Its bytes.
    pub fn bytes(&self) -> &[u8]
        ensures { result.now ≡ self.now }
    {
        match &self.text {
            Text::Told(bytes) => bytes,
            Text::Made(bytes) => bytes.items(),
        }
    }
}
