//! How files are written: bytes at the end of what is there, numbers big-endian. Every writer of a format uses
//! it.

ghost use Rattle.std.specs.Prelude.{◌≡◌, ℕ, [], ◌∷◌, ◌++◌, OnOk, OnErr};
ghost use Rattle.std.specs.Int.{w16, w32, to_be_bytes};

use crate::row::{Bytes, Row};
use crate::stop::NoMemory;
use std::alloc::Global;
use std::marker::Model;

/// Bytes that grow at their end. After `NoMemory` they are as before.
#[derive(Drop)]
pub struct Out {
    held: Vec<u8>,
}

impl Model for Out {
    ghost use Rattle.std.specs.Prelude.{List, ℕ};

    ghost Value = { List ℕ };

    ghost view = { λ out. out.held.items };
}

impl Out {
    /// No bytes yet. Takes no memory.
    pub fn new(alloc: Global) -> Out
        ensures { result ≡ [] }
    {
        Out {
            held: Vec::new(alloc),
        }
    }

    /// Appends these bytes.
    pub fn put_slice(&mut self, v: &[u8]) -> Result<(), NoMemory>
        ensures ok { OnOk result (self.new ≡ self.old ++ v.now) }
        ensures err { OnErr result (self.new ≡ self.old) }
    {
        self.held.extend_from_slice(v)?;
        Ok(())
    }

    /// Appends one byte.
    pub fn put1(&mut self, v: u8) -> Result<(), NoMemory>
        ensures ok { OnOk result (self.new ≡ self.old ++ v ∷ []) }
        ensures err { OnErr result (self.new ≡ self.old) }
    {
        self.put_slice(&[v])
    }

    /// Appends two bytes, the higher one first.
    pub fn put2(&mut self, v: u16) -> Result<(), NoMemory>
        ensures ok { OnOk result (self.new ≡ self.old ++ to_be_bytes w16 v) }
        ensures err { OnErr result (self.new ≡ self.old) }
    {
        self.put_slice(&v.to_be_bytes())
    }

    /// Appends four bytes, the highest one first.
    pub fn put4(&mut self, v: u32) -> Result<(), NoMemory>
        ensures ok { OnOk result (self.new ≡ self.old ++ to_be_bytes w32 v) }
        ensures err { OnErr result (self.new ≡ self.old) }
    {
        self.put_slice(&v.to_be_bytes())
    }

    /// The bytes that were put. Takes no memory.
    pub fn finish(self) -> Bytes
        ensures { result ≡ self }
    {
        let Out { held } = self;
        Row::of(held)
    }
}
