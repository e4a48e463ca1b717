//! The static field images of all packages of a group side by side: a cell is found by the number of its
//! package and its offset there.

ghost use Rattle.std.specs.Prelude.{◌≡◌, ◌++◌, ◌∷◌, [], Some, None, false, option_map, OnOk, if◌then◌else◌};
ghost use Rattle.cjc_card_frame.specs.Meanings.{letter_of};
ghost use Rattle.cjc_card_semantics.specs.Machine.Statics.{get_static, put_static};
ghost use Rattle.cjc_card_frame.specs.Cells.{Fits};

use crate::image::image::Image;
use crate::opcodes::Letter;
use cjc_card_semantics::bytes::NoMemory;
use cjc_card_semantics::script::Value;
use std::alloc::Global;
use std::marker::Model;

/// The static cells of a group, by the numbers of its packages.
#[derive(Drop)]
pub struct Statics {
    images: Vec<Image>,
}

impl Model for Statics {
    ghost use Rattle.std.specs.Prelude.{List};
    ghost use Rattle.cjc_card_semantics.specs.Machine.Statics.{Image as ImageByToken};

    ghost Value = { List ImageByToken };

    ghost view = { λ s. s.images.items };
}

impl Statics {
    /// Those of no package. Takes no memory.
    pub fn new(alloc: Global) -> Statics
        ensures { result ≡ [] }
    {
        Statics {
            images: Vec::new(alloc),
        }
    }

    /// One package more.
    pub fn push(&mut self, image: Image) -> Result<(), NoMemory>
        ensures { OnOk result (self.new ≡ self.old ++ image ∷ []) }
    {
        self.images.push(image)?;
        Ok(())
    }

    /// What a cell holds, by a letter.
    pub fn get(&self, letter: Letter, part: u32, offset: u64) -> Option<Value>
        ensures { result ≡ get_static (letter_of letter) (record { part = part; offset = offset }) self.now }
    {
        match self.images.get(part as usize) {
            Some(image) => image.get(letter, offset as usize),
            None => None,
        }
    }

    /// Puts a value into a cell, by a letter, where it is there; whether it is.
    pub fn put(&mut self, letter: Letter, part: u32, offset: u64, value: Value) -> bool
        requires { Fits (letter_of letter) value }
        ensures put { put_static (letter_of letter) (record { part = part; offset = offset }) value self.old
            ≡ (if result then Some self.new else None) }
        ensures same { result ≡ false → self.new ≡ self.old }
    {
        if part as usize >= self.images.len() {
            return false;
        }
        let image = &mut self.images[part as usize];
        image.put(letter, offset as usize, value)
    }
}
