//! The static field image of one package while it runs: reference cells, and behind them the bytes of numbers,
//! read and written by a letter at an offset.

ghost use Rattle.std.specs.Prelude.{◌≡◌, ◌≤◌, ◌+◌, ◌*◌, ◌-◌, Some, None, true, false, nat_le, length, is_some};
ghost use Rattle.std.specs.Prelude.{option_map, IfSome, if◌then◌else◌};
ghost use Rattle.cjc_card_semantics.specs.Bytecode.Effects.{Byte, Int, Reference, Short};
ghost use Rattle.cjc_card_frame.specs.Meanings.{letter_of};
ghost use Rattle.cjc_card_semantics.specs.Machine.Statics.{bytes_at, cell_in, cell_number, cell_put};
ghost use Rattle.cjc_card_frame.specs.Cells.{Fits};

use crate::image::numbers::{byte_in, int_in, set_byte, set_int, set_short, short_in};
use crate::opcodes::Letter;
use cjc_card_semantics::script::Value;
use std::marker::Model;

/// The reference cells of a package, of which each takes two in the offsets of cells, and the bytes of the
/// numbers behind them.
#[derive(Drop)]
pub struct Image {
    pub(crate) references: Vec<Value>,
    pub(crate) bytes: Vec<u8>,
}

impl Model for Image {
    ghost use Rattle.cjc_card_semantics.specs.Machine.Statics.{Image as ImageByToken};

    ghost Value = { ImageByToken };

    ghost view = { λ i. record { references = i.references.items; bytes = i.bytes.items } };
}

/// The number of a reference cell by its offset.
fn cell_number(offset: usize) -> Option<usize>
    ensures { result ≡ cell_number offset }
{
    if offset % 2 == 0 {
        Some(offset / 2)
    } else {
        None
    }
}

/// A number as a value.
fn number(found: Option<i32>) -> Option<Value>
    ensures { result ≡ option_map Value.Num found }
{
    match found {
        Some(z) => Some(Value::Num(z)),
        None => None,
    }
}

impl Image {
    /// What a reference cell holds.
    fn reference(&self, offset: usize) -> Option<Value>
        ensures { result ≡ cell_in Reference self.now offset }
    {
        match cell_number(offset) {
            Some(number) => self.references.get(number).copied(),
            None => None,
        }
    }

    /// Where the number of an offset begins among the bytes.
    fn place(&self, offset: usize) -> Option<usize>
        ensures { result ≡ (if nat_le (2 * length self.now.references) offset
            then Some (offset - 2 * length self.now.references) else None) }
    {
        let cells = self.references.len();
        if cells <= offset / 2 {
            Some(offset - 2 * cells)
        } else {
            None
        }
    }

    /// The bytes from an offset behind the reference cells on.
    fn bytes_at(&self, offset: usize) -> Option<&[u8]>
        ensures { option_map (λ b. b.now) result ≡ bytes_at self.now offset }
    {
        let Some(place) = self.place(offset) else {
            return None;
        };
        if place > self.bytes.len() {
            return Some(&[]);
        }
        Some(&self.bytes[place..])
    }

    /// What the cell at an offset holds, by a letter.
    pub fn get(&self, letter: Letter, offset: usize) -> Option<Value>
        ensures { result ≡ cell_in (letter_of letter) self.now offset }
    {
        if let Letter::Reference = letter {
            return self.reference(offset);
        }
        let Some(bytes) = self.bytes_at(offset) else {
            return None;
        };
        match letter {
            Letter::Reference => None,
            Letter::Byte => number(byte_in(bytes)),
            Letter::Short => number(short_in(bytes)),
            Letter::Int => number(int_in(bytes)),
        }
    }

    /// Puts a value into a reference cell that is there.
    fn set_reference(&mut self, offset: usize, value: Value)
        requires { is_some (cell_in Reference self.old offset) ≡ true }
        ensures { self.new ≡ cell_put Reference value self.old offset }
    {
        self.references[offset / 2] = value;
    }

    /// Puts a number into a cell that is there.
    #[tactic(auto, using(crate::proofs::ImageLaws::Spelling::short_there, crate::proofs::ImageLaws::Spelling::int_there))]
    fn set_number(&mut self, letter: Letter, offset: usize, number: i32)
        requires there { is_some (cell_in (letter_of letter) self.old offset) ≡ true }
        requires fits { Fits (letter_of letter) (Value.Num number) }
        ensures { self.new ≡ cell_put (letter_of letter) (Value.Num number) self.old offset }
    {
        if let Letter::Reference = letter {
            self.set_reference(offset, Value::Num(number));
            return;
        }
        let place = offset - 2 * self.references.len();
        match letter {
            Letter::Reference => {}
            Letter::Byte => set_byte(&mut self.bytes, place, number),
            Letter::Short => set_short(&mut self.bytes, place, number),
            Letter::Int => set_int(&mut self.bytes, place, number),
        }
    }

    /// Puts a value into a cell that is there. A reference leaves the bytes of a number as they are.
    fn set(&mut self, letter: Letter, offset: usize, value: Value)
        requires there { is_some (cell_in (letter_of letter) self.old offset) ≡ true }
        requires fits { Fits (letter_of letter) value }
        ensures { self.new ≡ cell_put (letter_of letter) value self.old offset }
    {
        match (letter, value) {
            (_, Value::Num(number)) => self.set_number(letter, offset, number),
            (Letter::Reference, _) => self.set_reference(offset, value),
            (Letter::Byte, _) => {}
            (Letter::Short, _) => {}
            (Letter::Int, _) => {}
        }
    }

    /// Puts a value into the cell at an offset, by a letter, where it is there; whether it is.
    pub fn put(&mut self, letter: Letter, offset: usize, value: Value) -> bool
        requires { Fits (letter_of letter) value }
        ensures is { result ≡ is_some (cell_in (letter_of letter) self.old offset) }
        ensures put { self.new ≡ (if result then cell_put (letter_of letter) value self.old offset else self.old) }
    {
        if self.get(letter, offset).is_none() {
            return false;
        }
        self.set(letter, offset, value);
        true
    }
}
