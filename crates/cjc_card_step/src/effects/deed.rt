//! What an instruction by token leaves to others, beside what it has changed in words and memory: go on, raise,
//! throw, call or return. Whoever runs instructions does it.

ghost use Rattle.std.specs.Prelude.{◌≡◌, ℕ};
ghost use Rattle.cjc_card_frame.specs.Frame.Frames.{Words};
ghost use Rattle.cjc_card_step.specs.Effects.Deeds.{Keeps, MemoryByToken, effect_of, halted};

use cjc_card_frame::jvm_step::frame::Exception;
use cjc_card_frame::parts::Callee;

/// The words of a result; of an int the high one first.
#[derive(Clone, Copy)]
pub enum Returned {
    Nothing,
    Number(i16),
    Null,
    Object(u32),
    Int(i16, i16),
}

/// What an instruction asks of the machine, beside what it has changed itself.
#[derive(Clone, Copy)]
pub enum Deed<'a> {
    /// Words and memory are as the instruction leaves them.
    Go,
    Raise(Exception),
    /// An array or object is thrown, by its number.
    Toss(u32),
    Invoke(Callee<'a>),
    Leave(Returned),
    /// Nothing that applies.
    Stick,
}

/// Why an instruction goes no further.
#[derive(Clone, Copy)]
pub enum Halt {
    Raise(Exception),
    Stick,
}

/// It raises an exception, or nothing applies.
pub(crate) fn deed_of<'a>(halt: Halt) -> Deed<'a>
    ensures { (next : ℕ) (w : Words) (m : MemoryByToken) → (effect_of result next w m ≡ halted halt)
        × Keeps result w w m m }
{
    match halt {
        Halt::Raise(exception) => Deed::Raise(exception),
        Halt::Stick => Deed::Stick,
    }
}
