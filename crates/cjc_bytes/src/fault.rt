//! Refusals: a rule, and the place where it is broken.

ghost use Rattle.std.specs.Prelude.{◌≡◌};
ghost use Rattle.cjc_bytes.specs.declared.fault.Fault.TheVariants as faults;

use crate::row::Bytes;
use crate::stop::NoMemory;

/// The number of a rule.
#[derive(Clone, Copy, Debug)]
pub struct Rule(pub u16);

/// Where a rule is broken. A part that does not apply is empty, and an offset that does not apply is 0.
#[derive(Drop)]
pub struct Place {
    /// The file as the command names it; of a component its name without the folder.
    pub file: Bytes,
    /// The class's full name, its parts joined by `/`.
    pub class: Bytes,
    /// The name of a member followed by its descriptor; of a field with `:` between them.
    pub member: Bytes,
    /// In bytes, from the start of the file or of the code.
    pub offset: u32,
}

/// A broken rule and its place.
#[derive(Drop)]
pub struct Refusal {
    pub rule: Rule,
    pub place: Place,
}

/// Why a call gave nothing.
#[derive(Drop)]
pub enum Fault {
    /// The first broken rule, and its place.
    Refused(Refusal),
    /// There was no memory left.
    NoMemory,
}

impl From<NoMemory> for Fault {
    ghost from_gives = { λ _ e. e ≡ faults.NoMemory };

    fn from(_: NoMemory) -> Self {
        Fault::NoMemory
    }
}

/// A field or method by name: its class, its name and its descriptor.
#[derive(Drop)]
pub struct MemberId {
    pub class: Bytes,
    pub name: Bytes,
    pub desc: Bytes,
}
