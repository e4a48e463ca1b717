//! Why a call did not answer: want of memory, too few bytes, or a file that breaks at a place.

ghost use Rattle.std.specs.Prelude.{◌≡◌};
ghost use Rattle.cjc_bytes.specs.declared.stop.Stop.TheVariants as stops;
ghost use Rattle.cjc_bytes.specs.declared.stop.Short.{Short};

use std::alloc::{AllocError, AllocFailed};
use thiserror::Error;

/// There was no memory left.
#[derive(Clone, Copy, Debug, Drop, Error)]
#[error("no memory")]
pub struct NoMemory;

impl From<AllocError> for NoMemory {
    fn from(_: AllocError) -> Self {
        NoMemory
    }
}

impl<T: Drop> From<AllocFailed<T>> for NoMemory {
    fn from(_: AllocFailed<T>) -> Self {
        NoMemory
    }
}

/// Fewer bytes are left than were asked for.
#[derive(Clone, Copy, Debug, Drop, Error)]
#[error("the bytes end too soon after {at}")]
pub struct Short {
    /// How many bytes were read before.
    pub at: u32,
}

/// Why a reader stopped: the file breaks at a place, or there was no memory.
#[derive(Clone, Copy, Debug)]
pub enum Stop {
    /// The offset of the first field that breaks its table, in bytes from the start of the file.
    Broken(u32),
    NoMemory,
}

impl From<Short> for Stop {
    ghost from_gives = { λ short e. e ≡ stops.Broken short.at };

    fn from(short: Short) -> Stop {
        Stop::Broken(short.at)
    }
}

impl From<NoMemory> for Stop {
    ghost from_gives = { λ _ e. e ≡ stops.NoMemory };

    fn from(_e: NoMemory) -> Stop {
        Stop::NoMemory
    }
}
