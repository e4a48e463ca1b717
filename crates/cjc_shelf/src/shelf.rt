//! `Shelf`, files by name as commands read and write them: what a call may end with and what it leaves of other
//! files. Commands are proved over any shelf.

ghost use Rattle.std.specs.Prelude.{◌≡◌};
ghost use Rattle.cjc_shelf.specs.Shelf.{Shelved, Reads, Writes, longest_file};

use cjc_bytes::Bytes;
use std::alloc::Global;
use thiserror::Error;

/// The length of the longest file that is read, in bytes.
pub const LONGEST: usize = 262_144;

/// Why nothing was read.
#[derive(Clone, Copy, Debug, Drop, Error)]
pub enum ReadEnd {
    /// No file has the name.
    #[error("there is no such file")]
    Absent,
    /// The file has more than `LONGEST` bytes.
    #[error("the file is too long")]
    TooLong,
    /// The outside failed.
    #[error("the file could not be read")]
    Failed,
    #[error("no memory")]
    NoMemory,
}

/// Why nothing was written.
#[derive(Clone, Copy, Debug, Drop, Error)]
pub enum WriteEnd {
    /// The outside failed, and what stands under the name is unknown.
    #[error("the file could not be written")]
    Failed,
    /// There was no memory, and all files are as before.
    #[error("no memory")]
    NoMemory,
}

/// Files by their names.
pub trait Shelf {
    ghost shelved: { Self → Shelved };

    /// The bytes under the name. All files stay as they are.
    fn read(&mut self, alloc: Global, name: &[u8]) -> Result<Bytes, ReadEnd>
        ensures { Reads name.now (shelved self.old) (shelved self.new) result };

    /// Puts the bytes under the name. All other files stay as they are.
    fn write(&mut self, name: &[u8], bytes: &[u8]) -> Result<(), WriteEnd>
        ensures { Writes name.now bytes.now (shelved self.old) (shelved self.new) result };
}

/// The longest file that is read is as long as the definition of a shelf says.
pub fn limits()
    ensures { LONGEST ≡ longest_file }
{}
