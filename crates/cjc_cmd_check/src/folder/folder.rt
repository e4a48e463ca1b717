//! What was read of a list and a folder of components. It knows no shelf.

ghost use Rattle.std.specs.Prelude.{◌≡◌};

use cjc_bytes::{Bytes, Row};
use cjc_list::List;

/// The files of the components of a folder.
#[derive(Drop)]
pub struct Parts {
    pub header: Bytes,
    pub directory: Bytes,
    /// The tags of the other components that Directory says are there, ascending.
    pub tags: Row<u8>,
    /// The file of each of these.
    pub others: Row<Bytes>,
}

/// A list, and the files of its export files and of the components of a folder.
#[derive(Drop)]
pub struct Folder {
    pub list: List,
    /// The export files, in the order of the list's lines.
    pub exports: Row<Bytes>,
    pub parts: Parts,
}
