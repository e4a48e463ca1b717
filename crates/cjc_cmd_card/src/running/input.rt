//! What was read of a list, its files, a folder of components and a script. It knows no shelf.

use cjc_cmd_check::bytes::{Bytes, Row};
use cjc_cmd_check::folder::Parts;
use cjc_cmd_check::list::List;

/// A list, its files, the components of a folder and a script.
#[derive(Drop)]
pub struct Input {
    pub list: List,
    /// The files, in the order of the list's lines.
    pub files: Row<Bytes>,
    pub parts: Parts,
    pub script: Bytes,
}
