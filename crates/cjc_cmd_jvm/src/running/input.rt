//! What was read of a list, its files and a script. It knows no shelf.

use cjc_script_text::list::List;
use cjc_shelf::bytes::{Bytes, Row};

/// A list, its files and a script.
#[derive(Drop)]
pub struct Input {
    pub list: List,
    /// The files, in the order of the list's lines.
    pub files: Row<Bytes>,
    pub script: Bytes,
}
