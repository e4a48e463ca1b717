//! What a virtual or interface call selects by token, or a script's call by name: a method of the package by
//! its offset, an imported one by its entry in the export file, or none.

use cjc_card_frame::parts::ImportedMethod;

/// What a token or a name selects: none, a method of the package by its offset, or an imported method.
#[derive(Clone, Copy)]
pub enum Found<'a> {
    NotFound,
    At(u32, u64),
    Outward(ImportedMethod<'a>),
}
