//! What a token or a name selects.

use cjc_card_parts::ImportedMethod;

/// What a token or a name selects: none, a method of the package by its offset, or an imported method.
#[derive(Clone, Copy)]
pub enum Found<'a> {
    NotFound,
    At(u32, u64),
    Outward(ImportedMethod<'a>),
}
