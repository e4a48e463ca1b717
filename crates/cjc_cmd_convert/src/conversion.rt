//! The conversion of a package: of its list and the files that it names into the bytes of its component files
//! and of its export file, with what these promise, or the first broken rule. Called by the command `convert`;
//! it knows no rule and no format, and how files are written is of the crates below.
mod conversion;
mod halves;

pub use cjc_convert::{Converted, one_answer};
pub use conversion::convert;
pub use halves::{both_halves_are_kept, converted_files_spell_one_package};
