//! Look-ups by token over the components of a package and the export files that it imports: what instructions,
//! scripts and reports ask of them, found by tables that are made once. Called by who runs components; it knows
//! no frame that runs, and not how names came to components.
#![tactic(auto)]

// Lower crates, for those above.
/// What crates above take of classfile.
pub mod classfile {
    pub use cjc_card_frame::classfile::{ClassTree, FieldTree, MethodTree};
}

/// What crates above take of export_file.
pub mod export_file {
    pub use cjc_card_semantics::export_file::may_be_constant;
}

/// What crates above take of capread.
pub mod capread {
    pub use cjc_card_semantics::capread::{ClassInfo, Descriptor, StaticField};
}

/// What crates above take of check_rules.
pub mod check_rules {
    pub use cjc_check_index::check_rules::consistent_where_unbroken;
}

/// What crates above take of cjc_check_index.
pub mod check_index {
    pub use cjc_check_index::lookup;
}

/// What crates above take of cjc_card_frame.
pub mod card_frame {
    pub use cjc_card_frame::parts;
}

mod calls;
mod described;
mod dispatch;
mod entries;
mod exported;
mod fresh;
mod indices;
mod infos;
mod listed;
mod met;
mod named;
mod names;
mod package;
mod part;
mod starts;
mod steps;
mod supers;
mod tables;

pub use dispatch::Walk;
pub use indices::Name;
pub use met::Key;
pub use names::{ClassNames, FieldName, MethodName};
pub use part::{GroupPart, Import, Part};
pub use tables::Tables;
