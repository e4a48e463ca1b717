//! Supertypes, calls and names over components.
#![tactic(auto)]

// Lower crates, for those above.
/// What crates above take of check_rules.
pub mod check_rules {
    pub use cjc_card_link::check_rules::consistent_where_unbroken;
}

/// What crates above take of check_index.
pub mod check_index {
    pub use cjc_card_link::check_index::lookup;
}

/// What crates above take of cjc_card_frame.
pub mod card_frame {
    pub use cjc_card_frame::{fetch, heap, opcodes, parts};
}

/// What crates above take of cjc_card_link.
pub mod card_link {
    pub use cjc_card_link::{ClassNames, FieldName, GroupPart, Part, Tables};
}

pub mod calls;
pub mod files;
pub mod lines;
pub mod names;
