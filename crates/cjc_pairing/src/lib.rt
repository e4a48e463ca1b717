//! The test whether components are of a package: as many classes, methods and static cells as its class files
//! say. Whoever runs components beside class files calls it, after the components were found consistent. It
//! knows no name of a member.
#![tactic(auto)]

// Lower crates, for those above.
/// What crates above take of cjc_card_link.
pub mod card_link {
    pub use cjc_card_link::{ClassNames, GroupPart, Import, Part};
}

mod breaks;
pub mod card_names;
mod cells;
mod counts;
mod pair;

pub use pair::test_pair;
