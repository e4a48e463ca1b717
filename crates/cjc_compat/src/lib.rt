//! Whether a new version of an export file may stand in the place of the old one: rules 741 to 745, and what a
//! version that breaks none of them keeps. The command `compat` calls it. It knows no class file and no component.
#![tactic(auto)]

// Lower crates, for those above.
/// What crates above take of cjc_export.
pub mod export_file {
    pub use cjc_export::read;
}

mod laws;
mod names;
mod rules;
mod versions;

pub use laws::{compatible, one_refusal};
pub use versions::compat;
