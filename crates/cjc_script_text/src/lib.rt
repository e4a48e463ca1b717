//! Scripts and reports as text: a script is read from its lines, and a report is printed as lines. It knows no
//! machine, and of files no name but the script's own in a refusal.
#![tactic(auto)]

// Lower crates, for those above.
/// What crates above take of cjc_list.
pub mod list {
    pub use cjc_list::{List, read_list};
}

/// What crates above take of cjc_script.
pub mod script {
    pub use cjc_script::{Answer, Entry, Report, Script};
}

mod item;
mod partial_script;
mod printing;
mod reading;
mod word;

pub use printing::print;
pub use reading::{read, scripts};
