//! The command compat.
#![tactic(auto)]

// Lower crates, for those above.
/// What crates above take of list.
pub mod list {
    pub use cjc_cmd_check::list::{List, read_list};
}

/// What crates above take of cjc_cmd_check.
pub mod cmd_check {
    pub use cjc_cmd_check::checking;
}

mod comparing;
mod laws;
mod subclasses;

pub use comparing::gather_compat;
pub use laws::one_answer;
pub use subclasses::subclasses_keep_tokens;
