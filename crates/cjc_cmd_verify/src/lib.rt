//! The command verify.
#![tactic(auto)]

// Lower crates, for those above.
/// What crates above take of cmd_jvm.
pub mod cmd_jvm {
    pub use cjc_cmd_card::cmd_jvm::report;
}

/// What crates above take of cjc_cmd_card.
pub mod cmd_card {
    pub use cjc_cmd_card::report;
}

mod bytes;
mod laws;
mod verifying;

pub use laws::one_answer;
pub use verifying::gather_verify;
