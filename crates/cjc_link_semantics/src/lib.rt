//! What packages that were converted by themselves are together: their components as one group for the machine by
//! token, and that both joint runs agree. Definitions alone; nothing here runs.
#![tactic(auto)]

// Lower crates, for those above.
/// What crates above take of script.
pub mod script {
    pub use cjc_components::script::{Report, Script};
}

/// What crates above take of check_rules.
pub mod check_rules {
    pub use cjc_components::check_rules::consistent_where_unbroken;
}
