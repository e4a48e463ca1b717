//! What is written is consistent: the components of a package that broke no rule break none of the rules on
//! components.
#![tactic(auto)]

// Lower crates, for those above.
/// What crates above take of cjc_token_proof.
pub mod token_proof {
    pub use cjc_token_proof::{calls, tables, written_calls};
}

pub mod classes;
pub mod code;
pub mod consistent;
pub mod flags;
pub mod limits;
pub mod promises;
pub mod tokens;
