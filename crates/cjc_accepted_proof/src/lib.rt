//! What is written for a package, the type checker accepts: the components of a package that is converted break none of
//! the rules of the type checker. It has definitions and laws alone.
#![tactic(auto)]

// Lower crates, for those above.
/// What crates above take of cjc_check_proof.
pub mod check_proof {
    pub use cjc_check_proof::code;
}

pub mod accepted;
pub mod alone;
pub mod arrays;
pub mod beside;
pub mod blocks;
pub mod carded;
pub mod described;
pub mod elements;
pub mod emptied;
pub mod frames;
pub mod infos;
pub mod inside;
pub mod kinds;
pub mod laid;
pub mod members;
pub mod methods;
pub mod objects;
pub mod outside;
pub mod pairs;
pub mod plain;
pub mod rows;
pub mod subtypes;
