//! One instruction of the card by token.
#![tactic(auto)]

pub mod effects;
pub mod steps;
