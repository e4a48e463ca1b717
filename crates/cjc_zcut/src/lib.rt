//! Scratch.
#![tactic(auto)]

pub mod cut;
