//! Laws of components that are cut: each method of Method and each of its instructions is what the card runs at its
//! offset, and jumps and handlers lead to instructions of their own method. It has no code that runs.
#![tactic(auto)]

pub mod cuts;
pub mod leads;
