//! What is written for a package some of whose methods are in int mode: the code of each by its mode, and its
//! components. It has definitions and laws alone, and nothing here runs.
#![tactic(auto)]

pub mod code;
pub mod limits;
pub mod methods;
pub mod packages;
pub mod worked;
