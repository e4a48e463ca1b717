//! Packages that were converted and that a group links: what their laws together ask of them, from what each keeps by
//! itself, what is tested of all, and what is asked of the files from outside. It has definitions and laws alone; nothing
//! here runs.
#![tactic(auto)]

pub mod implemented;
pub mod packages;
pub mod ready;
pub mod reports;
pub mod told;
