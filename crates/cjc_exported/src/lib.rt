//! The export file of a package, and its Export component.
#![tactic(auto)]

pub mod export_file;
pub mod export_laws;
