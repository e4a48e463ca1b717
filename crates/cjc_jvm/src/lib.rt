//! Whole runs of class files by name: script actions, calls, and the report.
#![tactic(auto)]

pub mod acts;
pub mod runs;
pub mod turns;
