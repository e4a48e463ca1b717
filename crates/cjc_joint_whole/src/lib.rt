//! Packages that break no rule, as members of a group: their class files by name in the joint world and their narrow
//! code run alike, but for the methods that code calls and scripts name. It has definitions and laws alone; nothing
//! here runs.
#![tactic(auto)]

pub mod above;
pub mod exports;
pub mod faces;
pub mod implementing;
pub mod linking;
pub mod members;
pub mod modes;
pub mod selected;
pub mod sent;
pub mod sent_faces;
pub mod tokens;
