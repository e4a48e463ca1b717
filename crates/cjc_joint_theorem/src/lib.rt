//! Packages that were converted by themselves run alike together: their class files by name in the joint world, and
//! their narrow code, each call by the package that asks. It has definitions and laws alone; nothing here runs.
#![tactic(auto)]

pub mod asked;
pub mod members;
pub mod ordered;
pub mod rules;
pub mod solid;
pub mod together;
