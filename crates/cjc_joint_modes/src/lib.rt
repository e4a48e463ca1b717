//! Packages that were converted by themselves run alike together, whatever the modes of their methods: their class
//! files by name in the joint world, and their narrow code, each call by the package that asks. It has definitions and
//! laws alone; nothing here runs. It knows no token and no component.
#![tactic(auto)]

pub mod members;
pub mod modes;
