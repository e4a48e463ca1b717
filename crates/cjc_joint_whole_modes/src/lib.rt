//! Packages that break no rule, as members of a group, whichever of their methods are in int mode: their class files by
//! name in the joint world and their narrow code run alike. It has definitions and laws alone; nothing here runs.
#![tactic(auto)]

pub mod members;
