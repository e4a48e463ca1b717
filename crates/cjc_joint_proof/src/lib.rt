//! What packages are together that were converted by themselves: laws for whoever promises that a group of them runs
//! alike by name and by token. It has definitions and laws alone; nothing here runs.
#![tactic(auto)]

pub mod above;
pub mod calls;
pub mod cells;
pub mod classes;
pub mod code;
pub mod exports;
pub mod images;
pub mod loading;
pub mod members;
pub mod memory;
pub mod names;
pub mod naming;
pub mod parts;
pub mod runs;
pub mod tables;
pub mod towers;
pub mod worlds;
