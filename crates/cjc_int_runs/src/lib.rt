//! Code in int mode runs like the class file: when frames of both machines agree, and laws that keep them so, one
//! instruction of the class file at a time. Definitions and laws alone: nothing here runs.
#![tactic(auto)]

pub mod calls;
pub mod methods;
pub mod rows;
pub mod runs;
pub mod worked;
