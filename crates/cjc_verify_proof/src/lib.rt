//! Components that the type checker passes are never stuck: what a row of the table of opcodes says of words and
//! locals, the machine keeps.
#![tactic(auto)]

pub mod arrays;
pub mod calls;
pub mod control;
pub mod fields;
pub mod frames;
pub mod growth;
pub mod memories;
pub mod references;
pub mod rows;
pub mod slots;
pub mod statics;
pub mod suits;
pub mod turns;
