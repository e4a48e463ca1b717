//! What is written for methods in int mode, the type checker accepts: frames of a method whose numbers are two words
//! each make a closed table that breaks no rule, where each list of instructions that is written for one of the class
//! file goes from its frame to the next. It has definitions and laws alone.
#![tactic(auto)]

pub mod acts;
pub mod begins;
pub mod call_stands;
pub mod calls;
pub mod constants;
pub mod element_stands;
pub mod elements;
pub mod entry;
pub mod front;
pub mod headers;
pub mod insns;
pub mod jumps;
pub mod locals;
pub mod methods;
pub mod named;
pub mod named_stand;
pub mod objects;
pub mod packages;
pub mod returns_stand;
pub mod selection;
pub mod singles;
pub mod stack;
pub mod stack_stands;
pub mod stands;
pub mod stretches;
pub mod tables;
pub mod values;
pub mod written;
