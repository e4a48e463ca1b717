//! Selection in int mode: the narrow code of a method whose numbers are two words each, with their whole values of 32
//! bits, by what its least tables say before each of its instructions. Called for each such method of a package, first
//! to know the constant pool and again by its indices. It knows no token and no offset.
#![tactic(auto)]

mod calls;
mod code;
mod constants;
mod elements;
mod frame;
mod kinds;
mod known;
pub mod laws;
mod method;
mod names;
mod numbers;
mod put;
mod ranging;
mod scratch;
mod stack;
mod switches;
mod widest;

pub use known::{Before, befores};
pub use method::select;
pub use ranging::{known_before, ranging_of};
