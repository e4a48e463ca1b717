//! Frames by token: what each word of a frame holds before each instruction of a method, as the least table that is
//! closed under the instructions, and the rules over that table. Instructions are told by what they need and give;
//! nothing here knows an opcode, a component or a class.
#![tactic(auto)]

mod acts;
mod cells;
mod changes;
mod method;
mod rules;
mod search;
mod sets;
mod states;

pub use acts::{Act, Catch, Given, Need, Read, Step, Write};
pub use cells::Cell;
pub use method::Method;
pub use rules::Subtypes;
pub use search::first_broken;
pub use states::Frame;
