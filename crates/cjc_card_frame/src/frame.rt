//! Frames on the card: an operand stack and locals of words, and every instruction that sees them alone, those of int
//! among them, against the definition of the card's opcodes in cjc_card_semantics. Whoever runs components calls it.
//! Knows no
//! heap, no pool and no place in code.
mod arithmetic;
mod calculation;
mod cells;
mod conditions;
mod ending;
mod ints;
mod locals;
mod stack;
pub mod words;

pub use cells::Cells;
pub use ending::{Choice, Ending};
pub use locals::{is_number, is_reference};
