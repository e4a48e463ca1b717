//! One instruction by token: what its opcode means, done to the words of the method under way, to the heap and to
//! static cells, and the offset where it leads, over any look-ups, against the definition of the machine by token.
//! Whoever runs components calls it. Knows no component, not how names are looked up, no handler, and not what a call
//! reaches.
mod calculations;
mod entries;
mod instruction;
mod jumps;
mod types;

pub use instruction::{Step, execute};
