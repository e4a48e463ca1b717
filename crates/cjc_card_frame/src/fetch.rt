//! The instruction at an offset of a package's methods, as the machine by token fetches it, and the offsets to which
//! jumps and switches lead. Whoever runs components calls it. Knows no frame, no heap and no entry of the constant
//! pool.
mod fetch;
mod jumps;
mod switches;

pub use fetch::{Code, fetched_by_bytes, insn_at};
pub use jumps::moved;
pub use switches::{arm_of_pairs, arm_of_range};
