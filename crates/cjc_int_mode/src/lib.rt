//! The mode of a method: in int mode, which a package may have whose list has the line `int`, every number is two words
//! with its whole value of 32 bits; in short mode it is the one word of its low half. Which mode a method is in, which
//! of rules 601 to 609 bind it there, and whether what is written for it has room (417).
//!
//! Called by whoever tests rules, and by whoever writes code, which is written by modes. It knows no token and no
//! component, and writes nothing.
#![tactic(auto)]

// Lower crates, for those above.
/// What crates above take of world.
pub mod world {
    pub use cjc_subset::world::World;
}

/// What crates above take of cjc_flow.
pub mod flow {
    pub use cjc_flow::{RangeTable, Ranges, Ranging};
}

mod choosing;
pub mod descriptors;
pub mod laws;
pub mod modes;
mod passing;
mod space;

pub use choosing::mode;
pub use passing::passes;
pub use space::room;
