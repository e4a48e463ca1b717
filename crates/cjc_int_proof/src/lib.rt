//! Laws of what methods in int mode do: an instruction of a class file is written as many there, so that one step of
//! the machine by name is followed by one instruction or more of the machine by label. Beside its laws it has, for
//! whoever shows that both machines behave alike, the record of what is asked of one step (`LongRuns.Follows`), from
//! which whole runs follow (`follows_agree`).
//!
//! It has no code that runs, and knows no class file, no table and no interval.
#![tactic(auto)]

pub mod lengths;
pub mod operands;
pub mod walks;
