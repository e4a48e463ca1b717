//! Opcodes of the card that no command runs, in a method of components that are made by hand: rows of its bytes,
//! arguments and the report, worked out from the standard. What stands here beside tests tells how long a Class
//! component is: a crate with tests of its own is proved twice.
#![tactic(auto)]

#[cfg(test)]
mod components;
#[cfg(test)]
mod names;
#[cfg(test)]
mod rows;
#[cfg(test)]
mod runs;
mod sizes;

pub use sizes::is_short;
