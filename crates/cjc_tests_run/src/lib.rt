//! What no command shows of whole runs: each command once over files in memory, calls of the shelf and puts of the sink
//! that fail there, packages that are made from numbers, converted and verified, and streams that take little at a
//! time. There is no code here but tests: a crate with tests of its own is proved twice.
#![tactic(auto)]

#[cfg(test)]
mod commands;
#[cfg(test)]
mod faults;
#[cfg(test)]
mod made;
#[cfg(test)]
mod streams;
