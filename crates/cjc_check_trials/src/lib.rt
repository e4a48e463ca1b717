//! Whole runs of `check` on small components, and on the same with some bytes altered. There is no code here
//! but tests: a crate with tests of its own is proved twice.
#![tactic(auto)]

#[cfg(test)]
mod folders;
#[cfg(test)]
mod runs;
