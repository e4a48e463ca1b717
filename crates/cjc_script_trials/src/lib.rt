//! Scripts from outside, and what becomes of each; reports with every kind of line. There is no code here but tests: a
//! crate with tests of its own is proved twice.
#![tactic(auto)]

#[cfg(test)]
mod reports;
#[cfg(test)]
mod scripts;
