//! Whole runs on small packages byte for byte, lists, and what the system's files hold. There is no code here but
//! tests: a crate with tests of its own is proved twice.
#![tactic(auto)]

#[cfg(test)]
mod by_name;
#[cfg(test)]
mod lists;
#[cfg(test)]
mod packages;
#[cfg(test)]
mod runs;
#[cfg(test)]
mod shelves;
#[cfg(test)]
mod words;
