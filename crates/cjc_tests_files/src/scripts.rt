//! A script from outside, and the tree that is read of it; a report with every kind of line. There is no code here but
//! tests: a crate with tests of its own is proved twice.
#[cfg(test)]
mod reports;
#[cfg(test)]
mod scripts;
