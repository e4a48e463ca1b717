//! Components of small packages, read and written back, and cut, and the limits of a tree. There is no code here
//! but tests: a crate with tests of its own is proved twice.
#[cfg(test)]
mod bytes;
#[cfg(test)]
mod reading;
#[cfg(test)]
mod trees;
#[cfg(test)]
mod writing;
