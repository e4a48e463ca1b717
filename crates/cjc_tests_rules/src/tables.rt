//! Tables of types and of numbers, and what the crates that make them answer of small methods and flows written down by
//! hand. There is no code here but tests: a crate with tests of its own is proved twice.
#[cfg(test)]
mod intervals;
#[cfg(test)]
mod methods;
#[cfg(test)]
mod names;
