//! Conversions of packages made by hand: components byte for byte, refusals of what is written, and its limits. There is no code here but
//! tests: a crate with tests of its own is proved twice.
#![tactic(auto)]

#[cfg(test)]
mod built;
#[cfg(test)]
mod cases;
#[cfg(test)]
mod conversions;
#[cfg(test)]
mod files;
#[cfg(test)]
mod limits;
