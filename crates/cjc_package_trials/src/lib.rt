//! Packages made by hand, each converted in memory, checked and run: what is printed, components byte for byte,
//! refusals of what is written, and its limits; and packages that are made from a number. There is no code here but
//! tests: a crate with tests of its own is proved twice.
#![tactic(auto)]

#[cfg(test)]
mod files;
#[cfg(test)]
mod limits;
#[cfg(test)]
mod long_files;
#[cfg(test)]
mod packages;
#[cfg(test)]
mod runs;
#[cfg(test)]
mod summaries;
