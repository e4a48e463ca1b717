//! Calls that no command makes, each once where all is well, and files for other tests. Beside the files there is no
//! code but tests: a crate with tests of its own is proved twice.
#![tactic(auto)]

#[cfg(test)]
mod calls;
pub mod files;
#[cfg(test)]
mod flows;
