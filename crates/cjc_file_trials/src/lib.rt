//! Class files and export files as bytes, written down from outside, and what their readers and the writer answer of
//! them: trees, each prefix, and each kind of broken field with its offset. There is no code here but tests.
#![tactic(auto)]

#[cfg(test)]
mod classes;
#[cfg(test)]
mod exports;
