//! Class files and export files as bytes, written down from outside, and what their readers and the writer answer of
//! them: trees, and each prefix. There is no code here but tests.
#[cfg(test)]
mod classes;
#[cfg(test)]
mod exports;
