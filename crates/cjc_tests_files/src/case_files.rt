//! Files of cases, byte for byte: export files, and class files made by hand. Crates of tests name them; it
//! knows no test.
mod classes;
mod exports;

pub use classes::{SUM, WALLET};
pub use exports::{FRAMEWORK, LANG, Q};
