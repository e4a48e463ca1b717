//! A package made from a number: its list, its files and a script that calls its classes. It reads no file and knows no
//! converter.
mod class_file;
mod classes;
mod instruction;
mod lang;
mod made;
mod numbers;
mod texts;

pub use made::{Made, package};
