//! Cases of tests that stand as text: their words, class trees, and a package over the export file of
//! java/lang. Called by crates of tests. It knows nothing of what they test.
mod classes;
mod packages;
mod words;

pub use classes::{class, code, pool};
pub use packages::{language, line, package};
pub use words::{
    cut, flags, is_number, number, octets, question_and_answer, small_number, text, texts,
};
