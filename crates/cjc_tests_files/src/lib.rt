//! Trees that readers give and writers take, and the files and texts from which crates of tests read their cases.
#![tactic(auto)]

// Lower crates, for those above.
pub use cjc_script_text as script_text;

pub mod case_files;
pub mod cases;
pub mod components;
pub mod files;
pub mod scripts;
