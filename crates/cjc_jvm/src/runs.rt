//! Runs of class files by name: entries, instructions, whole runs and their reports, over any look-ups, against the
//! definition that cjc_jvm_semantics gives. Knows no class files and how names are looked up, no tokens and no
//! components.
mod entries;
mod reports;
mod runs;
mod steps;

pub use runs::run;
