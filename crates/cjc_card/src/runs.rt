//! Runs of components by token: entries, instructions, whole runs and their reports, over any look-ups, against the
//! definition that cjc_card_semantics gives. Knows no component and not how names are looked up.
mod entries;
mod reports;
mod room;
mod runs;
mod starts;
mod steps;

pub use runs::run;
