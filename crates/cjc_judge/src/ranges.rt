//! Rules 601 to 609 in the methods of a package, by the mode of each. Called by cjc_judge; it knows no token and no
//! component, and not in which order methods are tested.
mod numbers;

pub use numbers::{Verdict, verdict_of};
