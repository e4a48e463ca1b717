//! Which package a list and its files are, whatever package that is: its methods with their narrow code and
//! their layouts, or the first rule that speaks of what is written for it. Whoever converts a package calls it.
//! It puts together what the crates below make, and knows no format.
mod shaping;
mod short;

pub use shaping::{Shaped, shape};
pub use short::packages_in_short_mode_are_as_before;
