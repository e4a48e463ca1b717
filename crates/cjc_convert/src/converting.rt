//! The conversion of a package, whatever package that is: of its list and the files that it names into all of
//! its components as trees, or the first broken rule. It puts together what the crates below make, and knows no
//! format. The crate that writes the bytes calls it step by step.
mod caps;
mod conversion;
mod files;
mod sizes;

pub use conversion::{components_of_files, judge_files, shaped_components};
