//! The types of values as descriptors say them, which values fit them, and what the acts of a script do to the heap by
//! name, against the definitions that cjc_script and cjc_jvm_semantics give. Knows no frames and no calls.
mod acts;
mod fitting;
mod signature;
mod sort;

pub use acts::perform;
pub use fitting::{all_fit, are_of_sorts, fits, result_fits};
pub use signature::{Signature, signature_of};
pub use sort::Sort;
