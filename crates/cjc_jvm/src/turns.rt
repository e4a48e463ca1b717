//! What follows an instruction of class files by name: exceptions and their handlers, results, calls, and
//! imported calls with their answers, over the state of a run and any look-ups, against the definition that
//! cjc_jvm_semantics gives. Knows no instruction, no class files and how names are looked up, no tokens and no
//! components.
mod after;
mod answers;
mod calls;
mod machine;
mod notes;
mod throws;

pub use after::After;
pub use machine::{Machine, pop};
pub use notes::{copy_of, member_of};
pub use throws::class_of;
