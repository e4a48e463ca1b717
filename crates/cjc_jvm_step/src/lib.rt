//! One instruction of the machine by name: its frame, its heap, and its effect.
#![tactic(auto)]

// Lower crates, for those above.
/// What crates above take of classfile.
pub mod classfile {
    pub use cjc_jvm_semantics::classfile::{ClassTree, FieldTree, MethodTree};
}

/// What crates above take of world.
pub mod world {
    pub use cjc_jvm_semantics::world::StaticImage;
}

pub mod frame;
pub mod heap;
pub mod step;
