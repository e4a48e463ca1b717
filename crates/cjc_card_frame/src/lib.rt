//! What a step of the card works on: words, frames, heap, static image, and the instruction that is fetched.
#![tactic(auto)]

// Lower crates, for those above.
/// What crates above take of classfile.
pub mod classfile {
    pub use cjc_jvm_step::classfile::{ClassTree, FieldTree, MethodTree};
}

/// What crates above take of world.
pub mod world {
    pub use cjc_jvm_step::world::StaticImage;
}

/// What crates above take of cjc_jvm_step.
pub mod jvm_step {
    pub use cjc_jvm_step::{frame, heap, step};
}

pub mod fetch;
pub mod frame;
pub mod frames;
pub mod heap;
pub mod image;
pub mod opcodes;
pub mod parts;
