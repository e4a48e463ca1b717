//! What the files of a list spell, and the first rule that they break, in the order of refusals. Called by
//! every command that starts from class files; it knows nothing of what is written or run.
#![tactic(auto)]

// Lower crates, for those above.
/// What crates above take of cjc_int_mode.
pub mod modes {
    pub use cjc_int_mode::modes::Mode;
}

mod groups;
mod joint;
mod judged;
mod judging;
mod laws;
mod parts;
pub mod ranges;
mod reading;

pub use cjc_vtable::bytecode::Codes;
pub use groups::Group;
pub use joint::{JointTrees, trees_of};
pub use judged::{Judged, judge, test_files};
pub use laws::{files_first, one_refusal};
pub use parts::{image_of, tokens_of};
