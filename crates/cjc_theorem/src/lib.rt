//! The theorem: the class files of a package that broke no rule, run by name, and its components, run by token,
//! behave alike, and the components are consistent.
#![tactic(auto)]

// Lower crates, for those above.
/// What crates above take of cjc_vtable.
pub mod vtable {
    pub use cjc_vtable::{dispatch_laws, package_laws, slot_laws, token_laws};
}

/// What crates above take of cjc_shape_proof.
pub mod shape_proof {
    pub use cjc_shape_proof::written;
}

pub mod alike;
pub mod fair_exports;
pub mod fair_writing;
pub mod sound_runs;
pub mod whole_runs;
