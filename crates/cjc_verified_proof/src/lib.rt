//! What the rules of the type checker say of the components of a package, as the laws of what a row keeps ask for it.
#![tactic(auto)]

// Lower crates, for those above.
/// What crates above take of cjc_world.
pub mod world {
    pub use cjc_world::lookup_laws;
}

/// What crates above take of layout.
pub mod layout {
    pub use cjc_components::layout::layouts_are_laid_out;
}

/// What crates above take of cjc_verify.
pub mod verify {
    pub use cjc_verify::verify;
}

/// What crates above take of cjc_token_proof.
pub mod token_proof {
    pub use cjc_token_proof::{by_token, calls, tables};
}

pub mod checked;
pub mod coded;
pub mod declared;
pub mod dispatch;
pub mod entries;
pub mod flags;
pub mod images;
pub mod infos;
pub mod plain;
pub mod supers;
