//! Selection preserves runs: narrow code does by label what class files do by name.
#![tactic(auto)]

// Lower crates, for those above.
/// What crates above take of cjc_types.
pub mod types {
    pub use cjc_types::State;
}

/// What crates above take of cjc_intervals.
pub mod intervals {
    pub use cjc_intervals::range_laws;
}

/// What crates above take of cjc_ncode.
pub mod ncode {
    pub use cjc_ncode::lowering;
}

/// What crates above take of cjc_emit.
pub mod emit {
    pub use cjc_emit::emit_laws;
}

pub mod laws;
pub mod names;
pub mod runs;
pub mod selected;
pub mod selection;
pub mod tables;
