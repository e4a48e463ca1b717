//! Whole runs of components by token, over the look-ups of one package.
#![tactic(auto)]

// Lower crates, for those above.
/// What crates above take of export_file.
pub mod export_file {
    pub use cjc_card_semantics::export_file::ExportTree;
}

/// What crates above take of cjc_script.
pub mod script {
    pub use cjc_script::{Report, Script};
}

/// What crates above take of world.
pub mod world {
    pub use cjc_card_frame::world::StaticImage;
}

/// What crates above take of check_rules.
pub mod check_rules {
    pub use cjc_card_calls::check_rules::consistent_where_unbroken;
}

/// What crates above take of check_index.
pub mod check_index {
    pub use cjc_card_calls::check_index::lookup;
}

/// What crates above take of cjc_card_frame.
pub mod card_frame {
    pub use cjc_card_frame::parts;
}

/// What crates above take of cjc_jvm.
pub mod jvm {
    pub use cjc_jvm::runs;
}

pub mod acts;
pub mod group;
pub mod runs;
pub mod turns;
