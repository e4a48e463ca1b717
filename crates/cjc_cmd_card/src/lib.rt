//! The command card.
#![tactic(auto)]

// Lower crates, for those above.
/// What crates above take of bytes.
pub mod bytes {
    pub use cjc_cmd_check::bytes::{Bytes, Fault, NoMemory, Row};
}

/// What crates above take of shelf.
pub mod shelf {
    pub use cjc_cmd_jvm::shelf::{Shelf, command};
}

/// What crates above take of script_text.
pub mod script_text {
    pub use cjc_cmd_jvm::script_text::{print, read};
}

/// What crates above take of world.
pub mod world {
    pub use cjc_card::world::StaticImage;
}

/// What crates above take of check_rules.
pub mod check_rules {
    pub use cjc_card::check_rules::consistent_where_unbroken;
}

/// What crates above take of check_index.
pub mod check_index {
    pub use cjc_card::check_index::lookup;
}

/// What crates above take of check.
pub mod check {
    pub use cjc_cmd_check::check::Checked;
}

/// What crates above take of card_frame.
pub mod card_frame {
    pub use cjc_card::card_frame::parts;
}

/// What crates above take of card_link.
pub mod card_link {
    pub use cjc_pairing::card_link::{ClassNames, GroupPart, Import};
}

/// What crates above take of jvm.
pub mod jvm {
    pub use cjc_card::jvm::runs;
}

/// What crates above take of cjc_card.
pub mod card {
    pub use cjc_card::{group, runs};
}

/// What crates above take of jvm_link.
pub mod jvm_link {
    pub use cjc_cmd_jvm::jvm_link::{GroupLinks, Package, indices_of, joint_image, joint_world};
}

/// What crates above take of cjc_pairing.
pub mod pairing {
    pub use cjc_pairing::{card_names, test_pair};
}

/// What crates above take of exported.
pub mod exported {
    pub use cjc_shape::exported::export_file;
}

/// What crates above take of judge.
pub mod judge {
    pub use cjc_shape::judge::{Codes, JointTrees, Judged, image_of, tokens_of, trees_of};
}

/// What crates above take of cjc_cmd_jvm.
pub mod cmd_jvm {
    pub use cjc_cmd_jvm::{report, running};
}

/// What crates above take of cjc_cmd_check.
pub mod cmd_check {
    pub use cjc_cmd_check::{checking, folder};
}

pub mod report;
pub mod running;
