//! Tokens, image, narrow code and layouts of a package that broke no rule.
#![tactic(auto)]

// Lower crates, for those above.
/// What crates above take of cjc_methods.
pub mod methods {
    pub use cjc_methods::methods_can_be_laid_out;
}

/// What crates above take of cjc_exported.
pub mod exported {
    pub use cjc_exported::{export_file, export_laws};
}

/// What crates above take of cjc_judge.
pub mod judge {
    pub use cjc_judge::{
        Codes, Group, JointTrees, Judged, files_first, image_of, judge, test_files, tokens_of,
        trees_of,
    };
}

pub mod judged;
pub mod prepared;
pub mod whole;
