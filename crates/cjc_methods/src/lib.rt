//! The methods of a package as they are written: in the order of Method (Java Card Virtual Machine Specification 2.2.2,
//! section 6.9), the narrow code of each by the indices of the package's own constant pool. Whoever converts a package
//! calls it. It knows no token and no offset.
#![tactic(auto)]

// Lower crates, for those above.
/// What crates above take of cjc_bytes.
pub mod bytes {
    pub use cjc_bytes::{Fault, NoMemory, Row, RulePlace, answer, broken};
}

/// What crates above take of export_file.
pub mod export_file {
    pub use cjc_world::export_file::{ExportTree, pool_size};
}

/// What crates above take of cjc_world.
pub mod world {
    pub use cjc_world::{Found, StaticImage, World};
}

/// What crates above take of class_order.
pub mod class_order {
    pub use cjc_components::class_order::classes;
}

/// What crates above take of tokens.
pub mod tokens {
    pub use cjc_components::tokens::Tokens;
}

/// What crates above take of cjc_check.
pub mod check {
    pub use cjc_check::{Checked, codes};
}

/// What crates above take of cjc_pool.
pub mod pool {
    pub use cjc_pool::{Pool, build};
}

mod codes;
pub mod component;
mod keeping;
mod laws;
pub mod layouts;
mod method;
mod modes;
mod order;
mod places;
mod reached;
mod selecting;
mod words;

pub use codes::narrow_codes;
pub use laws::{codes_are_by_their_own_pool, methods_can_be_laid_out};
pub use modes::any_in_int_mode;
pub use order::{method_order, methods_are_own, put_methods};
pub use words::{method_spot, test_words};
