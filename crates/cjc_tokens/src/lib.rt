//! The tokens of the classes and members of a package (Java Card Virtual Machine Specification 2.2.2, section 4.3.7).
#![tactic(auto)]

mod assigning;
mod class;
mod fields;
mod growing;
mod imports;
mod indexed;
mod interfaces;
mod laws;
mod line;
mod listed;
mod method_name;
mod methods;
mod slot;
mod taking;
pub mod token_laws;
mod tokens;
mod told;

pub use assigning::{assign, few, first_high};
pub use indexed::IndexedRow;
pub use interfaces::interface_methods;
pub use laws::interface_laws;
pub use slot::{Slot, is_exposed, is_virtual, token};
pub use tokens::Tokens;
pub use told::{Shown, Told, imported_token, told_at};
