//! The tests of the sentences on what components name by token: the indices of interface maps are tokens that the
//! class has, and the constant pool names fields, methods, tokens and cells that are there. Whoever tests components
//! calls it. It knows no code.
mod entries;
mod fields;
mod maps;
mod members;
mod needs;
mod spots;
mod virtuals;

pub use spots::{MemberSpots, member_spots};
