//! The tests of the sentences on code: that jumps land and code does not fall off, indices name entries of the right
//! tag, handlers stand, and ReferenceLocation lists the indices. Whoever tests components calls them on methods that
//! are cut. It knows no class.
mod handlers;
mod indices;
mod jumps;
mod locations;

pub use handlers::handler_spot;
pub use indices::{IndexAt, all_indices, index_spot};
pub use jumps::jump_spot;
pub use locations::location_spot;
