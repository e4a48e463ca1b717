//! What stands above each class of a group and of the export files that it imports, kept once for all; and by it which
//! types are of others, and which handler takes an exception. Called by who runs components; it knows no frame that
//! runs.
mod every;
mod handlers;
mod kinds;
mod lines;

pub use handlers::{are_near, handler};
pub use kinds::{is_kind_of, is_of, shape_class};
pub use lines::{Lines, nothing_above};
