//! The tests of sentences that look nothing up: sizes and counts of Directory, flags of Header, imported
//! packages, stop bits, and the static field image. Whoever tests components calls them. It knows no class_ref
//! and no code.
mod directory;
mod handlers;
mod imports;
mod listed;
mod statics;

pub use directory::directory_spot;
pub use handlers::stop_spot;
pub use imports::import_spot;
pub use listed::flags_spot;
pub use statics::image_spot;
