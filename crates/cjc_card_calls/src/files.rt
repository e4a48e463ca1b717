//! What stands above each imported class, as export files list it, kept once for all. Called by who dispatches
//! on objects of imported classes; it knows no component and no frame that runs.
mod file;
mod files;
mod named;
mod steps;
mod upwards;

pub use files::Files;
