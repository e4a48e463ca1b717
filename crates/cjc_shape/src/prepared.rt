//! What holds of each package that breaks no rule of its files. For whoever writes one; it has definitions and laws
//! alone, and nothing here runs.
mod laws;

pub use laws::sound_packages_are_ready;
