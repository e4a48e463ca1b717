//! The superclasses and the interfaces of a class by their names, those that no file has too: for the export
//! file that is written, which keeps them. It stands on the look-up of classes alone.
mod seen;
mod upwards;

pub use upwards::{interfaces, superclasses};
