//! A package with names and its export files, made ready to be run: all look-ups by token as one value, each by the
//! crate that answers it, and the fields of objects as a report shows them. Called by who runs components; it knows no
//! frame that runs.
mod faults;
mod group;
mod lookups;
mod shown;

pub use group::Group;
