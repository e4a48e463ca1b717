//! What calls reach, and how many words they take: methods of the package by its tables, and methods of
//! imported classes as export files list them. Called by who runs components; it knows no frame that runs.
mod arguments;
mod calls;
mod dispatch;
mod found;
mod imported;
mod interfaces;

pub use arguments::words;
pub use calls::reached;
pub use dispatch::{dispatched_above, dispatched_on};
pub use found::Found;
pub use interfaces::{dispatched_interface, interface_method};
