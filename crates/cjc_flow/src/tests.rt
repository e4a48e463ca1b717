//! Rules 601 to 609: whether each number of a method lies where its instruction needs it, by the method's intervals.
//! It knows no token, no component, and nothing of narrow code.
mod passing;
mod rules;

pub use passing::{Tested, first_broken, passes};
