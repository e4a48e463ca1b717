//! The components of a package, whichever of its methods are in int mode: run by token they give the report of its narrow
//! code, and behave as its class files run by name; and they are consistent. It has definitions and laws alone, and
//! nothing here runs.
#![tactic(auto)]

pub mod alike;
pub mod joined;
pub mod whole;
pub mod written;
