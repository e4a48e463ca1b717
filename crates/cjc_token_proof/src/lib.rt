//! Running components by token is running narrow code.
#![tactic(auto)]

pub mod by_token;
pub mod calls;
pub mod components;
pub mod tables;
pub mod written_calls;
pub mod written_sends;
