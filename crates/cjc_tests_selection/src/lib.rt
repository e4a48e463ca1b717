//! Tests of narrow code: its selection, its layout and its bytes.
#![tactic(auto)]

pub mod code;
pub mod selection;
