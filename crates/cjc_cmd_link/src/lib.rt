//! The commands link and linkjvm: packages that run together, by what a text names.
#![tactic(auto)]

mod joint;
mod members;
mod reads;
mod running;
mod tokens;

pub use running::{gather_link, gather_linkjvm};
