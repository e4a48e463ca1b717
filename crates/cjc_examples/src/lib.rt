//! Worked packages as theorems, outside the product.
#![tactic(auto)]

pub mod components;
pub mod hierarchy;
pub mod intervals;
pub mod narrow;
