//! The least intervals of a method's numbers over its type table, by the solver of dataflow problems, with rows where
//! ways meet. It knows no token, no component, and nothing of narrow code.
#![tactic(auto)]

// Lower crates, for those above.
/// What crates above take of cjc_types.
pub mod types {
    pub use cjc_types::{
        Cell, Frame, InferError, Method, Operands, TypeTable, TypeWalk, infer_method,
    };
}

mod arrival;
mod elements;
mod entry;
mod intervals;
mod ranging;
mod repeats;
mod state;
mod steps;
mod targets;
pub mod tests;
mod values;

pub use intervals::Intervals;
pub use ranging::{RangeTable, Ranging};
pub use state::Ranges;
