//! What the tables of types and intervals say of a method in int mode is what whole runs by modes ask of it: its code
//! is what is written for its reached instructions, and each of these has its row. Definitions and laws alone: nothing
//! here runs. It knows no tokens and no components, and not how a table was computed.
#![tactic(auto)]

pub mod methods;
pub mod packages;
