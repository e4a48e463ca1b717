//! How many entries the pool of a written export file has (Java Card Virtual Machine Specification 2.2.2, section 5.6), for
//! whoever tests that limit before it writes. It knows no index and no byte.
#![tactic(auto)]

mod constants;
mod needs;

pub use needs::pool_size;
