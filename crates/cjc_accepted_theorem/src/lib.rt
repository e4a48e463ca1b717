//! What is written for a package that breaks no rule, the type checker accepts: what that rests on is told from the
//! rules that the package does not break. For whoever promises what `verify` answers of written files. It has laws
//! alone; nothing here runs.
#![tactic(auto)]

pub mod abstracts;
pub mod carded;
pub mod coded;
pub mod converted;
pub mod entries;
pub mod headers;
pub mod read;
pub mod read_back;
pub mod served;
pub mod stands;
