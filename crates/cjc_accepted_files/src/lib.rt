//! What a conversion writes, read back beside the files that it was made from, breaks no rule that the type checker's
//! command tests: each component reads as it was written, the components are consistent and of their package, and its
//! code stands where each method has a closed table. For whoever promises what that command answers of written files.
//! It has laws alone; nothing here runs.
#![tactic(auto)]

pub mod folder;
pub mod paired;
pub mod short;
pub mod unbroken;
