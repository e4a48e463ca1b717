//! What is written for a package that breaks no rule, the type checker accepts, whichever of its methods are in int
//! mode: what it reads of each method in int mode is what is written for the method of the class file, and what its
//! instructions name in the components is what they name there. For whoever promises what `verify` answers of written
//! files. It has definitions and laws alone; nothing here runs.
#![tactic(auto)]

pub mod accepted;
pub mod methods;
pub mod read;
pub mod readable;
pub mod served;
pub mod stands;
