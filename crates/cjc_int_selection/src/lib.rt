//! Which methods of a package can be selected in int mode, where they keep the rules that a conversion has tested
//! before it writes code, and that bytes can say what is written then. Definitions and laws alone: nothing here runs.
#![tactic(auto)]

pub mod code;
pub mod methods;
