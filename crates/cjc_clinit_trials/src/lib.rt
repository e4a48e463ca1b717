//! One small package, and what the calls of initialisers answer of it. There is no code here but tests: a crate
//! with tests of its own is proved twice.
#![tactic(auto)]

#[cfg(test)]
mod statics;
