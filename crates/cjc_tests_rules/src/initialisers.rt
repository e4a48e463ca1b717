//! One small package, and the static fields that its initialiser fills. There is no code here but tests: a crate
//! with tests of its own is proved twice.
#[cfg(test)]
mod statics;
