//! A type checker of components: whether frames by token are of the types that instructions need, and whether the
//! components say of classes and members what the package says.
#![tactic(auto)]

mod acts;
mod bodies;
mod breaks;
mod checker;
mod class_types;
mod described;
mod infos;
mod kinds;
mod listed;
mod members;
mod method_body;
mod methods;
mod named;
mod package;
mod plain;
mod targets;

ghost use Rattle.std.specs.Prelude.{◌≡◌};
ghost use Rattle.cjc_bytes.specs.Breaks.{Break};
ghost use Rattle.cjc_verify.specs.Pairs.{Pair};
ghost use Rattle.cjc_verify.specs.Verified.{Breaks, IsVerified, IsRefused};

pub use checker::verify;

/// A package that is verified breaks no rule.
pub fn verified_breaks_nothing()
    ensures { (p : Pair) → IsVerified p → (broken : Break) → Breaks p broken → ⊥ }
{}
