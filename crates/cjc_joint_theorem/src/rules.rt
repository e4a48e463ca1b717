//! The rules of types over the classes of two worlds: a method that breaks none in its package's own world breaks none
//! in the joint one, where what is a subtype stays one. It has laws alone.
ghost use Rattle.std.specs.Prelude.{ℕ, List, Option};
ghost use Rattle.cjc_world.specs.Classes.{Class};
ghost use Rattle.cjc_types.specs.declared.state.State.{State};
ghost use Rattle.cjc_types.specs.Flow.{Body};
ghost use Rattle.cjc_types.specs.Tables.{Breach};
ghost use Rattle.cjc_joint_theorem.specs.Rules.{SupersStay, CallsStay, SpecialsFit, SpecialsStay};

/// A method that breaks one of 501 to 503 among more classes breaks it among fewer, where subtypes stay, and what its
/// reached calls take as their receiver is of the class that they take among more.
pub fn broken_rules_were_broken()
    ensures { (v w : List Class) → SupersStay v w → (b : Body) (rows : List (Option State))
        → CallsStay v w b rows → (place rule : ℕ) → Breach w b rows place rule → Breach v b rows place rule }
{}

/// Only an invokespecial of what is no constructor may take another receiver among more classes.
pub fn other_calls_stay()
    ensures { (v w : List Class) (b : Body) (rows : List (Option State)) → SpecialsStay v w b rows
        → CallsStay v w b rows }
{}

/// Nor does that take another one where it calls a private method of the class that holds the code, and any other by a
/// class above that one.
pub fn specials_stay()
    ensures { (v w : List Class) → SupersStay v w → (b : Body) (rows : List (Option State)) → SpecialsFit v b rows
        → SpecialsStay v w b rows }
{}
