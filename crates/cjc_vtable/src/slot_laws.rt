//! What the slots of a class mean: each has a method, and each method that a class is asked for by its interfaces has a
//! slot. For whoever calls methods by token, or says that a token is there. Nothing here runs.
ghost use Rattle.std.specs.Prelude.{List};
ghost use Rattle.cjc_world.specs.Classes.{Class};
ghost use Rattle.cjc_vtable.specs.Laws.{KeepsInterfaces, KeepsRules};
ghost use Rattle.cjc_vtable.specs.Meant.{AreNumbered, AskedHaveTokens, HaveOneAccess, PackageTokensMean, TokensMean};

use cjc_world::lookup_laws;

/// Each token of a class that is no interface means a method, by dispatch on the objects of the class: one that
/// the class or the nearest superclass declares or got, with the name and the descriptor that have the token.
/// So does each package-visible one.
pub fn tokens_mean_methods()
    ensures public { (w : List Class) → KeepsRules w → AreNumbered w → TokensMean w }
    ensures package_visible { (w : List Class) → KeepsRules w → PackageTokensMean w }
{
    lookup_laws();
}

/// Each method of an interface of a class of the package has a token there: a class that is not abstract has a public
/// method for it, and an abstract one gets what it lacks.
pub fn asked_methods_have_tokens()
    ensures { (w : List Class) → KeepsRules w → KeepsInterfaces w → HaveOneAccess w → AskedHaveTokens w }
{
    lookup_laws();
}
