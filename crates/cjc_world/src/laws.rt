//! What holds of look-up, selection and subtypes, for every caller. Nothing here runs.

ghost use Rattle.std.specs.Prelude.{◌≡◌, ℕ, List, []};
ghost use Rattle.cjc_world.specs.Classes.{Class, all_classes};
ghost use Rattle.cjc_world.specs.Files.{Files};
ghost use Rattle.cjc_world.specs.Supertypes.{IsAcyclic, AreSupertypes, Supertypes, StandsWhereAbove, supertypes};
ghost use Rattle.cjc_world.specs.Rules.{breaks};
ghost use Rattle.cjc_world.specs.Laws.{IsReflexive, IsTransitive, LineGoesUp, LookupGoesUp, SelectionGoesUp};

/// In every world, one with cycles too: one class stands above another exactly where its name stands in the tree,
/// and subtypes are reflexive and transitive.
pub fn subtype_laws()
    ensures stands { (w : List Class) → StandsWhereAbove w }
    ensures reflexive { (w : List Class) → IsReflexive w }
    ensures transitive { (w : List Class) → IsTransitive w }
{}

/// A package that breaks no rule has no cycles. Without cycles there is one tree of what stands above some
/// names, and `supertypes` is it. Look-up and selection from a class go through its superclass.
pub fn lookup_laws()
    ensures acyclic { (list : List ℕ) (files : Files) → breaks list files ≡ [] → IsAcyclic (all_classes files) }
    ensures are_supertypes { (w : List Class) → IsAcyclic w → (xs : List (List ℕ))
        → AreSupertypes w xs (supertypes w xs) }
    ensures one_supertypes { (w : List Class) (xs : List (List ℕ)) (j k : Supertypes) → AreSupertypes w xs j
        → AreSupertypes w xs k → j ≡ k }
    ensures line { (w : List Class) → IsAcyclic w → LineGoesUp w }
    ensures selection { (w : List Class) → IsAcyclic w → SelectionGoesUp w }
    ensures lookup { (w : List Class) → IsAcyclic w → LookupGoesUp w }
{}
