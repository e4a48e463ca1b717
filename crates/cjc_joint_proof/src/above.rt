//! What stands above a class in the world of its package stands above it in the joint world of a group, whose packages
//! import the export files of packages before them and those from outside. Whoever promises that a group runs alike
//! cites it. It has definitions and laws alone.
ghost use Rattle.std.specs.Prelude.{◌≡◌, ℕ, List, Some, slice_get, true};
ghost use Rattle.cjc_exported.specs.World.Classes.{all_classes};
ghost use Rattle.cjc_exported.specs.World.Files.{Files};
ghost use Rattle.cjc_exported.specs.World.Subtype.{is_subtype};
ghost use Rattle.cjc_exported.specs.World.Supertypes.{Above};
ghost use Rattle.cjc_link_semantics.specs.JvmSemantics.Group.{joint};
ghost use Rattle.cjc_joint_proof.specs.Imports.{AreImports};
ghost use Rattle.cjc_joint_proof.specs.Worlds.{AreApart, AreApartFromOutside};

/// Each class or interface that stands above another in the world of a package stands above it in the joint world, and
/// each type that is a subtype of another there is one here.
pub fn supertypes_stay()
    ensures above { (group : List Files) → AreApart group → AreApartFromOutside group → AreImports group
        → (i : ℕ) (p : Files) → slice_get group i ≡ Some p → (x y : List ℕ) → Above (all_classes p) x y
        → Above (all_classes (joint group)) x y }
    ensures subtypes { (group : List Files) → AreApart group → AreApartFromOutside group → AreImports group
        → (i : ℕ) (p : Files) → slice_get group i ≡ Some p → (x y : List ℕ)
        → is_subtype (all_classes p) x y ≡ true → is_subtype (all_classes (joint group)) x y ≡ true }
{}
