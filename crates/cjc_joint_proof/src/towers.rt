//! Dispatch by token through the packages of a group: the tables of a class are those that its package has by itself,
//! and above them those of the class that the group has for the first imported one. Whoever promises that a group runs
//! alike cites it. It has definitions and laws alone.
ghost use Rattle.std.specs.Prelude.{◌≡◌, ◌≤◌, ◌+◌, ◌==◌, ℕ, List, [], ◌∷◌, Some, false, slice_get};
ghost use Rattle.cjc_card_semantics.specs.Bytes.AccessFlags.{is_interface};
ghost use Rattle.cjc_card_semantics.specs.Bytes.declared.fault.MemberId.{MemberId};
ghost use Rattle.cjc_card_semantics.specs.Machine.Classes.{Class, Own, depth};
ghost use Rattle.cjc_card_semantics.specs.Machine.Dispatch.{At, Outward, Tower, above, dispatched_hidden};
ghost use Rattle.cjc_card_semantics.specs.Machine.Dispatch.{dispatched_open, tower};
ghost use Rattle.cjc_card_semantics.specs.Machine.Loaded.{Loaded};
ghost use Rattle.cjc_exported.specs.World.Classes.{Class as WorldClass, class_named};
ghost use Rattle.cjc_link_semantics.specs.Components.Package.{Package, world};
ghost use Rattle.cjc_joint_proof.specs.JointPackages.{AreLinked, class_together};
ghost use Rattle.cjc_joint_proof.specs.JointTowers.{GoesOn, KeepsDispatch, loaded_together};
ghost use Rattle.cjc_joint_proof.specs.Loading.{AllLead, group_of, member_of};
ghost use Rattle.cjc_joint_proof.specs.Parts.{HasNoOther, IsPart, class_in};
ghost use Rattle.cjc_joint_proof.specs.Towers.{IsOwnTower, Reaches, Stands, onto};

use cjc_vtable::{dispatch_laws, token_laws};
use cjc_world::lookup_laws;

/// The tower of a class of a package has in the group the tables that it has by itself, and above them the tower of the
/// class that the group has for the first imported one.
pub fn towers_go_on()
    ensures tables { (alone group : Loaded) (q : ℕ) → IsPart alone group q → HasNoOther alone group q
        → (height more offset : ℕ) (first d : Class) → Reaches alone height (Own 0 offset) first
        → class_in group q first ≡ Some d → Stands group more d → height ≤ depth alone → height + more ≤ depth group
        → tower group (Own q offset) ≡ onto q (tower alone (Own 0 offset)) (tower group d) }
    ensures heights { (alone group : Loaded) (q : ℕ) → IsPart alone group q → HasNoOther alone group q
        → (height more : ℕ) (x first d y : Class) → Reaches alone height x first → class_in group q first ≡ Some d
        → class_in group q x ≡ Some y → Stands group more d → Stands group (height + more) y }
    ensures own { (alone : Loaded) (height offset : ℕ) (first : Class) → Reaches alone height (Own 0 offset) first
        → height ≤ depth alone → IsOwnTower (tower alone (Own 0 offset)) }
{}

/// Dispatch by a token that finds a method of the package by itself finds it in the group; where by itself it makes the
/// event of the first imported class, it goes on in that class's package. Dispatch by a package-visible token passes
/// over the tables of other packages.
pub fn dispatch_goes_on()
    ensures stays { (q : ℕ) (t end : Tower) (token offset : ℕ) → IsOwnTower t → dispatched_open t token ≡ At 0 offset
        → dispatched_open (onto q t end) token ≡ At q offset }
    ensures outward { (q : ℕ) (t end : Tower) (token : ℕ) (id : MemberId) → IsOwnTower t
        → dispatched_open t token ≡ Outward id → dispatched_open (onto q t end) token ≡ dispatched_open end token }
    ensures hidden { (q : ℕ) (t end : Tower) (token offset : ℕ) → IsOwnTower t
        → dispatched_hidden t 0 token ≡ At 0 offset → dispatched_hidden (onto q t end) q token ≡ At q offset }
    ensures passed { (q r : ℕ) (t end : Tower) (token : ℕ) → IsOwnTower t → (q == r) ≡ false
        → dispatched_hidden (onto q t end) r token ≡ dispatched_hidden end r token }
{}

/// On an object of a class of a package that links with others, dispatch by token finds in the group each method of the
/// package's own class files that the package by itself finds; where it finds an imported one there, the group goes on
/// at the first imported class above, as that stands in its own package. A package-visible token of another package
/// passes over the package's classes.
pub fn joint_dispatch_goes_on()
    ensures { (packages : List Package) → AreLinked packages
        → ((q : ℕ) (p : Package) → slice_get packages q ≡ Some p → AllLead (group_of packages) (member_of p))
        → ((q : ℕ) (p : Package) → slice_get packages q ≡ Some p → KeepsDispatch p) → (q : ℕ) (p : Package)
        → slice_get packages q ≡ Some p → (x : List ℕ) (c : WorldClass) → class_named (world p) x ≡ Some c
        → is_interface c.flags ≡ false → c.is_imported ≡ false → GoesOn packages q p x }
{
    dispatch_laws();
    lookup_laws();
    token_laws();
}

/// What stands above the tables of a class of a package in the group is the tower of its superclass there, whichever
/// package that is of: a call of a superclass's method is dispatched from there.
pub fn joint_superclasses_stand_above()
    ensures { (packages : List Package) → AreLinked packages
        → ((q : ℕ) (p : Package) → slice_get packages q ≡ Some p → AllLead (group_of packages) (member_of p))
        → ((q : ℕ) (p : Package) → slice_get packages q ≡ Some p → KeepsDispatch p) → (q : ℕ) (p : Package)
        → slice_get packages q ≡ Some p → (x : List ℕ) (c : WorldClass) → class_named (world p) x ≡ Some c
        → is_interface c.flags ≡ false → c.is_imported ≡ false → (super : List ℕ) → c.supers ≡ super ∷ []
        → above (tower (loaded_together packages) (class_together packages x))
        ≡ tower (loaded_together packages) (class_together packages super) }
{
    dispatch_laws();
    lookup_laws();
    token_laws();
}
