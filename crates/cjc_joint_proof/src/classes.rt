//! What class_refs and names of classes mean where packages are loaded together that link with one another as they were
//! converted: the class of the name, whoever names it; and so the packages hold their methods there. Whoever promises
//! that a group runs alike cites it. It has definitions and laws alone.
ghost use Rattle.std.specs.Prelude.{◌≡◌, ℕ, List, Some, slice_get};
ghost use Rattle.cjc_card_semantics.specs.Machine.Classes.{class_named as class_on_card, class_of};
ghost use Rattle.cjc_exported.specs.World.Classes.{Class, class_named};
ghost use Rattle.cjc_link_semantics.specs.Components.Names.{class_ref};
ghost use Rattle.cjc_link_semantics.specs.Components.Package.{Package, world};
ghost use Rattle.cjc_link_semantics.specs.Loaded.{group_loaded};
ghost use Rattle.cjc_token_proof.specs.WrittenCalls.Standing.{AreReady};
ghost use Rattle.cjc_joint_proof.specs.JointAlike.{AllHold};
ghost use Rattle.cjc_joint_proof.specs.JointPackages.{AreLinked, class_together};
ghost use Rattle.cjc_joint_proof.specs.JointTogether.{NamesOwnFields, methods_together, naming_together};
ghost use Rattle.cjc_joint_proof.specs.Loading.{AllLead, ListsMethods, group_of, member_of};

use cjc_token_proof::written_calls::methods_stand;

/// A class_ref of a package means in the group the class of its name, and so does the name itself, for each class that
/// the package or one of its export files has.
pub fn classes_mean_their_names()
    ensures refs { (packages : List Package) → AreLinked packages → (q : ℕ) (p : Package)
        → slice_get packages q ≡ Some p → (x : List ℕ) (c : Class) → class_named (world p) x ≡ Some c
        → class_of (group_loaded (group_of packages)) q (class_ref p x) ≡ Some (class_together packages x) }
    ensures names { (packages : List Package) → AreLinked packages → (q : ℕ) (p : Package)
        → slice_get packages q ≡ Some p → (x : List ℕ) (c : Class) → class_named (world p) x ≡ Some c
        → class_on_card (group_loaded (group_of packages)) x ≡ Some (class_together packages x) }
{}

/// Imports of packages that link with one another lead to what their export files describe, where Export of each has the
/// static methods and constructors that its export file lists.
pub fn linked_imports_lead()
    ensures { (packages : List Package) → AreLinked packages
        → ((q : ℕ) (p : Package) → slice_get packages q ≡ Some p → ListsMethods p) → (q : ℕ) (p : Package)
        → slice_get packages q ≡ Some p → AllLead (group_of packages) (member_of p) }
{}

/// Packages that can be laid out, whose imports lead to what they describe and whose code names fields of its own
/// classes alone, hold their methods where they are loaded together, under the names that all have there.
pub fn packages_hold_their_methods()
    ensures { (packages : List Package) → AreLinked packages
        → ((q : ℕ) (p : Package) → slice_get packages q ≡ Some p → AllLead (group_of packages) (member_of p))
        → ((q : ℕ) (p : Package) → slice_get packages q ≡ Some p → NamesOwnFields p)
        → ((q : ℕ) (p : Package) → slice_get packages q ≡ Some p → AreReady p)
        → AllHold (naming_together packages) (methods_together packages) }
{
    methods_stand();
}
