//! What the tables of several packages say together of classes, objects, static fields and names is what the class
//! files of all and the export files from outside say by name. Whoever promises that a group runs alike cites it. It
//! has definitions and laws alone, and knows no instruction.
ghost use Rattle.std.specs.Prelude.{◌≡◌, ℕ, List, Some, slice_get, true};
ghost use Rattle.cjc_card_semantics.specs.Bytecode.Effects.{HeapObject, shape};
ghost use Rattle.cjc_card_semantics.specs.Bytecode.Renaming.{KnownHeapObject};
ghost use Rattle.cjc_card_semantics.specs.Bytes.declared.fault.MemberId.{MemberId};
ghost use Rattle.cjc_exported.specs.World.declared.image.StaticImage.{StaticImage};
ghost use Rattle.cjc_link_semantics.specs.Components.Package.{Package};
ghost use Rattle.cjc_link_semantics.specs.JvmSemantics.Linked.{Method};
ghost use Rattle.cjc_token_proof.specs.ByToken.Names.{NamesAgree};
ghost use Rattle.cjc_token_proof.specs.ByToken.Objects.{HasObjects};
ghost use Rattle.cjc_token_proof.specs.ByToken.Supers.{KindsAgree};
ghost use Rattle.cjc_token_proof.specs.NCode.Lowering.Agreement.{known_by};
ghost use Rattle.cjc_token_proof.specs.NCode.Lowering.Handlers.{IsObject};
ghost use Rattle.cjc_token_proof.specs.NCode.declared.narrow.NMethod.{NMethod};
ghost use Rattle.cjc_token_proof.specs.Tables.Known.{may_hold, may_name};
ghost use Rattle.cjc_token_proof.specs.Tables.Sound.{AreTyped};
ghost use Rattle.cjc_token_proof.specs.Tables.Tables.{ClassTablesAgree};
ghost use Rattle.cjc_joint_proof.specs.Begun.{AreBegun};
ghost use Rattle.cjc_joint_proof.specs.JointAlike.{naming_at};
ghost use Rattle.cjc_joint_proof.specs.JointNames.{joint_named};
ghost use Rattle.cjc_joint_proof.specs.JointPackages.{AreLinked, files_together};
ghost use Rattle.cjc_joint_proof.specs.JointTables.{KeepSupers, known_together, memories_together, world_together};
ghost use Rattle.cjc_joint_proof.specs.JointTogether.{naming_together};
ghost use Rattle.cjc_joint_proof.specs.Worlds.{AreApart, AreApartFromOutside};

use cjc_token_proof::by_token::{standing_names_agree, steps_are_subtypes};

/// The classes of packages that link with one another, and of the export files from outside, stand apart from one
/// another.
pub fn linked_classes_are_apart()
    ensures own { (packages : List Package) → AreLinked packages → AreApart (files_together packages) }
    ensures outside { (packages : List Package) → AreLinked packages → AreApartFromOutside (files_together packages) }
{}

/// A type of a group is of another by token exactly where it is a subtype in the world of all packages, whichever
/// packages the classes are of; and names of scripts, exceptions and reports stand for the same there. The group has a
/// package, and so the export file of java/lang.
pub fn joint_classes_are_told()
    ensures types { (packages : List Package) → AreLinked packages → KeepSupers packages → (first : Package)
        → slice_get packages 0 ≡ Some first → (q : ℕ)
        → KindsAgree (world_together packages) (naming_at (naming_together packages) q) }
    ensures names { (packages : List Package) → AreLinked packages → KeepSupers packages → (first : Package)
        → slice_get packages 0 ≡ Some first → (q : ℕ)
        → NamesAgree (world_together packages) (naming_at (naming_together packages) q) }
{
    steps_are_subtypes();
    standing_names_agree();
}

/// An object of a class of a group has by token the fields that it has by name, whichever packages its superclasses are
/// of.
pub fn joint_objects_are_told()
    ensures { (packages : List Package) → AreLinked packages → KeepSupers packages
        → ((q : ℕ) (p : Package) → slice_get packages q ≡ Some p → AreTyped p.files) → (x : List ℕ)
        (fields : List MemberId) → may_hold (world_together packages) x fields ≡ true → HasObjects (naming_at
        (naming_together packages) 0) (may_name (world_together packages)) x fields }
{}

/// All that the run of narrow code by label and the run of components by token ask of the classes, objects, static
/// fields, names and reports of a group is the same, for the names that it may have, whichever package's code asks.
pub fn joint_class_tables_agree()
    ensures { (packages : List Package) (image : StaticImage) (code : Method → NMethod) (first : Package)
        → slice_get packages 0 ≡ Some first → AreLinked packages → KeepSupers packages → AreBegun packages → (q : ℕ)
        → ClassTablesAgree (naming_at (naming_together packages) q) (memories_together packages)
        (joint_named (files_together packages) image code) (known_by (known_together packages)) }
{}

/// Whatever is known of a group is of java/lang/Object by name: objects of the packages' classes, over superclasses up
/// to one from outside, which lists it, and arrays.
pub fn joint_things_are_objects()
    ensures { (packages : List Package) (image : StaticImage) (code : Method → NMethod) (first : Package)
        → slice_get packages 0 ≡ Some first → AreLinked packages → KeepSupers packages → AreBegun packages
        → (t : HeapObject (List ℕ) MemberId) → KnownHeapObject (known_by (known_together packages)) t
        → IsObject (joint_named (files_together packages) image code) (shape t) }
{}
