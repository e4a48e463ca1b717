//! The static cells of several packages before the first entry: what they hold by name is what the images hold. Whoever
//! promises that a group runs alike cites it. It has definitions and laws alone.
ghost use Rattle.std.specs.Prelude.{◌≡◌, ℕ, List, map, true};
ghost use Rattle.cjc_card_semantics.specs.Bytes.declared.fault.MemberId.{MemberId};
ghost use Rattle.cjc_card_semantics.specs.Bytecode.Effects.{Slot};
ghost use Rattle.cjc_card_semantics.specs.Bytecode.Renaming.{memory_as};
ghost use Rattle.cjc_card_semantics.specs.Machine.Classes.{Class, Field};
ghost use Rattle.cjc_card_semantics.specs.Machine.Statics.{first_images, first_memory as first_on_card};
ghost use Rattle.cjc_link_semantics.specs.JvmSemantics.Group.{joint, joint_classes, joint_image};
ghost use Rattle.cjc_link_semantics.specs.JvmSemantics.OnePackage.{cells};
ghost use Rattle.cjc_exported.specs.Narrow.Rows.Package.{first_cell, first_memory};
ghost use Rattle.cjc_link_semantics.specs.Components.Package.{Package};
ghost use Rattle.cjc_link_semantics.specs.Loaded.{group_loaded};
ghost use Rattle.cjc_joint_proof.specs.Begun.{AreBegun, all_files, all_images, statics_in};
ghost use Rattle.cjc_card_semantics.specs.Machine.ByToken.{shown_cells};
ghost use Rattle.cjc_token_proof.specs.NCode.ByLabel.{shown_slot};
ghost use Rattle.cjc_token_proof.specs.NCode.Lowering.Agreement.{Cells};
ghost use Rattle.cjc_token_proof.specs.ByToken.Cells.{are_cells};
ghost use Rattle.cjc_joint_proof.specs.Cells.{HaveCells, all_fields, images_of};
ghost use Rattle.cjc_joint_proof.specs.Loading.{group_of};
ghost use Rattle.cjc_joint_proof.specs.Worlds.{AreApart};
ghost use Rattle.cjc_joint_proof.specs.Memory.{AllBegin, First, all_cells, fields_in, images_from};

/// Where each package's image holds at first what its cells hold by name, so do the images of all, each package's
/// arrays behind those of the packages before.
pub fn joint_static_fields_begin()
    ensures { (before : ℕ) (group : List First) → AllBegin before group → HaveCells (fields_in group)
        → images_from before group ≡ images_of (fields_in group) (map first_cell (all_cells before group)) }
{}

/// Packages of a group, each of which holds at first what its initialisers leave, hold together in their images what
/// the static cells of the joint run by name hold at first, and the same arrays, under whatever names of classes.
pub fn joint_memories_begin_alike()
    ensures statics { (packages : List Package) → AreBegun packages → AreApart (all_files packages)
        → (let l = group_loaded (group_of packages) in first_images 0 l.parts)
        ≡ images_of (map statics_in packages) (map first_cell (cells (joint_image (all_images packages))
        (joint_classes (all_files packages)))) }
    ensures memory { (class : List ℕ → Class) (slots : List ℕ → List (Slot MemberId) → List (Slot Field))
        (packages : List Package) → AreBegun packages → AreApart (all_files packages)
        → first_on_card (group_loaded (group_of packages))
        ≡ memory_as class slots (images_of (map statics_in packages)) (first_memory (joint (all_files packages))
        (joint_image (all_images packages))) }
{}

/// The static fields of these packages have cells of their own, so that what instructions ask of them is the same by
/// name and in the images; and a report shows them by the names of the packages' cells.
pub fn joint_cells_are_shown()
    ensures have { (packages : List Package) → AreBegun packages → AreApart (all_files packages)
        → HaveCells (map statics_in packages) }
    ensures shown { (packages : List Package) → AreBegun packages → AreApart (all_files packages) → (x : Cells)
        → are_cells (all_fields (map statics_in packages)) x ≡ true
        → (let l = group_loaded (group_of packages) in shown_cells 0 l.parts (images_of (map statics_in packages) x))
        ≡ map shown_slot x }
{}
