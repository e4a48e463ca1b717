//! Packages that are loaded together, each beside itself alone: what it imports leads to what the group has for it.
//! Whoever promises that a group runs alike cites it. It has definitions and laws alone.
ghost use Rattle.std.specs.Prelude.{◌≡◌, ℕ, List, Some, None, flat_map, is_some, slice_get, true, false};
ghost use Rattle.cjc_card_semantics.specs.CapRead.declared.tree.ExportedClass.{ExportedClass};
ghost use Rattle.cjc_card_semantics.specs.Machine.Classes.{External, Own, info_at, with_token};
ghost use Rattle.cjc_card_semantics.specs.Machine.Loaded.{Part};
ghost use Rattle.cjc_card_semantics.specs.ExportFile.declared.tree.ExportClass.{ExportClass};
ghost use Rattle.cjc_card_semantics.specs.ExportFile.declared.tree.ExportTree.{ExportTree};
ghost use Rattle.cjc_exported.specs.World.Files.{Files};
ghost use Rattle.cjc_link_semantics.specs.JvmSemantics.Group.{is_of_group, joint_exports};
ghost use Rattle.cjc_link_semantics.specs.Loaded.{Member, files_of, group_loaded, package_number, tree_number};
ghost use Rattle.cjc_joint_proof.specs.Loading.{AllLead, alone};
ghost use Rattle.cjc_joint_proof.specs.Naming.{HasEach};
ghost use Rattle.cjc_joint_proof.specs.Parts.{HasNoOther, IsPart, class_in};

/// Each package of a group has there the components and names that it has by itself, and where its imports lead to what
/// they describe, no class by a token that its export files lack.
pub fn packages_are_parts()
    ensures parts { (group : List Member) (q : ℕ) (m : Member) → slice_get group q ≡ Some m
        → IsPart (alone m) (group_loaded group) q }
    ensures no_other { (group : List Member) (q : ℕ) (m : Member) → slice_get group q ≡ Some m → AllLead group m
        → HasNoOther (alone m) (group_loaded group) q }
{}

/// Where its imports lead to what they describe, the group has each class and method of another package that a package
/// by itself can name.
pub fn what_is_imported_is_there()
    ensures { (group : List Member) (q : ℕ) (m : Member) → slice_get group q ≡ Some m → AllLead group m
        → HasEach (alone m) (group_loaded group) q }
{}

/// A package of a group is found by its name where no other has it, and none where no package has it. An export file
/// from outside that packages import is kept, under its name, where they import no other of that name.
pub fn packages_are_numbered()
    ensures inside { (group : List Member) (r : ℕ) (m : Member) → slice_get group r ≡ Some m
        → ((j : ℕ) (n : Member) → slice_get group j ≡ Some n
        → (let files = n.files in files.package_name) ≡ (let files = m.files in files.package_name) → j ≡ r)
        → package_number group (let files = m.files in files.package_name) ≡ Some r }
    ensures none { (group : List Member) (name : List ℕ) → is_of_group (files_of group) name ≡ false
        → package_number group name ≡ None }
    ensures outside { (group : List Files) (k : ℕ) (t : ExportTree)
        → slice_get (flat_map (λ (p : Files). p.exports) group) k ≡ Some t → is_of_group group t.name ≡ false
        → ((j : ℕ) (u : ExportTree) → slice_get (flat_map (λ (p : Files). p.exports) group) j ≡ Some u
        → u.name ≡ t.name → u ≡ t)
        → slice_get (joint_exports group) (tree_number (joint_exports group) t.name) ≡ Some t }
{}

/// A class of an export file that a package imports is in the group the class at the offset that Export of the file's
/// package has under its token, or the class of the file itself, where that is from outside.
pub fn imports_lead_to_classes()
    ensures inside { (group : List Member) (q : ℕ) (m : Member) → slice_get group q ≡ Some m → (k token : ℕ)
        (t : ExportTree) → (let files = m.files in slice_get files.exports k ≡ Some t) → (r : ℕ) (part : Part)
        → package_number group t.name ≡ Some r → (let l = group_loaded group in slice_get l.parts r ≡ Some part)
        → (c : ExportedClass) → slice_get part.exports token ≡ Some c → is_some (info_at part c.class_offset) ≡ true
        → class_in (group_loaded group) q (External k token) ≡ Some (Own r c.class_offset) }
    ensures outside { (group : List Member) (q : ℕ) (m : Member) → slice_get group q ≡ Some m → (k token : ℕ)
        (t : ExportTree) → (let files = m.files in slice_get files.exports k ≡ Some t) → (e : ExportClass)
        → with_token t.classes token ≡ Some e → package_number group t.name ≡ None
        → (let l = group_loaded group in slice_get l.trees (tree_number l.trees t.name) ≡ Some t)
        → class_in (group_loaded group) q (External k token) ≡ Some (External (tree_number
        (let l = group_loaded group in l.trees) t.name) token) }
{}
