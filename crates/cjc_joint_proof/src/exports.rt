//! The export file of a package and its Export component have the same classes by the same tokens. Whoever promises
//! that imports lead to what export files describe cites it. It has laws alone.
ghost use Rattle.std.specs.Prelude.{◌≡◌, ℕ, List, None, Some, is_some, option_map, slice_get, true};
ghost use Rattle.cjc_card_semantics.specs.Machine.Classes.{External, Own, class_of, info_of, with_token};
ghost use Rattle.cjc_exported.specs.World.Classes.{Class};
ghost use Rattle.cjc_card_semantics.specs.ExportFile.declared.tree.ExportClass.{ExportClass};
ghost use Rattle.cjc_link_semantics.specs.Components.ExportFile.{export_class, export_of};
ghost use Rattle.cjc_link_semantics.specs.Components.Exports.{export, exported_class, exported_classes};
ghost use Rattle.cjc_link_semantics.specs.Components.Names.{class_ref};
ghost use Rattle.cjc_link_semantics.specs.Components.Package.{Package};
ghost use Rattle.cjc_link_semantics.specs.Components.Paired.Naming.{exported_in};
ghost use Rattle.cjc_link_semantics.specs.Loaded.{group_loaded, package_number, tree_number};
ghost use Rattle.cjc_token_proof.specs.Tables.Infos.{HasEntry, HasInfo};
ghost use Rattle.cjc_token_proof.specs.Tables.Loading.{loaded};
ghost use Rattle.cjc_token_proof.specs.Tables.Sound.{IsSound};
ghost use Rattle.cjc_joint_proof.specs.Loading.{group_of, offset_in};
ghost use Rattle.cjc_joint_proof.specs.Parts.{class_in};

/// The class of a token in the export file, and the one of the same place in Export, are those of one class of the
/// package, or none is there in both.
pub fn exports_have_one_order()
    ensures file { (p : Package) (token : ℕ) → (let t = export_of p in with_token t.classes token)
        ≡ option_map (export_class p) (slice_get (exported_classes p) token) }
    ensures component { (p : Package) (token : ℕ) → slice_get (exported_in (export p)) token
        ≡ option_map (exported_class p) (slice_get (exported_classes p) token) }
{}

/// A class that a package imports by the export file of another package of the group is in the group the class of that
/// package with the name that the export file gives.
pub fn imports_lead_by_name()
    ensures { (packages : List Package) (q r : ℕ) (p e : Package) (k token : ℕ) (entry : ExportClass)
        → slice_get packages q ≡ Some p → slice_get packages r ≡ Some e
        → (let files = p.files in slice_get files.exports k ≡ Some (export_of e))
        → package_number (group_of packages) (let t = export_of e in t.name) ≡ Some r
        → (let t = export_of e in with_token t.classes token ≡ Some entry)
        → is_some (info_of (loaded e) 0 (offset_in e entry.name)) ≡ true
        → class_in (group_loaded (group_of packages)) q (External k token)
        ≡ Some (Own r (offset_in e entry.name)) }
{}

/// A class_ref of a package means in the group the class of its name in the package that declares it: its own, or one
/// of the package whose export file it imports; or one of an export file from outside.
pub fn class_refs_lead_by_name()
    ensures own { (packages : List Package) (q : ℕ) (p : Package) → slice_get packages q ≡ Some p → (c : Class)
        → HasInfo p c → class_of (group_loaded (group_of packages)) q (class_ref p c.name)
        ≡ Some (Own q (offset_in p c.name)) }
    ensures imported { (packages : List Package) (q : ℕ) (p : Package) → slice_get packages q ≡ Some p
        → (r : ℕ) (e : Package) → slice_get packages r ≡ Some e → (list : List ℕ) → IsSound list e.files
        → package_number (group_of packages) (let t = export_of e in t.name) ≡ Some r
        → (c : Class) (h : HasEntry p c) → h.tree ≡ export_of e
        → class_of (group_loaded (group_of packages)) q (class_ref p c.name) ≡ Some (Own r (offset_in e c.name)) }
    ensures outside { (packages : List Package) (q : ℕ) (p : Package) → slice_get packages q ≡ Some p → (c : Class)
        (h : HasEntry p c) → package_number (group_of packages) (let t = h.tree in t.name) ≡ None
        → (let l = group_loaded (group_of packages) in let t = h.tree
        in slice_get l.trees (tree_number l.trees t.name) ≡ Some h.tree)
        → class_of (group_loaded (group_of packages)) q (class_ref p c.name)
        ≡ Some (External (tree_number (let l = group_loaded (group_of packages) in l.trees)
        (let t = h.tree in t.name)) (let e = h.entry in e.token)) }
{}
