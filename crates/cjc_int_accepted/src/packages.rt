//! Methods in int mode of a package by its modes: what is written for them, and their room.
ghost use Rattle.std.specs.Prelude.{List, Some, [], slice_get, ℕ, ◌≡◌};
ghost use Rattle.cjc_check_proof.specs.JvmSemantics.Linked.{Method};
ghost use Rattle.cjc_check_proof.specs.JvmSemantics.OnePackage.{method_at};
ghost use Rattle.cjc_check_proof.specs.LowerComponents.Limits.{of_methods};
ghost use Rattle.cjc_check_proof.specs.LowerList.Listed.{ListTree};
ghost use Rattle.cjc_int_mode.specs.Room.{LacksRoom};
ghost use Rattle.cjc_int_mode.specs.Written.{written_in_int_mode};
ghost use Rattle.cjc_int_mode.specs.declared.modes.Mode.TheVariants as modes;
ghost use Rattle.cjc_int_package.specs.Limits.{word_breaks_by_modes};
ghost use Rattle.cjc_int_package.specs.Modes.{Tables};
ghost use Rattle.cjc_int_package.specs.Written.{IsPackageByModes};
ghost use Rattle.cjc_types.specs.Bytecode.declared.method_code.MethodCode.{MethodCode};
ghost use Rattle.cjc_types.specs.World.Classes.{Class, all_classes, class_at};
ghost use Rattle.cjc_verify.specs.Components.Package.{LaidMethod, Package, pool, world};
ghost use Rattle.cjc_verify.specs.Narrow.Rows.Package.{flags_of, read_of, tree_of};
ghost use Rattle.cjc_verify.specs.Narrow.Rows.Resolved.{method_found, resolution};
ghost use Rattle.cjc_verify.specs.Narrow.Rows.Selected.{near_fields};

/// What is laid for a method in int mode of a package by its modes is what is written for it by its least tables, and
/// where 417 is not broken it has room.
pub fn packages_have_methods_in_int_mode()
    ensures written { (p : Package) (t : Tables) (k : ℕ) (laid : LaidMethod)
        (is_laid : slice_get p.methods k ≡ Some laid) (x : Method) (named : method_at p.files laid.member ≡ Some x)
        (mode : t.mode x ≡ modes.Int) (list : ListTree) (codes : List MethodCode)
        → IsPackageByModes list p.files codes t p
        → laid.code ≡ written_in_int_mode (resolution p.files (near_fields (pool p)) (let id = x.id in id.class))
        (tree_of x) (read_of x (flags_of (method_found (all_classes p.files) x.id))) (t.types x) (t.ranges x) }
    ensures room { (p : Package) (t : Tables) (k : ℕ) (laid : LaidMethod)
        (is_laid : slice_get p.methods k ≡ Some laid) (x : Method) (named : method_at p.files laid.member ≡ Some x)
        (mode : t.mode x ≡ modes.Int) → of_methods p (word_breaks_by_modes t p) ≡ [] → (c : Class)
        → (let f = laid.member in class_at (world p) f.imported f.class) ≡ Some c
        → LacksRoom (read_of x (flags_of (method_found (all_classes p.files) x.id))) (t.types x) modes.Int → ⊥ }
{}
