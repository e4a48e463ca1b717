//! Methods of Method in int mode, each beside the method of a class file that it is written for.
ghost use Rattle.std.specs.Prelude.{List, Some, slice_get, true, ℕ, ◌≡◌};
ghost use Rattle.cjc_accepted_modes.specs.InIntMode.{IntMethod, IsInIntMode};
ghost use Rattle.cjc_check_proof.specs.JvmSemantics.OnePackage.{method_at};
ghost use Rattle.cjc_check_proof.specs.LowerList.Listed.{ListTree};
ghost use Rattle.cjc_int_components.specs.Components.{is_in_int_mode};
ghost use Rattle.cjc_int_components.specs.Modes.{Tables};
ghost use Rattle.cjc_int_theorem.specs.ByModes.{IsConvertedByModes};
ghost use Rattle.cjc_types.specs.Bytecode.declared.method_code.MethodCode.{MethodCode};
ghost use Rattle.cjc_verify.specs.Components.Package.{LaidMethod, Package};

/// Each method of Method of a package by modes that is in int mode is written for one of a class file with code, by its
/// least tables, which break no rule of types; and it has room.
pub fn methods_in_int_mode_stand_beside()
    ensures { (list : ListTree) (codes : List MethodCode) (t : Tables) (p : Package)
        → IsConvertedByModes list codes t p → (k : ℕ) (laid : LaidMethod) → slice_get p.methods k ≡ Some laid
        → is_in_int_mode t (method_at p.files laid.member) ≡ true
        → (m : IntMethod) × (m.laid ≡ laid) × IsInIntMode p t m codes k }
{}
