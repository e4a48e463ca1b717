//! What a package that does not break 304 promises of the flags of its methods, as laws on calls and components ask it.
//! For whoever shows that a converted package keeps their premises. Nothing here runs.
ghost use Rattle.std.specs.Prelude.{ℕ, List};
ghost use Rattle.cjc_bytes.specs.declared.settings.Settings.{Settings as Given};
ghost use Rattle.cjc_components.specs.Bytecode.declared.method_code.MethodCode.{MethodCode};
ghost use Rattle.cjc_vtable.specs.Kept.{BreaksNone};
ghost use Rattle.cjc_vtable.specs.Meant.{HaveOneAccess};
ghost use Rattle.cjc_components.specs.Package.{Package, world};
ghost use Rattle.cjc_token_proof.specs.Tables.Sound.{IsSound};
ghost use Rattle.cjc_check_proof.specs.Classes.Premises.{InterfacesAreUnbound};
ghost use Rattle.cjc_token_proof.specs.WrittenCalls.Calls.{NoStaticMethods};
ghost use Rattle.cjc_check_proof.specs.Exports.{ExportsHaveOneAccess};

/// In a package of read files that breaks none of 201 to 204, 207, 208 and 304 no method is private beside public or
/// protected, where export files have none; and no interface of the package has a static method or a constructor, its
/// initialiser aside.
pub fn methods_keep_flags()
    ensures access { (list : List ℕ) (p : Package) (codes : List MethodCode) (settings : Given)
        → IsSound list p.files → BreaksNone list p.files codes settings → ExportsHaveOneAccess (world p)
        → HaveOneAccess (world p) }
    ensures statics { (list : List ℕ) (p : Package) (codes : List MethodCode) (settings : Given)
        → IsSound list p.files → BreaksNone list p.files codes settings → NoStaticMethods (world p) }
    ensures unbound { (list : List ℕ) (p : Package) (codes : List MethodCode) (settings : Given)
        → IsSound list p.files → BreaksNone list p.files codes settings → InterfacesAreUnbound p }
{}
