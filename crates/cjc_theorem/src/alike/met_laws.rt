//! What the pool and the descriptors of a package name is there, so that its components are consistent. For whoever
//! converts a package, whichever of its methods are in int mode. It has laws alone; nothing here runs.

ghost use Rattle.std.specs.Prelude.{ℕ, List};
ghost use Rattle.cjc_shape_proof.specs.LowerCheckProof.Classes.Premises.{HaveInstalls, KeysAreKnown, TypesAreKnown};
ghost use Rattle.cjc_token_proof.specs.Components.Whole.{exports_of};
ghost use Rattle.cjc_components.specs.Bytecode.declared.method_code.MethodCode.{MethodCode};
ghost use Rattle.cjc_components.specs.Components.{components_of};
ghost use Rattle.cjc_components.specs.Package.{Package, world};
ghost use Rattle.cjc_theorem.specs.Alike.Met.{NamesAreMet};
ghost use Rattle.cjc_shape_proof.specs.Written.Checked.{IsOfFiles};
ghost use Rattle.cjc_shape_proof.specs.Written.LaidOut.{AidsAreShort, IsLaidOut};
ghost use Rattle.cjc_shape_proof.specs.LowerCheckProof.Exports.{ExportsHaveOneAccess};
ghost use Rattle.cjc_shape_proof.specs.LowerJudge.Spelt.{IsRead};
ghost use Rattle.cjc_shape_proof.specs.LowerJudge.declared.judged.Judged.{Judged};
ghost use Rattle.cjc_token_proof.specs.List.Listed.{ListTree};
ghost use Rattle.cjc_token_proof.specs.CheckRules.Consistent.{Consistent};
ghost use Rattle.cjc_shape_proof.specs.LowerCheckProof.Keys.{AllAreThere};
ghost use Rattle.cjc_shape_proof.specs.Written.Converted.{IsConverted};

use crate::alike::{
    calls_of_files_have_opcodes, converted_components_are_consistent, super_calls_are_named,
    virtual_calls_are_named,
};
use cjc_shape_proof::shape::whole::packages_in_short_mode_are_as_before;
use cjc_shape_proof::written::{interfaces_and_applets_fit, static_images_fit};
use cjc_token_proof::tables::{fields_are_typed, static_fields_are_told};

/// The AID of each applet of a list that was read has at most 16 bytes.
pub fn lists_have_short_aids()
    ensures { (list : ListTree) → IsRead list → AidsAreShort list }
{}

/// A converted package none of whose methods is in int mode is laid out, by the modes of its methods.
pub fn converted_packages_are_laid_out()
    ensures { (list : ListTree) (files : List (List ℕ)) (judged : Judged) (p : Package)
        → IsConverted list files judged p → IsLaidOut list files judged p }
{
    packages_in_short_mode_are_as_before();
}

/// No method of an export file beside a package is private beside public or protected, and the class of each of its
/// applets is one with an install method and no interface.
pub fn files_keep_promises()
    ensures access { (list : ListTree) (codes : List MethodCode) (p : Package) → IsOfFiles list codes p
        → ExportsHaveOneAccess (world p) }
    ensures applets { (list : ListTree) (files : List (List ℕ)) (judged : Judged) (p : Package)
        → IsLaidOut list files judged p → HaveInstalls p }
{
    interfaces_and_applets_fit();
}

/// Each key of its pool names a class that some file has: that of every exception, one that an instruction or a handler
/// names, or the class of a member that an instruction names.
pub fn keys_are_known()
    ensures { (list : ListTree) (codes : List MethodCode) (p : Package) → IsOfFiles list codes p → KeysAreKnown p }
{
    calls_of_files_have_opcodes();
}

/// The descriptors of its pool, of its fields and methods, and of the methods that its abstract classes got name
/// classes that some file has.
pub fn types_are_known()
    ensures { (list : ListTree) (files : List (List ℕ)) (judged : Judged) (p : Package)
        → IsLaidOut list files judged p → IsOfFiles list judged.codes p → TypesAreKnown p }
{
    calls_of_files_have_opcodes();
}

/// Each key of its pool names what is there: a class; a field of the package, static ones with their cells; a
/// static method, a constructor or a private method, of the package or of an imported class, by the class that
/// declares it; or a virtual method that calls can name.
pub fn members_are_there()
    ensures { (list : ListTree) (files : List (List ℕ)) (judged : Judged) (p : Package)
        → IsLaidOut list files judged p → IsOfFiles list judged.codes p → AllAreThere p }
{
    calls_of_files_have_opcodes();
    fields_are_typed();
    static_fields_are_told();
    static_images_fit();
    super_calls_are_named();
    virtual_calls_are_named();
}

/// So the names of a package that is laid out, and whose code names what its class files name, are met. The components
/// of a converted one none of whose methods is in int mode are consistent with the export files that it imports.
pub fn names_are_met()
    ensures met { (list : ListTree) (files : List (List ℕ)) (judged : Judged) (p : Package)
        → IsLaidOut list files judged p → IsOfFiles list judged.codes p → NamesAreMet p }
    ensures consistent { (list : ListTree) (files : List (List ℕ)) (judged : Judged) (p : Package)
        → IsConverted list files judged p → Consistent (components_of p) (exports_of p) }
{
    converted_components_are_consistent();
    converted_packages_are_laid_out();
    files_keep_promises();
    keys_are_known();
    members_are_there();
    types_are_known();
}
