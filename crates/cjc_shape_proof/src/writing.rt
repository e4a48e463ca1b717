//! What is written for a package that breaks no rule can be written, with nothing left to ask: its component
//! files where it breaks no limit of sizes, and its export file. For whoever converts a package. It has laws
//! alone; nothing here runs.
ghost use Rattle.std.specs.Prelude.{◌≡◌, ◌≤◌, [], length, List, None, ℕ};
ghost use Rattle.cjc_classes.specs.CapWrite.Files.{limit_of, part};
ghost use Rattle.cjc_classes.specs.CapWrite.Method.{method_bytes};
ghost use Rattle.cjc_classes.specs.CapWrite.Writable.{IsWritable};
ghost use Rattle.cjc_components.specs.Components.{components_of};
ghost use Rattle.cjc_components.specs.ExportFile.{export_of};
ghost use Rattle.cjc_components.specs.Limits.{size_breaks};
ghost use Rattle.cjc_components.specs.Package.{Package, world};
ghost use Rattle.cjc_world.specs.ExportFile.Writable.{IsWritable as CanBeExported};
ghost use Rattle.cjc_check_proof.specs.TokenProof.WrittenCalls.Calls.{NoStaticMethods};
ghost use Rattle.cjc_shape_proof.specs.Written.Converted.{ExportsArePlain};
ghost use Rattle.cjc_shape_proof.specs.Written.Entries.{UnboundAreOwn};
ghost use Rattle.cjc_shape_proof.specs.Written.LaidOut.{AidsAreShort, ExportedInterfacesStand, IsLaidOut};
ghost use Rattle.cjc_shape.specs.LowerJudge.Spelt.{IsRead};
ghost use Rattle.cjc_shape.specs.LowerJudge.declared.judged.Judged.{Judged};
ghost use Rattle.cjc_classes.specs.List.Listed.{ListTree};

use crate::written::{export_files_fit, exported_classes_stand, laid_out_packages_fit};

/// A list that was read has applets with AIDs of at most 16 bytes.
pub fn aids_are_short()
    ensures { (list : ListTree) → IsRead list → AidsAreShort list }
{}

/// A package of such a list that breaks no rule, is laid out and breaks neither 411 nor 416 can be written:
/// each component fits its fields, the component tree keeps the limits, and Method has at most 65,535 bytes.
pub fn components_can_be_written()
    ensures limits { (p : Package) → size_breaks p ≡ [] → limit_of (components_of p) ≡ None }
    ensures writable { (list : ListTree) (files : List (List ℕ)) (judged : Judged) (p : Package)
        → IsLaidOut list files judged p → size_breaks p ≡ [] → IsWritable (components_of p) }
    ensures method { (list : ListTree) (files : List (List ℕ)) (judged : Judged) (p : Package)
        → IsLaidOut list files judged p → size_breaks p ≡ []
        → (let t = components_of p in length (part method_bytes t.method) ≤ 65535) }
{
    laid_out_packages_fit();
}

/// The methods of each interface that the export file of such a package lists can stand there: each has a token
/// of its own below their number, which is at most 128, and none is named as a constructor or an initialiser
/// is.
pub fn exported_interfaces_stand()
    ensures { (list : ListTree) (files : List (List ℕ)) (judged : Judged) (p : Package) → IsLaidOut list files judged p
        → ExportedInterfacesStand p }
{}

/// The export file of such a package fits the format.
pub fn export_files_can_be_written()
    ensures { (list : ListTree) (files : List (List ℕ)) (judged : Judged) (p : Package) → IsLaidOut list files judged p
        → CanBeExported (export_of p) }
{
    exported_interfaces_stand();
    exported_classes_stand();
    export_files_fit();
}

/// The static methods and constructors that it lists are public or protected ones that the classes of the package
/// declare, by their names, descriptors, flags and tokens, and Export has each at the place of its token: where no
/// interface has a static method but its initialiser.
pub fn unbound_entries_are_own()
    ensures { (list : ListTree) (files : List (List ℕ)) (judged : Judged) (p : Package) → IsLaidOut list files judged p
        → ExportsArePlain p.files → NoStaticMethods (world p) → UnboundAreOwn p }
{}
