//! A package that breaks no rule and is laid out keeps what its writers ask: its components and its export file
//! fit their formats, and what its static fields hold at first is of their types. For whoever converts a
//! package. It has laws alone; nothing here runs.

ghost use Rattle.std.specs.Prelude.{◌≡◌, ◌≤◌, [], length, List, None, ℕ};
ghost use Rattle.cjc_classes.specs.CapWrite.Files.{limit_of, part};
ghost use Rattle.cjc_classes.specs.CapWrite.Method.{method_bytes};
ghost use Rattle.cjc_classes.specs.CapWrite.Writable.{IsWritable};
ghost use Rattle.cjc_check_proof.specs.Classes.Premises.{HasNearTypes, HasShortMethods, HasShortRefs, HaveInstalls};
ghost use Rattle.cjc_check_proof.specs.Classes.Premises.{InterfacesAreUnbound};
ghost use Rattle.cjc_components.specs.Components.{components_of};
ghost use Rattle.cjc_components.specs.ExportFile.{export_of};
ghost use Rattle.cjc_components.specs.Limits.{size_breaks, widest_method};
ghost use Rattle.cjc_components.specs.Package.{Package};
ghost use Rattle.cjc_classes.specs.Descriptor.Fits.{AreFit};
ghost use Rattle.cjc_world.specs.ExportFile.Writable.{IsWritable as CanBeExported};
ghost use Rattle.cjc_check_proof.specs.Limits.Premises.{IsLimited};
ghost use Rattle.cjc_shape.specs.LowerJudge.declared.judged.Judged.{Judged};
ghost use Rattle.cjc_classes.specs.List.Listed.{ListTree};
ghost use Rattle.cjc_shape_proof.specs.Written.LaidOut.{ExportedInterfacesStand, ExportedMethodsStand, IsLaidOut};

use cjc_check_proof::classes::limits_are_kept;
use cjc_check_proof::limits::components_fit;
use cjc_shape::exported::export_file::few_classes;
use cjc_shape::exported::export_laws::export_file_fits;

/// The components of a package that breaks no rule are small enough for all that is said of their sizes, so
/// that they can be written: where neither 411 nor 416 is broken, and where Method has at most 65,535 bytes at
/// the widest and the component tree breaks no limit, which is how it is told. Method then has at most 65,535
/// bytes, whatever the other components have.
pub fn laid_out_packages_fit()
    ensures limited { (list : ListTree) (files : List (List ℕ)) (judged : Judged) (p : Package)
        → IsLaidOut list files judged p → size_breaks p ≡ [] → IsLimited p }
    ensures writable { (list : ListTree) (files : List (List ℕ)) (judged : Judged) (p : Package)
        → IsLaidOut list files judged p → widest_method p ≤ 65535 → limit_of (components_of p) ≡ None
        → IsWritable (components_of p) }
    ensures method { (list : ListTree) (files : List (List ℕ)) (judged : Judged) (p : Package)
        → IsLaidOut list files judged p → widest_method p ≤ 65535
        → (let t = components_of p in length (part method_bytes t.method) ≤ 65535) }
{
    few_classes();
    components_fit();
}

/// What the static fields of such a package hold at first is of their types: numbers of the types of their
/// fields and arrays.
pub fn static_images_fit()
    ensures { (list : ListTree) (files : List (List ℕ)) (judged : Judged) (p : Package) → IsLaidOut list files judged p
        → AreFit p.image }
{}

/// The export file of such a package fits the format, where the methods of each class that it lists do.
pub fn export_files_fit()
    ensures { (list : ListTree) (files : List (List ℕ)) (judged : Judged) (p : Package) → IsLaidOut list files judged p
        → ExportedMethodsStand p → CanBeExported (export_of p) }
{
    export_file_fits();
}

/// The methods of each class that its export file lists, and that is no interface, can stand there: each fits,
/// and no two have one token. So those of all do, where those of interfaces do.
pub fn exported_classes_stand()
    ensures { (list : ListTree) (files : List (List ℕ)) (judged : Judged) (p : Package) → IsLaidOut list files judged p
        → ExportedInterfacesStand p → ExportedMethodsStand p }
{}

/// What consistent components rest on and rules of the files promise: no interface of such a package has a
/// static method or a constructor, and the class of each applet is one with an install method and no interface.
pub fn interfaces_and_applets_fit()
    ensures interfaces { (list : ListTree) (files : List (List ℕ)) (judged : Judged) (p : Package)
        → IsLaidOut list files judged p → InterfacesAreUnbound p }
    ensures applets { (list : ListTree) (files : List (List ℕ)) (judged : Judged) (p : Package)
        → IsLaidOut list files judged p → HaveInstalls p }
{}

/// What they rest on where neither 411 nor 416 is broken: offsets of types, of Class and of Method fit their fields.
pub fn sizes_fit()
    ensures types { (list : ListTree) (files : List (List ℕ)) (judged : Judged) (p : Package)
        → IsLaidOut list files judged p → size_breaks p ≡ [] → HasNearTypes p }
    ensures classes { (list : ListTree) (files : List (List ℕ)) (judged : Judged) (p : Package)
        → IsLaidOut list files judged p → size_breaks p ≡ [] → HasShortRefs p }
    ensures methods { (list : ListTree) (files : List (List ℕ)) (judged : Judged) (p : Package)
        → IsLaidOut list files judged p → size_breaks p ≡ [] → HasShortMethods p }
{
    limits_are_kept();
}
