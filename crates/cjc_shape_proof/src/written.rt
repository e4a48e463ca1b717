//! A package that is converted has what its components and its narrow code rest on, so that its components run
//! as its narrow code, told from the rules that it does not break. For whoever converts a package. It has
//! definitions and laws alone; nothing here runs.
mod fitting_laws;
mod whole_laws;

ghost use Rattle.std.specs.Prelude.{◌≡◌, ◌≢◌, ℕ, Bool, List, [], Some, slice_get};
ghost use Rattle.cjc_check_proof.specs.WorldProof.Calls.Solid.{IsSolid};
ghost use Rattle.cjc_narrow_proof.specs.CardSemantics.Machine.ByToken.{run as run_by_token};
ghost use Rattle.cjc_classes.specs.Clinit.Image.{IsImage};
ghost use Rattle.cjc_check_proof.specs.WorldProof.Initialisers.Values.{StandOnce};
ghost use Rattle.cjc_components.specs.Bytecode.PackageCodes.{all_codes};
ghost use Rattle.cjc_components.specs.Bytecode.declared.method_code.MethodCode.{MethodCode};
ghost use Rattle.cjc_classes.specs.Layout.Refusals.{overtaking};
ghost use Rattle.cjc_check_proof.specs.Code.Caught.{HandlersLie};
ghost use Rattle.cjc_check_proof.specs.Code.Ends.{AllStayInside};
ghost use Rattle.cjc_check_proof.specs.Code.Kinds.{AllHaveKinds};
ghost use Rattle.cjc_check_proof.specs.Code.Written.{AllWritable};
ghost use Rattle.cjc_check_proof.specs.Made.{AllAreMade};
ghost use Rattle.cjc_check_proof.specs.TokenProof.Components.Methods.{HasMethods};
ghost use Rattle.cjc_check_proof.specs.TokenProof.Components.OwnNames.{HaveOwnNames};
ghost use Rattle.cjc_components.specs.Names.{names};
ghost use Rattle.cjc_components.specs.Package.{LaidMethod, Package, world};
ghost use Rattle.cjc_shape.specs.LowerJudge.declared.judged.Judged.{Judged};
ghost use Rattle.cjc_classes.specs.List.Listed.{ListTree};
ghost use Rattle.cjc_classes.specs.Narrow.Rows.Package.{run as run_by_label};
ghost use Rattle.cjc_narrow_proof.specs.NCode.ByLabel.{Callee};
ghost use Rattle.cjc_narrow_proof.specs.Script.declared.report.Outcome.TheVariants.{Stuck};
ghost use Rattle.cjc_narrow_proof.specs.Script.declared.script.Script.{Script};
ghost use Rattle.cjc_check_proof.specs.WorldProof.Files.{AreReadFiles};
ghost use Rattle.cjc_check_proof.specs.TokenProof.Tables.Loading.{loaded};
ghost use Rattle.cjc_check_proof.specs.TokenProof.Tables.Sound.{AreTyped, IsSound};
ghost use Rattle.cjc_vtable.specs.Kept.{Keeps};
ghost use Rattle.cjc_world.specs.Order.{class_order};
ghost use Rattle.cjc_check_proof.specs.TokenProof.WrittenCalls.Calls.{KeepsSubtypes, KeepsTokens, NoStaticMethods};
ghost use Rattle.cjc_check_proof.specs.TokenProof.WrittenCalls.Standing.{AreMethods, AreReady, IsSmall, laid_code};
ghost use Rattle.cjc_shape_proof.specs.Written.Checked.{IsChecked};
ghost use Rattle.cjc_shape_proof.specs.Written.Converted.{IsConverted};
ghost use Rattle.cjc_shape_proof.specs.Written.Joined.{IsJoined, IsRunnable, NamesAreThere};

use cjc_check_proof::promises::{
    made_methods_are_consistent, packages_have_their_methods, written_methods_are_made,
};
use cjc_check_proof::token_proof::calls::methods_are_placed;
use cjc_check_proof::token_proof::tables::{
    class_tables_agree, classes_keep_rules, fields_are_typed, memories_begin_alike,
    tables_agree_by_parts,
};
use cjc_check_proof::token_proof::written_calls::{
    calls_reach, calls_take_objects_alike, entries_are_called, methods_stand, sent_methods_stand,
};
use cjc_components::layout::order_changes_no_search;
use cjc_narrow_proof::ncode::lowering::runs_agree;
use cjc_shape::judged::pooled_methods_are_emittable;
use cjc_shape::methods::methods_can_be_laid_out;
use cjc_shape::whole::packages_in_short_mode_are_as_before;
use cjc_vtable::package_laws;
pub use fitting_laws::{
    export_files_fit, exported_classes_stand, interfaces_and_applets_fit, laid_out_packages_fit,
    sizes_fit, static_images_fit,
};
pub use whole_laws::{converted_classes_are_ordered, converted_methods_are_emittable};

/// The files of a converted package are read ones that break no rule of classes and names. Its fields are of
/// types that values have, and its static image is what its initialisers make, of which each class has one at
/// most.
pub fn converted_files_are_sound()
    ensures read { (list : ListTree) (files : List (List ℕ)) (judged : Judged) (p : Package)
        → IsConverted list files judged p → AreReadFiles p.files }
    ensures sound { (list : ListTree) (files : List (List ℕ)) (judged : Judged) (p : Package)
        → IsConverted list files judged p → IsSound list.name p.files }
    ensures typed { (list : ListTree) (files : List (List ℕ)) (judged : Judged) (p : Package)
        → IsConverted list files judged p → AreTyped p.files }
    ensures image { (list : ListTree) (files : List (List ℕ)) (judged : Judged) (p : Package)
        → IsConverted list files judged p → (let w = p.files in IsImage p.files (all_codes w.classes) p.image) }
    ensures once { (list : ListTree) (files : List (List ℕ)) (judged : Judged) (p : Package)
        → IsConverted list files judged p → (let w = p.files in StandOnce p.files (all_codes w.classes)) }
{
    fields_are_typed();
}

/// The classes of a converted package keep what calls rest on: what dispatch by class tables asks, subtypes
/// over superclasses and interfaces, tokens of seven bits, code where objects may be, and no static method of
/// an interface but its initialiser.
pub fn converted_classes_keep_rules()
    ensures keeps { (list : ListTree) (files : List (List ℕ)) (judged : Judged) (p : Package)
        → IsConverted list files judged p → Keeps (world p) }
    ensures subtypes { (list : ListTree) (files : List (List ℕ)) (judged : Judged) (p : Package)
        → IsConverted list files judged p → KeepsSubtypes (world p) }
    ensures tokens { (list : ListTree) (files : List (List ℕ)) (judged : Judged) (p : Package)
        → IsConverted list files judged p → KeepsTokens (world p) }
    ensures code { (list : ListTree) (files : List (List ℕ)) (judged : Judged) (p : Package)
        → IsConverted list files judged p → IsSolid p.files }
    ensures interfaces { (list : ListTree) (files : List (List ℕ)) (judged : Judged) (p : Package)
        → IsConverted list files judged p → NoStaticMethods (world p) }
{
    package_laws();
}

/// Its methods are those of its class files in the order of Method, abstract where these say so.
pub fn converted_methods_are_in_order()
    ensures { (list : ListTree) (files : List (List ℕ)) (judged : Judged) (p : Package)
        → IsConverted list files judged p → AreMethods p }
{}

/// Its methods are short: all of Method has at most 65,535 bytes. They are consistent as code: bytes can say
/// them, jumps and handlers stay inside them, and what they name is of the kind that its opcode uses. Each
/// comes to its code by selection.
pub fn converted_methods_are_consistent()
    ensures made { (list : ListTree) (files : List (List ℕ)) (judged : Judged) (p : Package)
        → IsConverted list files judged p → AllAreMade (names p) p.files p.methods }
    ensures small { (list : ListTree) (files : List (List ℕ)) (judged : Judged) (p : Package)
        → IsConverted list files judged p → IsSmall p }
    ensures classes { (list : ListTree) (files : List (List ℕ)) (judged : Judged) (p : Package)
        → IsConverted list files judged p → HaveOwnNames (class_order (world p)) }
    ensures methods { (list : ListTree) (files : List (List ℕ)) (judged : Judged) (p : Package)
        → IsConverted list files judged p → HasMethods p }
    ensures written { (list : ListTree) (files : List (List ℕ)) (judged : Judged) (p : Package)
        → IsConverted list files judged p → AllWritable (names p) p.methods }
    ensures inside { (list : ListTree) (files : List (List ℕ)) (judged : Judged) (p : Package)
        → IsConverted list files judged p → AllStayInside p.methods }
    ensures handlers { (list : ListTree) (files : List (List ℕ)) (judged : Judged) (p : Package)
        → IsConverted list files judged p → HandlersLie p.methods }
    ensures kinds { (list : ListTree) (files : List (List ℕ)) (judged : Judged) (p : Package)
        → IsConverted list files judged p → AllHaveKinds p.methods }
{
    classes_keep_rules();
    converted_methods_are_emittable();
    methods_can_be_laid_out();
    made_methods_are_consistent();
    packages_have_their_methods();
    packages_in_short_mode_are_as_before();
    written_methods_are_made();
}

/// Each of its methods can be laid out wherever it stands in Method, where what its code names stands in the pool.
pub fn converted_methods_are_ready()
    ensures { (list : ListTree) (files : List (List ℕ)) (judged : Judged) (p : Package)
        → IsConverted list files judged p → NamesAreThere p → AreReady p }
{
    converted_methods_are_emittable();
    methods_can_be_laid_out();
    packages_in_short_mode_are_as_before();
    pooled_methods_are_emittable();
}

/// The components of a package, run by token, give the report of its narrow code, run by name, for every script and
/// every number of instructions where narrow code is not stuck: where it has what that rests on, whichever of its
/// methods are in int mode, and what is asked of its calls, operations and objects holds.
pub fn joined_packages_run_by_token()
    ensures { (list : List ℕ) (p : Package) → IsRunnable list p → (call : Callee → Bool) → IsJoined p call
        → (script : Script) (n : ℕ) → (let report = run_by_label p.files p.image (laid_code p) script n in (at : ℕ)
        → report.outcome ≢ Stuck at) → run_by_token (loaded p) script n ≡ run_by_label p.files p.image (laid_code p)
        script n }
{
    order_changes_no_search();
    runs_agree();
    methods_are_placed();
    class_tables_agree();
    memories_begin_alike();
    tables_agree_by_parts();
    calls_reach();
    calls_take_objects_alike();
    entries_are_called();
    methods_stand();
    sent_methods_stand();
}

/// A package that breaks no rule of its files has what that rests on, where its static image is what its initialisers
/// make, its methods stand in their order and can be laid out, Method is short, and no handler overtakes another.
pub fn checked_packages_are_runnable()
    ensures { (list : ListTree) (codes : List MethodCode) (p : Package) → IsChecked list codes p
        → (let w = p.files in IsImage p.files (all_codes w.classes) p.image) → AreMethods p → AreReady p → IsSmall p
        → ((k : ℕ) (m : LaidMethod) → slice_get p.methods k ≡ Some m
        → (let code = m.code in overtaking [] code.catches ≡ [])) → IsRunnable list.name p }
{
    fields_are_typed();
    package_laws();
}

/// So has a converted one, where what its code names stands in the pool.
pub fn converted_packages_are_runnable()
    ensures { (list : ListTree) (files : List (List ℕ)) (judged : Judged) (p : Package)
        → IsConverted list files judged p → NamesAreThere p → IsRunnable list.name p }
{
    checked_packages_are_runnable();
    converted_methods_are_ready();
    methods_can_be_laid_out();
    packages_in_short_mode_are_as_before();
}

/// So the components of a converted package, run by token, give the report of its narrow code, where what is asked of
/// its calls, operations and objects holds.
pub fn converted_packages_run_by_token()
    ensures { (list : ListTree) (files : List (List ℕ)) (judged : Judged) (p : Package)
        → IsConverted list files judged p → (call : Callee → Bool) → IsJoined p call
        → (script : Script) (n : ℕ) → (let report = run_by_label p.files p.image (laid_code p) script n in (at : ℕ)
        → report.outcome ≢ Stuck at) → run_by_token (loaded p) script n ≡ run_by_label p.files p.image (laid_code p)
        script n }
{
    converted_packages_are_runnable();
    joined_packages_run_by_token();
}
