//! Packages some methods of which are in int mode, by the tables of these.

ghost use Rattle.std.specs.Prelude.{◌≡◌, ℕ, Bool, true, false, Option, Some, List, slice_get};
ghost use Rattle.cjc_bytes.specs.Descriptor.{IsClassName};
ghost use Rattle.cjc_bytes.specs.declared.fault.MemberId.{MemberId};
ghost use Rattle.cjc_code.specs.Jvm as jvm;
ghost use Rattle.cjc_code.specs.declared.insn.JInsn.{JInsn};
ghost use Rattle.cjc_code.specs.declared.insn.JOp.{JOp};
ghost use Rattle.cjc_code.specs.declared.insn.JOp.TheVariants as jop;
ghost use Rattle.cjc_script.specs.Sorts.{Sort};
ghost use Rattle.cjc_script.specs.declared.script.Script.{Script};
ghost use Rattle.cjc_world.specs.Classes.{Class, all_classes, class_named};
ghost use Rattle.cjc_world.specs.Files.{Files};
ghost use Rattle.cjc_world.specs.declared.image.StaticImage.{StaticImage};
ghost use Rattle.cjc_types.specs.Fixpoint.Tables.{HasRow};
ghost use Rattle.cjc_types.specs.Search.{cells_of};
ghost use Rattle.cjc_types.specs.declared.cell.Cell.{Cell};
ghost use Rattle.cjc_types.specs.declared.state.State.{State};
ghost use Rattle.cjc_ncode.specs.ByLabel.{Named};
ghost use Rattle.cjc_ncode.specs.Written.{Resolution};
ghost use Rattle.cjc_card_semantics.specs.Bytecode.Runs.{Agree};
ghost use Rattle.cjc_jvm_semantics.specs.ByName.{linked, run as run_by_name};
ghost use Rattle.cjc_jvm_semantics.specs.Linked.{Method, Linked};
ghost use Rattle.cjc_narrow.specs.Rows.Package.{run as narrow_run};
ghost use Rattle.cjc_narrow_proof.specs.Runs.Tables.{HasTables, Tables};
ghost use Rattle.cjc_narrow_proof.specs.Selection.Objects.{class_of};
ghost use Rattle.cjc_narrow_proof.specs.Selection.Tables.{Point};
ghost use Rattle.cjc_narrow_proof.specs.Tables.Analysis.{Analysis, ThrowablesMay, TypesAreTold, table_of};
ghost use Rattle.cjc_narrow_proof.specs.Tables.Arrays.{ClassesAreNamed};
ghost use Rattle.cjc_narrow_proof.specs.Tables.Calls.{IsWhole, IsWordDesc};
ghost use Rattle.cjc_narrow_proof.specs.Tables.Pairs.{StandsAlone};
ghost use Rattle.cjc_narrow_proof.specs.Tables.Supported.{IsReturn};
ghost use Rattle.cjc_int_runs.specs.ByModes.{PackageIsFine, ShortRule};
ghost use Rattle.cjc_int_runs.specs.IntFrames.{IntBody, StandsByMode};
ghost use Rattle.cjc_int_runs.specs.Scripted.{IsScripted};
ghost use Rattle.cjc_int_alike.specs.ByModes.{HasIntTables, analysis_by_mode, bodies_by_mode, codes_by_mode};
ghost use Rattle.cjc_int_alike.specs.ByModes.{int_resolution, look_ups_by_mode, result_in};
ghost use Rattle.cjc_int_alike.specs.Callees.{IsCalledByMode, IsIntBegun, IsScriptedByMode, IsShortBegun};
ghost use Rattle.cjc_int_alike.specs.Calls.{IsIntCalled};
ghost use Rattle.cjc_int_alike.specs.Converted.{IsNarrowedByModes};
ghost use Rattle.cjc_int_alike.specs.Named.{IsIntNamed, IsOneWord};
ghost use Rattle.cjc_int_alike.specs.Package.{IsModePackage, IsSupportedByMode};
ghost use Rattle.cjc_int_alike.specs.Reached.{IsIntReceiverOn, IsIntStaticOn};

/// Where both sides find the same methods, imported ones and receivers for a call, it reaches the same from a method in
/// int mode, whatever is given for its parameters: methods in int mode and others begin alike. So it is for what a
/// script calls or sends.
pub fn calls_reach_methods_of_both_modes()
    ensures calls { (by : Linked) (l : Named) (w : List Class) (a : Analysis) (bodies : Method → Option IntBody)
        (results : Method → Option Sort) (r : Resolution) (m : Method) (cells : List Cell) (op : JOp)
        → IsCalledByMode by l w a bodies results r m cells op
        → IsIntCalled by l (StandsByMode l (table_of l a) bodies) results a.narrowed a.may_throw r m cells op }
    ensures scripts { (by : Linked) (l : Named) (w : List Class) (a : Analysis) (bodies : Method → Option IntBody)
        (results : Method → Option Sort) (id : MemberId) → IsScriptedByMode by l w a bodies results id
        → IsScripted by l (StandsByMode l (table_of l a) bodies) results a.narrowed a.may_throw id }
{}

/// A package is fine where its methods in int mode have closed tables that break no rule of int mode, and room, and
/// what their reached instructions and scripts name is found alike; where the reached instructions of other methods
/// keep their rules; and where acts, answers, exceptions and the first state are alike. So whole runs of it agree.
pub fn packages_are_fine_by_modes()
    ensures { (by : Linked) (l : Named) (w : List Class) (a : Analysis) (bodies : Method → Option IntBody)
        (results : Method → Option Sort) → IsModePackage by l w a bodies results
        → PackageIsFine by l (table_of l a) bodies results }
{}

/// A method of a package in int mode with least tables, which break none of its rules, and room, begins with what its
/// descriptor says, has what is written for it by these tables, and its callers are given a value of its result's type:
/// where what is written for each method goes by its mode.
pub fn int_methods_with_least_tables_begin()
    ensures { (files : Files) (image : StaticImage) (near : List MemberId) (tables : Tables) (is_int : Method → Bool)
        (m : Method) → HasIntTables files tables m → is_int m ≡ true → IsIntBegun (linked files image)
        (look_ups_by_mode files image near tables is_int) (all_classes files)
        (analysis_by_mode files image near tables is_int) (bodies_by_mode files image near tables is_int)
        (result_in files image near tables is_int) m }
{}

/// What a reached instruction of a method in int mode names is found alike on both sides, where the class files and
/// export files have it: fields and static fields of one word and of two, which objects and the static cells have,
/// constants, classes and types.
pub fn names_in_int_code_are_found_alike()
    ensures { (files : Files) (image : StaticImage) (near : List MemberId) (tables : Tables) (is_int : Method → Bool)
        → ((name : List ℕ) (c : Class) → class_named (all_classes files) name ≡ Some c → IsClassName name)
        → (m : Method) → is_int m ≡ true → (stack : List Cell) (op : JOp)
        → IsIntNamed files image near tables is_int m stack op
        → IsSupportedByMode (linked files image) (look_ups_by_mode files image near tables is_int) (all_classes files)
        (analysis_by_mode files image near tables is_int) (bodies_by_mode files image near tables is_int)
        (result_in files image near tables is_int) m stack op }
{}

/// A call in a method in int mode finds the same on both sides, where the class files and export files have its member:
/// a static method of the package or an imported one; and on a receiver, by each opcode, what its type selects.
pub fn calls_in_int_code_are_found_alike()
    ensures on_class { (files : Files) (image : StaticImage) (near : List MemberId) (tables : Tables)
        (is_int : Method → Bool) (m : Method) (id : MemberId) (stack : List Cell)
        → IsIntStaticOn files image near tables is_int id
        → IsCalledByMode (linked files image) (look_ups_by_mode files image near tables is_int) (all_classes files)
        (analysis_by_mode files image near tables is_int) (bodies_by_mode files image near tables is_int)
        (result_in files image near tables is_int) (int_resolution files image near tables is_int m) m stack
        (jop.Call jvm.invokestatic id) }
    ensures on_receiver { (files : Files) (image : StaticImage) (near : List MemberId) (tables : Tables)
        (is_int : Method → Bool) (m : Method) (stack : List Cell) (op : ℕ) (id : MemberId)
        → IsIntReceiverOn files image near tables is_int (class_of m) stack op id
        → IsCalledByMode (linked files image) (look_ups_by_mode files image near tables is_int) (all_classes files)
        (analysis_by_mode files image near tables is_int) (bodies_by_mode files image near tables is_int)
        (result_in files image near tables is_int) (int_resolution files image near tables is_int m) m stack
        (jop.Call op id) }
{}

/// A method of a package that is not in int mode, with least tables that break no rule and one word for each parameter
/// and for its result, begins as in a package without int mode, where what is written for each method goes by its mode.
pub fn other_methods_with_least_tables_begin()
    ensures { (files : Files) (image : StaticImage) (near : List MemberId) (tables : Tables) (is_int : Method → Bool)
        (m : Method) → HasTables files tables m → is_int m ≡ false → IsShortBegun (linked files image)
        (look_ups_by_mode files image near tables is_int) (all_classes files)
        (analysis_by_mode files image near tables is_int) (bodies_by_mode files image near tables is_int)
        (result_in files image near tables is_int) m }
{}

/// Each reached instruction of a method that is not in int mode keeps its rule among methods of both modes, where the
/// method has least tables that break no rule, and what its reached instructions name is found in the class files and
/// export files and has one word each.
pub fn other_methods_keep_rules()
    ensures { (files : Files) (image : StaticImage) (near : List MemberId) (tables : Tables) (is_int : Method → Bool)
        → ((name : List ℕ) (c : Class) → class_named (all_classes files) name ≡ Some c → IsClassName name)
        → (m : Method) → HasTables files tables m → is_int m ≡ false → ((at : ℕ) (i : JInsn) (t : State)
        → slice_get m.insns at ≡ Some i → HasRow (tables.types m) at t → IsIntNamed files image near tables is_int m
        (cells_of t.stack) i.op) → ((at : ℕ) (i : JInsn) (t : State) → slice_get m.insns at ≡ Some i
        → HasRow (tables.types m) at t → IsOneWord i.op)
        → TypesAreTold (all_classes files) (look_ups_by_mode files image near tables is_int)
        → ClassesAreNamed (all_classes files) (look_ups_by_mode files image near tables is_int)
        → ThrowablesMay (look_ups_by_mode files image near tables is_int)
        (analysis_by_mode files image near tables is_int) → (at : ℕ) (p : Point)
        → (let tb = table_of (look_ups_by_mode files image near tables is_int)
        (analysis_by_mode files image near tables is_int) in tb.point m at ≡ Some p) → (t : State)
        → HasRow (tables.types m) at t → (i : JInsn) × ((slice_get m.insns at ≡ Some i)
        × ShortRule (linked files image) (look_ups_by_mode files image near tables is_int)
        (table_of (look_ups_by_mode files image near tables is_int)
        (analysis_by_mode files image near tables is_int)) (bodies_by_mode files image near tables is_int)
        (result_in files image near tables is_int) m at p i) }
{}

/// Whole runs of a package by modes agree, where its methods have least tables that break none of the rules of their
/// modes, and those in int mode room, and the class files and export files have what they and scripts name. Where the
/// run by name of n instructions is over, the run by label of 4,096 n of what is written by modes agrees with it.
pub fn packages_by_modes_run_alike()
    ensures fine { (files : Files) (image : StaticImage) (near : List MemberId) (tables : Tables)
        (is_int : Method → Bool) → IsNarrowedByModes files image near tables is_int
        → PackageIsFine (linked files image) (look_ups_by_mode files image near tables is_int)
        (table_of (look_ups_by_mode files image near tables is_int)
        (analysis_by_mode files image near tables is_int)) (bodies_by_mode files image near tables is_int)
        (result_in files image near tables is_int) }
    ensures runs { (files : Files) (image : StaticImage) (near : List MemberId) (tables : Tables)
        (is_int : Method → Bool) → IsNarrowedByModes files image near tables is_int → (script : Script)
        → Agree 4096 (λ n. run_by_name files image script n)
        (λ n. narrow_run files image (codes_by_mode files image near tables is_int) script n) }
{}

/// A call of a method that is not in int mode goes out alike, and both go on behind it with a result, where both sides
/// reach the same by it, whatever the mode of what it reaches, and its parameters and result have one word each.
pub fn calls_of_other_methods_go_out()
    ensures { (by : Linked) (l : Named) (w : List Class) (a : Analysis) (bodies : Method → Option IntBody)
        (results : Method → Option Sort) (m : Method) → IsWhole by l w a m → TypesAreTold w l → (at : ℕ) (i : JInsn)
        (p : Point) → StandsAlone (a.resolution m) (let f = a.found m in let b = f.body in b.insns) (a.opened m) at
        → slice_get (let f = a.found m in let b = f.body in b.insns) at ≡ Some i
        → (let tb = table_of l a in tb.point m at ≡ Some p) → ((u : State)
        → HasRow (let f = a.found m in f.types) at u → IsIntCalled by l (StandsByMode l (table_of l a) bodies) results
        a.narrowed a.may_throw (a.resolution m) m (cells_of u.stack) i.op) → ((opcode : ℕ) (id : MemberId)
        → i.op ≡ jop.Call opcode id → IsWordDesc id.desc) → ShortRule by l (table_of l a) bodies results m at p i }
{}

/// A return of a method that is not in int mode gives a value of the method's type, which is one word, or nothing.
pub fn returns_of_other_methods_give()
    ensures { (by : Linked) (l : Named) (w : List Class) (a : Analysis) (bodies : Method → Option IntBody)
        (results : Method → Option Sort) (m : Method) → IsShortBegun by l w a bodies results m → TypesAreTold w l
        → (at offset opcode : ℕ) (p : Point) → StandsAlone (a.resolution m) (let f = a.found m in let b = f.body
        in b.insns) (a.opened m) at → slice_get (let f = a.found m in let b = f.body in b.insns) at ≡ Some (record {
          at = offset;
          op = jop.Return opcode;
        }) → (let tb = table_of l a in tb.point m at ≡ Some p) → IsReturn opcode
        → ShortRule by l (table_of l a) bodies results m at p (record { at = offset; op = jop.Return opcode }) }
{}
