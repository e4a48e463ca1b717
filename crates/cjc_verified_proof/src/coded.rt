//! The program of a package whose components the type checker passes: its methods are typed, and what is open of it is
//! that its calls reach its methods. It has laws alone, for whoever proves that such components are never stuck.
ghost use Rattle.std.specs.Prelude.{◌≡◌, ℕ, [], Some, None, Contains};
ghost use Rattle.cjc_bytes.specs.declared.fault.MemberId.{MemberId};
ghost use Rattle.cjc_card_semantics.specs.Script.declared.script.Script.{Script};
ghost use Rattle.cjc_card_semantics.specs.Script.declared.report.Outcome.TheVariants.{Stuck};
ghost use Rattle.cjc_card_semantics.specs.Bytecode.Machine.{Start};
ghost use Rattle.cjc_card_semantics.specs.Machine.ByToken.{run};
ghost use Rattle.cjc_card_semantics.specs.Machine.Calls.{called};
ghost use Rattle.cjc_card_semantics.specs.Machine.Methods.{Code};
ghost use Rattle.cjc_components.specs.Package.{world};
ghost use Rattle.cjc_token_proof.specs.WrittenSends.Named.{FaultsAreClasses};
ghost use Rattle.cjc_verify_proof.specs.Frames.{AreMethods, Program, Typing};
ghost use Rattle.cjc_verify_proof.specs.Runs.{AreSuited, IsEntry, IsProgram};
ghost use Rattle.cjc_verify_proof.specs.Scripts.{HasExceptions};
ghost use Rattle.cjc_verified_proof.specs.Kept.{KeepsCalls};
ghost use Rattle.cjc_verified_proof.specs.Checked.{Checked, HasCode, IsChecked, pair};
ghost use Rattle.cjc_verified_proof.specs.Programs.{CallsReach, IsProgramOf};
ghost use Rattle.cjc_verified_proof.specs.Selecting.{DispatchFits};
ghost use Rattle.cjc_verified_proof.specs.Suited.{AreStanding, HaveCode, HaveSorts};

/// A package that is checked has a program: its methods with their least tables.
pub fn programs_are_there()
    ensures { (c : Checked) → IsChecked c → HasCode c → (program : Program) × IsProgramOf (pair c) program }
{}

/// Each method that Descriptor lists begins in Method as the package says, and where it has code it is one of the
/// program.
pub fn methods_stand()
    ensures { (c : Checked) → IsChecked c → HasCode c → (program : Program) → IsProgramOf (pair c) program
        → AreStanding (pair c) program }
{}

/// The types that Descriptor gives a method are those of its descriptor.
pub fn descriptors_have_sorts()
    ensures { (c : Checked) → IsChecked c → HasCode c → HaveSorts (pair c) }
{}

/// Each method of the program is typed: its table is closed and breaks no rule, and its instructions and handlers lead
/// to instructions of it.
pub fn methods_are_typed()
    ensures { (c : Checked) → IsChecked c → HasCode c → (program : Program) → IsProgramOf (pair c) program
        → (let p = pair c in AreMethods p.loaded program) }
{}

/// Each instruction that is reached is what its act says, where dispatch keeps the descriptors that entries name.
pub fn instructions_suit()
    ensures { (c : Checked) → IsChecked c → HasCode c → (program : Program) → IsProgramOf (pair c) program
        → DispatchFits (pair c) program → (t : Typing) → Contains program.methods t
        → (let p = pair c in AreSuited p.loaded program t) }
{}

/// The exceptions of the machine's own are there.
pub fn exceptions_are_there()
    ensures { (c : Checked) → IsChecked c → HasCode c → (program : Program) → IsProgramOf (pair c) program
        → FaultsAreClasses (world (record { list = c.list; files = c.files; image = c.image; methods = [] }))
        → (let p = pair c in HasExceptions p.loaded program.exceptions) }
{}

/// A static method that an entry of a script names begins one of the program, where methods have descriptors of methods
/// and static ones have code.
pub fn static_entries_are_there()
    ensures { (c : Checked) → IsChecked c → HasCode c → (program : Program) → IsProgramOf (pair c) program
        → HaveCode (pair c) → (let p = pair c in (id : MemberId) (m : Start Code) → called p.loaded id ≡ Some m
        → IsEntry p.loaded program None id.desc m) }
{}

/// Where calls by dispatch and entries on receivers reach methods of it, it is a program whose runs are never stuck.
pub fn programs_are_lawful()
    ensures { (c : Checked) → IsChecked c → HasCode c → (program : Program) → IsProgramOf (pair c) program
        → FaultsAreClasses (world (record { list = c.list; files = c.files; image = c.image; methods = [] }))
        → HaveCode (pair c) → CallsReach (pair c) program → (let p = pair c in IsProgram p.loaded program) }
{}

/// Where the files keep what dispatch rests on, calls by dispatch and entries on receivers reach methods of the
/// program.
pub fn calls_reach()
    ensures { (c : Checked) → IsChecked c → HasCode c → HaveCode (pair c) → KeepsCalls c → (program : Program)
        → IsProgramOf (pair c) program → CallsReach (pair c) program }
{}

/// So no run of it by token is stuck, for any script and any length.
pub fn checked_packages_are_never_stuck()
    ensures { (c : Checked) → IsChecked c → HasCode c → HaveCode (pair c) → KeepsCalls c
        → FaultsAreClasses (world (record { list = c.list; files = c.files; image = c.image; methods = [] }))
        → (script : Script) (n at : ℕ) → (let p = pair c in let r = run p.loaded script n in r.outcome) ≡ Stuck at → ⊥ }
{}
