//! Tables of a package keep the rules by which whole runs of class files and of narrow code agree: from closed type and
//! range tables that break no rule, instruction by instruction. It has definitions and laws alone, for whoever proves
//! that what is written for a package behaves as its class files. It knows no tokens and no components, and not how a
//! table was computed.
ghost use Rattle.std.specs.Prelude.{◌≡◌, ◌≢◌, ℕ, suc, false, ◌+◌, List, [], length, flat_map, slice_get, Option, Some};
ghost use Rattle.cjc_code.specs.declared.insn.JInsn.{JInsn};
ghost use Rattle.cjc_code.specs.declared.insn.JOp.{JOp as Op};
ghost use Rattle.cjc_code.specs.declared.insn.JOp.TheVariants as jop;
ghost use Rattle.cjc_script.specs.declared.value.Value.{Value};
ghost use Rattle.cjc_ncode.specs.declared.narrow.NInsn.{NInsn};
ghost use Rattle.cjc_ncode.specs.Written.{Resolution, written_for, reached, place_in};
ghost use Rattle.cjc_jvm_semantics.specs.Linked.{Method, Linked};
ghost use Rattle.cjc_jvm_semantics.specs.Effects.{Store, Toss, effect};
ghost use Rattle.cjc_types.specs.declared.state.State.{State as Typed};
ghost use Rattle.cjc_world.specs.Classes.{Class};
ghost use Rattle.cjc_ncode.specs.ByLabel.{Named, run as narrow_run};
ghost use Rattle.cjc_narrow_proof.specs.Selection.Tables.{Point, Arrives, MayRaise};
ghost use Rattle.cjc_narrow_proof.specs.Selection.Reached.{IsAnswered};
ghost use Rattle.cjc_narrow_proof.specs.Selection.Calls.{first_locals};
ghost use Rattle.cjc_narrow_proof.specs.Selection.Runs.{Rule, RuleWithin, IsFine};
ghost use Rattle.cjc_script.specs.declared.script.Script.{Script};
ghost use Rattle.cjc_card_semantics.specs.Bytecode.Runs.{Agree};
ghost use Rattle.cjc_jvm_semantics.specs.Machine.{run};
ghost use Rattle.cjc_narrow_proof.specs.Tables.Package.{IsPackage, IsSupported, leaves_frame};
ghost use Rattle.cjc_narrow_proof.specs.Tables.Analysis.{Analysis, Ascend, IsDecoded, IsSound, IsRead, CatchesAreTold};
ghost use Rattle.cjc_narrow_proof.specs.Tables.Analysis.{TypesAreTold, IsGiven, ThrowablesMay, HasRoomToBegin};
ghost use Rattle.cjc_narrow_proof.specs.Tables.Analysis.{declared_kinds, table_of};
ghost use Rattle.cjc_narrow_proof.specs.Tables.Pairs.{StandsAlone};
ghost use Rattle.cjc_narrow_proof.specs.Tables.Supported.{IsPlain, IsReturn};
ghost use Rattle.cjc_narrow_proof.specs.Tables.Names.{IsResolved};
ghost use Rattle.cjc_narrow_proof.specs.Tables.Arrays.{ClassesAreNamed, IsOnArray};
ghost use Rattle.cjc_narrow_proof.specs.Tables.Calls.{IsCalled};
ghost use Rattle.cjc_types.specs.Fixpoint.Tables.{HasRow};
ghost use Rattle.cjc_types.specs.Search.{cells_of};

/// No instruction of a class file but athrow throws what is on the stack.
pub fn only_athrow_throws()
    ensures { (l : Linked) (m : Method) (at : ℕ) (locals : List (Option Value)) (store : Store) (op : Op)
        → op ≢ jop.Throw → (s : List Value) (object : ℕ) → effect l m at locals store op s ≡ Toss object → ⊥ }
{}

/// What is written for a reached instruction stands in narrow code at the place of its offset, and what is
/// written behind it begins at the place of the next instruction's offset, whether that is reached or not.
pub fn written_code_stands_in_order()
    ensures stands { (r : Resolution) (p : ℕ → ℕ) (insns : List JInsn) (rows : List (Option Typed)) → Ascend insns
        → (at : ℕ) (i : JInsn) (row : Typed) → slice_get insns at ≡ Some i → slice_get rows at ≡ Some (Some row)
        → (j : ℕ) (insn : NInsn) → slice_get (written_for r p i) j ≡ Some insn
        → slice_get (flat_map (written_for r p) (reached insns rows)) (place_in r (reached insns rows) i.at + j)
        ≡ Some insn }
    ensures behind { (r : Resolution) (insns : List JInsn) (rows : List (Option Typed)) → Ascend insns
        → (at : ℕ) (i n : JInsn) (row : Typed) → slice_get insns at ≡ Some i → slice_get insns (suc at) ≡ Some n
        → slice_get rows at ≡ Some (Some row) → place_in r (reached insns rows) n.at ≡ place_in r (reached insns rows)
        i.at + length (written_for r (λ o. 0) i) }
{}

/// In a method that was read as the machine by name has it, whose code is written from its least type table,
/// and whose type table and range table are closed and break no rule, reached instructions keep their rules.
/// Those that name nothing: constants, loads, stores and increases of locals, the stack's instructions, all
/// arithmetic, i2b and i2s, jumps and switches. Those whose field, static field, class or type is found alike:
/// getfield to putstatic, new, newarray and anewarray, checkcast and instanceof. And returns, where callers are
/// given what the descriptor says, and athrow. Those on arrays, where arrays are named by their classes:
/// arraylength and loads and stores of elements. And calls, where both sides name, select and begin the same
/// methods, or name the same imported ones. Handlers are found there as whole runs ask, where types are told
/// alike. So it is where no pair of an aload_0 and a field instruction is open; `packages_run_alike` has those too.
pub fn instructions_keep_rules()
    ensures plain { (by : Linked) (l : Named) (w : List Class) (a : Analysis) (m : Method) → IsRead a m
        → IsDecoded (let f = a.found m in f.body) → IsSound w (let r = a.resolution m in r.constant) (a.found m)
        → CatchesAreTold by l a m → (at : ℕ) (i : JInsn) (p : Point)
        → StandsAlone (a.resolution m) (let f = a.found m in let b = f.body in b.insns) (a.opened m) at
        → slice_get (let f = a.found m in let b = f.body
        in b.insns) at ≡ Some i → (let tb = table_of l a in tb.point m at ≡ Some p) → IsPlain i.op
        → Rule by l (table_of l a) m at p i }
    ensures resolved { (by : Linked) (l : Named) (w : List Class) (a : Analysis) (m : Method) → IsRead a m
        → IsDecoded (let f = a.found m in f.body) → IsSound w (let r = a.resolution m in r.constant) (a.found m)
        → CatchesAreTold by l a m → TypesAreTold w l → (at : ℕ) (i : JInsn) (p : Point)
        → StandsAlone (a.resolution m) (let f = a.found m in let b = f.body in b.insns) (a.opened m) at
        → slice_get (let f = a.found m
        in let b = f.body in b.insns) at ≡ Some i → (let tb = table_of l a in tb.point m at ≡ Some p)
        → ((t : Typed) → HasRow (let f = a.found m in f.types) at t
        → IsResolved by l (a.resolution m) m (cells_of t.stack) i.op) → Rule by l (table_of l a) m at p i }
    ensures returns { (by : Linked) (l : Named) (w : List Class) (a : Analysis) (m : Method) → IsRead a m
        → IsDecoded (let f = a.found m in f.body) → IsSound w (let r = a.resolution m in r.constant) (a.found m)
        → CatchesAreTold by l a m → TypesAreTold w l → IsGiven l a m → (at offset opcode : ℕ) (p : Point)
        → StandsAlone (a.resolution m) (let f = a.found m in let b = f.body in b.insns) (a.opened m) at
        → slice_get (let f = a.found m in let b = f.body in b.insns) at ≡ Some (record {
          at = offset;
          op = jop.Return opcode;
        }) → (let tb = table_of l a in tb.point m at ≡ Some p) → IsReturn opcode
        → Rule by l (table_of l a) m at p (record { at = offset; op = jop.Return opcode }) }
    ensures throws { (by : Linked) (l : Named) (w : List Class) (a : Analysis) (m : Method) → IsRead a m
        → IsDecoded (let f = a.found m in f.body) → IsSound w (let r = a.resolution m in r.constant) (a.found m)
        → CatchesAreTold by l a m → TypesAreTold w l → ThrowablesMay l a → (at offset : ℕ) (p : Point)
        → StandsAlone (a.resolution m) (let f = a.found m in let b = f.body in b.insns) (a.opened m) at
        → slice_get (let f = a.found m in let b = f.body in b.insns) at ≡ Some (record { at = offset; op = jop.Throw })
        → (let tb = table_of l a in tb.point m at ≡ Some p) → Rule by l (table_of l a) m at p (record {
          at = offset;
          op = jop.Throw;
        }) }
    ensures elements { (by : Linked) (l : Named) (w : List Class) (a : Analysis) (m : Method) → IsRead a m
        → IsDecoded (let f = a.found m in f.body) → IsSound w (let r = a.resolution m in r.constant) (a.found m)
        → CatchesAreTold by l a m → TypesAreTold w l → ClassesAreNamed w l → (at : ℕ) (i : JInsn) (p : Point)
        → StandsAlone (a.resolution m) (let f = a.found m in let b = f.body in b.insns) (a.opened m) at
        → slice_get (let f = a.found m in let b = f.body in b.insns) at ≡ Some i
        → (let tb = table_of l a in tb.point m at ≡ Some p) → IsOnArray i.op → Rule by l (table_of l a) m at p i }
    ensures calls { (by : Linked) (l : Named) (w : List Class) (a : Analysis) (m : Method) → IsRead a m
        → IsDecoded (let f = a.found m in f.body) → IsSound w (let r = a.resolution m in r.constant) (a.found m)
        → CatchesAreTold by l a m → TypesAreTold w l → MayRaise l (table_of l a) → IsAnswered by l (table_of l a)
        → (at : ℕ) (i : JInsn) (p : Point)
        → StandsAlone (a.resolution m) (let f = a.found m in let b = f.body in b.insns) (a.opened m) at
        → slice_get (let f = a.found m in let b = f.body in b.insns) at ≡ Some i
        → (let tb = table_of l a in tb.point m at ≡ Some p) → ((t : Typed) → HasRow (let f = a.found m in f.types) at t
        → IsCalled by l w a m (cells_of t.stack) i.op) → Rule by l (table_of l a) m at p i }
{}

/// A reached instruction that is supported and neither calls nor returns keeps a rule within its frame, in a pair or
/// alone: whatever other instructions of the package name, call and return.
pub fn instructions_keep_rules_within_frames()
    ensures { (by : Linked) (l : Named) (w : List Class) (a : Analysis) (m : Method) → IsRead a m
        → IsDecoded (let f = a.found m in f.body) → IsSound w (let r = a.resolution m in r.constant) (a.found m)
        → CatchesAreTold by l a m → TypesAreTold w l → ClassesAreNamed w l → ThrowablesMay l a
        → (at : ℕ) (i : JInsn) (p : Point) → slice_get (let f = a.found m in let b = f.body in b.insns) at ≡ Some i
        → (let tb = table_of l a in tb.point m at ≡ Some p) → leaves_frame i.op ≡ false
        → ((t : Typed) → HasRow (let f = a.found m in f.types) at t
        → IsSupported by l w a m (cells_of t.stack) i.op) → RuleWithin by l (table_of l a) m at p i }
{}

/// A method begins, where narrow code begins, with what its descriptor says: its receiver, if any, and its
/// parameters in the first locals, and nothing on its stack.
pub fn methods_begin_as_declared()
    ensures { (by : Linked) (l : Named) (w : List Class) (a : Analysis) (m : Method) → IsRead a m
        → IsDecoded (let f = a.found m in f.body) → IsSound w (let r = a.resolution m in r.constant) (a.found m)
        → HasRoomToBegin (let f = a.found m in f.body) → Arrives (table_of l a) m 0 (let s = a.narrowed m
        in s.at) [] (first_locals m (declared_kinds l (let f = a.found m in f.body))) }
{}

/// Every package whose reached methods are whole, with closed tables that break no rule, and whose instructions
/// and scripts name the same on both sides keeps its rules. So its class files by name and its narrow code run
/// alike, for every script: of the notes of any two runs one begins with the other; where the run by name of n
/// instructions is not Running, the narrow run of at least 2n ends alike; where the narrow run of n is not
/// Running, the run by name of at least 65,536 (n + 1) ends alike; and neither is ever stuck.
pub fn packages_run_alike()
    ensures rules { (by : Linked) (l : Named) (w : List Class) (a : Analysis) → IsPackage by l w a
        → IsFine by l (table_of l a) }
    ensures runs { (by : Linked) (l : Named) (w : List Class) (a : Analysis) → IsPackage by l w a → (script : Script)
        → Agree 2 (λ n. run by script n) (λ n. narrow_run l script n) }
{}
