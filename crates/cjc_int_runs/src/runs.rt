//! Whole runs of packages whose methods are in any mode.

ghost use Rattle.std.specs.Prelude.{◌≡◌, ℕ, ◌≤◌, Option, Some, Bool, List, length};
ghost use Rattle.cjc_int_proof.specs.Bytecode.declared.insn.JInsn.{JInsn};
ghost use Rattle.cjc_int_proof.specs.Bytecode.declared.insn.JOp.{JOp};
ghost use Rattle.cjc_int_proof.specs.Bytecode.declared.insn.JOp.TheVariants as jop;
ghost use Rattle.cjc_script.specs.declared.script.Script.{Script};
ghost use Rattle.cjc_script.specs.Sorts.{Shape, Sort, Signature, signature_of};
ghost use Rattle.cjc_script.specs.Bytes.declared.fault.MemberId.{MemberId};
ghost use Rattle.cjc_card_semantics.specs.Bytecode.Machine.{Start};
ghost use Rattle.cjc_card_semantics.specs.Bytecode.Runs.{Agree};
ghost use Rattle.cjc_ncode.specs.declared.narrow.NMethod.{NMethod};
ghost use Rattle.cjc_ncode.specs.ByLabel.{Named};
ghost use Rattle.cjc_ncode.specs.ByLabel as labels;
ghost use Rattle.cjc_ncode.specs.Written.{Resolution};
ghost use Rattle.cjc_ncode.specs.IntCode.IntCode.{written};
ghost use Rattle.cjc_ncode.specs.IntCode.IntCode as written;
ghost use Rattle.cjc_jvm_semantics.specs.Linked.{Method, Linked};
ghost use Rattle.cjc_jvm_semantics.specs.Effects.{Store};
ghost use Rattle.cjc_jvm_semantics.specs.Machine.{Frame};
ghost use Rattle.cjc_jvm_semantics.specs.Machine as named;
ghost use Rattle.cjc_narrow_proof.specs.Selection.Calls.{NFrame};
ghost use Rattle.cjc_narrow_proof.specs.Selection.Relation.{NMemory, Stores};
ghost use Rattle.cjc_int_runs.specs.ByModes.{PackageIsFine};
ghost use Rattle.cjc_int_runs.specs.Modes.{IsFine, Does};
ghost use Rattle.cjc_narrow_proof.specs.Selection.Tables.{Table};
ghost use Rattle.cjc_int_runs.specs.IntFrames.{IntBody, IntStands, IntRule, int_spot, StandsByMode};

/// Whole runs agree, whatever the modes of methods are, where one instruction by name is at most so many by label in
/// each frame: it goes on, raises, throws, returns or calls as these do.
pub fn runs_agree_by_modes()
    ensures { (by : Linked) (l : Named) (tb : Table) (bodies : Method → Option IntBody) (results : Method → Option Sort)
        (narrowed : Method → Start NMethod) (may_throw : Shape (List ℕ) → Bool) (most bound : ℕ) → 1 ≤ most
        → most ≤ bound → IsFine by l (StandsByMode l tb bodies) results narrowed may_throw most → (script : Script)
        → Agree bound (λ n. named.run by script n) (λ n. labels.run l script n) }
{}

/// In a frame of a method in int mode one instruction of the class file is at most 1,532 by label: 765 of the prologue,
/// or what is written behind a call, and 767 that are written for it.
pub fn int_frames_follow()
    ensures { (by : Linked) (l : Named) (tb : Table) (bodies : Method → Option IntBody) (results : Method → Option Sort)
        (narrowed : Method → Start NMethod) (may_throw : Shape (List ℕ) → Bool) (b : IntBody) (f : Frame) (g : NFrame)
        → bodies f.method ≡ Some b → (memory : NMemory) (store : Store) → Stores l store memory
        → (stands : IntStands l b memory f g) → (i : JInsn)
        → length (written b.frame b.resolution b.place_of (let p = stands.point in p.before)
        (int_spot b f.method f.at) i.op) ≤ 767
        → IntRule by l (StandsByMode l tb bodies) results narrowed may_throw b f.method f.at stands.point i
        → Does by l (StandsByMode l tb bodies) results narrowed may_throw 1532 memory store f g i }
{}

/// Of a package in which methods are of both modes, each reached instruction of which keeps its rule, whole runs agree:
/// where the run by name of n instructions is over, the run by label of 4,096 n agrees with it.
pub fn packages_agree_by_modes()
    ensures { (by : Linked) (l : Named) (tb : Table) (bodies : Method → Option IntBody) (results : Method → Option Sort)
        → PackageIsFine by l tb bodies results → (script : Script)
        → Agree 4096 (λ n. named.run by script n) (λ n. labels.run l script n) }
{}

/// At most 767 instructions are written for one of the class file, where a call has at most 255 parameters.
pub fn written_instructions_are_few()
    ensures { (f : written.Frame) (r : Resolution) (place : ℕ → ℕ) (b : written.Before) (here : ℕ) (op : JOp)
        → ((opcode : ℕ) (m : MemberId) (types : Signature) → op ≡ jop.Call opcode m → signature_of m.desc ≡ Some types
        → length types.params ≤ 255) → length (written f r place b here op) ≤ 767 }
{}
