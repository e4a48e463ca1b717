//! What is written for methods in int mode is what emitting asks: what it names, its numbers, and that bytes can say
//! it. Laws alone: nothing here runs.

ghost use Rattle.std.specs.Prelude.{◌≡◌, ◌+◌, ◌*◌, ◌≤◌, ℕ, ℤ, List, Option, Some, length, slice_get, true};
ghost use Rattle.cjc_int_narrow.specs.Bytes.declared.fault.MemberId.{MemberId as Member};
ghost use Rattle.cjc_int_narrow.specs.Bytecode.declared.insn.JInsn.{JInsn};
ghost use Rattle.cjc_int_narrow.specs.Bytecode.declared.method_code.MethodCode.{MethodCode};
ghost use Rattle.cjc_emit.specs.Said.{CanBeSaid};
ghost use Rattle.cjc_world.specs.ExportFile.Writable.{IsWritable};
ghost use Rattle.cjc_world.specs.ExportFile.declared.tree.ExportTree.{ExportTree};
ghost use Rattle.cjc_types.specs.Fixpoint.Tables.{HasRow};
ghost use Rattle.cjc_int_narrow.specs.LowerNarrow.Rows.Resolved.{resolution};
ghost use Rattle.cjc_int_narrow.specs.LowerNarrow.Rows.Selected.{near_fields};
ghost use Rattle.cjc_ncode.specs.IntCode.IntCode.{Frame, Reached, int_method, nargs, widest};
ghost use Rattle.cjc_ncode.specs.Lowering.Naming.{Naming};
ghost use Rattle.cjc_ncode.specs.Written.{Resolution};
ghost use Rattle.cjc_ncode.specs.declared.narrow.NInsn.{NInsn};
ghost use Rattle.cjc_ncode.specs.declared.narrow.PoolKey.{PoolKey as Key};
ghost use Rattle.cjc_types.specs.Flow.{body_of};
ghost use Rattle.cjc_types.specs.Tables.{IsMethodOf};
ghost use Rattle.cjc_types.specs.declared.state.State.{State};
ghost use Rattle.cjc_int_narrow.specs.ClassFile.Code.{CodeTree};
ghost use Rattle.cjc_int_narrow.specs.ClassFile.declared.tree.ClassTree.{ClassTree};
ghost use Rattle.cjc_int_narrow.specs.ClassFile.declared.tree.MethodTree.{MethodTree};
ghost use Rattle.cjc_int_narrow.specs.World.Files.{Files};
ghost use Rattle.cjc_narrow_proof.specs.Selected.Keeps.{IsSpelt};
ghost use Rattle.cjc_narrow_proof.specs.Selected.Operands.{IsSmall, NumbersFit};
ghost use Rattle.cjc_int_narrow.specs.LowerIntMode.Room.{IsRoom};
ghost use Rattle.cjc_int_narrow.specs.LowerIntMode.Written.{int_frame};
ghost use Rattle.cjc_int_narrow.specs.LowerIntMode.declared.modes.Mode.TheVariants as modes;
ghost use Rattle.cjc_int_narrow.specs.LowerIntProof.Operands.{IsInt, OperandsFit};
ghost use Rattle.cjc_int_selection.specs.Names.{NamesAsOneOf, WordsFit};

/// Each instruction that is written names nothing, or what one of the reached instructions of the class file names.
pub fn written_code_names_what_is_named()
    ensures { (f : Frame) (r : Resolution) (code : CodeTree) (reached : List Reached) (places : List ℕ) (k : ℕ)
        (insn : NInsn) → (let m = int_method f r code reached places in slice_get m.insns k ≡ Some insn)
        → NamesAsOneOf r reached insn }
{}

/// The indices, words and tokens of what is written by a pool of at most 16,383 keys fit their operands, where one byte
/// says the words of each method of an interface that a reached instruction calls: a field has an index of one byte
/// only where the pool has it among its first 256 keys.
pub fn int_numbers_fit()
    ensures { (n : Naming) (pool : List Key) → IsSmall n pool → (files : Files) (holder : List ℕ) (f : Frame)
        (code : CodeTree) (reached : List Reached) (places : List ℕ)
        → ((k : ℕ) (i : Reached) → slice_get reached k ≡ Some i → WordsFit (let j = i.insn in j.op))
        → (k : ℕ) (insn : NInsn)
        → (let m = int_method f (resolution files (near_fields pool) holder) code reached places
        in slice_get m.insns k ≡ Some insn) → NumbersFit n insn }
{}

/// Bytes can say each instruction that is written, distances to its labels aside: where one byte says the words of the
/// arguments and of their locals, the operands of the reached instructions fit, and so do the indices, words and tokens
/// of the package.
pub fn int_code_can_be_said()
    ensures { (n : Naming) (r : Resolution) (f : Frame) (code : CodeTree) (reached : List Reached) (places : List ℕ)
        → nargs f + 2 * length f.params ≤ 256
        → ((k : ℕ) (i : Reached) → slice_get reached k ≡ Some i → OperandsFit f r (let j = i.insn in j.op))
        → (k : ℕ) (insn : NInsn) → (let m = int_method f r code reached places in slice_get m.insns k ≡ Some insn)
        → NumbersFit n insn → CanBeSaid n insn }
{}

/// The operands of a reached instruction of a method that was decoded fit what is written for it, where its file spells
/// its class, there is room for the method (417), constants of fields have 32 bits, and its own widest size is at most
/// 32,767.
pub fn decoded_operands_fit_int_mode()
    ensures { (files : Files) (code : MethodCode) (class : ClassTree) (method : MethodTree) (tree : CodeTree)
        → IsMethodOf files code class method tree → (bytes : List ℕ) → IsSpelt class bytes
        → (rows : List (Option State)) → IsRoom (body_of class method tree code.insns) rows modes.Int true
        → (r : Resolution) → ((g : Member) (z : ℤ) → r.constant g ≡ Some z → IsInt z)
        → (k : ℕ) (i : JInsn) (x : State) → slice_get code.insns k ≡ Some i → HasRow rows k x
        → widest r i.op ≤ 32767 → OperandsFit (int_frame (body_of class method tree code.insns)) r i.op }
{}

/// A constant that an instruction names has 32 bits, where files spell the classes of the package, and some file spells
/// each of its export trees.
pub fn constants_of_fields_fit_int_mode()
    ensures { (files : Files) → ((k : ℕ) (class : ClassTree) → slice_get files.classes k ≡ Some class
        → (bytes : List ℕ) × IsSpelt class bytes)
        → ((k : ℕ) (tree : ExportTree) → slice_get files.exports k ≡ Some tree → IsWritable tree)
        → (near : List Member) (holder : List ℕ) (g : Member) (z : ℤ)
        → (resolution files near holder).constant g ≡ Some z → IsInt z }
{}
