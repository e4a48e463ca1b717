//! The instructions that are written for a method in int mode have opcodes of their forms, and operands that bytes can
//! say: what laying out and emitting ask of them. Laws alone: nothing here runs.

ghost use Rattle.std.specs.Prelude.{◌≡◌, ◌+◌, ◌*◌, ◌≤◌, ℕ, List, Some, length, slice_get, true, false};
ghost use Rattle.cjc_types.specs.ClassFile.Code.{CodeTree};
ghost use Rattle.cjc_ncode.specs.Lowering.Laid.{laid};
ghost use Rattle.cjc_ncode.specs.Lowering.Naming.{Naming};
ghost use Rattle.cjc_ncode.specs.Lowering.Placed.{IsSpellable};
ghost use Rattle.cjc_ncode.specs.Written.{Resolution};
ghost use Rattle.cjc_ncode.specs.IntCode.IntCode.{Frame, Reached, int_method, nargs};
ghost use Rattle.cjc_ncode.specs.declared.narrow.NInsn.{NInsn};
ghost use Rattle.cjc_layout.specs.Forms.{HasForm};
ghost use Rattle.cjc_int_proof.specs.Operands.{OperandsFit, names_nothing};

/// Each instruction that is written has an opcode of its form, whatever was before it.
pub fn written_code_has_its_forms()
    ensures { (f : Frame) (r : Resolution) (code : CodeTree) (reached : List Reached) (places : List ℕ) (k : ℕ)
        (insn : NInsn) → (let m = int_method f r code reached places in slice_get m.insns k ≡ Some insn)
        → HasForm insn }
{}

/// Bytes can say each instruction that is written and names nothing, distances to its labels aside: where one byte says
/// the words of the arguments and of their locals, and the operands of the reached instructions fit.
pub fn written_code_can_be_said()
    ensures { (n : Naming) (f : Frame) (r : Resolution) (code : CodeTree) (reached : List Reached) (places : List ℕ)
        → nargs f + 2 * length f.params ≤ 256
        → ((k : ℕ) (i : Reached) → slice_get reached k ≡ Some i → OperandsFit f r (let j = i.insn in j.op))
        → (k : ℕ) (insn : NInsn) → (let m = int_method f r code reached places in slice_get m.insns k ≡ Some insn)
        → names_nothing insn ≡ true → IsSpellable (laid n (λ label. 0) 0 false insn) }
{}
