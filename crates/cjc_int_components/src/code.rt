//! What is written for methods in int mode is what consistent components ask. Laws alone: nothing here runs.
ghost use Rattle.std.specs.Prelude.{◌≡◌, ◌<◌, ℕ, List, Option, Some, length, slice_get, true};
ghost use Rattle.cjc_int_narrow.specs.Bytes.declared.fault.MemberId.{MemberId as Member};
ghost use Rattle.cjc_int_narrow.specs.Bytecode.declared.method_code.MethodCode.{MethodCode};
ghost use Rattle.cjc_check_proof.specs.Intervals.Frames.{RangeState};
ghost use Rattle.cjc_int_narrow.specs.LowerNarrow.Rows.Resolved.{resolution};
ghost use Rattle.cjc_ncode.specs.Written.{Resolution};
ghost use Rattle.cjc_ncode.specs.declared.narrow.NInsn.{NInsn};
ghost use Rattle.cjc_check_proof.specs.Types.Flow.{body_of};
ghost use Rattle.cjc_check_proof.specs.Types.Tables.{IsLeastTable, IsMethodOf};
ghost use Rattle.cjc_check_proof.specs.Types.declared.state.State.{State};
ghost use Rattle.cjc_int_narrow.specs.ClassFile.Code.{CodeTree};
ghost use Rattle.cjc_int_narrow.specs.ClassFile.declared.tree.ClassTree.{ClassTree};
ghost use Rattle.cjc_int_narrow.specs.ClassFile.declared.tree.MethodTree.{MethodTree};
ghost use Rattle.cjc_int_narrow.specs.World.Files.{Files};
ghost use Rattle.cjc_check_proof.specs.Code.Ends.{last_ends};
ghost use Rattle.cjc_check_proof.specs.Code.Kinds.{HasKind};
ghost use Rattle.cjc_int_narrow.specs.LowerIntMode.Written.{written_in_int_mode};

/// What is written for a method that was decoded, of the instructions that its least type table reaches, does not go on
/// behind its last instruction: where its code has a byte.
pub fn int_code_ends()
    ensures { (files : Files) (code : MethodCode) (class : ClassTree) (method : MethodTree) (tree : CodeTree)
        → IsMethodOf files code class method tree → (rows : List (Option State))
        → IsLeastTable (body_of class method tree code.insns) rows → 0 < length tree.bytes
        → (ranges : List (Option RangeState)) (r : Resolution)
        → (let m = written_in_int_mode r tree (body_of class method tree code.insns) rows ranges
        in last_ends m.insns ≡ true) }
{}

/// Each key that is written is of the kind that its opcode uses, whichever instructions are reached.
pub fn int_keys_have_kinds()
    ensures { (files : Files) (near : List Member) (code : MethodCode) (class : ClassTree) (method : MethodTree)
        (tree : CodeTree) (rows : List (Option State)) (ranges : List (Option RangeState)) (k : ℕ) (insn : NInsn)
        → (let m = written_in_int_mode (resolution files near class.name) tree
        (body_of class method tree code.insns) rows ranges in slice_get m.insns k ≡ Some insn) → HasKind insn }
{}
