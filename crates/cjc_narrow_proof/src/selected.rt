//! What is selected for the methods of a package is what laying out and emitting ask: facts that rest on rules
//! which the package does not break. For whoever converts a package. It has definitions and laws alone; nothing
//! here runs.
ghost use Rattle.std.specs.Prelude.{◌≡◌, ◌≤◌, ℕ, Bool, List, Option, Some, slice_get};
ghost use Rattle.cjc_bytes.specs.declared.fault.MemberId.{MemberId as Member};
ghost use Rattle.cjc_code.specs.ClassFile.Code.{CodeTree};
ghost use Rattle.cjc_code.specs.ClassFile.declared.tree.ClassTree.{ClassTree};
ghost use Rattle.cjc_code.specs.ClassFile.declared.tree.MethodTree.{MethodTree};
ghost use Rattle.cjc_code.specs.declared.method_code.MethodCode.{MethodCode};
ghost use Rattle.cjc_world.specs.Files.{Files};
ghost use Rattle.cjc_types.specs.declared.state.State.{State as Before};
ghost use Rattle.cjc_types.specs.Flow.{body_of};
ghost use Rattle.cjc_types.specs.Tables.{IsLeastTable, IsMethodOf};
ghost use Rattle.cjc_narrow.specs.Rows.Selected.{selected_code};
ghost use Rattle.cjc_narrow.specs.Written.Rows.{has_rows, rows_by};
ghost use Rattle.cjc_emit.specs.LowerLayout.Forms.{HasForm};
ghost use Rattle.cjc_emit.specs.LowerLayout.Layouts.{IsWhole};
ghost use Rattle.cjc_bytes.specs.declared.settings.Settings.{Settings as Limits};
ghost use Rattle.cjc_narrow.specs.Select.Select.{IsSelectable};
ghost use Rattle.cjc_jvm_semantics.specs.Linked.{Method};
ghost use Rattle.cjc_jvm_semantics.specs.OnePackage.{method_by};
ghost use Rattle.cjc_code.specs.Decoded.{decoded};
ghost use Rattle.cjc_narrow.specs.Rows.Package.{code_of};
ghost use Rattle.cjc_code.specs.declared.insn.JInsn.{JInsn};
ghost use Rattle.cjc_ncode.specs.Lowering.Laid.{IsFormed};
ghost use Rattle.cjc_ncode.specs.Lowering.Naming.{Naming};
ghost use Rattle.cjc_ncode.specs.declared.narrow.NInsn.{NInsn as Insn};
ghost use Rattle.cjc_narrow_proof.specs.Selected.Keeps.{FindsItself, IsSpelt, KeepsRules};
ghost use Rattle.cjc_emit.specs.Said.{CanBeSaid};
ghost use Rattle.cjc_ncode.specs.Written.{reached, widest};
ghost use Rattle.cjc_narrow_proof.specs.Selected.Names.{NamesFit};
ghost use Rattle.cjc_narrow.specs.Rows.Selected.{near_fields};
ghost use Rattle.cjc_ncode.specs.declared.narrow.PoolKey.{PoolKey as Key};
ghost use Rattle.cjc_narrow.specs.Written.Operands.{CanBeSaid as IsSaid, IsAscending};
ghost use Rattle.cjc_narrow_proof.specs.Selected.Operands.{IsSmall, NumbersFit, OperandsFit};

/// The narrow code of a method that was decoded, of the instructions that its least type table reaches, can be
/// laid out, whichever field instructions have an index of one byte: its jumps, switches and handlers lead to
/// instructions that are written, and with every jump wide it has no more bytes than the sum of the widest
/// sizes.
pub fn selected_code_is_whole()
    ensures { (files : Files) (code : MethodCode) (class : ClassTree) (method : MethodTree) (tree : CodeTree)
        → IsMethodOf files code class method tree
        → (rows : List (Option Before)) → IsLeastTable (body_of class method tree code.insns) rows
        → (near : List Member)
        → IsWhole (selected_code files near class method tree code.insns (rows_by (has_rows rows))) }
{}

/// A method of a package that keeps the rules can be selected: one byte can say its numbers. Its locals and its
/// stack are at most 255, its arguments have room in its locals and the operands of its reached calls in its
/// stack; where int is not named, each is a word.
pub fn methods_are_selectable()
    ensures { (files : Files) (code : MethodCode) (class : ClassTree) (method : MethodTree) (tree : CodeTree)
        → IsMethodOf files code class method tree
        → (bytes : List ℕ) → IsSpelt class bytes → (list : List ℕ) (codes : List MethodCode) (settings : Limits)
        → (rows : List (Option Before)) → IsLeastTable (body_of class method tree code.insns) rows
        → KeepsRules list files codes settings code (body_of class method tree code.insns) rows
        → IsSelectable method tree code.insns (has_rows rows) }
{}

/// The look-ups of a package run a method by what is selected for it, by whatever table: where a look-up of its
/// own name finds it.
pub fn what_is_selected_runs()
    ensures { (files : Files) (near : List Member) (rows : Method → List (Option Before)) (class : ClassTree)
        (method : MethodTree) (tree : CodeTree) → FindsItself files class method
        → (let m = method_by class method (Some tree) in code_of files near rows m ≡ selected_code files near class
        method tree (decoded class method tree) (rows m)) }
{}

/// Each instruction that is selected has an opcode of its form, whichever instructions are reached. Where what
/// it names stands in the pool and means what its opcode uses, it can be laid out.
pub fn selected_code_is_formed()
    ensures forms { (files : Files) (near : List Member) (class : ClassTree) (method : MethodTree) (tree : CodeTree)
        (insns : List JInsn) (flags : List Bool)
        → (k : ℕ) (insn : Insn) → (let m = selected_code files near class method tree insns (rows_by flags)
        in slice_get m.insns k ≡ Some insn) → HasForm insn }
    ensures formed { (n : Naming) (files : Files) (near : List Member) (class : ClassTree) (method : MethodTree)
        (tree : CodeTree) (insns : List JInsn) (flags : List Bool)
        → (k : ℕ) (insn : Insn) → (let m = selected_code files near class method tree insns (rows_by flags)
        in slice_get m.insns k ≡ Some insn) → NamesFit n insn → IsFormed n insn }
{}

/// Bytes can say each instruction that is selected, distances to its labels aside: where one byte says each
/// local and two what is added to one, matches ascend, and the indices, words and tokens of the package fit.
/// The cases of a table are words one after the other.
pub fn selected_code_can_be_said()
    ensures { (n : Naming) (files : Files) (near : List Member) (class : ClassTree) (method : MethodTree)
        (tree : CodeTree) (insns : List JInsn) (flags : List Bool)
        → ((k : ℕ) (i : JInsn) → slice_get (reached insns (rows_by flags)) k ≡ Some i → OperandsFit i.op)
        → (k : ℕ) (insn : Insn) → (let m = selected_code files near class method tree insns (rows_by flags)
        in slice_get m.insns k ≡ Some insn) → NumbersFit n insn → CanBeSaid n insn }
{}

/// The operands of a method's instructions fit those of narrow code, where one byte says the numbers that it
/// names and its widest size is at most 32,767: two bytes say what is added to a local, and the matches of a
/// switch are few and ascend.
pub fn decoded_operands_fit()
    ensures { (files : Files) (code : MethodCode) (class : ClassTree) (method : MethodTree) (tree : CodeTree)
        → IsMethodOf files code class method tree
        → (k : ℕ) (i : JInsn) → slice_get code.insns k ≡ Some i → IsSaid i.op → widest i.op ≤ 32767 → OperandsFit i.op }
{}

/// The indices, words and tokens of what is selected by a pool of at most 16,383 keys fit their operands: a
/// field has an index of one byte only where the pool has it among its first 256 keys.
pub fn selected_numbers_fit()
    ensures { (n : Naming) (pool : List Key) → IsSmall n pool
        → (files : Files) (class : ClassTree) (method : MethodTree) (tree : CodeTree) (insns : List JInsn)
        (flags : List Bool) → IsAscending insns
        → ((k : ℕ) (i : JInsn) → slice_get (reached insns (rows_by flags)) k ≡ Some i → IsSaid i.op)
        → (k : ℕ) (insn : Insn) → (let m = selected_code files (near_fields pool) class method tree insns
        (rows_by flags) in slice_get m.insns k ≡ Some insn) → NumbersFit n insn }
{}
