//! What is selected for the methods of a package has what consistent code asks: facts on narrow code that rest on the
//! rules which the package does not break. For whoever converts a package. It has laws alone; nothing here runs.
ghost use Rattle.std.specs.Prelude.{◌≡◌, ◌<◌, ℕ, [], Bool, List, None, Option, Some, length, slice_get, true};
ghost use Rattle.cjc_bytes.specs.declared.fault.MemberId.{MemberId as Member};
ghost use Rattle.cjc_world.specs.ClassFile.Code.{CodeTree};
ghost use Rattle.cjc_world.specs.ClassFile.declared.tree.ClassTree.{ClassTree};
ghost use Rattle.cjc_world.specs.ClassFile.declared.tree.MethodTree.{MethodTree};
ghost use Rattle.cjc_components.specs.Bytecode.declared.insn.JInsn.{JInsn};
ghost use Rattle.cjc_components.specs.Bytecode.declared.method_code.MethodCode.{MethodCode};
ghost use Rattle.cjc_world.specs.Files.{Files};
ghost use Rattle.cjc_pool.specs.JvmSemantics.Linked.{Method};
ghost use Rattle.cjc_pool.specs.JvmSemantics.OnePackage.{method_at, method_by};
ghost use Rattle.cjc_pool.specs.Types.declared.state.State.{State as Before};
ghost use Rattle.cjc_pool.specs.Types.Flow.{body_of};
ghost use Rattle.cjc_pool.specs.Types.Tables.{IsLeastTable, IsMethodOf};
ghost use Rattle.cjc_ncode.specs.declared.narrow.NInsn.{NInsn as Insn};
ghost use Rattle.cjc_ncode.specs.Lowering.Naming.{Naming};
ghost use Rattle.cjc_pool.specs.Narrow.Rows.Selected.{selected_code};
ghost use Rattle.cjc_pool.specs.Narrow.Written.Rows.{has_rows, rows_by};
ghost use Rattle.cjc_pool.specs.Layout.Legal.{IsLeast};
ghost use Rattle.cjc_pool.specs.Emit.Emitted.{CanBeWritten, placed_at};
ghost use Rattle.cjc_narrow_proof.specs.Selected.Keeps.{FindsItself};
ghost use Rattle.cjc_components.specs.Package.{LaidMethod, Package};
ghost use Rattle.cjc_components.specs.Written.{IsPackage, IsWritten};
ghost use Rattle.cjc_token_proof.specs.Components.Methods.{HasMethods};
ghost use Rattle.cjc_pool.specs.List.Listed.{ListTree};
ghost use Rattle.cjc_check_proof.specs.Code.Caught.{HandlersLie};
ghost use Rattle.cjc_check_proof.specs.Code.Ends.{AllStayInside, last_ends, StaysInside};
ghost use Rattle.cjc_check_proof.specs.Code.Kinds.{AllHaveKinds, HasKind};
ghost use Rattle.cjc_check_proof.specs.Code.Written.{AllWritable};
ghost use Rattle.cjc_check_proof.specs.Made.{AllAreMade, IsMade};

/// What is selected for a method that was decoded, of the instructions that its least type table reaches, does not go
/// on behind its last instruction: where its code has a byte.
pub fn selected_code_ends()
    ensures { (files : Files) (code : MethodCode) (class : ClassTree) (method : MethodTree) (tree : CodeTree)
        → IsMethodOf files code class method tree
        → (rows : List (Option Before)) → IsLeastTable (body_of class method tree code.insns) rows
        → 0 < length tree.bytes
        → (near : List Member)
        → (let m = selected_code files near class method tree code.insns (rows_by (has_rows rows))
        in last_ends m.insns ≡ true) }
{}

/// Each key that is selected is of the kind that its opcode uses, whichever instructions are reached.
pub fn selected_keys_have_kinds()
    ensures { (files : Files) (near : List Member) (class : ClassTree) (method : MethodTree) (tree : CodeTree)
        (insns : List JInsn) (flags : List Bool)
        → (k : ℕ) (insn : Insn) → (let m = selected_code files near class method tree insns (rows_by flags)
        in slice_get m.insns k ≡ Some insn) → HasKind insn }
{}

/// A method without instructions can be written, and its keys are of their kinds; an abstract one stays inside its
/// code.
pub fn methods_without_code_can_be_written()
    ensures written { (n : Naming) (m : LaidMethod) → (let code = m.code in code.insns ≡ [])
        → (let code = m.code in IsLeast code.insns m.wide) → CanBeWritten n (placed_at 0 m.code m.wide) }
    ensures inside { (m : LaidMethod) → m.is_abstract ≡ true → (let code = m.code in code.insns ≡ []) → StaysInside m }
    ensures kinds { (m : LaidMethod) → (let code = m.code in code.insns ≡ []) → (k : ℕ) (insn : Insn)
        → (let code = m.code in slice_get code.insns k ≡ Some insn) → HasKind insn }
{}

/// Methods that come to their code as a package's do have all that consistent code asks: bytes can say them, they stay
/// inside their code, their handlers stand in it, and their keys are of their kinds.
pub fn made_methods_are_consistent()
    ensures written { (n : Naming) (files : Files) (ms : List LaidMethod) → AllAreMade n files ms → AllWritable n ms }
    ensures inside { (n : Naming) (files : Files) (ms : List LaidMethod) → AllAreMade n files ms → AllStayInside ms }
    ensures handlers { (n : Naming) (files : Files) (ms : List LaidMethod) → AllAreMade n files ms → HandlersLie ms }
    ensures kinds { (n : Naming) (files : Files) (ms : List LaidMethod) → AllAreMade n files ms → AllHaveKinds ms }
{}

/// What is written for a method comes to its code as a package's does: one that its class got, or that has no
/// code in its class file, has none; of any other it is what is selected by its least type table, where a
/// look-up of its own name finds it and bytes can say it.
pub fn written_methods_are_made()
    ensures added { (n : Naming) (files : Files) (near : List Member) (rows : Method
        → List (Option Before)) (m : LaidMethod) → IsWritten files near rows m → method_at files m.member ≡ None
        → IsMade n files m }
    ensures without_code { (n : Naming) (files : Files) (near : List Member) (rows : Method
        → List (Option Before)) (m : LaidMethod) → IsWritten files near rows m
        → (class : ClassTree) (method : MethodTree) → method_at files m.member ≡ Some (method_by class method None)
        → IsMade n files m }
    ensures selected { (n : Naming) (files : Files) (near : List Member) (rows : Method
        → List (Option Before)) (m : LaidMethod) → IsWritten files near rows m
        → (code : MethodCode) (class : ClassTree) (method : MethodTree) (tree : CodeTree)
        → IsMethodOf files code class method tree → method_at files m.member
        ≡ Some (method_by class method (Some tree))
        → FindsItself files class method → IsLeastTable (body_of class method tree code.insns)
        (rows (method_by class method (Some tree))) → 0 < length tree.bytes
        → CanBeWritten n (placed_at 0 m.code m.wide)
        → IsMade n files m }
{}

/// A package, as the definition of what is written has it, has the methods of its classes in their order.
pub fn packages_have_their_methods()
    ensures { (list : ListTree) (files : Files) (codes : List MethodCode) (rows : Method
        → List (Option Before)) (p : Package) → IsPackage list files codes rows p → HasMethods p }
{}
