//! The methods of a package some of which are in int mode are as consistent components ask. Laws alone: nothing here
//! runs.
ghost use Rattle.std.specs.Prelude.{◌≡◌, ◌<◌, ◌≤◌, ℕ, List, Option, Some, length, slice_get};
ghost use Rattle.std.specs.List.{Contains};
ghost use Rattle.cjc_int_narrow.specs.Bytes.declared.fault.MemberId.{MemberId as Member};
ghost use Rattle.cjc_int_narrow.specs.Bytecode.PackageCodes.{all_codes};
ghost use Rattle.cjc_int_narrow.specs.Bytecode.declared.method_code.MethodCode.{MethodCode};
ghost use Rattle.cjc_check_proof.specs.LowerComponents.Package.{LaidMethod};
ghost use Rattle.cjc_check_proof.specs.LowerEmit.Emitted.{CanBeWritten, placed_at};
ghost use Rattle.cjc_check_proof.specs.LowerEmit.Said.{CanBeSaid};
ghost use Rattle.cjc_check_proof.specs.Intervals.Frames.{RangeState};
ghost use Rattle.cjc_check_proof.specs.JvmSemantics.OnePackage.{method_at, method_by};
ghost use Rattle.cjc_check_proof.specs.Layout.Legal.{IsLeast};
ghost use Rattle.cjc_ncode.specs.Lowering.Naming.{Naming};
ghost use Rattle.cjc_ncode.specs.Written.{Resolution};
ghost use Rattle.cjc_ncode.specs.declared.narrow.NInsn.{NInsn};
ghost use Rattle.cjc_check_proof.specs.Types.Flow.{body_of};
ghost use Rattle.cjc_check_proof.specs.Types.Tables.{IsLeastTable, IsMethodOf};
ghost use Rattle.cjc_check_proof.specs.Types.declared.state.State.{State};
ghost use Rattle.cjc_int_narrow.specs.ClassFile.Code.{CodeTree};
ghost use Rattle.cjc_int_narrow.specs.ClassFile.declared.tree.ClassTree.{ClassTree};
ghost use Rattle.cjc_int_narrow.specs.ClassFile.declared.tree.MethodTree.{MethodTree};
ghost use Rattle.cjc_int_narrow.specs.World.Files.{Files};
ghost use Rattle.cjc_check_proof.specs.NarrowProof.Selected.Keeps.{FindsItself};
ghost use Rattle.cjc_check_proof.specs.Code.Caught.{HandlersLie};
ghost use Rattle.cjc_check_proof.specs.Code.Ends.{AllStayInside};
ghost use Rattle.cjc_check_proof.specs.Code.Kinds.{AllHaveKinds};
ghost use Rattle.cjc_check_proof.specs.Code.Written.{AllWritable};
ghost use Rattle.cjc_int_narrow.specs.LowerIntMode.Written.{written_in_int_mode};
ghost use Rattle.cjc_int_narrow.specs.LowerIntMode.declared.modes.Mode.TheVariants as modes;
ghost use Rattle.cjc_int_components.specs.Made.{AllAreMadeByMode, IsMadeByMode};
ghost use Rattle.cjc_int_components.specs.Modes.{AreLeast, Tables};
ghost use Rattle.cjc_int_components.specs.Written.{IsWrittenByMode};

/// At the least choice of wide jumps, and at most 32,767 bytes by its widest sizes (415), bytes can say a method in int
/// mode wherever it stands, where they can say each of its instructions, distances to labels aside.
pub fn int_methods_can_be_written()
    ensures { (n : Naming) (files : Files) (code : MethodCode) (class : ClassTree) (method : MethodTree)
        (tree : CodeTree) → IsMethodOf files code class method tree → (rows : List (Option State))
        → IsLeastTable (body_of class method tree code.insns) rows → (ranges : List (Option RangeState))
        (r : Resolution) (m : LaidMethod)
        → m.code ≡ written_in_int_mode r tree (body_of class method tree code.insns) rows ranges
        → (let narrow = m.code in IsLeast narrow.insns m.wide) → (let narrow = m.code in narrow.widest ≤ 32767)
        → ((k : ℕ) (insn : NInsn) → (let narrow = m.code in slice_get narrow.insns k ≡ Some insn) → CanBeSaid n insn)
        → CanBeWritten n (placed_at 0 m.code m.wide) }
{}

/// What is written for a method in int mode comes to its code as a package's does by modes: where a look-up of its own
/// name finds it, its tables are the least, and bytes can say it.
pub fn int_methods_are_made()
    ensures { (n : Naming) (files : Files) (near : List Member) (t : Tables) (m : LaidMethod)
        → IsWrittenByMode files near t m
        → (code : MethodCode) (class : ClassTree) (method : MethodTree) (tree : CodeTree)
        → IsMethodOf files code class method tree
        → method_at files m.member ≡ Some (method_by class method (Some tree))
        → t.mode (method_by class method (Some tree)) ≡ modes.Int → FindsItself files class method
        → AreLeast files t → Contains (all_codes files.classes) code
        → 0 < length tree.bytes → CanBeWritten n (placed_at 0 m.code m.wide) → IsMadeByMode n files m }
{}

/// Methods that come to their code as a package's do by modes have all that consistent code asks: bytes can say them,
/// they stay inside their code, their handlers stand in it, and their keys are of their kinds.
pub fn methods_by_modes_are_consistent()
    ensures written { (n : Naming) (files : Files) (ms : List LaidMethod) → AllAreMadeByMode n files ms
        → AllWritable n ms }
    ensures inside { (n : Naming) (files : Files) (ms : List LaidMethod) → AllAreMadeByMode n files ms
        → AllStayInside ms }
    ensures handlers { (n : Naming) (files : Files) (ms : List LaidMethod) → AllAreMadeByMode n files ms
        → HandlersLie ms }
    ensures kinds { (n : Naming) (files : Files) (ms : List LaidMethod) → AllAreMadeByMode n files ms
        → AllHaveKinds ms }
{}
