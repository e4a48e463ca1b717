//! What is selected for methods in int mode is what laying out asks. Laws alone: nothing here runs.

ghost use Rattle.std.specs.Prelude.{List, Option};
ghost use Rattle.cjc_int_proof.specs.Layout.Layouts.{IsWhole};
ghost use Rattle.cjc_int_mode.specs.Bytecode.declared.method_code.MethodCode.{MethodCode};
ghost use Rattle.cjc_int_mode.specs.ClassFile.Code.{CodeTree};
ghost use Rattle.cjc_int_mode.specs.ClassFile.declared.tree.ClassTree.{ClassTree};
ghost use Rattle.cjc_int_mode.specs.ClassFile.declared.tree.MethodTree.{MethodTree};
ghost use Rattle.cjc_int_mode.specs.World.Files.{Files};
ghost use Rattle.cjc_narrow.specs.Types.declared.state.State.{State};
ghost use Rattle.cjc_narrow.specs.Types.Flow.{body_of};
ghost use Rattle.cjc_narrow.specs.Types.Tables.{IsLeastTable, IsMethodOf};
ghost use Rattle.cjc_int_mode.specs.Intervals.Frames.{RangeState};
ghost use Rattle.cjc_ncode.specs.Written.{Resolution};
ghost use Rattle.cjc_int_mode.specs.Written.{written_in_int_mode};

/// The narrow code in int mode of a method that was decoded, of the instructions that its least type table reaches, can
/// be laid out, whatever its intervals are and its names stand for: its jumps, switches and handlers lead to
/// instructions that are written, and with every jump wide it has no more bytes than the sum of the widest sizes.
pub fn int_code_is_whole()
    ensures { (files : Files) (code : MethodCode) (class : ClassTree) (method : MethodTree) (tree : CodeTree)
        → IsMethodOf files code class method tree → (rows : List (Option State))
        → IsLeastTable (body_of class method tree code.insns) rows → (ranges : List (Option RangeState))
        (r : Resolution) → IsWhole (written_in_int_mode r tree (body_of class method tree code.insns) rows ranges) }
{}
