//! What judging promises of a package is what selecting and laying out its methods ask. For whoever converts a package. It
//! has definitions and laws alone; nothing here runs.
#![tactic(auto)]

ghost use Rattle.std.specs.Prelude.{ℕ, List};
ghost use Rattle.cjc_bytes.specs.declared.fault.MemberId.{MemberId as Member};
ghost use Rattle.cjc_classfile.specs.Code.{CodeTree};
ghost use Rattle.cjc_classfile.specs.declared.tree.ClassTree.{ClassTree};
ghost use Rattle.cjc_classfile.specs.declared.tree.MethodTree.{MethodTree};
ghost use Rattle.cjc_code.specs.declared.method_code.MethodCode.{MethodCode};
ghost use Rattle.cjc_judge.specs.declared.judged.Judged.{Judged};
ghost use Rattle.cjc_layout.specs.Layouts.{IsWhole};
ghost use Rattle.cjc_list.specs.Listed.{ListTree};
ghost use Rattle.cjc_narrow.specs.Selected.{selected_code};
ghost use Rattle.cjc_select.specs.Select.{IsSelectable};
ghost use Rattle.cjc_types.specs.declared.table.TypeTable.{TypeTable};
ghost use Rattle.cjc_written.specs.Rows.{has_rows, rows_by};
ghost use Rattle.cjc_judge_laws.specs.Tested.{IsOne, IsTested, states};

/// Each method of a package that breaks no rule of limits and types, and may not name int, can be selected, of the
/// instructions that its table reaches; and what is selected can be laid out, whichever field instructions have an index of
/// one byte.
pub fn judged_methods_are_selected()
    ensures selectable { (list : ListTree) (files : List (List ℕ)) (judged : Judged) → IsTested list files judged
        → (code : MethodCode) (class : ClassTree) (method : MethodTree) (tree : CodeTree) (table : TypeTable) → IsOne judged code class method tree table
        → IsSelectable method tree code.insns (has_rows (states code class method tree table)) }
    ensures whole { (list : ListTree) (files : List (List ℕ)) (judged : Judged) → IsTested list files judged
        → (code : MethodCode) (class : ClassTree) (method : MethodTree) (tree : CodeTree) (table : TypeTable) → IsOne judged code class method tree table
        → (near : List Member) → IsWhole (selected_code judged.world near class method tree code.insns (rows_by (has_rows (states code class method tree table)))) }
{}
