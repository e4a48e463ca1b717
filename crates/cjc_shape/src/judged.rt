//! What judging promises of a package is what selecting its methods, laying them out and emitting them ask. For whoever
//! converts a package. It has definitions and laws alone; nothing here runs.
ghost use Rattle.std.specs.Prelude.{◌≡◌, ◌≤◌, ℕ, Bool, false, List, slice_get, Some};
ghost use Rattle.cjc_methods.specs.Subset.Ints.{code_works_on_int};
ghost use Rattle.cjc_exported.specs.Bytes.declared.fault.MemberId.{MemberId as Member};
ghost use Rattle.cjc_exported.specs.ClassFile.Code.{CodeTree};
ghost use Rattle.cjc_exported.specs.ClassFile.declared.tree.ClassTree.{ClassTree};
ghost use Rattle.cjc_exported.specs.ClassFile.declared.tree.MethodTree.{MethodTree};
ghost use Rattle.cjc_methods.specs.Bytecode.declared.method_code.MethodCode.{MethodCode};
ghost use Rattle.cjc_methods.specs.Emit.Emitted.{IsEmittable, IsNamedBy};
ghost use Rattle.cjc_judge.specs.declared.judged.Judged.{Judged};
ghost use Rattle.cjc_methods.specs.Layout.Layouts.{IsLayout, IsWhole};
ghost use Rattle.cjc_methods.specs.Layout.declared.layout.Layout.{Layout as Placing};
ghost use Rattle.cjc_methods.specs.List.Listed.{ListTree};
ghost use Rattle.cjc_narrow_proof.specs.NCode.Lowering.Naming.{Naming};
ghost use Rattle.cjc_methods.specs.Narrow.Rows.Selected.{selected_code};
ghost use Rattle.cjc_narrow_proof.specs.NCode.declared.narrow.NMethod.{NMethod as Narrow};
ghost use Rattle.cjc_methods.specs.LowerPool.Pool.{PoolView, token_in};
ghost use Rattle.cjc_methods.specs.LowerPool.Named.{CallsHaveTokens};
ghost use Rattle.cjc_methods.specs.Narrow.Select.Select.{IsSelectable};
ghost use Rattle.cjc_methods.specs.Tokens.Tokens.{assigned};
ghost use Rattle.cjc_methods.specs.Types.declared.table.TypeTable.{TypeTable};
ghost use Rattle.cjc_methods.specs.Narrow.Written.Rows.{has_rows, rows_by};
ghost use Rattle.cjc_shape.specs.Judged.Pooled.{ArePooled};
ghost use Rattle.cjc_shape.specs.Judged.Tested.{IsOne, IsTested, states};

use cjc_narrow_proof::emit::emit_laws::layouts_can_be_said;

/// Each method of a package that breaks no rule of limits and types can be selected, where it does not work on int, of
/// the instructions that its table reaches; and what is selected can be laid out, whichever field instructions have an
/// index of one byte.
pub fn judged_methods_are_selected()
    ensures selectable { (list : ListTree) (files : List (List ℕ)) (judged : Judged) → IsTested list files judged
        → (code : MethodCode) (class : ClassTree) (method : MethodTree) (tree : CodeTree) (table : TypeTable)
        → IsOne judged code class method tree table → code_works_on_int judged.world code ≡ false
        → IsSelectable method tree code.insns (has_rows (states code class method tree table)) }
    ensures whole { (list : ListTree) (files : List (List ℕ)) (judged : Judged) → IsTested list files judged
        → (code : MethodCode) (class : ClassTree) (method : MethodTree) (tree : CodeTree) (table : TypeTable)
        → IsOne judged code class method tree table
        → (near : List Member) → IsWhole (selected_code judged.world near class method tree code.insns
        (rows_by (has_rows (states code class method tree table)))) }
{}

/// Each method of an interface that code of such a package calls has a token. A method that is selected by the
/// indices of the package's pool, and laid out, can be emitted: by every naming whose indices and tokens are
/// those of the pool, whatever else it says of names.
pub fn pooled_methods_are_emittable()
    ensures tokens { (list : ListTree) (files : List (List ℕ)) (judged : Judged) → IsTested list files judged
        → (applets : Bool) (methods : List Narrow) (pool : PoolView) → ArePooled judged applets methods pool
        → CallsHaveTokens judged.world (assigned applets judged.world) methods }
    ensures emittable { (list : ListTree) (files : List (List ℕ)) (judged : Judged) → IsTested list files judged
        → (applets : Bool) (methods : List Narrow) (pool : PoolView) → ArePooled judged applets methods pool
        → (n : Naming) → IsNamedBy pool.keys (token_in pool) n → (k : ℕ) (narrow : Narrow)
        → slice_get methods k ≡ Some narrow
        → (layout : Placing) → IsLayout narrow layout → narrow.widest ≤ 32767
        → IsEmittable pool.keys (token_in pool) n narrow layout.wide }
{
    layouts_can_be_said();
}
