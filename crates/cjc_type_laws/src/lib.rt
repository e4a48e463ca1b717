//! What holds of type tables and of the methods that they are of, beside what cjc_types says of its own: for the layers that
//! select code by types. Nothing here runs.
#![tactic(auto)]

ghost use Rattle.std.specs.Prelude.{◌≡◌, ◌<◌, ◌≤◌, ◌+◌, ℕ, List, true, length, slice_get, Option, Some};
ghost use Rattle.std.specs.List.{Contains};
ghost use Rattle.cjc_classfile.specs.Code.{CodeTree};
ghost use Rattle.cjc_classfile.specs.declared.tree.Catch.{Catch};
ghost use Rattle.cjc_classfile.specs.declared.tree.ClassTree.{ClassTree};
ghost use Rattle.cjc_classfile.specs.declared.tree.MethodTree.{MethodTree};
ghost use Rattle.cjc_code.specs.declared.insn.JInsn.{JInsn};
ghost use Rattle.cjc_code.specs.declared.method_code.MethodCode.{MethodCode};
ghost use Rattle.cjc_fixpoint.specs.Tables.{IsBelow};
ghost use Rattle.cjc_world.specs.Files.{Files};
ghost use Rattle.cjc_types.specs.declared.state.State.{State as Before};
ghost use Rattle.cjc_types.specs.Flow.{Body, place_at, type_flow};
ghost use Rattle.cjc_types.specs.Steps.{goes_on, targets};
ghost use Rattle.cjc_types.specs.Tables.{IsLeastTable, IsMethodOf};
ghost use Rattle.cjc_type_laws.specs.Closed.{IsClosedTable};
ghost use Rattle.cjc_type_laws.specs.Places.{HasPlace, local_of};

/// In a method that was decoded the place of an instruction's offset is its own; to each offset to which a jump or a switch
/// may lead, and at each handler, an instruction stands; behind each instruction that may go on another stands; and each local
/// that an instruction loads, stores or changes is one of the method's.
pub fn place_laws()
    ensures own { (files : Files) (code : MethodCode) (c : ClassTree) (m : MethodTree) (t : CodeTree) → IsMethodOf files code c m t → (at : ℕ) (i : JInsn) → slice_get code.insns at ≡ Some i → place_at code.insns i.at ≡ Some at }
    ensures targets { (files : Files) (code : MethodCode) (c : ClassTree) (m : MethodTree) (t : CodeTree) → IsMethodOf files code c m t → (at : ℕ) (i : JInsn) (offset : ℕ) → slice_get code.insns at ≡ Some i → Contains (targets i.op) offset → HasPlace code.insns offset }
    ensures handlers { (files : Files) (code : MethodCode) (c : ClassTree) (m : MethodTree) (t : CodeTree) → IsMethodOf files code c m t → (h : Catch) → Contains t.catches h → HasPlace code.insns h.target }
    ensures next { (files : Files) (code : MethodCode) (c : ClassTree) (m : MethodTree) (t : CodeTree) → IsMethodOf files code c m t → (at : ℕ) (i : JInsn) → slice_get code.insns at ≡ Some i → goes_on i.op ≡ true → at + 1 < length code.insns }
    ensures locals { (files : Files) (code : MethodCode) (c : ClassTree) (m : MethodTree) (t : CodeTree) → IsMethodOf files code c m t → (at : ℕ) (i : JInsn) (k : ℕ) → slice_get code.insns at ≡ Some i → local_of i.op ≡ Some k → k < t.max_locals }
{}

/// The least table of a method is closed and lies below every closed table, where no stack is cut off for its height: neither one
/// of the least table nor one of another.
pub fn closed_laws()
    ensures closed { (b : Body) (xs : List (Option Before)) → IsLeastTable b xs → length b.insns ≤ 65535 → IsClosedTable b xs }
    ensures least { (b : Body) (xs ys : List (Option Before)) → IsLeastTable b xs → length b.insns ≤ 65535 → IsClosedTable b ys → IsBelow (type_flow b) xs ys }
{}
