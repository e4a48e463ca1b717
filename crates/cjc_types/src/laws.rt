//! What holds of type tables, for the layers above. Nothing here runs.

ghost use Rattle.std.specs.Prelude.{◌≡◌, ◌<◌, ◌≤◌, ℕ, Bool, true, List, length, slice_get, Option, Some};
ghost use Rattle.std.specs.List.{list_all};
ghost use Rattle.cjc_fixpoint.specs.Dataflow.{IsLawful, StaysWithin};
ghost use Rattle.cjc_fixpoint.specs.Kept.{AreMarks, MeetsAt};
ghost use Rattle.cjc_fixpoint.specs.Shortened.{AreRepeats};
ghost use Rattle.cjc_fixpoint.specs.Tables.{HasRow, IsClosed};
ghost use Rattle.cjc_world.specs.Classes.{Class};
ghost use Rattle.cjc_world.specs.Subtype.{is_subtype};
ghost use Rattle.cjc_types.specs.declared.cell.Cell.{Cell as Known};
ghost use Rattle.cjc_types.specs.declared.cell.Cell.TheVariants as known;
ghost use Rattle.cjc_types.specs.declared.state.State.{State as Before};
ghost use Rattle.cjc_types.specs.declared.state.Stack.TheVariants as stacks;
ghost use Rattle.cjc_classfile.specs.Code.{CodeTree};
ghost use Rattle.cjc_classfile.specs.declared.tree.ClassTree.{ClassTree as ClassFile};
ghost use Rattle.cjc_classfile.specs.declared.tree.MethodTree.{MethodTree as ClassMethod};
ghost use Rattle.cjc_code.specs.declared.insn.JInsn.{JInsn as Insn};
ghost use Rattle.cjc_code.specs.declared.insn.JOp.{JOp};
ghost use Rattle.cjc_code.specs.declared.method_code.MethodCode.{MethodCode as Instructions};
ghost use Rattle.cjc_world.specs.Files.{Files};
ghost use Rattle.cjc_types.specs.Steps.{stack_after, stack_behind};
ghost use Rattle.cjc_types.specs.declared.table.TypeTable.{TypeTable as Types};
ghost use Rattle.cjc_types.specs.Among.{HasNames, IsStateAmong};
ghost use Rattle.cjc_types.specs.Cells.{IsNameSet, refs};
ghost use Rattle.cjc_types.specs.Names.{IsSet, IsWithin};
ghost use Rattle.cjc_types.specs.Flow.{Body, entry, type_flow};
ghost use Rattle.cjc_types.specs.Marks.{marks_of};
ghost use Rattle.cjc_types.specs.Repeats.{CoverAlike, repeats_at};
ghost use Rattle.cjc_types.specs.Rules.{is_number, is_reference, all_types, is_of};
ghost use Rattle.cjc_types.specs.Tables.{Breach, IsLeastTable, IsMethodOf, IsTypeTable, rows_of};
ghost use Rattle.cjc_types.specs.Typed.{AreFrames, AreTyped, Leads};

/// The flow of every method obeys the laws of flows and stays among the method's instructions.
pub fn flow_laws()
    ensures lawful { (b : Body) → IsLawful (type_flow b) }
    ensures stays { (b : Body) → StaysWithin (type_flow b) (length b.insns) }
{}

/// The first instruction, and each place to which a jump, a switch or a handler leads, are the marked places of
/// a method: every edge of its flow goes to one of them or to the place behind. A place that is not marked,
/// where no range of a handler begins or ends, which does not jump and stands behind an instruction that keeps
/// the locals, hands its handlers nothing that the place before does not hand them.
pub fn mark_laws()
    ensures marks { (b : Body) → AreMarks (length b.insns) (marks_of b) }
    ensures meet { (b : Body) → MeetsAt (type_flow b) (length b.insns) (marks_of b) }
    ensures repeats { (b : Body) (bounds : List Bool) → CoverAlike b.insns bounds b.catches
        → AreRepeats (type_flow b) (λ at. repeats_at b bounds at) }
{}

/// A method has at most 65,535 instructions, in ascending order of their offsets: the first by place is the
/// first by offset.
pub fn code_laws()
    ensures few { (files : Files) (code : Instructions) (c : ClassFile) (m : ClassMethod) (t : CodeTree)
        → IsMethodOf files code c m t → length code.insns ≤ 65535 }
    ensures ascending { (files : Files) (code : Instructions) (c : ClassFile) (m : ClassMethod) (t : CodeTree)
        → IsMethodOf files code c m t
        → (j k : ℕ) (x y : Insn) → slice_get code.insns j ≡ Some x → slice_get code.insns k ≡ Some y → j < k
        → x.at < y.at }
{}

/// A method has one least table. No stack of it is cut off for its height. A rule is broken at an instruction
/// of it only where each closed table breaks a rule there. In a table without a broken rule the entry leads to
/// the first instruction, and each instruction that is reached has a frame, with the operands that it takes,
/// each of its kind and class, and leads to what follows. So it is of all instructions, also where the table
/// has no frame of its own.
pub fn table_laws()
    ensures one { (b : Body) (xs ys : List (Option Before)) → IsLeastTable b xs → IsLeastTable b ys → xs ≡ ys }
    ensures first { (w : List Class) (b : Body) (table : Types) → IsTypeTable w b table → 0 < length b.insns
        → Leads b (rows_of b table) 0 (entry b) }
    ensures uncut { (b : Body) (xs : List (Option Before)) → IsLeastTable b xs → length b.insns ≤ 65535
        → (place : ℕ) (x : Before) (s : List Known) (op : JOp) → HasRow xs place x → x.stack ≡ stacks.Cells s
        → stack_after op x.locals x.stack ≡ stacks.Cells (stack_behind op x.locals s) }
    ensures broken { (w : List Class) (b : Body) (xs : List (Option Before)) (place rule : ℕ) → IsLeastTable b xs
        → Breach w b xs place rule → (ys : List (Option Before)) → IsClosed (type_flow b) (length b.insns) ys
        → (other : ℕ) × Breach w b ys place other }
    ensures framed { (w : List Class) (b : Body) (table : Types) → IsTypeTable w b table → AreFrames (rows_of b table) }
    ensures typed { (w : List Class) (b : Body) (table : Types) → IsTypeTable w b table → AreTyped w b table }
{}

/// The types in a least table are those of the method, and a set of them is not cut off for its size.
pub fn name_laws()
    ensures among { (names : List (List ℕ)) (b : Body) (xs : List (Option Before)) → HasNames names b
        → IsLeastTable b xs → (place : ℕ) (x : Before) → HasRow xs place x → IsStateAmong names x }
    ensures whole { (names types : List (List ℕ)) → IsNameSet names → IsSet types → IsWithin types names
        → refs types ≡ known.Refs types }
{}

/// What the tests of cells say.
pub fn cell_laws()
    ensures number { (cell : Known) → is_number cell ≡ true → cell ≡ known.Number }
    ensures reference { (cell : Known) → is_reference cell ≡ true → (names : List (List ℕ))
        × (cell ≡ known.Refs names) }
    ensures class { (w : List Class) (class : List ℕ) (cell : Known) → is_of w class cell ≡ true
        → (names : List (List ℕ)) × (cell ≡ known.Refs names) × (list_all (λ name. is_subtype w name class) names
        ≡ true) }
{}
