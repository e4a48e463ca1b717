//! What holds of type tables and of the methods that they are of, beside what cjc_types says of its own: for
//! the layers that select code by types. Nothing here runs.
ghost use Rattle.std.specs.Prelude.{◌≡◌, ◌<◌, ◌≤◌, ◌+◌, ◌^◌, ℕ, List, [], true, length, slice_get, Option, Some};
ghost use Rattle.std.specs.List.{Contains, AllByRecursion};
ghost use Rattle.cjc_bytes.specs.Format.{FileSpells};
ghost use Rattle.cjc_classfile.specs.ClassFile.{class_file};
ghost use Rattle.cjc_classfile.specs.Code.{CodeTree};
ghost use Rattle.cjc_classfile.specs.declared.tree.Catch.{Catch};
ghost use Rattle.cjc_classfile.specs.declared.tree.ClassTree.{ClassTree};
ghost use Rattle.cjc_classfile.specs.declared.tree.MethodTree.{MethodTree};
ghost use Rattle.cjc_code.specs.declared.insn.JInsn.{JInsn};
ghost use Rattle.cjc_code.specs.declared.method_code.MethodCode.{MethodCode};
ghost use Rattle.cjc_fixpoint.specs.Tables.{HasRow, IsBelow};
ghost use Rattle.cjc_world.specs.Files.{Files};
ghost use Rattle.cjc_types.specs.declared.cell.Cell.TheVariants as cells;
ghost use Rattle.cjc_types.specs.declared.state.State.{State as Before};
ghost use Rattle.cjc_types.specs.Among.{HasNames};
ghost use Rattle.cjc_types.specs.Cells.{IsNameSet, refs};
ghost use Rattle.cjc_types.specs.Flow.{Body, body_of, place_at, type_flow};
ghost use Rattle.cjc_types.specs.Names.{union};
ghost use Rattle.cjc_types.specs.Steps.{goes_on, targets};
ghost use Rattle.cjc_types.specs.Tables.{IsLeastTable, IsMethodOf};
ghost use Rattle.cjc_types.specs.Types.{elements};
ghost use Rattle.cjc_types.specs.TypeLaws.Closed.{IsClosedTable};
ghost use Rattle.cjc_types.specs.TypeLaws.Places.{HasPlace, local_of};
ghost use Rattle.cjc_types.specs.TypeLaws.Whole.{HasTypes};

/// In a method that was decoded the place of an instruction's offset is its own; to each offset to which a jump
/// or a switch may lead, and at each handler, an instruction stands; behind each instruction that may go on
/// another stands; and each local that an instruction loads, stores or changes is one of the method's.
pub fn place_laws()
    ensures own { (files : Files) (code : MethodCode) (c : ClassTree) (m : MethodTree) (t : CodeTree)
        → IsMethodOf files code c m t → (at : ℕ) (i : JInsn) → slice_get code.insns at ≡ Some i
        → place_at code.insns i.at ≡ Some at }
    ensures targets { (files : Files) (code : MethodCode) (c : ClassTree) (m : MethodTree) (t : CodeTree)
        → IsMethodOf files code c m t → (at : ℕ) (i : JInsn) (offset : ℕ) → slice_get code.insns at ≡ Some i
        → Contains (targets i.op) offset → HasPlace code.insns offset }
    ensures handlers { (files : Files) (code : MethodCode) (c : ClassTree) (m : MethodTree) (t : CodeTree)
        → IsMethodOf files code c m t → (h : Catch) → Contains t.catches h → HasPlace code.insns h.target }
    ensures next { (files : Files) (code : MethodCode) (c : ClassTree) (m : MethodTree) (t : CodeTree)
        → IsMethodOf files code c m t → (at : ℕ) (i : JInsn) → slice_get code.insns at ≡ Some i → goes_on i.op ≡ true
        → at + 1 < length code.insns }
    ensures locals { (files : Files) (code : MethodCode) (c : ClassTree) (m : MethodTree) (t : CodeTree)
        → IsMethodOf files code c m t → (at : ℕ) (i : JInsn) (k : ℕ) → slice_get code.insns at ≡ Some i
        → local_of i.op ≡ Some k → k < t.max_locals }
{}

/// The least table of a method is closed and lies below every closed table, where no stack is cut off for its
/// height: neither one of the least table nor one of another.
pub fn closed_laws()
    ensures closed { (b : Body) (xs : List (Option Before)) → IsLeastTable b xs → length b.insns ≤ 65535
        → IsClosedTable b xs }
    ensures least { (b : Body) (xs ys : List (Option Before)) → IsLeastTable b xs → length b.insns ≤ 65535
        → IsClosedTable b ys → IsBelow (type_flow b) xs ys }
{}

/// A class that a file of at most 512 MiB spells has few names: for each of its methods that was decoded there
/// is a set of names that 32 bits count, which has those of its arguments, of what its instructions give and of
/// what it catches, and of the elements of their arrays.
pub fn name_set_laws()
    ensures { (files : Files) (code : MethodCode) (c : ClassTree) (m : MethodTree) (t : CodeTree) (bytes : List ℕ)
        → AllByRecursion (λ b. b < 256) bytes → length bytes ≤ 2 ^ 29 → FileSpells class_file c bytes
        → IsMethodOf files code c m t
        → (names : List (List ℕ)) × IsNameSet names × HasNames names (body_of c m t code.insns) }
{}

/// So in the least table of such a method no set of types is cut off: neither where the types of two of its
/// cells are joined, nor where those that the arrays of a cell hold are taken.
pub fn whole_laws()
    ensures joined { (files : Files) (code : MethodCode) (c : ClassTree) (m : MethodTree) (t : CodeTree)
        (bytes : List ℕ) → AllByRecursion (λ b. b < 256) bytes → length bytes ≤ 2 ^ 29 → FileSpells class_file c bytes
        → IsMethodOf files code c m t
        → (xs : List (Option Before)) → IsLeastTable (body_of c m t code.insns) xs
        → (j k : ℕ) (x y : Before) (types others : List (List ℕ)) → HasRow xs j x → HasRow xs k y → HasTypes x types
        → HasTypes y others
        → refs (union types others) ≡ cells.Refs (union types others) }
    ensures elements { (files : Files) (code : MethodCode) (c : ClassTree) (m : MethodTree) (t : CodeTree)
        (bytes : List ℕ) → AllByRecursion (λ b. b < 256) bytes → length bytes ≤ 2 ^ 29 → FileSpells class_file c bytes
        → IsMethodOf files code c m t
        → (xs : List (Option Before)) → IsLeastTable (body_of c m t code.insns) xs
        → (at : ℕ) (x : Before) (types : List (List ℕ)) → HasRow xs at x → HasTypes x types
        → refs (elements types []) ≡ cells.Refs (elements types []) }
{}
