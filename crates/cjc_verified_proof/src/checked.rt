//! Packages whose components the type checker passes: memory holds what it may before the first entry and behind each
//! instruction on a field and each new, none of which is stuck. It has laws alone, for whoever proves that such
//! components are never stuck.
ghost use Rattle.std.specs.Prelude.{◌≡◌, ℕ, false, List, Option, Some};
ghost use Rattle.cjc_capread.specs.declared.tree.ClassRef.{ClassRef};
ghost use Rattle.cjc_capread.specs.declared.tree.PoolEntry.{PoolEntry};
ghost use Rattle.cjc_capread.specs.declared.tree.PoolEntry.TheVariants.{Classref};
ghost use Rattle.cjc_card_semantics.specs.Script.declared.value.Value.{Value};
ghost use Rattle.cjc_intervals.specs.Types.declared.cell.Cell.{Cell};
ghost use Rattle.cjc_card_semantics.specs.Bytecode.Effects.{Memory, effect};
ghost use Rattle.cjc_card_semantics.specs.Bytecode.Meanings.{Makes, Use};
ghost use Rattle.cjc_card_semantics.specs.Machine.Classes.{Class, Field};
ghost use Rattle.cjc_card_semantics.specs.Machine.Operations.{or_undone};
ghost use Rattle.cjc_card_semantics.specs.Machine.Operations as machine;
ghost use Rattle.cjc_card_semantics.specs.Machine.Statics.{Image, first_memory};
ghost use Rattle.cjc_card_semantics.specs.Machine.ByToken.{classes};
ghost use Rattle.cjc_card_acts.specs.CardTypes.{MemberType, is_type_of};
ghost use Rattle.cjc_verify.specs.Frames.Acts.{stack_behind};
ghost use Rattle.cjc_verify.specs.Instructions.{using};
ghost use Rattle.cjc_verify.specs.Named.{entry_of, entry_type, names_unmade};
ghost use Rattle.cjc_verify_proof.specs.Words.{AreWords, AreLocals};
ghost use Rattle.cjc_verify_proof.specs.Acts.{Passes};
ghost use Rattle.cjc_verify_proof.specs.Heaps.{object_is};
ghost use Rattle.cjc_verify_proof.specs.Memories.{Goes, IsMemory};
ghost use Rattle.cjc_verified_proof.specs.Checked.{Checked, IsChecked, pair};
ghost use Rattle.cjc_verified_proof.specs.Entries.{IsRef, UsesField};
ghost use Rattle.cjc_verified_proof.specs.PackageTypes.{field_types};

/// The arrays and the static cells of a package that is checked hold what they may before the first entry.
pub fn memory_begins_so()
    ensures { (c : Checked) → IsChecked c
        → (let p = pair c in IsMemory p.loaded (field_types p) (first_memory p.loaded)) }
{}

/// An instruction on a field of a package that is checked is not stuck, and memory holds what it may afterwards, where
/// the state before it breaks no rule.
pub fn fields_go_on()
    ensures { (c : Checked) → IsChecked c
        → (let p = pair c in (room next : ℕ) (lc : List Cell) (lv : List (Option Value))
        (m : Memory Class Field (List Image)) → AreLocals (object_is p.loaded m.heap) lc lv
        → IsMemory p.loaded (field_types p) m → (k : ℕ) (item : PoolEntry) → entry_of p k ≡ Some item → (how : Use)
        → UsesField how item → (let a = using p how (entry_type p k) item in a.misnames ≡ false) → (cs : List Cell)
        (vs : List Value) → AreWords (object_is p.loaded m.heap) cs vs
        → Passes (is_type_of p.loaded) room (using p how (entry_type p k) item) lc cs
        → Goes p.loaded (field_types p) next (stack_behind (using p how (entry_type p k) item) lc cs) lc m
        (effect (classes p.loaded) (or_undone (machine.using p.loaded 0 how item)) room next lv m vs)) }
{}

/// An instruction of a package that is checked which makes an object is not stuck, and memory holds what it may
/// afterwards, where the state before it breaks no rule and the class is neither abstract nor an interface.
pub fn objects_go_on()
    ensures { (c : Checked) → IsChecked c
        → (let p = pair c in (room next : ℕ) (lc : List Cell) (lv : List (Option Value))
        (m : Memory Class Field (List Image)) → AreLocals (object_is p.loaded m.heap) lc lv
        → IsMemory p.loaded (field_types p) m → (r : ClassRef) (t : MemberType) → IsRef r → names_unmade p r ≡ false
        → (cs : List Cell) (vs : List Value) → AreWords (object_is p.loaded m.heap) cs vs
        → Passes (is_type_of p.loaded) room (using p Makes t (Classref r)) lc cs
        → Goes p.loaded (field_types p) next (stack_behind (using p Makes t (Classref r)) lc cs) lc m
        (effect (classes p.loaded) (or_undone (machine.using p.loaded 0 Makes (Classref r))) room next lv m vs)) }
{}
