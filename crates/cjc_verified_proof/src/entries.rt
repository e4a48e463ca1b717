//! Entries of the constant pool: the type checker reads the type of a field from Descriptor, and it is the type of the
//! package's field. It has laws alone, for whoever proves that components which break no rule are never stuck.
ghost use Rattle.std.specs.Prelude.{◌≡◌, ℕ, false, List, length, Option, Some};
ghost use Rattle.cjc_capread.specs.declared.tree.ClassRef.TheVariants as refs;
ghost use Rattle.cjc_capread.specs.declared.tree.StaticRef.TheVariants as statics;
ghost use Rattle.cjc_capread.specs.declared.tree.PoolEntry.{PoolEntry};
ghost use Rattle.cjc_capread.specs.declared.tree.PoolEntry.TheVariants.{InstanceFieldref, StaticFieldref};
ghost use Rattle.cjc_card_semantics.specs.Script.declared.value.Value.{Value};
ghost use Rattle.cjc_intervals.specs.Types.declared.cell.Cell.{Cell};
ghost use Rattle.cjc_card_semantics.specs.Bytecode.Effects.{Memory, effect};
ghost use Rattle.cjc_card_semantics.specs.Bytecode.Meanings.{Use};
ghost use Rattle.cjc_card_semantics.specs.Machine.Classes.{Class, Own, Field};
ghost use Rattle.cjc_card_semantics.specs.Machine.Operations.{or_undone};
ghost use Rattle.cjc_card_semantics.specs.Machine.Operations as machine;
ghost use Rattle.cjc_card_semantics.specs.Machine.Statics.{Image};
ghost use Rattle.cjc_card_semantics.specs.Machine.ByToken.{classes};
ghost use Rattle.cjc_card_acts.specs.CardTypes.{is_type_of};
ghost use Rattle.cjc_verify.specs.Frames.Acts.{stack_behind};
ghost use Rattle.cjc_verify.specs.Instructions.{using};
ghost use Rattle.cjc_verify.specs.Named.{entry_of, entry_type};
ghost use Rattle.cjc_verify.specs.Pairs.{Pair};
ghost use Rattle.cjc_verify.specs.Verified.{IsVerified};
ghost use Rattle.cjc_verify_proof.specs.Words.{AreWords, AreLocals};
ghost use Rattle.cjc_verify_proof.specs.Acts.{Passes};
ghost use Rattle.cjc_verify_proof.specs.Heaps.{object_is};
ghost use Rattle.cjc_verify_proof.specs.Memories.{IsMemory, Goes, SupersStand, AreDeclared};
ghost use Rattle.cjc_verified_proof.specs.PackageTypes.{field_types};
ghost use Rattle.cjc_verified_proof.specs.Entries.{UsesField};

/// The type that Descriptor gives the entry of a field of the package is the type of that field, where no rule is
/// broken and Descriptor has a type for each entry.
pub fn entries_have_types()
    ensures instances { (p : Pair) → IsVerified p
        → (let c = p.components in let d = c.descriptor in let q = c.pool in length d.pool_types ≡ length q.entries)
        → (k offset token : ℕ) → entry_of p k ≡ Some (InstanceFieldref (refs.Inside offset) token)
        → (let t = field_types p in t.field (record { class = Own 0 offset; token = token }))
        ≡ Some (let t = entry_type p k in t.result) }
    ensures cells { (p : Pair) → IsVerified p
        → (let c = p.components in let d = c.descriptor in let q = c.pool in length d.pool_types ≡ length q.entries)
        → (k offset : ℕ) → entry_of p k ≡ Some (StaticFieldref (statics.Inside offset))
        → (let t = field_types p in t.cell (record { part = 0; offset = offset }))
        ≡ Some (let t = entry_type p k in t.result) }
{}

/// An instruction on a field of the package is not stuck, and memory holds what it may afterwards, where the state
/// before it breaks no rule.
pub fn field_instructions_go()
    ensures { (p : Pair) → IsVerified p
        → (let c = p.components in let d = c.descriptor in let q = c.pool in length d.pool_types ≡ length q.entries)
        → SupersStand p.loaded → AreDeclared p.loaded (field_types p) → (room next : ℕ) (lc : List Cell)
        (lv : List (Option Value)) (m : Memory Class Field (List Image)) → AreLocals (object_is p.loaded m.heap) lc lv
        → IsMemory p.loaded (field_types p) m → (k : ℕ) (item : PoolEntry) → entry_of p k ≡ Some item → (how : Use)
        → UsesField how item → (let a = using p how (entry_type p k) item in a.misnames ≡ false) → (cs : List Cell)
        (vs : List Value) → AreWords (object_is p.loaded m.heap) cs vs
        → Passes (is_type_of p.loaded) room (using p how (entry_type p k) item) lc cs
        → Goes p.loaded (field_types p) next (stack_behind (using p how (entry_type p k) item) lc cs) lc m
        (effect (classes p.loaded) (or_undone (machine.using p.loaded 0 how item)) room next lv m vs) }
{}
