//! A law of uses of the constant pool: what an instruction does with an entry, it does with the field, cell,
//! method or class that this names. Nothing here runs.

ghost use Rattle.std.specs.Prelude.{◌≡◌, ℕ, Bool, option_map};
ghost use Rattle.cjc_card_semantics.specs.CapRead.declared.tree.PoolEntry.{PoolEntry};
ghost use Rattle.cjc_card_semantics.specs.Bytecode.Effects.{Letter, Get, Put, GetStatic, PutStatic, Call, New};
ghost use Rattle.cjc_card_semantics.specs.Bytecode.Effects.{NewReferences};
ghost use Rattle.cjc_card_semantics.specs.Bytecode.Meanings.{Gets, Puts, GetsStatic, PutsStatic, Calls, Makes};
ghost use Rattle.cjc_card_semantics.specs.Bytecode.Meanings.{MakesReferences, Mode};
ghost use Rattle.cjc_card_semantics.specs.Machine.Loaded.{Loaded};
ghost use Rattle.cjc_card_semantics.specs.Machine.Operations.{calling, class_by, using};
ghost use Rattle.cjc_card_frame.specs.Kinds.{field_by, cell_by};

/// Each use of an entry of the pool is a use of the field, cell, method or class that it names.
pub fn entries_are_used()
    ensures gets { (l : Loaded) (p : ℕ) (this : Bool) (letter : Letter) (item : PoolEntry)
        → using l p (Gets this letter) item ≡ option_map (Get this letter) (field_by l p item) }
    ensures puts { (l : Loaded) (p : ℕ) (this : Bool) (letter : Letter) (item : PoolEntry)
        → using l p (Puts this letter) item ≡ option_map (Put this letter) (field_by l p item) }
    ensures gets_static { (l : Loaded) (p : ℕ) (letter : Letter) (item : PoolEntry) → using l p (GetsStatic letter) item
        ≡ option_map (GetStatic letter) (cell_by l p item) }
    ensures puts_static { (l : Loaded) (p : ℕ) (letter : Letter) (item : PoolEntry) → using l p (PutsStatic letter) item
        ≡ option_map (PutStatic letter) (cell_by l p item) }
    ensures calls { (l : Loaded) (p : ℕ) (mode : Mode) (item : PoolEntry) → using l p (Calls mode) item
        ≡ option_map Call (calling l p mode item) }
    ensures makes { (l : Loaded) (p : ℕ) (item : PoolEntry) → using l p Makes item
        ≡ option_map New (class_by l p item) }
    ensures makes_references { (l : Loaded) (p : ℕ) (item : PoolEntry) → using l p MakesReferences item
        ≡ option_map NewReferences (class_by l p item) }
{}
