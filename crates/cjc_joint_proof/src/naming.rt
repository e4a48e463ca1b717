//! What the pool and the code of a package name by themselves they name in a group, each class, static cell and method
//! as the group has it; and the package's code stands there. So the laws of lowering, which speak of a package among
//! whatever is loaded, hold of each package of a group. It has definitions and laws alone.
ghost use Rattle.std.specs.Prelude.{◌≡◌, ℕ, List, Some, slice_get};
ghost use Rattle.cjc_card_semantics.specs.Bytes.declared.fault.MemberId.{MemberId};
ghost use Rattle.cjc_card_semantics.specs.Bytecode.Machine.{Fetched};
ghost use Rattle.cjc_card_semantics.specs.Bytecode.Meanings.{Use};
ghost use Rattle.cjc_card_semantics.specs.Machine.Loaded.{Loaded, Part};
ghost use Rattle.cjc_card_semantics.specs.Machine.Methods.{fetch};
ghost use Rattle.cjc_token_proof.specs.NCode.ByLabel as ByLabel;
ghost use Rattle.cjc_token_proof.specs.NCode.Lowering.Laid.{IsFormed};
ghost use Rattle.cjc_token_proof.specs.NCode.Lowering.Naming.{Fit, IsClass, Naming};
ghost use Rattle.cjc_token_proof.specs.NCode.Lowering.Package.{HoldsMethods};
ghost use Rattle.cjc_token_proof.specs.NCode.Lowering.Placed.{Placed, code_of, fetched_on_card, offset_of};
ghost use Rattle.cjc_token_proof.specs.NCode.declared.narrow.NInsn.{NInsn};
ghost use Rattle.cjc_token_proof.specs.NCode.declared.narrow.PoolKey.{PoolKey};
ghost use Rattle.cjc_joint_proof.specs.Naming.{HasEach, naming_in};
ghost use Rattle.cjc_joint_proof.specs.Parts.{IsPart};

/// A class that a name of a package means by itself, it means in a group; and so does each entry of the pool, and each
/// instruction that is formed for the package by itself is formed for it there.
pub fn names_stay()
    ensures classes { (group : Loaded) (q : ℕ) (n : Naming) → n.part ≡ 0 → IsPart n.loaded group q
        → HasEach n.loaded group q → (c : List ℕ) → IsClass n c → IsClass (naming_in group q n) c }
    ensures entries { (group : Loaded) (q : ℕ) (n : Naming) → n.part ≡ 0 → IsPart n.loaded group q
        → HasEach n.loaded group q → (how : Use) (key : PoolKey) → Fit n how key
        → Fit (naming_in group q n) how key }
    ensures instructions { (group : Loaded) (q : ℕ) (n : Naming) → n.part ≡ 0 → IsPart n.loaded group q
        → HasEach n.loaded group q → (insn : NInsn) → IsFormed n insn → IsFormed (naming_in group q n) insn }
{}

/// A package that holds its methods by itself, one behind the other and with their handlers, holds them in a group.
pub fn code_stays()
    ensures { (group : Loaded) (q : ℕ) (n : Naming) → n.part ≡ 0 → (h : IsPart n.loaded group q)
        → HasEach n.loaded group q → (part : Part) (placed : List Placed) → HoldsMethods n part placed
        → HoldsMethods (naming_in group q n) (record part { imports = h.imports }) placed }
{}

/// What narrow code of such a method fetches at a label, the card fetches in the group at the label's offset: the same
/// operation under the names of the group, and the offset of the same next label.
pub fn code_runs_there()
    ensures { (group : Loaded) (q : ℕ) (n : Naming) → n.part ≡ 0 → IsPart n.loaded group q → HasEach n.loaded group q
        → (part : Part) (placed : List Placed) → HoldsMethods n part placed → (j : ℕ) (p : Placed)
        → slice_get placed j ≡ Some p → (k : ℕ) (i : Fetched (List ℕ) MemberId MemberId ByLabel.Callee)
        → ByLabel.fetch p.method k ≡ Some i
        → fetch group (code_of (naming_in group q n) p) (offset_of (naming_in group q n) p k)
        ≡ Some (fetched_on_card (naming_in group q n) p i) }
{}
