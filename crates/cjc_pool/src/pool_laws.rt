//! The pool that is made of a package's narrow code is what emitting asks and what components hold: laws over
//! the pool that cjc_pool promises and the definition of ConstantPool. For whoever converts a package. Nothing
//! here runs.
ghost use Rattle.std.specs.Prelude.{◌≡◌, ℕ, List, Some, true, map, position};
ghost use Rattle.std.specs.List.{flat_map, list_any};
ghost use Rattle.cjc_narrow.specs.LowerCapRead.declared.tree.PoolEntry.{PoolEntry as Entry};
ghost use Rattle.cjc_components.specs.World.Files.{Files};
ghost use Rattle.cjc_components.specs.LowerTokens.Tokens.{Assigned};
ghost use Rattle.cjc_narrow.specs.LowerCardSemantics.Machine.Loaded.{Loaded};
ghost use Rattle.cjc_narrow.specs.LowerNCode.declared.narrow.NInsn.{NInsn as Insn};
ghost use Rattle.cjc_narrow.specs.LowerNCode.declared.narrow.NMethod.{NMethod as Method};
ghost use Rattle.cjc_narrow.specs.LowerNCode.declared.narrow.PoolKey.{PoolKey as Key};
ghost use Rattle.cjc_narrow.specs.LowerNCode.PoolOrder.{method_keys, same_key};
ghost use Rattle.cjc_narrow.specs.LowerNCode.Lowering.Naming.{Holds, entry_of};
ghost use Rattle.cjc_components.specs.LowerEmit.Emitted.{HasNames};
ghost use Rattle.cjc_pool.specs.Pool.{IsPool, PoolView, token_in};
ghost use Rattle.cjc_components.specs.Package.{Package, codes, tokens};
ghost use Rattle.cjc_components.specs.Names.{names, naming_over, pool_entries};
ghost use Rattle.cjc_pool.specs.Named.{CallsHaveTokens, IsAmong};

/// The pool that methods need has an index for each key that one of their instructions names, and a token for
/// each method of an interface that one calls, where each of these has one.
pub fn pools_have_what_code_names()
    ensures { (files : Files) (tokens : Assigned) (methods : List Method) (pool : PoolView)
        → IsPool files tokens methods pool → CallsHaveTokens files tokens methods
        → (insn : Insn) → IsAmong methods insn → HasNames pool.keys (token_in pool) insn }
{}

/// The entries of ConstantPool are those of the pool's keys, in its order, and its indices those by which
/// components name the keys, whoever loads them. Each key that a method needs has its entry there.
pub fn pool_entries_are_those_of_components()
    ensures entries { (p : Package) (pool : PoolView) → IsPool p.files (tokens p) (codes p) pool
        → map (entry_of (names p)) pool.keys ≡ pool_entries p }
    ensures indices { (p : Package) (pool : PoolView) → IsPool p.files (tokens p) (codes p) pool
        → (loaded : Loaded) (entries : List Entry) (key : Key) (i : ℕ)
        → position (same_key key) pool.keys ≡ Some i → (let n = naming_over loaded entries p in n.index key) ≡ i }
    ensures held { (p : Package) (loaded : Loaded) (key : Key)
        → list_any (same_key key) (flat_map method_keys (codes p)) ≡ true
        → Holds (naming_over loaded (pool_entries p) p) key }
{}
