//! Laws of the numbers that keys have: an index names its key, each key that is needed has one, and forms of
//! indices change nothing. Whoever emits code cites them.

ghost use Rattle.std.specs.Prelude.{◌≡◌, ◌∷◌, ℕ, List, Some, true, slice_get, map, IsSome};
ghost use Rattle.std.specs.List.{flat_map, list_any};
ghost use Rattle.cjc_ncode.specs.declared.narrow.NMethod.{NMethod as Method};
ghost use Rattle.cjc_ncode.specs.declared.narrow.PoolKey.{PoolKey as Named};
ghost use Rattle.cjc_ncode.specs.PoolOrder.{has_catch_type, method_keys, pool_order, same_key};
ghost use Rattle.cjc_narrow.specs.Keys.Index.{index_of};

/// An index names its key, and each key that a package's methods need has one.
pub fn indices_name_their_keys()
    ensures named { (keys : List Named) (key : Named) (i : ℕ) → index_of keys key ≡ Some i
        → slice_get keys i ≡ Some key }
    ensures needed { (methods : List Method) (key : Named) → list_any (same_key key) (flat_map method_keys methods)
        ≡ true → IsSome (index_of (pool_order methods) key) }
{}

/// Methods that name the same, instruction for instruction and handler for handler, have the same pool, whatever
/// the forms of their instructions.
pub fn forms_leave_the_pool()
    ensures { (before after : List Method) → map method_keys before ≡ map method_keys after → map has_catch_type before
        ≡ map has_catch_type after → pool_order before ≡ pool_order after }
{}
