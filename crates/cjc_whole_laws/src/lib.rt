//! What judging and laying out promise of a converted package is what others ask of one. For whoever writes it, and whoever
//! promises something of what is written. It has laws alone; nothing here runs.
#![tactic(auto)]

ghost use Rattle.std.specs.Prelude.{◌≡◌, ℕ, List, slice_get, Some};
ghost use Rattle.cjc_components.specs.Names.{names};
ghost use Rattle.cjc_components.specs.Package.{LaidMethod, Package, codes, tokens};
ghost use Rattle.cjc_components.specs.Package as packages;
ghost use Rattle.cjc_emit.specs.Emitted.{IsEmittable};
ghost use Rattle.cjc_judge.specs.declared.judged.Judged.{Judged};
ghost use Rattle.cjc_list.specs.Listed.{ListTree};
ghost use Rattle.cjc_pool.specs.Pool.{IsPool, PoolView, token_in};
ghost use Rattle.cjc_prepared.specs.Prepared.{IsSound};
ghost use Rattle.cjc_whole.specs.Working.Shaped.{IsShaped};
ghost use Rattle.cjc_whole.specs.declared.shaping.Shaped.{Shaped as Laid};

use cjc_judge_laws::pooled_methods_are_emittable;

/// Each method of a package that breaks no rule of its files and is laid out can be emitted by the pool that its methods need,
/// with the names that its components have: indices are places in the pool, and the token of a method of an interface is its
/// place among the interface's methods.
pub fn converted_methods_are_emittable()
    ensures keys { (list : ListTree) (files : List (List ℕ)) (judged : Judged) → IsSound list files judged → (s : Laid) (p : Package) → IsShaped list files s p
        → (pool : PoolView) → IsPool judged.world (tokens p) (codes p) pool → pool.keys ≡ packages.pool p }
    ensures each { (list : ListTree) (files : List (List ℕ)) (judged : Judged) → IsSound list files judged → (s : Laid) (p : Package) → IsShaped list files s p
        → (pool : PoolView) → IsPool judged.world (tokens p) (codes p) pool
        → (k : ℕ) (m : LaidMethod) → slice_get p.methods k ≡ Some m → IsEmittable pool.keys (token_in pool) (names p) m.code m.wide }
{
    pooled_methods_are_emittable();
}
