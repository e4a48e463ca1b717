//! All components from methods that are laid out: the pool, Method, ReferenceLocation and then the rest. Called
//! by `conversion`.

ghost use Rattle.std.specs.Prelude.{◌≡◌, ℕ, List as Items, length, map, IfOk};
ghost use Rattle.cjc_components.specs.Components.{components_of, method, reference_location};
ghost use Rattle.cjc_components.specs.Methods.{placed_methods};
ghost use Rattle.cjc_components.specs.Package.{Package};
ghost use Rattle.cjc_components.specs.Package as packages;
ghost use Rattle.cjc_classes.specs.Descriptor.Fits.{AreFit};
ghost use Rattle.cjc_list.specs.Listed.{ListTree};
ghost use Rattle.cjc_pool.specs.Pool.{IsPool};
ghost use Rattle.cjc_shape.specs.Prepared.{IsSound};
ghost use Rattle.cjc_shape.specs.Whole.Working.Shaped.{IsShaped};

use cjc_bytes::{NoMemory, Row};
use cjc_capread::CapTree;
use cjc_captree::extents::extents;
use cjc_captree::trees::{Given, components};
use cjc_classes::key_tokens::key_tokens;
use cjc_judge::Judged;
use cjc_list::List;
use cjc_methods::component::{Written, method_component};
use cjc_methods::layouts::offsets;
use cjc_ncode::NMethod;
use cjc_order::classes::class_order;
use cjc_pool::{Pool, build};
use cjc_shape::whole::{Shaped, one_draft};
use cjc_shape_proof::written::{converted_classes_are_ordered, converted_methods_are_emittable};
use cjc_tokens::Tokens;
use cjc_world::World;
use std::alloc::Global;

/// The constant pool of methods that are few enough for one.
fn pool_of(
    alloc: Global,
    list: &List,
    world: &World<'_>,
    assigned: &Tokens,
    methods: &Row<NMethod>,
) -> Result<Pool, NoMemory>
    ensures { IfOk result (IsPool world.now assigned.now methods.now) }
{
    match build(alloc, list.name.items(), world, assigned, methods) {
        Ok(pool) => Ok(pool),
        Err(_) => Err(NoMemory),
    }
}

/// Method and ReferenceLocation of methods that stand at these offsets.
fn methods_of(
    alloc: Global,
    judged: &Judged<'_>,
    shaped: &Shaped,
    offsets: &[u32],
    pool: &Pool,
) -> Result<Written, NoMemory>
    requires shaped { (list : ListTree) × (files : Items (Items ℕ)) × (p : Package) × IsSound list files judged.now
        × IsShaped list files shaped.now p }
    requires count { (let s = shaped.now in let m = s.methods in length offsets.now ≡ length m.codes) }
    ensures method { (list : ListTree) (files : Items (Items ℕ)) (p : Package) → IsSound list files judged.now
        → IsShaped list files shaped.now p → offsets.now ≡ map (λ q. q.offset) (placed_methods p)
        → (let j = judged.now in let s = shaped.now in let m = s.methods in IsPool j.world s.tokens m.codes pool.now)
        → IfOk result (λ w. w.method ≡ method p) }
    ensures locations { (list : ListTree) (files : Items (Items ℕ)) (p : Package) → IsSound list files judged.now
        → IsShaped list files shaped.now p → offsets.now ≡ map (λ q. q.offset) (placed_methods p)
        → (let j = judged.now in let s = shaped.now in let m = s.methods in IsPool j.world s.tokens m.codes pool.now)
        → IfOk result (λ w. w.locations ≡ reference_location p) }
{
    converted_methods_are_emittable();
    method_component(alloc, &shaped.methods, offsets, pool)
}

/// The components of a package whose Method and ReferenceLocation these are, and whose methods stand at these offsets.
fn caps_with(
    alloc: Global,
    list: &List,
    judged: &Judged<'_>,
    shaped: &Shaped,
    offsets: &[u32],
    pool: &Pool,
    written: Written,
) -> Result<CapTree, NoMemory>
    requires shaped { (files : Items (Items ℕ)) × (p : Package) × IsSound list.now files judged.now
        × IsShaped list.now files shaped.now p × AreFit p.image }
    requires count { (let s = shaped.now in let m = s.methods in length offsets.now ≡ length m.codes) }
    ensures { (files : Items (Items ℕ)) (p : Package) → IsSound list.now files judged.now
        → IsShaped list.now files shaped.now p → offsets.now ≡ map (λ q. q.offset) (placed_methods p)
        → (let k = pool.now in k.keys ≡ packages.pool p)
        → written.method ≡ method p → written.locations ≡ reference_location p
        → IfOk result (λ t. t ≡ components_of p) }
{
    converted_classes_are_ordered();
    one_draft();
    let extents = extents(alloc, &judged.world, &shaped.methods, offsets)?;
    let tokens = key_tokens(alloc, &judged.world, &shaped.tokens, pool.keys().items())?;
    let order = class_order(alloc, &judged.world, false)?;
    let given = Given {
        list,
        world: &judged.world,
        tokens: &shaped.tokens,
        order: order.items(),
        image: &shaped.image,
        keys: pool.keys().items(),
        key_tokens: tokens.items(),
        extents: extents.items(),
    };
    components(alloc, &given, written.method, written.locations)
}

/// The components of a package that breaks none of the rules of its files and of 417, 311, 414 and 415.
pub(crate) fn caps_of(
    alloc: Global,
    list: &List,
    judged: &Judged<'_>,
    shaped: &Shaped,
) -> Result<CapTree, NoMemory>
    requires { (files : Items (Items ℕ)) × (p : Package) × IsSound list.now files judged.now
        × IsShaped list.now files shaped.now p × AreFit p.image }
    ensures { (files : Items (Items ℕ)) (p : Package) → IsSound list.now files judged.now
        → IsShaped list.now files shaped.now p → IfOk result (λ t. t ≡ components_of p) }
{
    let pool = pool_of(
        alloc,
        list,
        &judged.world,
        &shaped.tokens,
        &shaped.methods.codes,
    )?;
    let offsets = offsets(alloc, &shaped.methods)?;
    let written = methods_of(alloc, judged, shaped, offsets.items(), &pool)?;
    caps_with(alloc, list, judged, shaped, offsets.items(), &pool, written)
}
