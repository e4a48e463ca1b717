//! All components of a package whose methods are laid out, as one tree: its pool, Method with ReferenceLocation, and
//! then the rest. Called by `conversion`.

ghost use Rattle.std.specs.Prelude.{◌≡◌, [], length, map, IfErr, IfOk, OnOk};
ghost use Rattle.cjc_captree.specs.Bytes.Breaks.{IsFirstRefusal};
ghost use Rattle.cjc_captree.specs.LowerClasses.Descriptor.Fits.{AreFit};
ghost use Rattle.cjc_shape_proof.specs.Components.Components.{components_of, method, reference_location};
ghost use Rattle.cjc_shape_proof.specs.Components.Limits.{size_breaks};
ghost use Rattle.cjc_shape_proof.specs.Components.Methods.{placed_methods};
ghost use Rattle.cjc_shape_proof.specs.Components.Package as packages;
ghost use Rattle.cjc_shape_proof.specs.Components.Package.{Package};
ghost use Rattle.cjc_shape_proof.specs.LowerIntPackage.Components.{components_by_modes, has_int_mode};
ghost use Rattle.cjc_shape_proof.specs.LowerIntPackage.Modes.{Tables};
ghost use Rattle.cjc_shape_proof.specs.LowerJudge.Spelt.{IsRead};
ghost use Rattle.cjc_shape_proof.specs.Pool.Pool.{IsPool};
ghost use Rattle.cjc_shape_proof.specs.LowerShape.Prepared.{BreaksNothing};
ghost use Rattle.cjc_shape_proof.specs.LowerShape.Whole.Working.Shaped.{IsShaped, package_of};

use crate::sizes::test_sizes;
use cjc_captree::capread::CapTree;
use cjc_captree::class_order::classes::class_order;
use cjc_captree::classes::key_tokens::key_tokens;
use cjc_captree::extents::extents;
use cjc_captree::methods::component::{Written, method_component};
use cjc_captree::methods::layouts::offsets;
use cjc_captree::ncode::PoolKey;
use cjc_captree::pool::Pool;
use cjc_captree::trees::{Given, components};
use cjc_shape_proof::bytes::{Fault, NoMemory};
use cjc_shape_proof::judge::Judged;
use cjc_shape_proof::shape::whole::Shaped;
use cjc_shape_proof::writing::aids_are_short;
use cjc_shape_proof::written::{
    converted_classes_are_ordered, converted_methods_are_emittable, static_images_fit,
};
use std::alloc::Global;

/// The constant pool of methods that are few enough for one.
fn pool_of(alloc: Global, judged: &Judged<'_>, shaped: &Shaped<'_>) -> Result<Pool, NoMemory>
    ensures { IfOk result (IsPool judged.now.world shaped.now.tokens.now shaped.now.methods.codes) }
{
    match cjc_captree::pool::build(
        alloc,
        judged.list.name.items(),
        &judged.world,
        shaped.tokens,
        &shaped.methods.codes,
    ) {
        Ok(pool) => Ok(pool),
        Err(_) => Err(NoMemory),
    }
}

/// The components of a package, whose pool has these keys and whose methods stand at these offsets and are written so.
fn components_with(
    alloc: Global,
    judged: &Judged<'_>,
    shaped: &Shaped<'_>,
    keys: &[PoolKey],
    offsets: &[u32],
    written: Written,
) -> Result<CapTree, NoMemory>
    requires sound { BreaksNothing judged.now }
    requires shaped { IsShaped judged.now shaped.now }
    requires fit { AreFit shaped.now.image }
    requires keys { keys.now ≡ packages.pool (package_of judged.now shaped.now) }
    requires count { length offsets.now ≡ length shaped.now.methods.codes }
    requires offsets { offsets.now ≡ map (λ q. q.offset) (placed_methods (package_of judged.now shaped.now)) }
    requires method { written.method ≡ method (package_of judged.now shaped.now) }
    requires locations { written.locations ≡ reference_location (package_of judged.now shaped.now) }
    ensures { IfOk result (λ t. t ≡ components_of (package_of judged.now shaped.now)) }
{
    converted_classes_are_ordered();
    let extents = extents(alloc, &judged.world, &shaped.methods, offsets)?;
    let tokens = key_tokens(alloc, &judged.world, shaped.tokens, keys)?;
    let order = class_order(alloc, &judged.world, false)?;
    let given = Given {
        list: judged.list,
        world: &judged.world,
        tokens: shaped.tokens,
        order: order.items(),
        image: &shaped.image,
        keys,
        key_tokens: tokens.items(),
        extents: extents.items(),
    };
    components(alloc, &given, written.method, written.locations)
}

/// The type int is named, or a method is in int mode (Java Card Virtual Machine Specification 2.2.2, section 6.3).
const ACC_INT: u8 = 0x01;

/// Sets ACC_INT in Header where a method is in int mode. Header has as many bytes whatever its flags are.
fn set_mode(cap: &mut CapTree, in_int_mode: bool)
    ensures { (t : Tables) (p : Package) → cap.old ≡ components_of p → in_int_mode ≡ has_int_mode t p
        → cap.new ≡ components_by_modes t p }
{
    if in_int_mode {
        cap.header.flags |= ACC_INT;
    }
}

/// The components of a package that breaks none of the rules of its files and of 417, 311, 414 and 415.
///
/// # Errors
///
/// 411 or 416, whichever is the first broken one.
pub(crate) fn build(
    alloc: Global,
    judged: &Judged<'_>,
    shaped: &Shaped<'_>,
) -> Result<CapTree, Fault>
    requires read { IsRead judged.now.list.now }
    requires sound { BreaksNothing judged.now }
    requires shaped { IsShaped judged.now shaped.now }
    ensures made { (t : Tables) → shaped.now.in_int_mode ≡ has_int_mode t (package_of judged.now shaped.now)
        → IfOk result (λ cap. cap ≡ components_by_modes t (package_of judged.now shaped.now)) }
    ensures unbroken { OnOk result (size_breaks (package_of judged.now shaped.now) ≡ []) }
    ensures refused { IfErr result (IsFirstRefusal (size_breaks (package_of judged.now shaped.now))) }
{
    aids_are_short();
    static_images_fit();
    converted_methods_are_emittable();
    let pool = pool_of(alloc, judged, shaped)?;
    let offsets = offsets(alloc, &shaped.methods)?;
    let written = method_component(alloc, &shaped.methods, offsets.items(), &pool)?;
    let mut cap = components_with(
        alloc,
        judged,
        shaped,
        pool.keys().items(),
        offsets.items(),
        written,
    )?;
    test_sizes(
        alloc,
        judged.list.name.items(),
        shaped.methods.codes.items(),
        &cap,
    )?;
    set_mode(&mut cap, shaped.in_int_mode);
    Ok(cap)
}
