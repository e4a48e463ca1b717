//! Method and ReferenceLocation made together: where indices stand is seen while the bytes of the methods are
//! put one behind the other. What the crate is called for.

ghost use Rattle.std.specs.Prelude.{◌≡◌, ◌++◌, length, map, IfOk, OnOk};
ghost use Rattle.std.specs.List.{flat_map};
ghost use Rattle.cjc_pool.specs.NCode.Lowering.Package.{all_bytes};
ghost use Rattle.cjc_pool.specs.CheckRules.Locations.{distances};
ghost use Rattle.cjc_components.specs.Components.{method, places_in, reference_location};
ghost use Rattle.cjc_components.specs.Methods.{placed_methods};
ghost use Rattle.cjc_components.specs.Names.{names};
ghost use Rattle.cjc_components.specs.Package.{Package};
ghost use Rattle.cjc_methods.specs.Layouts.Laid.{AreLaid, laid_methods};
ghost use Rattle.cjc_methods.specs.Component.Emittable.{AreEmittable};

use crate::component::bytes::put_methods;
use crate::component::distances::distances;
use crate::component::handlers::all_handlers;
use crate::component::places::put_catches;
use crate::layouts::Methods;
use cjc_bytes::{Bytes, NoMemory, Row};
use cjc_check::capread::{Method, ReferenceLocation};
use cjc_pool::Pool;
use std::alloc::Global;

/// Method, and where indices stand in it.
#[derive(Drop)]
pub struct Written {
    pub method: Method,
    pub locations: ReferenceLocation,
}

/// The distances of indices of one byte, and of indices of two.
fn locations(alloc: Global, ones: &[u64], twos: &[u64]) -> Result<ReferenceLocation, NoMemory>
    ensures { IfOk result (λ l. (l.one_byte ≡ distances 0 ones.now) × (l.two_byte ≡ distances 0 twos.now)) }
{
    let one_byte = distances(alloc, ones)?;
    let two_byte = distances(alloc, twos)?;
    Ok(ReferenceLocation { one_byte, two_byte })
}

/// The bytes of all methods, and the distances of indices, those of these places of two bytes first.
fn bytes_and_locations(
    alloc: Global,
    methods: &Methods,
    offsets: &[u32],
    pool: &Pool,
    catches: Row<u64>,
    bytes: &mut Bytes,
) -> Result<ReferenceLocation, NoMemory>
    requires laid { AreLaid methods.now }
    requires count { length offsets.now ≡ length methods.now.codes }
    ensures bytes { (p : Package) → p.methods ≡ laid_methods methods.now
        → offsets.now ≡ map (λ q. q.offset) (placed_methods p) → AreEmittable p pool.now
        → OnOk result (bytes.new ≡ bytes.old ++ all_bytes (names p) (placed_methods p)) }
    ensures places { (p : Package) → p.methods ≡ laid_methods methods.now
        → offsets.now ≡ map (λ q. q.offset) (placed_methods p) → AreEmittable p pool.now
        → IfOk result (λ l. (l.one_byte ≡ distances 0 (flat_map (places_in p 1) (placed_methods p)))
        × (l.two_byte ≡ distances 0 (catches ++ flat_map (places_in p 2) (placed_methods p)))) }
{
    let mut ones = Row::new(alloc);
    let mut twos = catches;
    put_methods(alloc, bytes, &mut ones, &mut twos, methods, offsets, pool)?;
    locations(alloc, ones.items(), twos.items())
}

/// Method of a package with these methods and this pool, and ReferenceLocation. The methods stand at these
/// offsets, which `offsets` gives.
pub fn method_component(
    alloc: Global,
    methods: &Methods,
    offsets: &[u32],
    pool: &Pool,
) -> Result<Written, NoMemory>
    requires laid { AreLaid methods.now }
    requires count { length offsets.now ≡ length methods.now.codes }
    ensures method { (p : Package) → p.methods ≡ laid_methods methods.now
        → offsets.now ≡ map (λ q. q.offset) (placed_methods p) → AreEmittable p pool.now
        → IfOk result (λ w. w.method ≡ method p) }
    ensures locations { (p : Package) → p.methods ≡ laid_methods methods.now
        → offsets.now ≡ map (λ q. q.offset) (placed_methods p) → AreEmittable p pool.now
        → IfOk result (λ w. w.locations ≡ reference_location p) }
{
    let handlers = all_handlers(alloc, methods, offsets, pool)?;
    let mut catches = Row::new(alloc);
    put_catches(&mut catches, 1, handlers.items())?;
    let mut bytes = Row::new(alloc);
    let locations = bytes_and_locations(alloc, methods, offsets, pool, catches, &mut bytes)?;
    Ok(Written {
        method: Method {
            handlers,
            methods: bytes,
        },
        locations,
    })
}
