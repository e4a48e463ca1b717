//! The bytes of all methods, one behind the other, with the places of their indices (Java Card Virtual Machine
//! Specification 2.2.2, section 6.9.2).

ghost use Rattle.std.specs.Prelude.{◌≡◌, ◌+◌, ◌++◌, length, map, OnOk};
ghost use Rattle.std.specs.List.{flat_map};
ghost use Rattle.cjc_pool.specs.NCode.Lowering.Package.{all_bytes};
ghost use Rattle.cjc_components.specs.Components.{places_in};
ghost use Rattle.cjc_components.specs.Methods.{placed_methods};
ghost use Rattle.cjc_components.specs.Names.{names};
ghost use Rattle.cjc_components.specs.Package.{Package};
ghost use Rattle.cjc_methods.specs.Layouts.Laid.{AreLaid, laid_methods};
ghost use Rattle.cjc_methods.specs.Component.Emittable.{AreEmittable};
ghost use Rattle.cjc_methods.specs.Component.Working.Parts.{flagged};

use crate::component::places::put_places;
use crate::layouts::Methods;
use cjc_bytes::{Bytes, NoMemory, Row};
use cjc_components::emit::{MethodBytes, emit};
use cjc_pool::Pool;
use std::alloc::Global;

/// ACC_ABSTRACT among the flags of a header's first byte.
const ACC_ABSTRACT: u8 = 0x40;

fn put_all(out: &mut Bytes, bytes: &[u8]) -> Result<(), NoMemory>
    ensures { OnOk result (out.new ≡ out.old ++ bytes.now) }
{
    for byte in bytes {
        out.push(*byte)?;
    }
    Ok(())
}

/// Puts the bytes of a method at the end, with ACC_ABSTRACT where it is a header alone.
fn put_bytes(out: &mut Bytes, is_abstract: bool, bytes: &[u8]) -> Result<(), NoMemory>
    ensures { OnOk result (out.new ≡ out.old ++ flagged is_abstract bytes.now) }
{
    if !is_abstract || bytes.is_empty() {
        return put_all(out, bytes);
    }
    let Some(first) = bytes[0].checked_add(ACC_ABSTRACT) else {
        return Err(NoMemory);
    };
    out.push(first)?;
    put_all(out, &bytes[1..])
}

/// Puts a method that was emitted at the end, and the places of its indices.
fn put_method(
    out: &mut Bytes,
    ones: &mut Row<u64>,
    twos: &mut Row<u64>,
    at: u32,
    is_abstract: bool,
    emitted: &MethodBytes,
) -> Result<(), NoMemory>
    ensures bytes { OnOk result (out.new ≡ out.old ++ flagged is_abstract emitted.now.bytes) }
    ensures ones { OnOk result (ones.new ≡ ones.old ++ map (λ x. at + x) emitted.now.ones) }
    ensures twos { OnOk result (twos.new ≡ twos.old ++ map (λ x. at + x) emitted.now.twos) }
{
    put_bytes(out, is_abstract, emitted.bytes.items())?;
    put_places(ones, at, emitted.ones.items())?;
    put_places(twos, at, emitted.twos.items())
}

/// Puts all methods at the end, which stand at these offsets, and the places of their indices of one byte and of
/// two.
pub(crate) fn put_methods(
    alloc: Global,
    out: &mut Bytes,
    ones: &mut Row<u64>,
    twos: &mut Row<u64>,
    methods: &Methods,
    offsets: &[u32],
    pool: &Pool,
) -> Result<(), NoMemory>
    requires laid { AreLaid methods.now }
    requires count { length offsets.now ≡ length methods.now.codes }
    ensures bytes { (p : Package) → p.methods ≡ laid_methods methods.now
        → offsets.now ≡ map (λ q. q.offset) (placed_methods p) → AreEmittable p pool.now
        → OnOk result (out.new ≡ out.old ++ all_bytes (names p) (placed_methods p)) }
    ensures ones { (p : Package) → p.methods ≡ laid_methods methods.now
        → offsets.now ≡ map (λ q. q.offset) (placed_methods p) → AreEmittable p pool.now
        → OnOk result (ones.new ≡ ones.old ++ flat_map (places_in p 1) (placed_methods p)) }
    ensures twos { (p : Package) → p.methods ≡ laid_methods methods.now
        → offsets.now ≡ map (λ q. q.offset) (placed_methods p) → AreEmittable p pool.now
        → OnOk result (twos.new ≡ twos.old ++ flat_map (places_in p 2) (placed_methods p)) }
{
    let codes = methods.codes.items();
    let laid = methods.laid.items();
    for k in 0..codes.len() {
        let emitted = emit(alloc, &codes[k], &laid[k].layout, pool)?;
        put_method(out, ones, twos, offsets[k], laid[k].is_abstract, &emitted)?;
    }
    Ok(())
}
