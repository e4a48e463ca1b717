//! The handlers of all methods in one table (Java Card Virtual Machine Specification 2.2.2, section 6.9.1).

ghost use Rattle.std.specs.Prelude.{◌≡◌, ◌+◌, ◌++◌, ◌<◌, ◌^◌, length, map, IfOk, OnOk};
ghost use Rattle.cjc_pool.specs.Emit.Emitted.{header_bytes};
ghost use Rattle.cjc_pool.specs.NCode.Lowering.Laid.{class_index};
ghost use Rattle.cjc_pool.specs.NCode.Lowering.Naming.{Naming};
ghost use Rattle.cjc_pool.specs.NCode.Lowering.Package.{all_handlers};
ghost use Rattle.cjc_pool.specs.Layout.OnCard.{handler_on_card};
ghost use Rattle.cjc_components.specs.Methods.{placed_methods};
ghost use Rattle.cjc_components.specs.Names.{names};
ghost use Rattle.cjc_components.specs.Package.{Package};
ghost use Rattle.cjc_methods.specs.Layouts.Laid.{AreLaid, laid_methods};
ghost use Rattle.cjc_methods.specs.Component.Emittable.{AreEmittable};
ghost use Rattle.cjc_methods.specs.Component.Working.Parts.{IsIndexed};

use crate::layouts::{Methods, header_size};
use cjc_bytes::{Bytes, NoMemory, Row};
use cjc_check::capread::Handler;
use cjc_components::emit::PoolLookup;
use cjc_narrow::ncode::NMethod;
use cjc_pool::Pool;
use std::alloc::Global;

/// The index of a catch type, 0 without one.
fn catch_index(pool: &Pool, class: &Option<Bytes>) -> u16
    ensures { (n : Naming) → IsIndexed pool.now.keys n → result ≡ class_index n class.now }
{
    match class {
        None => 0,
        Some(class) => match pool.class_index(class.items()) {
            None => 0,
            Some(index) => index,
        },
    }
}

/// A handler of a method whose code begins at an offset.
fn on_card(pool: &Pool, first: u64, handler: &cjc_components::layout::Handler) -> Handler
    requires { first < 2 ^ 33 }
    ensures { (n : Naming) → IsIndexed pool.now.keys n → result ≡ handler_on_card n first handler.now }
{
    Handler {
        start: first + u64::from(handler.start),
        stop: handler.stop,
        length: u64::from(handler.length),
        handler: first + u64::from(handler.target),
        catch_index: u64::from(catch_index(pool, &handler.class)),
    }
}

/// Puts the handlers of a method at the end, whose code begins at an offset.
fn put_handlers(
    out: &mut Row<Handler>,
    pool: &Pool,
    first: u64,
    handlers: &[cjc_components::layout::Handler],
) -> Result<(), NoMemory>
    requires { first < 2 ^ 33 }
    ensures { (n : Naming) → IsIndexed pool.now.keys n → OnOk result (out.new ≡ out.old
        ++ map (handler_on_card n first) handlers.now) }
{
    for handler in handlers {
        out.push(on_card(pool, first, handler))?;
    }
    Ok(())
}

/// Where the code of a method begins that stands at an offset.
fn first_of(at: u32, code: &NMethod) -> u64
    ensures is { result ≡ at + length (header_bytes code.now) }
    ensures near { result < 2 ^ 33 }
{
    u64::from(at) + u64::from(header_size(code))
}

/// The handlers of all methods, which stand at these offsets.
pub(crate) fn all_handlers(
    alloc: Global,
    methods: &Methods,
    offsets: &[u32],
    pool: &Pool,
) -> Result<Row<Handler>, NoMemory>
    requires laid { AreLaid methods.now }
    requires count { length offsets.now ≡ length methods.now.codes }
    ensures { (p : Package) → p.methods ≡ laid_methods methods.now
        → offsets.now ≡ map (λ q. q.offset) (placed_methods p) → AreEmittable p pool.now
        → IfOk result (λ hs. hs ≡ all_handlers (names p) (placed_methods p)) }
{
    let codes = methods.codes.items();
    let laid = methods.laid.items();
    let mut out = Row::new(alloc);
    for k in 0..codes.len() {
        let first = first_of(offsets[k], &codes[k]);
        put_handlers(&mut out, pool, first, laid[k].layout.handlers.items())?;
    }
    Ok(out)
}
