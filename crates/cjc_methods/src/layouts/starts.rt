//! Where the methods of a package stand in Method: behind the number of handlers and the handlers, one behind
//! the other (Java Card Virtual Machine Specification 2.2.2, section 6.9). It knows no byte.

ghost use Rattle.std.specs.Prelude.{◌≡◌, ◌≤◌, ◌+◌, ◌*◌, ◌++◌, ◌∷◌, length, map, sum_by, IfOk, OnOk};
ghost use Rattle.cjc_pool.specs.Emit.Emitted.{header_bytes};
ghost use Rattle.cjc_components.specs.Methods.{first_method, placed_from};
ghost use Rattle.cjc_methods.specs.Layouts.Laid.{AreLaid, laid_methods};
ghost use Rattle.cjc_methods.specs.Layouts.Working.Offsets.{handlers_of, offsets_from};

use crate::layouts::laid::{Laid, Methods};
use cjc_bytes::{NoMemory, Row};
use cjc_components::layout::Layout;
use cjc_narrow::ncode::NMethod;
use std::alloc::Global;

/// The bytes of a method's header.
pub fn header_size(code: &NMethod) -> u32
    ensures size { result ≡ length (header_bytes code.now) }
    ensures small { result ≤ 4 }
{
    if code.max_stack < 16 && (code.nargs < 16 && code.max_locals < 16) {
        2
    } else {
        4
    }
}

/// The offset behind a method that stands at this one.
fn behind(at: u32, code: &NMethod, layout: &Layout) -> Result<u32, NoMemory>
    ensures { IfOk result (λ n. n ≡ at + (length (header_bytes code.now) + (let l = layout.now in l.length))) }
{
    let size = header_size(code) + u32::from(layout.length);
    if size > 0xFFFF_FFFF - at {
        return Err(NoMemory);
    }
    Ok(at + size)
}

/// One more than so many handlers of eight bytes each.
fn behind_handlers(count: u32) -> Result<u32, NoMemory>
    ensures { IfOk result (λ n. n ≡ 1 + 8 * count) }
{
    if count > 0x1FFF_FFFF {
        return Err(NoMemory);
    }
    Ok(1 + 8 * count)
}

/// So many and one method's handlers.
fn with_handlers(count: u32, layout: &Layout) -> Result<u32, NoMemory>
    ensures { IfOk result (λ n. n ≡ count + (let l = layout.now in length l.handlers)) }
{
    let more = layout.handlers.items().len();
    if more > (0xFFFF_FFFF - count) as usize {
        return Err(NoMemory);
    }
    Ok(count + more as u32)
}

/// The handlers of all methods.
fn handler_count(laid: &[Laid]) -> Result<u32, NoMemory>
    ensures { IfOk result (λ n. n ≡ sum_by handlers_of laid.now) }
{
    let mut count = 0;
    for method in laid {
        count = with_handlers(count, &method.layout)?;
    }
    Ok(count)
}

/// Where the first method stands.
pub fn first_method(methods: &Methods) -> Result<u32, NoMemory>
    requires { AreLaid methods.now }
    ensures { IfOk result (λ n. n ≡ first_method (laid_methods methods.now)) }
{
    behind_handlers(handler_count(methods.laid.items())?)
}

/// The offsets of methods, of which the first stands at this one.
fn offsets_from(
    alloc: Global,
    first: u32,
    codes: &[NMethod],
    laid: &[Laid],
) -> Result<Row<u32>, NoMemory>
    requires { length laid.now ≡ length codes.now }
    ensures { IfOk result (λ row. row ≡ offsets_from first codes.now laid.now) }
{
    let mut row = Row::new(alloc);
    let mut at = first;
    for k in 0..codes.len() {
        row.push(at)?;
        at = behind(at, &codes[k], &laid[k].layout)?;
    }
    Ok(row)
}

/// The offset of each method's header, in bytes from the start of the info of Method.
pub fn offsets(alloc: Global, methods: &Methods) -> Result<Row<u32>, NoMemory>
    requires { AreLaid methods.now }
    ensures count { IfOk result (λ row. length row ≡ length methods.now.codes) }
    ensures each { IfOk result (λ row. let ms = laid_methods methods.now
        in row ≡ map (λ q. q.offset) (placed_from (first_method ms) ms)) }
{
    let first = first_method(methods)?;
    offsets_from(alloc, first, methods.codes.items(), methods.laid.items())
}
