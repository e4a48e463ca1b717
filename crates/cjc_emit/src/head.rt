//! The header of a method with code, short or extended (Java Card Virtual Machine Specification 2.2.2, section
//! 6.9.2). Called by whoever emits a method.

ghost use Rattle.std.specs.Prelude.{◌≡◌, ◌<◌, IfOk};
ghost use Rattle.cjc_ncode.specs.Lowering.Placed.{extended_header, short_header};
ghost use Rattle.cjc_emit.specs.Emitted.{header_bytes};

use cjc_ncode::NMethod;
use cjc_ncode::bytes::{Bytes, NoMemory, Row};
use std::alloc::Global;

fn short_header(alloc: Global, method: &NMethod) -> Result<Bytes, NoMemory>
    requires args { let m = method.now in m.nargs < 16 }
    requires locals { let m = method.now in m.max_locals < 16 }
    ensures { IfOk result (λ bytes. bytes ≡ short_header method.now) }
{
    let mut bytes = Row::new(alloc);
    bytes.push(method.max_stack)?;
    bytes.push(16 * method.nargs + method.max_locals)?;
    Ok(bytes)
}

fn extended_header(alloc: Global, method: &NMethod) -> Result<Bytes, NoMemory>
    ensures { IfOk result (λ bytes. bytes ≡ extended_header method.now) }
{
    let mut bytes = Row::new(alloc);
    bytes.push(0x80)?;
    bytes.push(method.max_stack)?;
    bytes.push(method.nargs)?;
    bytes.push(method.max_locals)?;
    Ok(bytes)
}

/// The header of a method with code: short where each of its numbers is below 16, else extended.
pub fn header(alloc: Global, method: &NMethod) -> Result<Bytes, NoMemory>
    ensures { IfOk result (λ bytes. bytes ≡ header_bytes method.now) }
{
    if method.max_stack < 16 && (method.nargs < 16 && method.max_locals < 16) {
        short_header(alloc, method)
    } else {
        extended_header(alloc, method)
    }
}
