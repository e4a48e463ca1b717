//! The bytes of Method: handlers, and the methods as one run (6.9). Called by `files`. It knows no instruction.

ghost use Rattle.std.specs.Prelude.{◌≡◌, ◌++◌, OnOk};
ghost use Rattle.std.specs.List.{flat_map};
ghost use Rattle.cjc_capwrite.specs.Method.{range_bits, handler_bytes, method_bytes};

use crate::parts::{put_count1, put_two};
use cjc_capread::bytes::{NoMemory, Out};
use cjc_capread::{Handler, Method};

/// The length of the handler's range, with the high bit where the search stops there.
fn range_bits(handler: Handler) -> u64
    ensures { result ≡ range_bits handler }
{
    let stop = if handler.stop { 0x8000 } else { 0 };
    stop + handler.length % 0x8000
}

#[tactic(auto, unfolding(crate::specs::Method::handler_bytes))]
fn put_handler(out: &mut Out, handler: Handler) -> Result<(), NoMemory>
    ensures { OnOk result (out.new ≡ out.old ++ handler_bytes handler) }
{
    put_two(out, handler.start)?;
    put_two(out, range_bits(handler))?;
    put_two(out, handler.handler)?;
    put_two(out, handler.catch_index)
}

fn put_handlers(out: &mut Out, handlers: &[Handler]) -> Result<(), NoMemory>
    ensures { OnOk result (out.new ≡ out.old ++ flat_map handler_bytes handlers.now) }
{
    for handler in handlers {
        put_handler(out, *handler)?;
    }
    Ok(())
}

/// The content of a Method component: its exception handlers, then the bytes of its methods.
#[tactic(auto, unfolding(crate::specs::Method::method_bytes))]
pub(crate) fn put_method(out: &mut Out, method: &Method) -> Result<(), NoMemory>
    ensures { OnOk result (out.new ≡ out.old ++ method_bytes method.now) }
{
    put_count1(out, method.handlers.items())?;
    put_handlers(out, method.handlers.items())?;
    out.put_slice(method.methods.items())
}
