//! The component Method: handlers, and the bytes of all methods as one run (6.9). Called by `component`. It cuts no
//! method: where each begins is said by Descriptor alone.

ghost use Rattle.cjc_bytes.specs.Format.{repeated};
ghost use Rattle.cjc_bytes.specs.Reading.{Reads};
ghost use Rattle.cjc_capread.specs.Method.{handler, method};

use crate::parts::read_bytes_before;
use crate::tree::{Handler, Method};
use cjc_bytes::{Cursor, Row, Stop};
use std::alloc::Global;

#[tactic(auto, unfolding(crate::specs::Method::handler, cjc_bytes::specs::Format::u2))]
fn read_handler(cursor: &mut Cursor<'_>) -> Result<Handler, Stop>
    ensures { Reads (λ x. x) handler cursor.old cursor.new result }
{
    let start = cursor.u2()?;
    let bits = cursor.u2()?;
    let target = cursor.u2()?;
    let catch_index = cursor.u2()?;
    Ok(Handler {
        start: u64::from(start),
        stop: bits >= 0x8000,
        length: u64::from(bits % 0x8000),
        handler: u64::from(target),
        catch_index: u64::from(catch_index),
    })
}

#[tactic(auto, using(cjc_bytes::proofs::Loops::repeated_more, cjc_bytes::proofs::Loops::repeated_stops, cjc_bytes::proofs::Loops::repeated_all, cjc_bytes::proofs::Loops::with_none))]
fn read_handlers(alloc: Global, count: u8, cursor: &mut Cursor<'_>) -> Result<Row<Handler>, Stop>
    ensures { Reads (λ xs. xs) (repeated count handler) cursor.old cursor.new result }
{
    let mut handlers = Row::new(alloc);
    for _ in 0..count {
        handlers.push(read_handler(cursor)?)?;
    }
    Ok(handlers)
}

/// The content of a Method component: its exception handlers, and the bytes of its methods up to where it ends.
#[tactic(auto, unfolding(crate::specs::Method::method, cjc_bytes::specs::Format::u1))]
pub(crate) fn read_method(alloc: Global, end: u32, cursor: &mut Cursor<'_>) -> Result<Method, Stop>
    ensures { Reads (λ x. x) (method end) cursor.old cursor.new result }
{
    let count = cursor.u1()?;
    let handlers = read_handlers(alloc, count, cursor)?;
    let methods = read_bytes_before(alloc, end, cursor)?;
    Ok(Method { handlers, methods })
}
