//! What the rows of the tests compare: a method's layout and the bytes that are emitted at it, from a method
//! that names nothing in the pool.

ghost use Rattle.std.specs.Prelude.{IfOk};
ghost use Rattle.cjc_examples.specs.Layout.Layouts.{IsLayout};

use crate::code::pool::NoEntries;
use crate::code::whole::is_whole;
use cjc_examples::bytes::{Bytes, Fault, MemberId};
use cjc_examples::emit::{MethodBytes, emit};
use cjc_examples::layout::{Layout, lay};
use cjc_examples::ncode::NMethod;
use std::alloc::Global;

/// A layout and what is emitted at it.
#[derive(Drop)]
pub struct LaidOut {
    pub layout: Layout,
    pub emitted: MethodBytes,
}

fn layout_of(alloc: Global, method: &NMethod) -> Result<Layout, Fault>
    ensures { IfOk result (IsLayout method.now) }
{
    if !is_whole(method) {
        return Err(Fault::NoMemory);
    }
    let id = MemberId {
        class: Bytes::new(alloc),
        name: Bytes::new(alloc),
        desc: Bytes::new(alloc),
    };
    lay(alloc, b"T.class", &id, method)
}

/// A method that names nothing, laid out and emitted; `NoMemory` where it is not seen that it can be laid out.
pub fn written(alloc: Global, method: &NMethod) -> Result<LaidOut, Fault> {
    let layout = layout_of(alloc, method)?;
    let emitted = emit(alloc, method, &layout, &NoEntries)?;
    Ok(LaidOut { layout, emitted })
}
