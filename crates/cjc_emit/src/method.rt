//! The bytes of a whole method. Called by whoever writes Method and ReferenceLocation.

ghost use Rattle.std.specs.Prelude.{◌≡◌, IfOk};
ghost use Rattle.cjc_ncode.specs.Lowering.Naming.{Naming};
ghost use Rattle.cjc_layout.specs.Layouts.{IsLayout};
ghost use Rattle.cjc_emit.specs.Emitted.{IsEmittable, IsEmitted};

use crate::code::put_code;
use crate::emitted::MethodBytes;
use crate::head::header;
use crate::places::mark_all;
use crate::pool::PoolLookup;
use cjc_layout::Layout;
use cjc_ncode::NMethod;
use cjc_ncode::bytes::{NoMemory, Row};
use std::alloc::Global;

/// The bytes of a method with code, its header included, at the layout that was chosen for it, and the places of
/// its indices into the constant pool.
pub fn emit<P: PoolLookup>(
    alloc: Global,
    method: &NMethod,
    layout: &Layout,
    pool: &P,
) -> Result<MethodBytes, NoMemory>
    requires { IsLayout method.now layout.now }
    ensures { (n : Naming) → (let l = layout.now in IsEmittable (P.pool_keys pool.now) (P.method_token pool.now) n
        method.now l.wide → IfOk result (IsEmitted n method.now l.wide)) }
{
    let insns = method.insns.items();
    let places = layout.places.items();
    let mut bytes = header(alloc, method)?;
    let head = bytes.items().len() as u32;
    put_code(
        &mut bytes,
        pool,
        places,
        layout.length,
        layout.wide.items(),
        insns,
    )?;
    let mut ones = Row::new(alloc);
    let mut twos = Row::new(alloc);
    mark_all(&mut ones, &mut twos, head, places, insns)?;
    Ok(MethodBytes { bytes, ones, twos })
}
