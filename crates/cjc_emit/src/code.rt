//! Instructions as bytes, at the offsets that a layout gives (Java Card Virtual Machine Specification 2.2.2,
//! chapter 7). Called by whoever emits a method. It knows no header.

ghost use Rattle.std.specs.Prelude.{◌≡◌, ◌++◌, length, OnOk};
ghost use Rattle.cjc_emit.specs.Working.{all_written, call_bytes, class_in, known, label_at, written};

use crate::numbers::{distance_bits, put_low};
use crate::operands::{jump_opcode, put_with_one, put_with_two};
use crate::pool::PoolLookup;
use crate::switches::{label_at, put_switch};
use cjc_ncode::NInsn;
use cjc_ncode::bytes::{Bytes, MemberId, NoMemory};
use cjc_ncode::capread::card;

fn known_index(found: Option<u16>) -> u32
    ensures { result ≡ known found }
{
    match found {
        Some(index) => u32::from(index),
        None => 0,
    }
}

fn known_token(found: Option<u8>) -> u8
    ensures { result ≡ known found }
{
    match found {
        Some(token) => token,
        None => 0,
    }
}

/// The index of the class of a type test, 0 without one.
fn class_index<P: PoolLookup>(pool: &P, class: &Option<Bytes>) -> u32
    ensures { result ≡ class_in (P.pool_keys pool.now) class.now }
{
    match class {
        None => 0,
        Some(name) => known_index(pool.class_index(name.items())),
    }
}

/// A call of an interface's method.
fn put_call<P: PoolLookup>(
    out: &mut Bytes,
    pool: &P,
    nargs: u8,
    method: &MemberId,
) -> Result<(), NoMemory>
    ensures { OnOk result (out.new ≡ out.old ++ call_bytes (P.pool_keys pool.now) (P.method_token pool.now) nargs
        method.now) }
{
    out.push(card::INVOKEINTERFACE)?;
    out.push(nargs)?;
    put_low(out, 2, known_index(pool.class_index(method.class.items())))?;
    out.push(known_token(pool.interface_token(method)))?;
    Ok(())
}

/// An instruction at its offset.
fn put<P: PoolLookup>(
    out: &mut Bytes,
    pool: &P,
    places: &[u16],
    end: u16,
    at: u16,
    wide: bool,
    insn: &NInsn,
) -> Result<(), NoMemory>
    ensures { OnOk result (out.new ≡ out.old ++ written (P.pool_keys pool.now) (P.method_token pool.now)
        (label_at places.now end) at wide insn.now) }
{
    match insn {
        NInsn::Op(op) => {
            out.push(*op)?;
            Ok(())
        }
        NInsn::Push { op, value } => put_with_one(out, *op, value.cast_unsigned()),
        NInsn::Local { op, index } => put_with_one(out, *op, u32::from(*index)),
        NInsn::Inc { op, index, by } => {
            put_with_two(out, *op, *index, i32::from(*by).cast_unsigned())
        }
        NInsn::Words { op, m, n } => { put_with_one(out, *op, 16 * u32::from(*m) + u32::from(*n)) }
        NInsn::Jump { op, target } => {
            let to = label_at(places, end, *target);
            put_with_one(out, jump_opcode(wide, *op), distance_bits(at, to))
        }
        NInsn::Switch {
            op,
            other,
            low,
            cases,
        } => { put_switch(out, places, end, at, *op, *other, *low, cases.items()) }
        NInsn::Named { op, key } => put_with_one(out, *op, known_index(pool.index(key))),
        NInsn::Interface { nargs, method } => put_call(out, pool, *nargs, method),
        NInsn::NewArray(kind) => {
            out.push(card::NEWARRAY)?;
            out.push(*kind)?;
            Ok(())
        }
        NInsn::TypeTest { op, kind, class } => {
            put_with_two(out, *op, *kind, class_index(pool, class))
        }
    }
}

/// Instructions one behind the other, of jumps their narrow or their wide form.
pub(crate) fn put_code<P: PoolLookup>(
    out: &mut Bytes,
    pool: &P,
    places: &[u16],
    end: u16,
    wide: &[bool],
    insns: &[NInsn],
) -> Result<(), NoMemory>
    requires places { length places.now ≡ length insns.now }
    requires wide { length wide.now ≡ length insns.now }
    ensures { OnOk result (out.new ≡ out.old ++ all_written (P.pool_keys pool.now) (P.method_token pool.now)
        (label_at places.now end) places.now 0 insns.now wide.now) }
{
    for k in 0..insns.len() {
        put(out, pool, places, end, places[k], wide[k], &insns[k])?;
    }
    Ok(())
}
