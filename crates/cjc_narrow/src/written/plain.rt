//! What is written for instructions that name no member. Called by whoever selects code.

ghost use Rattle.std.specs.Prelude.{◌≡◌, ◌≤◌, ◌++◌, ◌∷◌, ◌==◌, if◌then◌else◌, [], false, OnOk};
ghost use Rattle.cjc_jvm_semantics.specs.CapRead.Card as card;
ghost use Rattle.cjc_types.specs.Bytecode.Jvm as jvm;
ghost use Rattle.cjc_ncode.specs.declared.narrow.NInsn.TheVariants.{Inc, Named, Op};
ghost use Rattle.cjc_ncode.specs.declared.narrow.PoolKey.TheVariants as keys;
ghost use Rattle.cjc_ncode.specs.Written.{Resolution, is_byte, local, written};
ghost use Rattle.cjc_narrow.specs.Written.Operands.{CanBeSaid, IsByte, names_member};
ghost use Rattle.cjc_narrow.specs.Written.Labels.{place_of};

use crate::written::number::pushed;
use crate::written::opcodes::{
    arithmetic, array_load, array_store, condition, element_number, leaving, on_stack,
};
use crate::written::places::Places;
use crate::written::switches::{put_lookup, put_table};
use crate::written::type_tests::put_test;
use cjc_ncode::capread::card;
use cjc_ncode::{NInsn, PoolKey};
use cjc_types::bytecode::{JOp, jvm};
use cjc_types::bytes::{Bytes, NoMemory, Row};
use std::alloc::Global;

/// A local by the opcode of the first short form, or that of the long one.
pub fn local(short: u8, long: u8, index: u16) -> NInsn
    requires short { short ≤ 250 }
    requires index { IsByte index }
    ensures { local short long index ≡ result ∷ [] }
{
    if index <= 3 {
        NInsn::Op(short + index as u8)
    } else {
        NInsn::Local {
            op: long,
            index: index as u8,
        }
    }
}

/// Whether one byte can say a number.
pub fn is_byte(z: i16) -> bool
    ensures { result ≡ is_byte z }
{
    -128 <= z && z <= 127
}

/// iinc, with a number of one byte or of two.
fn increase(index: u16, by: i16) -> NInsn
    requires { IsByte index }
    ensures { result ≡ Inc (if is_byte by then card.sinc else card.sinc_w) index by }
{
    NInsn::Inc {
        op: if is_byte(by) {
            card::SINC
        } else {
            card::SINC_W
        },
        index: index as u8,
        by,
    }
}

/// i2b; nothing for i2s.
fn put_narrow(out: &mut Row<NInsn>, op: u8) -> Result<(), NoMemory>
    ensures { OnOk result (out.new ≡ out.old ++ (if op == jvm.i2b then Op card.s2b ∷ [] else [])) }
{
    if op == jvm::I2B {
        out.push(NInsn::Op(card::S2B))
    } else {
        Ok(())
    }
}

/// An instruction whose operand is the index of a class.
fn put_class(out: &mut Row<NInsn>, alloc: Global, op: u8, class: &[u8]) -> Result<(), NoMemory>
    ensures { OnOk result (out.new ≡ out.old ++ Named op (keys.Class class.now) ∷ []) }
{
    let key = PoolKey::Class(Bytes::copy_of(alloc, class)?);
    out.push(NInsn::Named { op, key })
}

/// Puts what is written for an instruction at the end; nothing for one that names a member.
pub fn put_plain(
    out: &mut Row<NInsn>,
    alloc: Global,
    places: &Places<'_>,
    op: &JOp,
) -> Result<(), NoMemory>
    requires { CanBeSaid op.now }
    ensures { (r : Resolution) → names_member op.now ≡ false → OnOk result (out.new ≡ out.old
        ++ written r (place_of places.now) op.now) }
{
    match op {
        JOp::Nop => Ok(()),
        JOp::Null => out.push(NInsn::Op(card::ACONST_NULL)),
        JOp::Number(z) => out.push(pushed(*z)),
        JOp::Load {
            refs: true,
            local: index,
        } => out.push(local(card::ALOAD_0, card::ALOAD, *index)),
        JOp::Load {
            refs: false,
            local: index,
        } => out.push(local(card::SLOAD_0, card::SLOAD, *index)),
        JOp::Store {
            refs: true,
            local: index,
        } => out.push(local(card::ASTORE_0, card::ASTORE, *index)),
        JOp::Store {
            refs: false,
            local: index,
        } => out.push(local(card::SSTORE_0, card::SSTORE, *index)),
        JOp::ArrayLoad(op) => out.push(NInsn::Op(array_load(*op))),
        JOp::ArrayStore(op) => out.push(NInsn::Op(array_store(*op))),
        JOp::Stack(op) => out.push(on_stack(*op)),
        JOp::Arith(op) => out.push(NInsn::Op(arithmetic(*op))),
        JOp::Inc { local, by } => out.push(increase(*local, *by)),
        JOp::Narrow(op) => put_narrow(out, *op),
        JOp::If { op, target } => {
            let target = places.place(*target);
            out.push(NInsn::Jump {
                op: condition(*op),
                target,
            })
        }
        JOp::Goto(target) => {
            let target = places.place(*target);
            out.push(NInsn::Jump {
                op: card::GOTO,
                target,
            })
        }
        JOp::TableSwitch {
            other,
            low,
            targets,
        } => put_table(out, alloc, places, *other, *low, targets.items()),
        JOp::LookupSwitch { other, cases } => {
            put_lookup(out, alloc, places, *other, cases.items())
        }
        JOp::Return(op) => out.push(NInsn::Op(leaving(*op))),
        JOp::New(class) => put_class(out, alloc, card::NEW, class.items()),
        JOp::NewArray(number) => out.push(NInsn::NewArray(element_number(*number))),
        JOp::ANewArray(class) => put_class(out, alloc, card::ANEWARRAY, class.items()),
        JOp::ArrayLength => out.push(NInsn::Op(card::ARRAYLENGTH)),
        JOp::Throw => out.push(NInsn::Op(card::ATHROW)),
        JOp::CheckCast(class) => put_test(out, alloc, card::CHECKCAST, class.items()),
        JOp::InstanceOf(class) => put_test(out, alloc, card::INSTANCEOF, class.items()),
        JOp::Static { .. } | JOp::Field { .. } | JOp::Call { .. } => Ok(()),
    }
}
