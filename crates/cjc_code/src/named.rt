//! Instructions with the names of the constant pool, and rule 303: an instruction of the Java Virtual Machine
//! that is not converted, or an ldc of something other than an Integer.

ghost use Rattle.std.specs.Prelude.{◌≡◌, ◌<◌, ◌∷◌, [], length, IfOk, MatchOption, slice_get};
ghost use Rattle.cjc_bytes.specs.Found.{Finds};
ghost use Rattle.cjc_classfile.specs.KeptItem.{id_of};
ghost use Rattle.cjc_code.specs.Numbers.{first, u16_of};
ghost use Rattle.cjc_code.specs.Named.{int_of, class_of, field_of, method_of, no_member, is_unsupported, place, places};
ghost use Rattle.cjc_code.specs.Named.{cases, table, lookup, op_of, named, all_named};

use crate::insn::{JCase, JInsn, JOp};
use crate::numbers::{first, i16_of, second, u8_of, u16_of};
use crate::raw::Raw;
use crate::table::Family;
use cjc_bytes::{Bytes, MemberId, NoMemory, Row, Stop};
use cjc_classfile::{ItemKind, MemberText, PoolItem};
use std::alloc::Global;

/// The Integer at an index, where one is there.
fn int_at(pool: &[PoolItem<'_>], index: u16) -> Option<i32>
    ensures { result ≡ int_of (slice_get pool.now index) }
{
    let item = pool.get(usize::from(index))?;
    match item.kind {
        ItemKind::Int(z) => Some(z),
        _ => None,
    }
}

/// The index of an instruction.
fn index(numbers: &[i32]) -> u16
    ensures { result ≡ u16_of (first numbers.now) }
{
    u16_of(first(numbers))
}

/// The name of the class at an index.
fn class_at(alloc: Global, pool: &[PoolItem<'_>], index: u16) -> Result<Bytes, NoMemory>
    ensures { IfOk result (λ name. name ≡ class_of (slice_get pool.now index)) }
{
    match pool.get(usize::from(index)) {
        Some(item) => match item.kind {
            ItemKind::Class(name) => Bytes::copy_of(alloc, name),
            _ => Ok(Row::new(alloc)),
        },
        None => Ok(Row::new(alloc)),
    }
}

fn copy_of(alloc: Global, text: MemberText<'_>) -> Result<MemberId, NoMemory>
    ensures { IfOk result (λ id. id ≡ id_of text.entry) }
{
    Ok(MemberId {
        class: Bytes::copy_of(alloc, text.class)?,
        name: Bytes::copy_of(alloc, text.name)?,
        desc: Bytes::copy_of(alloc, text.desc)?,
    })
}

fn no_member(alloc: Global) -> MemberId
    ensures { result ≡ no_member }
{
    MemberId {
        class: Row::new(alloc),
        name: Row::new(alloc),
        desc: Row::new(alloc),
    }
}

/// The field at an index.
fn field_at(alloc: Global, pool: &[PoolItem<'_>], index: u16) -> Result<MemberId, NoMemory>
    ensures { IfOk result (λ id. id ≡ field_of (slice_get pool.now index)) }
{
    match pool.get(usize::from(index)) {
        Some(item) => match item.kind {
            ItemKind::Field(text) => copy_of(alloc, text),
            _ => Ok(no_member(alloc)),
        },
        None => Ok(no_member(alloc)),
    }
}

/// The method at an index, of a class or of an interface.
fn method_at(alloc: Global, pool: &[PoolItem<'_>], index: u16) -> Result<MemberId, NoMemory>
    ensures { IfOk result (λ id. id ≡ method_of (slice_get pool.now index)) }
{
    match pool.get(usize::from(index)) {
        Some(item) => match item.kind {
            ItemKind::Method(text) | ItemKind::InterfaceMethod(text) => copy_of(alloc, text),
            _ => Ok(no_member(alloc)),
        },
        None => Ok(no_member(alloc)),
    }
}

fn is_unsupported(pool: &[PoolItem<'_>], family: Family, numbers: &[i32]) -> bool
    ensures { result ≡ is_unsupported pool.now family numbers.now }
{
    match family {
        Family::Constant => int_at(pool, index(numbers)).is_none(),
        Family::Unsupported
        | Family::UnsupportedConstant
        | Family::UnsupportedLocal
        | Family::UnsupportedLocalAt(_)
        | Family::UnsupportedJump
        | Family::UnsupportedReturn
        | Family::UnsupportedClass
        | Family::Ret => true,
        _ => false,
    }
}

/// The place to which an instruction jumps.
fn place(at: u16, offset: i32) -> u32
    ensures { result ≡ place at offset }
{
    let target = i64::from(at) + i64::from(offset);
    if target < 0 { 0 } else { target as u32 }
}

fn places(alloc: Global, at: u16, offsets: &[i32]) -> Result<Row<u32>, NoMemory>
    ensures { IfOk result (λ ps. ps ≡ places at offsets.now) }
{
    let mut places = Row::new(alloc);
    for offset in offsets {
        places.push(place(at, *offset))?;
    }
    Ok(places)
}

/// The case at the front of pairs, and the pairs behind it.
fn first_case(at: u16, pairs: &[i32]) -> Option<(JCase, &[i32])>
    ensures { MatchOption result (cases at pairs.now ≡ []) (λ x. (cases at pairs.now ≡ x.0 ∷ cases at x.1.now)
        × (length x.1.now < length pairs.now)) }
{
    match pairs {
        [value, offset, behind @ ..] => {
            let case = JCase {
                value: *value,
                target: place(at, *offset),
            };
            Some((case, behind))
        }
        _ => None,
    }
}

fn cases(alloc: Global, at: u16, pairs: &[i32]) -> Result<Row<JCase>, NoMemory>
    ensures { IfOk result (λ cs. cs ≡ cases at pairs.now) }
{
    let mut cases = Row::new(alloc);
    let mut left = pairs;
    while let Some((case, behind)) = first_case(at, left) {
        cases.push(case)?;
        left = behind;
    }
    Ok(cases)
}

fn table(alloc: Global, at: u16, numbers: &[i32]) -> Result<JOp, NoMemory>
    ensures { IfOk result (λ op. op ≡ table at numbers.now) }
{
    match numbers {
        [other, low, _, offsets @ ..] => Ok(JOp::TableSwitch {
            other: place(at, *other),
            low: *low,
            targets: places(alloc, at, offsets)?,
        }),
        _ => Ok(JOp::Nop),
    }
}

fn lookup(alloc: Global, at: u16, numbers: &[i32]) -> Result<JOp, NoMemory>
    ensures { IfOk result (λ op. op ≡ lookup at numbers.now) }
{
    match numbers {
        [other, _, pairs @ ..] => Ok(JOp::LookupSwitch {
            other: place(at, *other),
            cases: cases(alloc, at, pairs)?,
        }),
        _ => Ok(JOp::Nop),
    }
}

/// What an instruction does, by its place, its opcode and its numbers.
fn op_of(
    alloc: Global,
    pool: &[PoolItem<'_>],
    at: u16,
    opcode: u8,
    family: Family,
    numbers: &[i32],
) -> Result<JOp, NoMemory>
    ensures { IfOk result (λ op. op ≡ op_of pool.now at opcode family numbers.now) }
{
    let z = first(numbers);
    match family {
        Family::Null => Ok(JOp::Null),
        Family::Small(value) => Ok(JOp::Number(i32::from(value))),
        Family::Push => Ok(JOp::Number(z)),
        Family::Constant => Ok(JOp::Number(int_at(pool, index(numbers)).unwrap_or(0))),
        Family::Load(refs) => Ok(JOp::Load {
            refs,
            local: u16_of(z),
        }),
        Family::LoadAt(refs, local) => Ok(JOp::Load {
            refs,
            local: u16::from(local),
        }),
        Family::Store(refs) => Ok(JOp::Store {
            refs,
            local: u16_of(z),
        }),
        Family::StoreAt(refs, local) => Ok(JOp::Store {
            refs,
            local: u16::from(local),
        }),
        Family::ArrayLoad => Ok(JOp::ArrayLoad(opcode)),
        Family::ArrayStore => Ok(JOp::ArrayStore(opcode)),
        Family::Stack => Ok(JOp::Stack(opcode)),
        Family::Arith => Ok(JOp::Arith(opcode)),
        Family::Inc => Ok(JOp::Inc {
            local: u16_of(z),
            by: i16_of(second(numbers)),
        }),
        Family::Narrow => Ok(JOp::Narrow(opcode)),
        Family::If => Ok(JOp::If {
            op: opcode,
            target: place(at, z),
        }),
        Family::Goto => Ok(JOp::Goto(place(at, z))),
        Family::TableSwitch => table(alloc, at, numbers),
        Family::LookupSwitch => lookup(alloc, at, numbers),
        Family::Return => Ok(JOp::Return(opcode)),
        Family::Static(put) => Ok(JOp::Static {
            put,
            field: field_at(alloc, pool, index(numbers))?,
        }),
        Family::Field(put) => Ok(JOp::Field {
            put,
            field: field_at(alloc, pool, index(numbers))?,
        }),
        Family::CallVirtual | Family::CallDirect | Family::CallInterface => Ok(JOp::Call {
            op: opcode,
            method: method_at(alloc, pool, index(numbers))?,
        }),
        Family::New => Ok(JOp::New(class_at(alloc, pool, index(numbers))?)),
        Family::NewArray => Ok(JOp::NewArray(u8_of(z))),
        Family::ANewArray => Ok(JOp::ANewArray(class_at(alloc, pool, index(numbers))?)),
        Family::ArrayLength => Ok(JOp::ArrayLength),
        Family::Throw => Ok(JOp::Throw),
        Family::CheckCast => Ok(JOp::CheckCast(class_at(alloc, pool, index(numbers))?)),
        Family::InstanceOf => Ok(JOp::InstanceOf(class_at(alloc, pool, index(numbers))?)),
        _ => Ok(JOp::Nop),
    }
}

/// An instruction with its names, or its place where it breaks rule 303.
#[tactic(auto, unfolding(crate::specs::Named::named))]
fn named(alloc: Global, pool: &[PoolItem<'_>], insn: &Raw) -> Result<JInsn, Stop>
    ensures { Finds (λ i. i) (named pool.now insn.now) result }
{
    let numbers = insn.numbers.items();
    if is_unsupported(pool, insn.family, numbers) {
        return Err(Stop::Broken(u32::from(insn.at)));
    }
    let op = op_of(alloc, pool, insn.at, insn.opcode, insn.family, numbers)?;
    Ok(JInsn {
        at: u32::from(insn.at),
        op,
    })
}

/// An empty list with memory for so many instructions, and no more: those of all methods are kept.
fn room_for(alloc: Global, count: usize) -> Result<Row<JInsn>, NoMemory>
    ensures { IfOk result (λ all. all ≡ []) }
{
    Ok(Row::of(Vec::with_capacity(alloc, count)?))
}

/// All instructions, or the place of the first that breaks rule 303.
#[tactic(auto, using(cjc_bytes::proofs::Loops::each_next, cjc_bytes::proofs::Loops::each_breaks, cjc_bytes::proofs::Loops::each_ends, cjc_bytes::proofs::Loops::after_none), unfolding(crate::specs::Named::all_named))]
pub(crate) fn all_named(
    alloc: Global,
    pool: &[PoolItem<'_>],
    insns: &[Raw],
) -> Result<Row<JInsn>, Stop>
    ensures { Finds (λ is. is) (all_named pool.now insns.now) result }
{
    let mut all = room_for(alloc, insns.len())?;
    for insn in insns {
        all.push(named(alloc, pool, insn)?)?;
    }
    Ok(all)
}
