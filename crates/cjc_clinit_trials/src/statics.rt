//! What initialisers leave in static fields, and which are refused, and where.

use cjc_bytes::{Bytes, Fault, Kind, MemberId, NoMemory, Row};
use cjc_cases::package;
use cjc_clinit::{first_broken, image};
use cjc_code::{Codes, JInsn, JOp, MethodCode};
use cjc_world::{ArrayCell, StaticImage, ValueCell};
use std::alloc::Global;
use std::test::*;

/// An instruction. A field is of p/T, by its name and descriptor.
#[derive(Clone, Copy)]
enum Op<'t> {
    Number(i32),
    Null,
    Dup,
    NewArray(u8),
    Store(u8),
    Put(&'t [u8], &'t [u8]),
    Get(&'t [u8], &'t [u8]),
    /// Of the class q/A.
    PutForeign(&'t [u8], &'t [u8]),
    Call(&'t [u8], &'t [u8]),
    Nop,
    Return,
}

/// An initialiser, and the place of the first instruction with which it is none.
type Case<'t> = (&'t [Op<'t>], u32);

/// p/T has an initialiser, whose code is told apart from it.
const CLASS: &str = "\
21 p/T java/lang/Object - | 8 t [B | 8 o Ljava/lang/Object; | 8 z Z | 8 s S | 18 c S 9 | 8 v S 5 | 8 <clinit> ()V";

const INTERFACE: &str = "601 p/T java/lang/Object - | 8 <clinit> ()V";

/// The value of a field does not fit it.
const UNFIT: &str = "21 p/T java/lang/Object - | 8 b B 128 | 8 <clinit> ()V";

/// t = {1, 2, 3}; o = null; s = 7
const STATEMENTS: &[Op<'static>] = &[
    Op::Number(3),
    Op::NewArray(8),
    Op::Dup,
    Op::Number(0),
    Op::Number(1),
    Op::Store(0x54),
    Op::Dup,
    Op::Number(1),
    Op::Number(2),
    Op::Store(0x54),
    Op::Dup,
    Op::Number(2),
    Op::Number(3),
    Op::Store(0x54),
    Op::Put(b"t", b"[B"),
    Op::Null,
    Op::Put(b"o", b"Ljava/lang/Object;"),
    Op::Number(7),
    Op::Put(b"s", b"S"),
    Op::Return,
];

/// v = 0
const REPLACED: &[Op<'static>] = &[Op::Number(0), Op::Put(b"v", b"S"), Op::Return];

const REFUSED: &[Case<'static>] = &[
    (
        &[Op::Call(b"g", b"()S"), Op::Put(b"s", b"S"), Op::Return],
        0,
    ),
    (
        &[Op::Number(1), Op::Nop, Op::Put(b"s", b"S"), Op::Return],
        1,
    ),
    (&[Op::Get(b"c", b"S"), Op::Put(b"s", b"S"), Op::Return], 0),
    (&[Op::Return, Op::Return], 1),
    (&[Op::Number(1), Op::PutForeign(b"s", b"S"), Op::Return], 1),
    (&[Op::Number(1), Op::Put(b"c", b"S"), Op::Return], 1),
    (
        &[
            Op::Number(1),
            Op::Put(b"s", b"S"),
            Op::Number(1),
            Op::Put(b"s", b"S"),
            Op::Return,
        ],
        3,
    ),
    (&[Op::Null, Op::Put(b"s", b"S"), Op::Return], 1),
    (&[Op::Number(2), Op::Put(b"z", b"Z"), Op::Return], 1),
    (&[Op::Number(32_768), Op::Put(b"s", b"S"), Op::Return], 1),
    (&[Op::Number(-1), Op::NewArray(8), Op::Return], 1),
    (&[Op::Number(32_768), Op::NewArray(8), Op::Return], 1),
    (&[Op::Number(1), Op::NewArray(5), Op::Return], 1),
    (&[Op::Number(0), Op::NewArray(8), Op::Dup, Op::Return], 2),
    (
        &[
            Op::Number(1),
            Op::NewArray(8),
            Op::Put(b"o", b"Ljava/lang/Object;"),
            Op::Return,
        ],
        2,
    ),
    (&[Op::Number(3), Op::NewArray(8), Op::Dup, Op::Number(3)], 3),
    (
        &[
            Op::Number(3),
            Op::NewArray(8),
            Op::Dup,
            Op::Number(0),
            Op::Number(128),
        ],
        4,
    ),
    (
        &[
            Op::Number(3),
            Op::NewArray(8),
            Op::Dup,
            Op::Number(0),
            Op::Number(1),
            Op::Store(0x56),
        ],
        5,
    ),
];

// ---- codes

fn named(alloc: Global, class: &[u8], name: &[u8], desc: &[u8]) -> Result<MemberId, NoMemory> {
    Ok(MemberId {
        class: Bytes::copy_of(alloc, class)?,
        name: Bytes::copy_of(alloc, name)?,
        desc: Bytes::copy_of(alloc, desc)?,
    })
}

fn operation(alloc: Global, op: Op<'_>) -> Result<JOp, NoMemory> {
    Ok(match op {
        Op::Number(number) => JOp::Number(number),
        Op::Null => JOp::Null,
        Op::Dup => JOp::Stack(0x59),
        Op::NewArray(number) => JOp::NewArray(number),
        Op::Store(opcode) => JOp::ArrayStore(opcode),
        Op::Put(name, desc) => JOp::Static {
            put: true,
            field: named(alloc, b"p/T", name, desc)?,
        },
        Op::Get(name, desc) => JOp::Static {
            put: false,
            field: named(alloc, b"p/T", name, desc)?,
        },
        Op::PutForeign(name, desc) => JOp::Static {
            put: true,
            field: named(alloc, b"q/A", name, desc)?,
        },
        Op::Call(name, desc) => JOp::Call {
            op: 0xB8,
            method: named(alloc, b"p/T", name, desc)?,
        },
        Op::Nop => JOp::Nop,
        Op::Return => JOp::Return(0xB1),
    })
}

/// The code of the initialiser, whose instructions stand at 10, 11 and so on.
fn codes(alloc: Global, ops: &[Op<'_>]) -> Result<Codes, NoMemory> {
    let mut insns = Row::new(alloc);
    let mut at = 10u32;
    for op in ops {
        insns.push(JInsn {
            at,
            op: operation(alloc, *op)?,
        })?;
        at = at.wrapping_add(1);
    }
    let mut codes = Row::new(alloc);
    codes.push(MethodCode {
        class: 0,
        method: 0,
        insns,
    })?;
    Ok(codes)
}

fn answered(alloc: Global, class: &str, ops: &[Op<'_>]) -> Result<StaticImage, Fault> {
    let world = package(alloc, class)?;
    let codes = codes(alloc, ops)?;
    image(alloc, &world, &codes)
}

// ---- images

fn is_named(field: &MemberId, name: &[u8]) -> bool {
    field.class.items() == b"p/T".as_slice() && field.name.items() == name
}

fn are_named(fields: &[MemberId], names: &[&[u8]]) -> bool {
    fields.len() == names.len()
        && fields
            .iter()
            .zip(names.iter())
            .all(|(field, name)| is_named(field, name))
}

fn is_array_t(arrays: &[ArrayCell]) -> bool {
    match arrays {
        [array] => {
            is_named(&array.field, b"t")
                && array.kind == Kind::Byte
                && array.items.items() == [1, 2, 3].as_slice()
        }
        _ => false,
    }
}

fn are_values(values: &[ValueCell], expected: &[(&[u8], i32)]) -> bool {
    values.len() == expected.len()
        && values.iter().zip(expected.iter()).all(|(cell, (name, value))| is_named(
            &cell.field,
            name,
        ) && cell.value == *value)
}

fn holds_statements(image: &StaticImage) -> bool {
    is_array_t(image.arrays.items())
        && are_named(image.nulls.items(), &[b"o"])
        && are_named(image.zeros.items(), &[b"z"])
        && are_values(image.others.items(), &[(b"s", 7), (b"v", 5)])
}

fn holds_replaced(image: &StaticImage) -> bool {
    image.arrays.items().len() == 0
        && are_named(image.nulls.items(), &[b"t", b"o"])
        && are_named(image.zeros.items(), &[b"z", b"s", b"v"])
        && image.others.items().len() == 0
}

#[test]
fn statics_hold_what_is_put(rt: HostRuntime) -> Result<(), Fail> {
    let alloc = rt.alloc();
    let Ok(image) = answered(alloc, CLASS, STATEMENTS) else {
        return Err(Fail::from("refused"));
    };
    assert!(rt; holds_statements(&image));
    Ok(())
}

#[test]
fn puts_replace_constant_values(rt: HostRuntime) -> Result<(), Fail> {
    let alloc = rt.alloc();
    let Ok(image) = answered(alloc, CLASS, REPLACED) else {
        return Err(Fail::from("refused"));
    };
    assert!(rt; holds_replaced(&image));
    Ok(())
}

// ---- refusals

/// Whether 308 is refused at an offset of the initialiser, or of the class where there is none.
fn is_refused(answer: &Result<StaticImage, Fault>, offset: Option<u32>) -> bool {
    let Err(Fault::Refused(refusal)) = answer else {
        return false;
    };
    let place = &refusal.place;
    let member = match offset {
        Some(_) => b"<clinit>()V".as_slice(),
        None => b"".as_slice(),
    };
    refusal.rule.0 == 308
        && place.file.items() == b"T".as_slice()
        && place.class.items() == b"p/T".as_slice()
        && place.member.items() == member
        && place.offset == offset.unwrap_or(0)
}

fn are_refused(alloc: Global, cases: &[Case<'_>]) -> bool {
    for case in cases {
        let answer = answered(alloc, CLASS, case.0);
        if !is_refused(&answer, Some(case.1.wrapping_add(10))) {
            return false;
        }
    }
    true
}

#[test]
fn initialisers_are_refused(rt: HostRuntime) {
    assert!(rt; are_refused(rt.alloc(), REFUSED));
}

#[test]
fn classes_are_refused(rt: HostRuntime) {
    let alloc = rt.alloc();
    let interface = answered(alloc, INTERFACE, &[Op::Return]);
    assert!(rt; is_refused(&interface, None));
    let unfit = answered(alloc, UNFIT, &[Op::Return]);
    assert!(rt; is_refused(&unfit, None));
}

#[test]
fn the_first_break_is_found(rt: HostRuntime) -> Result<(), Fail> {
    let alloc = rt.alloc();
    let Ok(world) = package(alloc, CLASS) else {
        return Err(Fail::from("refused"));
    };
    let wrong = codes(alloc, &[Op::Nop, Op::Return])?;
    let found = first_broken(alloc, &world, &wrong)?;
    assert!(rt; found.is_some());
    let right = codes(alloc, STATEMENTS)?;
    let none = first_broken(alloc, &world, &right)?;
    assert!(rt; none.is_none());
    Ok(())
}
