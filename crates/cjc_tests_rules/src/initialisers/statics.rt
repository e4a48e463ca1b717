//! What an initialiser leaves in static fields.

use cjc_clinit::{first_broken, image};
use cjc_tests_files::cases::package;
use cjc_types::bytecode::{Codes, JInsn, JOp, MethodCode};
use cjc_vtable::bytes::{Bytes, Kind, MemberId, NoMemory, Row};
use cjc_vtable::world::{ArrayCell, StaticImage, ValueCell};
use std::alloc::Global;
use std::test::*;

/// An instruction. A field is of p/T, by its name and descriptor.
#[derive(Clone, Copy)]
enum Op<'t> {
    Number(i32),
    Null,
    Dup,
    NewArray(u8),
    Store(u8),
    Put(&'t [u8], &'t [u8]),
    Return,
}

/// p/T has an initialiser, whose code is told apart from it.
const CLASS: &str = "\
21 p/T java/lang/Object - | 8 t [B | 8 o Ljava/lang/Object; | 8 z Z | 8 s S | 18 c S 9 | 8 v S 5 | 8 <clinit> ()V";

/// t = {1, 2, 3}; o = null; s = 7
const STATEMENTS: &[Op<'static>] = &[
    Op::Number(3),
    Op::NewArray(8),
    Op::Dup,
    Op::Number(0),
    Op::Number(1),
    Op::Store(0x54),
    Op::Dup,
    Op::Number(1),
    Op::Number(2),
    Op::Store(0x54),
    Op::Dup,
    Op::Number(2),
    Op::Number(3),
    Op::Store(0x54),
    Op::Put(b"t", b"[B"),
    Op::Null,
    Op::Put(b"o", b"Ljava/lang/Object;"),
    Op::Number(7),
    Op::Put(b"s", b"S"),
    Op::Return,
];

// ---- codes

fn named(alloc: Global, name: &[u8], desc: &[u8]) -> Result<MemberId, NoMemory> {
    Ok(MemberId {
        class: Bytes::copy_of(alloc, b"p/T")?,
        name: Bytes::copy_of(alloc, name)?,
        desc: Bytes::copy_of(alloc, desc)?,
    })
}

fn operation(alloc: Global, op: Op<'_>) -> Result<JOp, NoMemory> {
    Ok(match op {
        Op::Number(number) => JOp::Number(number),
        Op::Null => JOp::Null,
        Op::Dup => JOp::Stack(0x59),
        Op::NewArray(number) => JOp::NewArray(number),
        Op::Store(opcode) => JOp::ArrayStore(opcode),
        Op::Put(name, desc) => JOp::Static {
            put: true,
            field: named(alloc, name, desc)?,
        },
        Op::Return => JOp::Return(0xB1),
    })
}

/// The code of the initialiser.
fn codes(alloc: Global) -> Result<Codes, NoMemory> {
    let mut insns = Row::new(alloc);
    let mut at = 0u32;
    for op in STATEMENTS {
        insns.push(JInsn {
            at,
            op: operation(alloc, *op)?,
        })?;
        at = at.wrapping_add(1);
    }
    let mut codes = Row::new(alloc);
    codes.push(MethodCode {
        class: 0,
        method: 0,
        insns,
    })?;
    Ok(codes)
}

// ---- images

fn is_named(field: &MemberId, name: &[u8]) -> bool {
    field.class.items() == b"p/T".as_slice() && field.name.items() == name
}

fn are_named(fields: &[MemberId], names: &[&[u8]]) -> bool {
    fields.len() == names.len()
        && fields
            .iter()
            .zip(names.iter())
            .all(|(field, name)| is_named(field, name))
}

fn is_array_t(arrays: &[ArrayCell]) -> bool {
    match arrays {
        [array] => {
            is_named(&array.field, b"t")
                && array.kind == Kind::Byte
                && array.items.items() == [1, 2, 3].as_slice()
        }
        _ => false,
    }
}

fn are_values(values: &[ValueCell], expected: &[(&[u8], i32)]) -> bool {
    values.len() == expected.len()
        && values.iter().zip(expected.iter()).all(|(cell, (name, value))| is_named(
            &cell.field,
            name,
        ) && cell.value == *value)
}

fn holds_statements(image: &StaticImage) -> bool {
    is_array_t(image.arrays.items())
        && are_named(image.nulls.items(), &[b"o"])
        && are_named(image.zeros.items(), &[b"z"])
        && are_values(image.others.items(), &[(b"s", 7), (b"v", 5)])
}

#[test]
fn statics_hold_what_is_put(rt: HostRuntime) -> Result<(), Fail> {
    let alloc = rt.alloc();
    let Ok(world) = package(alloc, CLASS) else {
        return Err(Fail::from("refused"));
    };
    let codes = codes(alloc)?;
    let broken = first_broken(alloc, &world, &codes)?;
    assert!(rt; broken.is_none());
    let Ok(image) = image(alloc, &world, &codes) else {
        return Err(Fail::from("refused"));
    };
    assert!(rt; holds_statements(&image));
    Ok(())
}
