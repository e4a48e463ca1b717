//! Calls of `select` on methods of a package, whose opcodes were worked out by hand.

use crate::fits::can_be_selected;
use crate::package::{class, package};
use cjc_bytes::{Bytes, MemberId, NoMemory, Row};
use cjc_classfile::{Catch, ClassTree, Code, MethodTree};
use cjc_code::{JInsn, JOp};
use cjc_keys::{Numbers, number};
use cjc_ncode::{NInsn, NMethod};
use cjc_select::select;
use cjc_world::World;
use std::alloc::Global;
use std::test::*;

/// An instruction of a class file. A field is s of p/T.
#[derive(Clone, Copy)]
enum Op<'t> {
    LoadReference(u16),
    LoadNumber(u16),
    Number(i32),
    ArrayLoad(u8),
    Arith(u8),
    Narrow(u8),
    Pop,
    Return,
    Get,
    /// From this value on to these targets, else to the default.
    Table(i32, &'t [u32], u32),
}

/// A method that is not static, its instructions at their offsets, and the opcodes that are written.
#[derive(Clone, Copy)]
struct Case<'t> {
    desc: &'t [u8],
    max_stack: u16,
    max_locals: u16,
    insns: &'t [(u32, Op<'t>)],
    opcodes: &'t [u8],
}

const CASES: &[Case<'static>] = &[
    // b[o + 1]
    Case {
        desc: b"([BS)B",
        max_stack: 3,
        max_locals: 3,
        insns: &[
            (0, Op::LoadReference(1)),
            (1, Op::LoadNumber(2)),
            (2, Op::Number(1)),
            (3, Op::Arith(0x60)),
            (4, Op::ArrayLoad(0x33)),
            (5, Op::Return),
        ],
        opcodes: &[0x19, 0x1E, 0x04, 0x41, 0x25, 0x78],
    },
    // (short) (a >>> 20)
    Case {
        desc: b"(S)S",
        max_stack: 2,
        max_locals: 2,
        insns: &[
            (0, Op::LoadNumber(1)),
            (1, Op::Number(20)),
            (3, Op::Arith(0x7C)),
            (4, Op::Narrow(0x93)),
            (5, Op::Return),
        ],
        opcodes: &[0x1D, 0x10, 0x51, 0x78],
    },
    // (short) (a & 0xFFFF)
    Case {
        desc: b"(S)S",
        max_stack: 2,
        max_locals: 2,
        insns: &[
            (0, Op::LoadNumber(1)),
            (1, Op::Number(65535)),
            (3, Op::Arith(0x7E)),
            (4, Op::Narrow(0x93)),
            (5, Op::Return),
        ],
        opcodes: &[0x1D, 0x02, 0x53, 0x78],
    },
    // 1 for 40000 and 40001, else 0: no case is a word
    Case {
        desc: b"(S)S",
        max_stack: 1,
        max_locals: 2,
        insns: &[
            (0, Op::LoadNumber(1)),
            (1, Op::Table(40000, &[24, 24], 26)),
            (24, Op::Number(1)),
            (25, Op::Return),
            (26, Op::Number(0)),
            (27, Op::Return),
        ],
        opcodes: &[0x1D, 0x3B, 0x70, 0x04, 0x78, 0x03, 0x78],
    },
    FIELD,
];

/// this.s, or 0 where reading it throws: as long as the pool is not known its index has two bytes.
const FIELD: Case<'static> = Case {
    desc: b"()S",
    max_stack: 1,
    max_locals: 1,
    insns: &[
        (0, Op::LoadReference(0)),
        (1, Op::Get),
        (4, Op::Return),
        (5, Op::Pop),
        (6, Op::Number(0)),
        (7, Op::Return),
    ],
    opcodes: &[0x18, 0xAB, 0x78, 0x3B, 0x03, 0x78],
};

fn table(alloc: Global, low: i32, to: &[u32], other: u32) -> Result<JOp, NoMemory> {
    let mut targets = Row::new(alloc);
    for target in to {
        targets.push(*target)?;
    }
    Ok(JOp::TableSwitch {
        other,
        low,
        targets,
    })
}

fn operation(alloc: Global, op: Op<'_>) -> Result<JOp, NoMemory> {
    Ok(match op {
        Op::LoadReference(local) => JOp::Load { refs: true, local },
        Op::LoadNumber(local) => JOp::Load { refs: false, local },
        Op::Number(z) => JOp::Number(z),
        Op::ArrayLoad(opcode) => JOp::ArrayLoad(opcode),
        Op::Arith(opcode) => JOp::Arith(opcode),
        Op::Narrow(opcode) => JOp::Narrow(opcode),
        Op::Pop => JOp::Stack(0x57),
        Op::Return => JOp::Return(0xAC),
        Op::Get => JOp::Field {
            put: false,
            field: MemberId {
                class: Bytes::copy_of(alloc, b"p/T")?,
                name: Bytes::copy_of(alloc, b"s")?,
                desc: Bytes::copy_of(alloc, b"S")?,
            },
        },
        Op::Table(low, to, other) => table(alloc, low, to, other)?,
    })
}

fn instructions(alloc: Global, case: Case<'_>) -> Result<Row<JInsn>, NoMemory> {
    let mut row = Row::new(alloc);
    for (at, op) in case.insns {
        row.push(JInsn {
            at: *at,
            op: operation(alloc, *op)?,
        })?;
    }
    Ok(row)
}

/// What stands at 1 to 3 has a handler at 5.
fn code<'t>(alloc: Global, case: Case<'_>) -> Result<Code<'t>, NoMemory> {
    let mut catches = Row::new(alloc);
    catches.push(Catch {
        start: 1,
        end: 4,
        target: 5,
        class: Some(Bytes::copy_of(alloc, b"java/lang/NullPointerException")?),
    })?;
    Ok(Code {
        max_stack: case.max_stack,
        max_locals: case.max_locals,
        bytes: b"",
        catches,
    })
}

fn method<'t>(alloc: Global, case: Case<'_>) -> Result<MethodTree<'t>, NoMemory> {
    Ok(MethodTree {
        flags: 1,
        name: Bytes::copy_of(alloc, b"m")?,
        desc: Bytes::copy_of(alloc, case.desc)?,
        code: None,
    })
}

/// The narrow code of a method all of whose instructions are reached; none where it can't be selected.
fn selected(
    alloc: Global,
    world: &World<'_>,
    class: &ClassTree<'_>,
    case: Case<'_>,
    pool: &Numbers,
) -> Result<Option<NMethod>, NoMemory> {
    let insns = instructions(alloc, case)?;
    let reaches = Vec::from_elem(alloc, true, insns.items().len())?;
    let method = method(alloc, case)?;
    let code = code(alloc, case)?;
    if can_be_selected(&method, &code, insns.items(), &reaches)? {
        let narrow = select(
            alloc,
            world,
            class,
            &method,
            &code,
            insns.items(),
            &reaches,
            pool,
        )?;
        Ok(Some(narrow))
    } else {
        Ok(None)
    }
}

fn opcode(insn: &NInsn) -> u8 {
    match insn {
        NInsn::Op(op)
        | NInsn::Push { op, value: _ }
        | NInsn::Local { op, index: _ }
        | NInsn::Jump { op, target: _ }
        | NInsn::Named { op, key: _ } => *op,
        _ => 0,
    }
}

fn has_opcodes(narrow: &NMethod, opcodes: &[u8]) -> bool {
    let insns = narrow.insns.items();
    insns.len() == opcodes.len()
        && insns
            .iter()
            .zip(opcodes.iter())
            .all(|(insn, op)| opcode(insn) == *op)
}

/// Whether a method is selected with these opcodes, as long as the pool is not known.
fn is_selected(
    alloc: Global,
    world: &World<'_>,
    class: &ClassTree<'_>,
    case: Case<'_>,
) -> Result<bool, NoMemory> {
    let pool = Numbers::new(alloc);
    match selected(alloc, world, class, case, &pool)? {
        Some(narrow) => Ok(has_opcodes(&narrow, case.opcodes)),
        None => Ok(false),
    }
}

#[test]
fn methods_are_selected(rt: HostRuntime) -> Result<(), Fail> {
    let alloc = rt.alloc();
    let Ok(world) = package(alloc) else {
        return Err(Fail::from("refused"));
    };
    let class = class(alloc)?;
    for case in CASES {
        assert!(rt; is_selected(alloc, &world, &class, *case)?);
    }
    Ok(())
}

/// Whether the method that reads a field has these opcodes and its handler where it is selected again, by the pool that it
/// needs.
fn is_selected_again(
    alloc: Global,
    world: &World<'_>,
    class: &ClassTree<'_>,
    opcodes: &[u8],
) -> Result<bool, NoMemory> {
    let none = Numbers::new(alloc);
    let Some(first) = selected(alloc, world, class, FIELD, &none)? else {
        return Ok(false);
    };
    let mut methods = Row::new(alloc);
    methods.push(first)?;
    let pool = number(alloc, methods.items())?;
    match selected(alloc, world, class, FIELD, &pool)? {
        Some(narrow) => Ok(has_opcodes(&narrow, opcodes) && narrow.catches.items().len() == 1),
        None => Ok(false),
    }
}

#[test]
fn fields_are_near(rt: HostRuntime) -> Result<(), Fail> {
    let alloc = rt.alloc();
    let Ok(world) = package(alloc) else {
        return Err(Fail::from("refused"));
    };
    let class = class(alloc)?;
    let opcodes = [0x18, 0x85, 0x78, 0x3B, 0x03, 0x78];
    assert!(rt; is_selected_again(alloc, &world, &class, &opcodes)?);
    Ok(())
}
