//! Calls of `select` on methods of p/T that stand as text, and what is written for them, worked out by hand.
//!
//! A method is `FLAGS DESCRIPTOR CODE REACHED MAX_STACK MAX_LOCALS`, maybe with ` catch START END TARGET CLASS`
//! for each handler; which instructions are reached is a digit for each, or `all`. Behind ` = ` stand the words
//! of arguments, the further locals, the stack and the widest size; behind ` : ` the opcodes and the operands
//! of what is written, one after the other, where a label is a place among the instructions and a name its
//! index into the method's own pool; and behind another ` : ` the places of handlers, where in the class file
//! each is, and the index of its class or -1. All is hexadecimal but the numbers of the class file.

use crate::selection::fits::can_be_selected;
use cjc_examples::bytecode::decode_method;
use cjc_examples::bytes::{Bytes, NoMemory, Row};
use cjc_examples::classfile::{ClassTree, Code, MethodTree};
use cjc_examples::lower_narrow::keys::{Key, Numbers, number};
use cjc_examples::lower_narrow::select::select;
use cjc_examples::ncode::{NCatch, NInsn, NMethod, PoolKey};
use cjc_examples::world::World;
use cjc_tests_files::cases::{code, cut, flags, octets, package, pool, question_and_answer, text};
use std::alloc::Global;
use std::test::*;

/// p/T has the methods. p/M and p/N have nothing in common but p/I.
const PACKAGE: &str = "\
601 p/I java/lang/Object - | 401 v ()S
21 p/M java/lang/Object p/I | 1 <init> ()V | 1 v ()S
21 p/N java/lang/Object p/I | 1 <init> ()V | 1 v ()S
21 p/T p/M - | 0 s S | 8 z Z | 19 c S -2 | 2 q ()S | 9 r (S)S";

/// What the codes name, from index 1 on.
const POOL: &str = "\
int 65535
field p/T s S
class p/M
class p/N
interface p/I v ()S
field p/T z Z
field p/T c S
method p/T q ()S
method p/M v ()S
method p/T r (S)S
class [Lp/M;
class [S
method p/T v ()S";

const ROWS: &str = "\
9 ([BS)B 2A,1B,04,60,33,AC all 3 2 = 2 0 3 A : 18 1D 04 41 25 78 # b[o + 1]
9 ([BS)B 2A,1B,04,64,33,AC all 3 2 = 2 0 3 A : 18 1D 04 43 25 78 # b[o - 1]
9 ([B)B 2A,2A,BE,04,64,33,AC all 3 1 = 1 0 3 B : 18 18 92 04 43 25 78 # b[b.length - 1]
9 (SS)S 1A,1B,6C,93,AC all 2 2 = 2 0 2 6 : 1C 1D 47 78 # (short) (a / b)
9 (S)S 1A,10,14,7C,93,AC all 2 1 = 1 0 2 7 : 1C 10 14 51 78 # (short) (a >>> 20)
9 (S)S 1A,10,10,78,93,AC all 2 1 = 1 0 2 7 : 1C 10 10 4D 78 # (short) (a << 16)
9 (S)S 1A,12,01,7E,93,AC all 2 1 = 1 0 2 7 : 1C 02 53 78 # (short) (a & 0xFFFF)
9 (S)S 1A,AB,00,00,00,00,00,1F,00,00,00,02,00,00,00,05,00,00,00,1B,00,01,11,70,00,00,00,1D,04,AC,05,AC,03,AC all 1 1 \
= 1 0 1 1B : 1C 75 6 0 5 2 04 78 05 78 03 78 # 1 for 5, 2 for 70000, else 0
9 (S)S 1A,AA,00,00,00,00,00,19,00,00,9C,40,00,00,9C,41,00,00,00,17,00,00,00,17,04,AC,03,AC all 1 1 \
= 1 0 1 15 : 1C 3B 70 5 04 78 03 78 # 1 for 40000 and 40001, else 0
9 (S)S 1A,99,00,0A,BB,00,03,4C,A7,00,07,BB,00,04,4C,2B,B9,00,05,01,00,AC all 1 2 \
= 1 1 1 1A : 1C 60 5 8F 0 2C 70 7 8F 1 2C 19 8E 1 2 78 # v of a p/M or of a p/N
9 (S)S 1A,1A,6C,93,AC,57,04,AC,57,05,AC,57,06,AC all 2 1 catch 2 3 5 java/lang/ClassCastException catch 3 4 8 catch 0 4 11 \
= 1 0 2 15 : 1C 1C 47 78 3B 04 78 3B 05 78 3B 06 78 : 2 3 4 5 1 0 3 A B -1 # of three handlers one covers nothing
1 (Lp/T;)S 2B,B4,00,02,AC all 1 2 = 2 0 1 6 : 19 85 0 78 # t.s
1 ()S 2A,B4,00,02,AC,57,03,AC all 1 1 catch 1 4 5 = 1 0 1 B : 18 85 0 78 3B 03 78 : 1 2 3 5 -1 # this.s, or 0
1 ()S 2A,B4,00,02,AC,57,03,AC all 1 1 catch 1 4 5 java/lang/NullPointerException \
= 1 0 1 B : 18 85 1 78 3B 03 78 : 1 2 3 5 2";

const OTHERS: &str = "\
9 (S)B 1A,91,AC all 1 1 = 1 0 1 4 : 1C 5B 78
9 (S)V 84,00,7F,C4,84,00,00,00,80,C4,84,00,00,FF,80,B1 all 0 1 = 1 0 0 D : 59 0 7F 96 0 80 59 0 -80 7A
9 ()S 11,80,00,AC all 1 0 = 0 0 1 4 : 11 -8000 78
9 (S)S 1A,AA,00,00,00,00,00,19,00,00,7F,FF,00,00,80,00,00,00,00,17,00,00,00,17,04,AC,03,AC all 1 1 \
= 1 0 1 15 : 1C 73 4 7FFF 7FFF 2 04 78 03 78
9 (S)S 1A,AA,00,00,00,00,00,19,FF,FF,7F,FF,FF,FF,80,00,00,00,00,17,00,00,00,17,04,AC,03,AC all 1 1 \
= 1 0 1 15 : 1C 73 4 -8000 -8000 2 04 78 03 78
9 ()S A7,00,05,03,AC,03,AC 10011 1 0 = 0 0 1 7 : 70 1 03 78 # two are not reached
9 ()S A7,00,03,00,03,AC all 1 0 = 0 0 1 7 : 70 1 03 78 # to a nop
1 ()V 2A,03,B5,00,02,B1 all 2 1 = 1 0 2 9 : 18 03 89 0 7A
9 ()V B2,00,06,B3,00,06,B2,00,07,57,B1 all 1 0 = 0 0 1 B : 7C 0 80 0 10 -2 3B 7A # a boolean, and a constant
1 ()S 2A,B7,00,08,AC all 1 1 = 1 0 1 6 : 18 8C 0 78 # a private method
1 ()S 2A,B7,00,09,AC all 1 1 = 1 0 1 6 : 18 8C 0 78 # the superclass's
1 ()S 2A,B6,00,0D,AC all 1 1 = 1 0 1 6 : 18 8B 0 78
9 (S)S 1A,B8,00,0A,AC all 1 1 = 1 0 1 6 : 1C 8D 0 78
9 (S)Ljava/lang/Object; 1A,BC,09,57,1A,BD,00,03,C0,00,0B,C1,00,0C,57,01,B0 all 1 1 \
= 1 0 1 16 : 1C 90 C 3B 1C 91 0 94 E 0 95 C -1 3B 01 77";

/// As long as no pool is known each field has an index of two bytes.
const FAR: &str = "\
1 (Lp/T;)S 2B,B4,00,02,AC all 1 2 = 2 0 1 6 : 19 AB 0 78
1 ()V 2A,03,B5,00,02,B1 all 2 1 = 1 0 2 9 : 18 03 B3 0 7A";

// ---- methods

/// The words behind a method's descriptor: its code, what is reached, and the rest.
fn parts(method: &str) -> (&str, &str, &str) {
    let (_, words) = cut(method, " ");
    let (_, words) = cut(words, " ");
    let (bytes, words) = cut(words, " ");
    let (reached, words) = cut(words, " ");
    (bytes, reached, words)
}

fn method_of<'t>(alloc: Global, words: &str, bytes: &'t [u8]) -> Result<MethodTree<'t>, NoMemory> {
    let (access, rest) = cut(words, " ");
    let (desc, _) = cut(rest, " ");
    let (_, _, numbers) = parts(words);
    Ok(MethodTree {
        flags: flags(access)?,
        name: text(alloc, "m")?,
        desc: text(alloc, desc)?,
        code: Some(code(alloc, numbers, bytes)?),
    })
}

/// p/T with the one method.
fn holder<'t>(alloc: Global, words: &str, bytes: &'t [u8]) -> Result<ClassTree<'t>, NoMemory> {
    let mut methods = Row::new(alloc);
    methods.push(method_of(alloc, words, bytes)?)?;
    Ok(ClassTree {
        major: 52,
        flags: 0x21,
        name: text(alloc, "p/T")?,
        superclass: text(alloc, "p/M")?,
        interfaces: Row::new(alloc),
        pool: pool(alloc, POOL)?,
        fields: Row::new(alloc),
        methods,
    })
}

/// Which of so many instructions are reached.
fn reaches(alloc: Global, words: &str, count: usize) -> Result<Vec<bool>, NoMemory> {
    if words == "all" {
        return Ok(Vec::from_elem(alloc, true, count)?);
    }
    let mut row = Vec::new(alloc);
    for digit in words.as_bytes() {
        row.push(*digit == b'1')?;
    }
    Ok(row)
}

/// What is selected for the method of a class; none where it can't be selected.
fn selected(
    alloc: Global,
    world: &World<'_>,
    class: &ClassTree<'_>,
    reached: &str,
    pool: &Numbers,
) -> Result<Option<NMethod>, NoMemory> {
    let Some(method) = class.methods.items().get(0) else {
        return Ok(None);
    };
    let Some(code) = &method.code else {
        return Ok(None);
    };
    if code.bytes.len() > 65535 || method.desc.items().len() > 65535 {
        return Ok(None);
    }
    let Ok(insns) = decode_method(alloc, class, 0) else {
        return Ok(None);
    };
    let insns = insns.items();
    let reaches = reaches(alloc, reached, insns.len())?;
    if can_be_selected(method, code, insns, &reaches)? {
        let narrow = select(alloc, world, class, method, code, insns, &reaches, pool)?;
        Ok(Some(narrow))
    } else {
        Ok(None)
    }
}

// ---- what is written, as numbers

fn place_of(found: Option<usize>) -> i64 {
    match found {
        Some(place) => if place < 65536 { place as i64 } else { -1 },
        None => -1,
    }
}

fn class_place(pool: &Numbers, class: &Option<Bytes>) -> i64 {
    match class {
        Some(name) => place_of(pool.find(&Key::class(name.items()))),
        None => -1,
    }
}

fn key_place(pool: &Numbers, key: &PoolKey) -> i64 {
    place_of(pool.index_of(key))
}

fn put(out: &mut Vec<i64>, numbers: &[i64]) -> Result<(), NoMemory> {
    for number in numbers {
        out.push(*number)?;
    }
    Ok(())
}

fn put_switch(out: &mut Vec<i64>, insn: &NInsn) -> Result<(), NoMemory> {
    if let NInsn::Switch {
        op,
        other,
        low,
        cases,
    } = insn
    {
        put(out, &[i64::from(*op), i64::from(*other), i64::from(*low)])?;
        for case in cases.items() {
            put(out, &[i64::from(case.value), i64::from(case.target)])?;
        }
    }
    Ok(())
}

fn put_named(out: &mut Vec<i64>, pool: &Numbers, insn: &NInsn) -> Result<(), NoMemory> {
    match insn {
        NInsn::Named { op, key } => put(out, &[i64::from(*op), key_place(pool, key)]),
        NInsn::Interface { nargs, method } => {
            let class = place_of(pool.find(&Key::class(method.class.items())));
            put(out, &[0x8E, i64::from(*nargs), class])
        }
        NInsn::TypeTest { op, kind, class } => {
            put(
                out,
                &[i64::from(*op), i64::from(*kind), class_place(pool, class)],
            )
        }
        _ => put_switch(out, insn),
    }
}

fn put_insn(out: &mut Vec<i64>, pool: &Numbers, insn: &NInsn) -> Result<(), NoMemory> {
    match insn {
        NInsn::Op(op) => put(out, &[i64::from(*op)]),
        NInsn::Push { op, value } => put(out, &[i64::from(*op), i64::from(*value)]),
        NInsn::Local { op, index } => put(out, &[i64::from(*op), i64::from(*index)]),
        NInsn::Inc { op, index, by } => {
            put(out, &[i64::from(*op), i64::from(*index), i64::from(*by)])
        }
        NInsn::Words { op, m, n } => put(out, &[i64::from(*op), i64::from(*m), i64::from(*n)]),
        NInsn::Jump { op, target } => put(out, &[i64::from(*op), i64::from(*target)]),
        NInsn::NewArray(kind) => put(out, &[0x90, i64::from(*kind)]),
        _ => put_named(out, pool, insn),
    }
}

fn put_catch(out: &mut Vec<i64>, pool: &Numbers, catch: &NCatch) -> Result<(), NoMemory> {
    let class = class_place(pool, &catch.class);
    put(
        out,
        &[
            i64::from(catch.start),
            i64::from(catch.end),
            i64::from(catch.target),
            i64::from(catch.at),
            class,
        ],
    )
}

/// Everything of a method but where its instructions come from.
fn numbers_of(alloc: Global, narrow: &NMethod, pool: &Numbers) -> Result<Vec<i64>, NoMemory> {
    let mut out = Vec::new(alloc);
    put(
        &mut out,
        &[
            i64::from(narrow.nargs),
            i64::from(narrow.max_locals),
            i64::from(narrow.max_stack),
            i64::from(narrow.widest),
        ],
    )?;
    for insn in narrow.insns.items() {
        put_insn(&mut out, pool, insn)?;
    }
    for catch in narrow.catches.items() {
        put_catch(&mut out, pool, catch)?;
    }
    Ok(out)
}

/// The numbers of an answer; its marks are no numbers.
fn wanted_numbers(alloc: Global, answer: &str) -> Result<Vec<i64>, NoMemory> {
    let mut out = Vec::new(alloc);
    for word in answer.split(" ") {
        if let Ok(number) = i64::from_str_radix(word, 16) {
            out.push(number)?;
        }
    }
    Ok(out)
}

// ---- cases

/// What is selected again by the pool of what was selected first; by no pool where fields are to be far.
fn selected_again(
    alloc: Global,
    world: &World<'_>,
    class: &ClassTree<'_>,
    reached: &str,
    first: NMethod,
    far: bool,
) -> Result<Option<Vec<i64>>, NoMemory> {
    let mut methods = Row::new(alloc);
    methods.push(first)?;
    let pool = number(alloc, methods.items())?;
    let none = Numbers::new(alloc);
    let known = if far { &none } else { &pool };
    match selected(alloc, world, class, reached, known)? {
        Some(narrow) => Ok(Some(numbers_of(alloc, &narrow, &pool)?)),
        None => Ok(None),
    }
}

/// Whether a case is answered as it is to be.
fn is_right(alloc: Global, world: &World<'_>, case: &str, far: bool) -> Result<bool, NoMemory> {
    let (method, answer) = question_and_answer(case);
    let (words, reached, _) = parts(method);
    let bytes = octets(alloc, words)?;
    let class = holder(alloc, method, bytes.as_slice())?;
    let none = Numbers::new(alloc);
    let Some(first) = selected(alloc, world, &class, reached, &none)? else {
        return Ok(false);
    };
    let numbers = selected_again(alloc, world, &class, reached, first, far)?;
    let wanted = wanted_numbers(alloc, answer)?;
    match numbers {
        Some(numbers) => Ok(numbers.as_slice() == wanted.as_slice()),
        None => Ok(false),
    }
}

/// The first case that is answered otherwise; nothing where there is none.
fn first_wrong<'t>(alloc: Global, world: &World<'_>, cases: &'t str, far: bool) -> &'t str {
    for case in cases.lines() {
        match is_right(alloc, world, case, far) {
            Ok(true) => {}
            _ => return case,
        }
    }
    ""
}

/// The same of the package; its rules where it has none.
fn first_wrong_in_package(alloc: Global, cases: &str, far: bool) -> &str {
    match package(alloc, PACKAGE) {
        Ok(world) => first_wrong(alloc, &world, cases, far),
        Err(_) => "the package is refused",
    }
}

#[test]
fn rows_are_selected(rt: HostRuntime) {
    assert_eq!(rt; first_wrong_in_package(rt.alloc(), ROWS, false), "");
}

#[test]
fn others_are_selected(rt: HostRuntime) {
    assert_eq!(rt; first_wrong_in_package(rt.alloc(), OTHERS, false), "");
}

#[test]
fn fields_are_far(rt: HostRuntime) {
    assert_eq!(rt; first_wrong_in_package(rt.alloc(), FAR, true), "");
}
