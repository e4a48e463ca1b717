//! What is known at places of methods, and methods with a wrong type that a command refuses by another rule. A case
//! has the descriptor of a static method, the bytes of its code, max_stack and max_locals, and maybe ` catch ` and
//! where a handler of everything begins, ends and goes; then ` = ` and what is answered, and maybe ` # ` and why.

ghost use Rattle.std.specs.Prelude.{IfOk};
ghost use Rattle.cjc_types.specs.Tables.{IsOfPackage};

use cjc_tests_files::cases::{
    class, code, cut, is_number, language, line, number, octets, pool, question_and_answer, text,
};
use cjc_types::bytecode::{MethodCode, decode};
use cjc_types::classfile::{ClassTree, MethodTree};
use cjc_types::{Cell, Frame, Method, TypeTable, TypeWalk, infer};
use cjc_vtable::bytes::{Fault, FileLine, NoMemory, Row};
use cjc_vtable::world::World;
use std::alloc::Global;
use std::test::*;

/// The classes of the package beside p/T, which has the method.
const BESIDE: &str = "\
1 p/M java/lang/Object p/I
1 p/N java/lang/Object p/I
601 p/I java/lang/Object -";

/// What the codes below name, from index 1 on.
const POOL: &str = "interface p/I i ()V";

/// The method of a case, whose code has these bytes.
fn method<'t>(alloc: Global, words: &str, bytes: &'t [u8]) -> Result<MethodTree<'t>, NoMemory> {
    let (desc, words) = cut(words, " ");
    let (_, numbers) = cut(words, " ");
    Ok(MethodTree {
        flags: 9,
        name: text(alloc, "m")?,
        desc: text(alloc, desc)?,
        code: Some(code(alloc, numbers, bytes)?),
    })
}

/// p/T with the method.
fn holder<'t>(alloc: Global, words: &str, bytes: &'t [u8]) -> Result<ClassTree<'t>, NoMemory> {
    let mut methods = Row::new(alloc);
    methods.push(method(alloc, words, bytes)?)?;
    Ok(ClassTree {
        major: 52,
        flags: 1,
        name: text(alloc, "p/T")?,
        superclass: text(alloc, "java/lang/Object")?,
        interfaces: Row::new(alloc),
        pool: pool(alloc, POOL)?,
        fields: Row::new(alloc),
        methods,
    })
}

fn classes<'t>(
    alloc: Global,
    words: &str,
    bytes: &'t [u8],
) -> Result<Row<ClassTree<'t>>, NoMemory> {
    let mut classes = Row::new(alloc);
    classes.push(holder(alloc, words, bytes)?)?;
    for line in BESIDE.lines() {
        classes.push(class(alloc, line)?)?;
    }
    Ok(classes)
}

/// The lines of the list for the files of the package.
fn lines(alloc: Global) -> Result<Row<FileLine>, NoMemory> {
    let mut lines = Row::new(alloc);
    for _ in 0..4 {
        lines.push(line(alloc, true, "a class file")?)?;
    }
    lines.push(line(alloc, false, "an export file")?)?;
    Ok(lines)
}

/// A package of p/T, which has the method, and of p/M and p/N, which both implement p/I.
fn package<'t>(alloc: Global, words: &str, bytes: &'t [u8]) -> Result<World<'t>, Fault> {
    let lines = lines(alloc)?;
    let classes = classes(alloc, words, bytes)?;
    let mut exports = Row::new(alloc);
    exports.push(language(alloc)?)?;
    World::new(alloc, b"list", b"p", lines, classes, exports)
}

/// The code of the first method of the first class; where there is none, the answer is the same as for want of memory.
fn first_code(alloc: Global, world: &World<'_>) -> Result<MethodCode, Fault>
    ensures { IfOk result (λ code. IsOfPackage world.now code) }
{
    let class = match world.classes().items().get(0) {
        Some(class) => class,
        None => return Err(Fault::NoMemory),
    };
    let method = match class.methods.items().get(0) {
        Some(method) => method,
        None => return Err(Fault::NoMemory),
    };
    let code = match &method.code {
        Some(code) => code,
        None => return Err(Fault::NoMemory),
    };
    if code.bytes.len() > 65535 || method.desc.items().len() > 65535 {
        return Err(Fault::NoMemory);
    }
    let insns = decode(alloc, b"T.class", class, 0)?;
    Ok(MethodCode {
        class: 0,
        method: 0,
        insns,
    })
}

fn types(alloc: Global, words: &str, bytes: &[u8]) -> Result<TypeTable, Fault> {
    let world = package(alloc, words, bytes)?;
    let code = first_code(alloc, &world)?;
    infer(alloc, b"T.class", &world, &code)
}

/// The bytes of the code of a case.
fn bytes_of(alloc: Global, words: &str) -> Result<Vec<u8>, NoMemory> {
    let (_, words) = cut(words, " ");
    let (bytes, _) = cut(words, " ");
    octets(alloc, bytes)
}

/// Whether a refusal has this rule and offset.
fn is_refused(answer: Result<TypeTable, Fault>, wanted: &str) -> bool {
    let (rule, offset) = cut(wanted, " ");
    match answer {
        Err(Fault::Refused(refusal)) => {
            is_number(rule, refusal.rule.0 as u32) && is_number(offset, refusal.place.offset)
        }
        _ => false,
    }
}

/// A local, a result and an element of types that no list allows.
const REFUSED: &str = "\
(J)V 2A,57,B1 1 1 = 502 0
()J 04,AC 1 0 = 502 1
([S)V 2A,03,2E,57,B1 2 1 = 502 2";

fn is_answered(alloc: Global, case: &str) -> Result<bool, NoMemory> {
    let (words, wanted) = question_and_answer(case);
    let bytes = bytes_of(alloc, words)?;
    Ok(is_refused(types(alloc, words, bytes.as_slice()), wanted))
}

/// The first case that is answered otherwise; nothing where there is none.
fn first_wrong(alloc: Global, cases: &'static str) -> &'static str {
    for case in cases.lines() {
        match is_answered(alloc, case) {
            Ok(true) => {}
            _ => return case,
        }
    }
    ""
}

#[test]
fn wrong_types_are_refused(rt: HostRuntime) {
    assert_eq!(rt; first_wrong(rt.alloc(), REFUSED), "");
}

/// What is known before an instruction of a method: ` at `, the number of the instruction, and `local` for the first
/// local, `top` for the top of the stack or `frame` for whether there is a frame. A cell is a reference of the types
/// that are answered.
const FRAMES: &str = "\
(ZLp/N;Lp/M;)V 1A,99,00,07,2B,A7,00,04,2C,4B,2A,B9,00,01,01,00,B1 2 3 at 6 local = p/M p/N # they share an interface
(ZLp/M;[S)V 1A,99,00,07,2B,A7,00,04,2C,4B,2A,57,B1 2 3 at 6 local = [S p/M # an array beside a class
([[Lp/M;)V 2A,03,32,03,32,57,B1 2 1 at 3 top = [Lp/M;
([[Lp/M;)V 2A,03,32,03,32,57,B1 2 1 at 5 top = p/M
([SLp/N;Lp/M;)V 2B,4B,00,00,2C,4B,00,B1,57,B1 2 3 catch 2 8 8 at 8 local = p/M p/N # what the covered ones knew
()V B1,B1 2 0 at 0 frame = there
()V B1,B1 2 0 at 1 frame = none";

/// Whether the cell is a reference of these types.
fn is_refs(cell: Option<&Cell>, names: &str) -> bool {
    let types = match cell {
        Some(Cell::Refs(types)) => types.items(),
        _ => return false,
    };
    let mut rest = names;
    for name in types {
        let (wanted, more) = cut(rest, " ");
        if name.items() != wanted.as_bytes() {
            return false;
        }
        rest = more;
    }
    rest.is_empty()
}

/// Whether a frame has what is wanted.
fn is_known(frame: &Option<Frame>, of: &str, wanted: &str) -> bool {
    let frame = match frame {
        Some(frame) => frame,
        None => return of == "frame" && wanted == "none",
    };
    match of {
        "local" => is_refs(frame.locals.items().first(), wanted),
        "top" => is_refs(frame.stack.get(0), wanted),
        "frame" => wanted == "there",
        _ => false,
    }
}

/// Goes on by so many instructions.
fn go_on(alloc: Global, walk: &mut TypeWalk<'_>, count: u32) -> Result<(), NoMemory> {
    for _ in 0..count {
        if let Some(_) = walk.place() {
            walk.advance(alloc)?;
        }
    }
    Ok(())
}

/// Whether the frame before an instruction of a method has what is wanted.
fn has(alloc: Global, words: &str, bytes: &[u8], spot: &str, wanted: &str) -> Result<bool, Fault> {
    let (at, of) = cut(spot, " ");
    let world = package(alloc, words, bytes)?;
    let code = first_code(alloc, &world)?;
    let types = infer(alloc, b"T.class", &world, &code)?;
    let method = Method::new(&world, &code);
    let mut walk = TypeWalk::new(&method, &types);
    go_on(alloc, &mut walk, number(at)?)?;
    match walk.place() {
        Some(_) => Ok(is_known(walk.frame(), of, wanted)),
        None => Ok(false),
    }
}

fn is_had(alloc: Global, case: &str) -> Result<bool, Fault> {
    let (question, wanted) = question_and_answer(case);
    let (words, spot) = cut(question, " at ");
    let bytes = bytes_of(alloc, words)?;
    has(alloc, words, bytes.as_slice(), spot, wanted)
}

/// The first case whose frame has something else; nothing where there is none.
fn first_other(alloc: Global, cases: &str) -> &str {
    for case in cases.lines() {
        match is_had(alloc, case) {
            Ok(true) => {}
            _ => return case,
        }
    }
    ""
}

#[test]
fn frames_are_known(rt: HostRuntime) {
    assert_eq!(rt; first_other(rt.alloc(), FRAMES), "");
}
