//! Calls that no command makes: `infer`, and `next` of its walk, of methods whose types no list allows, and `names` and
//! `check` of a package that uses ints, with the setting that allows them.

ghost use Rattle.std.specs.Prelude.{IfOk};
ghost use Rattle.cjc_types.specs.Tables.{IsOfPackage};

use crate::files::{INTS, LANG, TYPES};
use cjc_subset::bytecode::{Codes, MethodCode, decode};
use cjc_subset::bytes::{Bytes, Fault, FileLine, NoMemory, Row, Settings};
use cjc_subset::export_file::read as read_export;
use cjc_subset::world::World;
use cjc_subset::{check, names};
use cjc_types::classfile::read as read_class;
use cjc_types::{Cell, Frame, Method, TypeTable, TypeWalk, infer};
use std::alloc::Global;
use std::test::*;

fn line(alloc: Global, class_file: bool) -> Result<FileLine, NoMemory> {
    Ok(FileLine {
        class_file,
        name: Bytes::copy_of(alloc, b"a file")?,
    })
}

/// The package p of one class file, over the export file of java/lang.
fn world_of<'t>(alloc: Global, class: &'t [u8]) -> Result<World<'t>, Fault> {
    if class.len() > 1000 {
        return Err(Fault::NoMemory);
    }
    let mut lines = Row::new(alloc);
    lines.push(line(alloc, true)?)?;
    lines.push(line(alloc, false)?)?;
    let mut classes = Row::new(alloc);
    classes.push(read_class(alloc, b"T.class", class)?)?;
    let mut exports = Row::new(alloc);
    exports.push(read_export(alloc, b"lang.exp", LANG)?)?;
    World::new(alloc, b"list", b"p", lines, classes, exports)
}

/// The code of a method of the first class; where there is none, the answer is the same as for want of memory.
fn code_of(alloc: Global, world: &World<'_>, at: u32) -> Result<MethodCode, Fault>
    ensures { IfOk result (λ code. IsOfPackage world.now code) }
{
    let class = match world.classes().items().get(0) {
        Some(class) => class,
        None => return Err(Fault::NoMemory),
    };
    let method = match class.methods.items().get(at as usize) {
        Some(method) => method,
        None => return Err(Fault::NoMemory),
    };
    let code = match &method.code {
        Some(code) => code,
        None => return Err(Fault::NoMemory),
    };
    if code.bytes.len() > 65535 || method.desc.items().len() > 65535 {
        return Err(Fault::NoMemory);
    }
    let insns = decode(alloc, b"T.class", class, at)?;
    Ok(MethodCode {
        class: 0,
        method: at,
        insns,
    })
}

fn types_of(alloc: Global, at: u32) -> Result<TypeTable, Fault> {
    let world = world_of(alloc, TYPES)?;
    let code = code_of(alloc, &world, at)?;
    infer(alloc, b"T.class", &world, &code)
}

/// The offset at which a method breaks rule 502; nothing where it is otherwise.
fn wrong_type(alloc: Global, at: u32) -> Option<u32> {
    match types_of(alloc, at) {
        Err(Fault::Refused(refusal)) => {
            if refusal.rule.0 == 502 {
                Some(refusal.place.offset)
            } else {
                None
            }
        }
        _ => None,
    }
}

/// The local, the result and the element.
#[test]
fn wrong_types_are_refused(rt: HostRuntime) {
    for (at, offset) in [(0, 0), (1, 1), (2, 2)] {
        assert_eq!(rt; wrong_type(rt.alloc(), at), Some(offset));
    }
}

/// Whether the top of the stack is a reference of this type alone.
fn is_top(frame: &Frame, wanted: &[u8]) -> bool {
    match frame.stack.get(0) {
        Some(Cell::Refs(types)) => match types.items() {
            [name] => name.items() == wanted,
            _ => false,
        },
        _ => false,
    }
}

/// Whether a walk gives the frames of the fourth method: at 3 and 5 a reference is on the stack, and the second return
/// is not reached.
fn are_given(alloc: Global, walk: &mut TypeWalk<'_>) -> Result<bool, NoMemory> {
    let mut is_right = true;
    for _ in 0..8 {
        is_right = match walk.next(alloc)? {
            Some((3, Some(frame))) => is_right && is_top(&frame, b"[Lp/T;"),
            Some((5, Some(frame))) => is_right && is_top(&frame, b"p/T"),
            Some((7, frame)) => is_right && frame.is_none(),
            Some((_, frame)) => is_right && frame.is_some(),
            None => false,
        };
    }
    Ok(is_right && walk.next(alloc)?.is_none())
}

fn frames_are_given(alloc: Global) -> Result<bool, Fault> {
    let world = world_of(alloc, TYPES)?;
    let code = code_of(alloc, &world, 3)?;
    let types = infer(alloc, b"T.class", &world, &code)?;
    let method = Method::new(&world, &code);
    let mut walk = TypeWalk::new(&method, &types);
    Ok(are_given(alloc, &mut walk)?)
}

#[test]
fn a_walk_gives_frames(rt: HostRuntime) {
    assert!(rt; matches!(frames_are_given(rt.alloc()), Ok(true)));
}

/// What is answered of a package that uses ints where the list allows them.
fn answered(alloc: Global) -> Result<(), Fault> {
    let world = world_of(alloc, INTS)?;
    let mut codes: Codes = Row::new(alloc);
    codes.push(code_of(alloc, &world, 0)?)?;
    let settings = Settings {
        ints: true,
        applets: Row::new(alloc),
    };
    names(alloc, b"list", &world, &codes)?;
    check(alloc, b"list", &world, &codes, &settings)
}

#[test]
fn int_is_allowed(rt: HostRuntime) {
    assert!(rt; answered(rt.alloc()).is_ok());
}
