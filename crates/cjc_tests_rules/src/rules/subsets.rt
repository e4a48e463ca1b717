//! A package whose code uses ints, which no list allows yet: with the setting that allows them nothing is refused.

use crate::rules::drafts::TestPackage;
use cjc_types::bytecode::{Codes, JInsn, JOp, MethodCode};
use cjc_vtable::bytes::{Fault, NoMemory, Row, Settings};
use cjc_vtable::subset::{check, names};
use std::alloc::Global;
use std::test::*;

/// The package. Its first method, f of p/T, has code.
const PACKAGE: &str = "\
class 21 p/T java/lang/Object - | 9 f ()V | 1 x [I | 1 g (I)I
language";

/// A new array of ints, a load from one and a store into one.
fn instructions(alloc: Global) -> Result<Row<JInsn>, NoMemory> {
    let mut insns = Row::new(alloc);
    insns.push(JInsn {
        at: 0,
        op: JOp::NewArray(10),
    })?;
    insns.push(JInsn {
        at: 2,
        op: JOp::ArrayLoad(0x2E),
    })?;
    insns.push(JInsn {
        at: 3,
        op: JOp::ArrayStore(0x4F),
    })?;
    Ok(insns)
}

/// The instructions of p/T's method f.
fn codes(alloc: Global) -> Result<Codes, NoMemory> {
    let mut codes = Row::new(alloc);
    codes.push(MethodCode {
        class: 0,
        method: 0,
        insns: instructions(alloc)?,
    })?;
    Ok(codes)
}

/// What is answered where the list allows ints.
fn answered(alloc: Global) -> Result<(), Fault> {
    let mut draft = TestPackage::new(alloc);
    draft.put_all(alloc, PACKAGE)?;
    let codes = codes(alloc)?;
    let settings = Settings {
        ints: true,
        applets: draft.take_applets(alloc),
    };
    let world = draft.world(alloc)?;
    names(alloc, b"list", &world, &codes)?;
    check(alloc, b"list", &world, &codes, &settings)
}

#[test]
fn int_is_allowed(rt: HostRuntime) {
    assert!(rt; answered(rt.alloc()).is_ok());
}
