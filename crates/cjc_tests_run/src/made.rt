//! Packages that are made from numbers: each is converted, and the type checker passes what was written.

use crate::commands::{line_of, sink};
use cjc_cmd_make::package::package;
use cjc_run::bytes::{NoMemory, Row};
use cjc_run::shelf::MemShelf;
use std::alloc::Global;
use std::test::*;

/// The names of the files of a package of three classes, in the order of its list.
const NAMES: [&str; 4] = ["lang.exp", "C0.class", "C1.class", "C2.class"];

/// Whether a command ends without a line.
fn is_done(alloc: Global, shelf: &mut MemShelf, command: &str) -> Result<bool, NoMemory> {
    let mut out = sink(alloc, Row::new(alloc))?;
    let errors = line_of(alloc, shelf, command, &mut out)?;
    Ok(errors.bytes().is_empty())
}

/// Whether the package of this number and three classes is converted, and verified then.
fn is_accepted(alloc: Global, number: u32) -> Result<bool, NoMemory> {
    let made = package(alloc, number, 3)?;
    let mut shelf = MemShelf::new(alloc, Row::new(alloc));
    shelf.add(b"list", made.list.items())?;
    for (name, bytes) in NAMES.iter().zip(made.files.items().iter()) {
        shelf.add(name.as_bytes(), bytes.items())?;
    }
    let converted = is_done(alloc, &mut shelf, "convert list out")?;
    let verified = is_done(alloc, &mut shelf, "verify list out")?;
    Ok(converted && verified)
}

/// The first number from 1 to 200 whose package is not; 0 where there is none.
fn first_refused(alloc: Global) -> Result<u32, NoMemory> {
    for number in 1..201 {
        if !is_accepted(alloc, number)? {
            return Ok(number);
        }
    }
    Ok(0)
}

#[test]
fn made_packages_are_verified(rt: HostRuntime) -> Result<(), Fail> {
    let refused = first_refused(rt.alloc())?;
    assert_eq!(rt; refused, 0);
    Ok(())
}
