//! Which of the codes of a package each method has: they are those of all methods with code, in the order of the
//! classes and of their methods. It knows no instruction.

ghost use Rattle.std.specs.Prelude.{◌≡◌, ◌++◌, IfOk, OnOk};
ghost use Rattle.cjc_methods.specs.Working.Places.{behind, behind_all, class_places, code_places, place_if, place_in};

use cjc_bytes::{NoMemory, Row};
use cjc_world::classfile::{ClassTree, Code, MethodTree};
use std::alloc::Global;

/// The place behind that of a method's code.
fn behind(next: u32, code: &Option<Code<'_>>) -> Result<u32, NoMemory>
    ensures { IfOk result (λ k. k ≡ behind next code.now) }
{
    match code {
        None => Ok(next),
        Some(_) => {
            if next == 0xFFFF_FFFF {
                return Err(NoMemory);
            }
            Ok(next + 1)
        }
    }
}

fn place_if(next: u32, code: &Option<Code<'_>>) -> Option<u32>
    ensures { result ≡ place_if next code.now }
{
    match code {
        None => None,
        Some(_) => Some(next),
    }
}

/// Puts the places of the codes of some methods at the end, and answers the place behind.
fn put_places(
    out: &mut Row<Option<u32>>,
    next: u32,
    methods: &[MethodTree<'_>],
) -> Result<u32, NoMemory>
    ensures places { OnOk result (out.new ≡ out.old ++ code_places next methods.now) }
    ensures behind { IfOk result (λ k. k ≡ behind_all next methods.now) }
{
    let mut next = next;
    for method in methods {
        out.push(place_if(next, &method.code))?;
        next = behind(next, &method.code)?;
    }
    Ok(next)
}

/// Of each class and each of its methods the place of its code; none where it has none.
pub(crate) fn class_places(
    alloc: Global,
    classes: &[ClassTree<'_>],
) -> Result<Row<Row<Option<u32>>>, NoMemory>
    ensures { IfOk result (λ rows. rows ≡ class_places 0 classes.now) }
{
    let mut rows = Row::new(alloc);
    let mut next = 0;
    for class in classes {
        let mut row = Row::new(alloc);
        next = put_places(&mut row, next, class.methods.items())?;
        rows.push(row)?;
    }
    Ok(rows)
}

/// The place of the code of a method by the number of its class and its own.
pub(crate) fn place_in(rows: &[Row<Option<u32>>], class: u32, method: usize) -> Option<u32>
    ensures { result ≡ place_in rows.now class method }
{
    let row = rows.get(class as usize)?;
    *row.items().get(method)?
}
