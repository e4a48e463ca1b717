//! The methods of the package's classes as the machine by name runs them, class by class, made once before the
//! first instruction.

ghost use Rattle.std.specs.Prelude.{◌≡◌, ◌<◌, ◌+◌, ◌++◌, ◌^◌, length, map, IfOk};
ghost use Rattle.cjc_jvm_step.specs.Bytecode.PackageCodes.{all_codes, of_methods, of_classes, code_with};
ghost use Rattle.cjc_jvm_semantics.specs.OnePackage.{method_by};
ghost use Rattle.cjc_jvm_step.specs.Frame.Places.{IsIndex};
ghost use Rattle.cjc_jvm_link.specs.Methods.{AreIndices, methods_of, insns_in, insns_at, behind};

use cjc_jvm_semantics::bytecode::{JInsn, MethodCode};
use cjc_jvm_step::frame::Method;
use cjc_world::bytes::{NoMemory, Row};
use cjc_world::classfile::{ClassTree, MethodTree};
use std::alloc::Global;

/// The instructions of methods that are still to be taken, and their indices.
#[derive(Clone, Copy)]
struct Rest<'w> {
    codes: &'w [MethodCode],
    indices: &'w [Row<u32>],
}

/// The instructions of a method and their index, and what is left behind them.
#[derive(Clone, Copy)]
struct Taken<'w> {
    insns: &'w [JInsn],
    places: &'w [u32],
    rest: Rest<'w>,
}

// Takes the instructions of a method from the front, where they stand there.
fn take(rest: Rest<'_>, class: usize, method: usize) -> Taken<'_>
    requires { AreIndices rest.codes.now rest.indices.now }
    ensures insns { result.insns.now ≡ insns_at class method rest.entry.codes.now }
    ensures rest { result.rest.codes.now ≡ behind class method rest.entry.codes.now }
    ensures indices { AreIndices result.rest.codes.now result.rest.indices.now }
    ensures index { IsIndex result.insns.now result.places.now }
    ensures few { length result.insns.now < 2 ^ 32 }
{
    match (rest.codes, rest.indices) {
        ([code, codes @ ..], [index, indices @ ..])
            if code.class as usize == class && code.method as usize == method => {
            Taken {
                insns: code.insns.items(),
                places: index.items(),
                rest: Rest { codes, indices },
            }
        }
        _ => Taken {
            insns: &[],
            places: &[],
            rest,
        },
    }
}

// A method of a class, with its instructions.
fn method_by<'w>(
    class: &'w ClassTree<'_>,
    tree: &'w MethodTree<'_>,
    insns: &'w [JInsn],
    places: &'w [u32],
) -> Method<'w>
    requires index { IsIndex insns.now places.now }
    requires few { length insns.now < 2 ^ 32 }
    requires insns { insns.now ≡ insns_in class.now tree.now tree.now.code }
    ensures { result ≡ method_by class.now tree.now tree.now.code }
{
    match &tree.code {
        Some(code) => Method {
            class: class.name.items(),
            name: tree.name.items(),
            desc: tree.desc.items(),
            is_abstract: false,
            max_stack: code.max_stack,
            max_locals: code.max_locals,
            insns,
            places,
            catches: code.catches.items(),
        },
        None => Method {
            class: class.name.items(),
            name: tree.name.items(),
            desc: tree.desc.items(),
            is_abstract: true,
            max_stack: 0,
            max_locals: 0,
            insns,
            places,
            catches: &[],
        },
    }
}

// The methods of a class and what is left behind them; `later` are the classes behind it.
fn methods_in<'w>(
    alloc: Global,
    number: usize,
    class: &'w ClassTree<'_>,
    later: &'w [ClassTree<'_>],
    rest: Rest<'w>,
) -> Result<(Row<Method<'w>>, Rest<'w>), NoMemory>
    requires codes { rest.codes.now ≡ of_methods code_with number 0 class.now class.now.methods
        ++ of_classes code_with (number + 1) later.now }
    requires indices { AreIndices rest.codes.now rest.indices.now }
    ensures methods { IfOk result (λ p. p.0 ≡ methods_of class.now) }
    ensures rest { IfOk result (λ p. p.1.codes.now ≡ of_classes code_with (number + 1) later.now) }
    ensures indices { IfOk result (λ p. AreIndices p.1.codes.now p.1.indices.now) }
{
    let mut methods = Row::new(alloc);
    let mut rest = rest;
    for (place, tree) in class.methods.items().iter().enumerate() {
        let taken = take(rest, number, place);
        methods.push(method_by(class, tree, taken.insns, taken.places))?;
        rest = taken.rest;
    }
    Ok((methods, rest))
}

/// The methods of classes, class by class, from the instructions of all methods of these classes and their indices.
pub(crate) fn all_methods<'w>(
    alloc: Global,
    classes: &'w [ClassTree<'_>],
    codes: &'w [MethodCode],
    indices: &'w [Row<u32>],
) -> Result<Row<Row<Method<'w>>>, NoMemory>
    requires codes { codes.now ≡ all_codes classes.now }
    requires indices { AreIndices codes.now indices.now }
    ensures { IfOk result (λ methods. methods ≡ map methods_of classes.now) }
{
    let mut methods = Row::new(alloc);
    let mut rest = Rest { codes, indices };
    for (number, class) in classes.iter().enumerate() {
        let later = &classes[number + 1..];
        let (own, behind) = methods_in(alloc, number, class, later, rest)?;
        methods.push(own)?;
        rest = behind;
    }
    Ok(methods)
}
