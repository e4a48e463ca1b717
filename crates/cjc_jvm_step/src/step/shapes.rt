//! What a name in code stands for: a class, or an array by its descriptor; and the descriptor of an array of a
//! class. No class is looked up.

ghost use Rattle.std.specs.Prelude.{◌≡◌, ◌∷◌, ◌++◌, [], ℕ, List, codes, option_map, IfOk};
ghost use Rattle.cjc_script.specs.Sorts.{shape_named, shape_name, OfReferences};
ghost use Rattle.cjc_jvm_step.specs.Heap.Kinds.{shape_of, class_within};
ghost use Rattle.cjc_jvm_step.specs.Step.Names.{shape_meant};

use crate::heap::{ArrayKind, Element, kind_of};
use cjc_script::bytes::{Bytes, NoMemory};
use std::alloc::Global;

// More bytes than the names of any file have.
const TOO_LONG: usize = 1 << 32;

/// The type of an object, by the name of its class; or of an array of numbers, or of references to a class.
#[derive(Clone, Copy)]
pub enum Shape<'a> {
    Class(&'a [u8]),
    Numbers(Element),
    References(&'a [u8]),
}

/// What the arrays of a type hold. No memory is there for a name of 2^32 bytes or more.
pub fn array_kind(desc: &[u8]) -> Result<ArrayKind, NoMemory>
    ensures { IfOk result (λ kind. (bs : List ℕ) → desc.now ≡ 91 ∷ bs → shape_named desc.now ≡ shape_of kind desc.now) }
{
    if desc.len() >= TOO_LONG {
        return Err(NoMemory);
    }
    Ok(kind_of(desc))
}

/// The class of the elements of an array of references, by its descriptor.
pub fn class_within(desc: &[u8]) -> &[u8]
    ensures { result.now ≡ class_within desc.now }
{
    match desc {
        [_, _, class @ ..] => &class[..class.len().saturating_sub(1)],
        _ => &[],
    }
}

/// What a name stands for.
pub fn shape_named(name: &[u8]) -> Result<Option<Shape<'_>>, NoMemory>
    ensures { IfOk result (λ shape. option_map shape_meant shape ≡ shape_named name.now) }
{
    match name {
        [] => Ok(None),
        [b'[', ..] => match array_kind(name)? {
            ArrayKind::Numbers(element) => Ok(Some(Shape::Numbers(element))),
            ArrayKind::References => Ok(Some(Shape::References(class_within(name)))),
            ArrayKind::Neither => Ok(None),
        },
        _ => Ok(Some(Shape::Class(name))),
    }
}

/// The descriptor of an array of references to a class.
pub fn array_of(alloc: Global, class: &[u8]) -> Result<Bytes, NoMemory>
    ensures { IfOk result (λ desc. desc ≡ shape_name (OfReferences class.now)) }
{
    let mut desc = Bytes::copy_of(alloc, b"[L")?;
    for byte in class {
        desc.push(*byte)?;
    }
    desc.push(b';')?;
    Ok(desc)
}
