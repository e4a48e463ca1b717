//! The methods of a class in Descriptor (Java Card Virtual Machine Specification 2.2.2, section 6.13.3). Called
//! by `classes`.

ghost use Rattle.std.specs.Prelude.{◌≡◌, ◌+◌, ◌++◌, ◌<◌, ◌^◌, length, IfOk, OnOk};
ghost use Rattle.cjc_classes.specs.Descriptor.Working.Described.{added_at, inputs_of, method_by, method_if, methods_at};
ghost use Rattle.cjc_classes.specs.Descriptor.Working.Described.{own_methods_at};

use crate::descriptor::flags::method_flags;
use crate::descriptor::parts::{Parts, extent_of, token_of};
use cjc_bytes::{ACC_ABSTRACT, ACC_PUBLIC, MemberId, NoMemory, Row};
use cjc_components::capread::MethodDescriptor;
use cjc_world::classfile::{ClassTree, MethodTree};
use std::alloc::Global;

const INITIALISER: &[u8] = b"<clinit>";

/// A method by its flags, its name and its descriptor, at a place of the class of a number.
fn method_by<'a>(
    alloc: Global,
    parts: &Parts<'a>,
    number: u32,
    place: usize,
    flags: u16,
    name: &'a [u8],
    desc: &'a [u8],
) -> Result<MethodDescriptor, NoMemory>
    ensures { IfOk result (λ d. d ≡ method_by (inputs_of parts.now) number place flags name.now desc.now) }
{
    if place > 0xFFFF_FFFF {
        return Err(NoMemory);
    }
    let type_offset = parts.types.offset(alloc, parts.refs, desc)?;
    let extent = extent_of(parts.extents, number, place);
    Ok(MethodDescriptor {
        token: token_of(parts.tokens, number, place as u32),
        flags: method_flags(flags, name),
        offset: extent.offset,
        type_offset,
        bytecode_count: extent.bytecode_count,
        handler_count: extent.handler_count,
        first_handler: extent.first_handler,
    })
}

/// Puts a method at the end, where it is no <clinit>.
fn put_method<'a>(
    alloc: Global,
    row: &mut Row<MethodDescriptor>,
    parts: &Parts<'a>,
    number: u32,
    place: usize,
    method: &'a MethodTree<'a>,
) -> Result<(), NoMemory>
    ensures { OnOk result (row.new ≡ row.old ++ method_if (inputs_of parts.now) number place method.now) }
{
    if method.name.items() == INITIALISER {
        return Ok(());
    }
    row.push(method_by(
        alloc,
        parts,
        number,
        place,
        method.flags,
        method.name.items(),
        method.desc.items(),
    )?)
}

/// Puts the methods of a class file at the end, of which the first has this place.
#[tactic(auto, using(crate::proofs::DescriptorLaws::Rows::each_next_from, crate::proofs::DescriptorLaws::Rows::each_end_from))]
fn put_own<'a>(
    alloc: Global,
    row: &mut Row<MethodDescriptor>,
    parts: &Parts<'a>,
    number: u32,
    first: usize,
    methods: &'a [MethodTree<'a>],
) -> Result<(), NoMemory>
    requires { first + length methods.now < 2 ^ 64 }
    ensures { OnOk result (row.new ≡ row.old ++ own_methods_at (inputs_of parts.now) number first methods.now) }
{
    for (place, method) in methods.iter().enumerate() {
        put_method(alloc, row, parts, number, first + place, method)?;
    }
    Ok(())
}

/// Puts the methods that a class got at the end, of which the first has this place.
#[tactic(auto, using(crate::proofs::DescriptorLaws::Rows::each_next_from, crate::proofs::DescriptorLaws::Rows::each_end_from))]
fn put_added<'a>(
    alloc: Global,
    row: &mut Row<MethodDescriptor>,
    parts: &Parts<'a>,
    number: u32,
    first: usize,
    added: &'a [MemberId],
) -> Result<(), NoMemory>
    requires { first + length added.now < 2 ^ 64 }
    ensures { OnOk result (row.new ≡ row.old ++ added_at (inputs_of parts.now) number first added.now) }
{
    for (place, id) in added.iter().enumerate() {
        let flags = ACC_PUBLIC + ACC_ABSTRACT;
        let method = method_by(
            alloc,
            parts,
            number,
            first + place,
            flags,
            id.name.items(),
            id.desc.items(),
        )?;
        row.push(method)?;
    }
    Ok(())
}

/// The methods of a class, those that it got behind its own.
pub(crate) fn methods_of<'a>(
    alloc: Global,
    parts: &Parts<'a>,
    number: u32,
    class: &'a ClassTree<'a>,
    added: &'a [MemberId],
) -> Result<Row<MethodDescriptor>, NoMemory>
    ensures { IfOk result (λ row. row ≡ methods_at (inputs_of parts.now) number added.now class.now) }
{
    let fields = class.fields.items().len();
    let methods = class.methods.items();
    if fields > 0xFFFF_FFFF || methods.len() > 0xFFFF_FFFF || added.len() > 0xFFFF_FFFF {
        return Err(NoMemory);
    }
    let mut row = Row::new(alloc);
    put_own(alloc, &mut row, parts, number, fields, methods)?;
    put_added(
        alloc,
        &mut row,
        parts,
        number,
        fields + methods.len(),
        added,
    )?;
    Ok(row)
}
