//! Descriptor: the classes of a package with their members, and types (Java Card Virtual Machine Specification
//! 2.2.2, section 6.13). Called by whoever puts components together. It knows no code and no order of its own.

ghost use Rattle.std.specs.Prelude.{◌≡◌, ◌++◌, map, unwrap_or, IfOk, OnOk};
ghost use Rattle.std.specs.List.{flat_map};
ghost use Rattle.cjc_world.specs.Classes.{all_classes};
ghost use Rattle.cjc_world.specs.Working.Places.{at_places};
ghost use Rattle.cjc_tokens.specs.Tokens.{token_of_class};
ghost use Rattle.cjc_components.specs.Package.{Package};
ghost use Rattle.cjc_components.specs.Descriptor.{descriptor};
ghost use Rattle.cjc_classes.specs.ClassInfo.Refs.{ref_of};
ghost use Rattle.cjc_classes.specs.Descriptor.Made.{AreMade};
ghost use Rattle.cjc_classes.specs.Descriptor.Working.Described.{class_at, class_in, classes_at, inputs_of, key_type};
ghost use Rattle.cjc_classes.specs.Descriptor.Working.Described.{names_at};

use crate::class_info::ClassRefs;
use crate::descriptor::fields::fields_of;
use crate::descriptor::flags::class_flags;
use crate::descriptor::methods::methods_of;
use crate::descriptor::parts::Parts;
use cjc_bytes::{MemberId, NoMemory, Row};
use cjc_components::capread::{ClassDescriptor, ClassRef, Descriptor};
use cjc_components::ncode::PoolKey;
use cjc_world::classfile::ClassTree;
use cjc_world::{Known, World};
use std::alloc::Global;

/// Puts the class_ref of the class at a place at the end, where one is there.
fn put_ref<'a>(
    row: &mut Row<ClassRef>,
    world: &'a World<'a>,
    refs: &ClassRefs,
    place: u32,
) -> Result<(), NoMemory>
    ensures { OnOk result (row.new ≡ row.old ++ class_in (ref_of refs.now) (all_classes world.now) place) }
{
    match world.class_in(place) {
        Some(class) => row.push(refs.named(class.name())),
        None => Ok(()),
    }
}

/// The class_refs of the classes at places.
#[tactic(auto, using(crate::proofs::DescriptorLaws::Rows::places_next, crate::proofs::DescriptorLaws::Rows::places_end))]
fn refs_at<'a>(
    alloc: Global,
    world: &'a World<'a>,
    refs: &ClassRefs,
    places: &[u32],
) -> Result<Row<ClassRef>, NoMemory>
    ensures { IfOk result (λ row. row ≡ map (λ i. ref_of refs.now i.name) (at_places (all_classes world.now)
        places.now)) }
{
    let mut row = Row::new(alloc);
    for place in places {
        put_ref(&mut row, world, refs, *place)?;
    }
    Ok(row)
}

/// The interfaces of a class, inherited ones too.
fn interfaces_of<'a>(
    alloc: Global,
    parts: &Parts<'a>,
    number: u32,
    class: &'a ClassTree<'a>,
) -> Result<Row<ClassRef>, NoMemory>
    ensures { IfOk result (λ row. row ≡ names_at (inputs_of parts.now) number class.now) }
{
    let places = parts
        .world
        .interfaces(alloc, Known::Declared(number, class))?;
    let row = refs_at(alloc, parts.world, parts.refs, places.items())?;
    Ok(row)
}

/// A class or interface.
fn class_at<'a>(
    alloc: Global,
    parts: &Parts<'a>,
    number: u32,
    class: &'a ClassTree<'a>,
    added: &'a [MemberId],
) -> Result<ClassDescriptor, NoMemory>
    ensures { IfOk result (λ d. d ≡ class_at (inputs_of parts.now) number added.now class.now) }
{
    let interfaces = interfaces_of(alloc, parts, number, class)?;
    let fields = fields_of(alloc, parts, number, class)?;
    let methods = methods_of(alloc, parts, number, class, added)?;
    Ok(ClassDescriptor {
        token: parts.tokens.class_token(number).unwrap_or(0xFF),
        flags: class_flags(class.flags),
        this_class: parts.refs.named(class.name.items()),
        interfaces,
        fields,
        methods,
    })
}

/// Puts the class of a number at the end, where there is one.
fn put_class(
    alloc: Global,
    row: &mut Row<ClassDescriptor>,
    parts: &Parts<'_>,
    number: u32,
) -> Result<(), NoMemory>
    ensures { OnOk result (row.new ≡ row.old ++ classes_at (inputs_of parts.now) number) }
{
    let world = parts.world;
    match world.classes().items().get(number as usize) {
        Some(class) => {
            let added = world.added(number).items();
            row.push(class_at(alloc, parts, number, class, added)?)
        }
        None => Ok(()),
    }
}

fn classes_of(alloc: Global, parts: &Parts<'_>) -> Result<Row<ClassDescriptor>, NoMemory>
    ensures { let q = parts.now in IfOk result (λ row. row ≡ flat_map (classes_at (inputs_of q)) q.order.now) }
{
    let order = parts.order;
    let mut row = Row::new(alloc);
    for number in order {
        put_class(alloc, &mut row, parts, *number)?;
    }
    Ok(row)
}

/// The offset of the type of what a key names; a class has none.
fn key_type<'a>(alloc: Global, parts: &Parts<'a>, key: &'a PoolKey) -> Result<u64, NoMemory>
    ensures { IfOk result (λ n. n ≡ key_type (inputs_of parts.now) key.now) }
{
    match key {
        PoolKey::Class(_) => Ok(0xFFFF),
        PoolKey::Field(id)
        | PoolKey::Virtual(id)
        | PoolKey::Super(id)
        | PoolKey::StaticField(id)
        | PoolKey::StaticMethod(id) => parts.types.offset(alloc, parts.refs, id.desc.items()),
    }
}

fn key_types(alloc: Global, parts: &Parts<'_>) -> Result<Row<u64>, NoMemory>
    ensures { let q = parts.now in IfOk result (λ row. row ≡ map (key_type (inputs_of q)) q.keys.now) }
{
    let keys = parts.keys;
    let mut row = Row::new(alloc);
    for key in keys {
        row.push(key_type(alloc, parts, key)?)?;
    }
    Ok(row)
}

/// Descriptor of a package.
pub fn descriptor(alloc: Global, parts: &Parts<'_>) -> Result<Descriptor, NoMemory>
    ensures { (p : Package) → AreMade p parts.now → IfOk result (λ t. t ≡ descriptor p) }
{
    let classes = classes_of(alloc, parts)?;
    let pool_types = key_types(alloc, parts)?;
    let types = parts.types.descriptors(alloc)?;
    Ok(Descriptor {
        classes,
        pool_types,
        types,
    })
}
