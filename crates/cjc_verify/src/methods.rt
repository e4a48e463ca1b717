//! What Descriptor and the class files say of each method of the package, in the order of Descriptor: the k-th method
//! of the i-th class is that of the i-th class of the package. Made once; look-ups by the offset of a header ask it.

ghost use Rattle.std.specs.Prelude.{◌≡◌, ◌++◌, Some, map, option_map, slice_get, unwrap_or, IfOk, OnOk};
ghost use Rattle.std.specs.List.{find};
ghost use Rattle.std.specs.Option.{option_copied};
ghost use Rattle.cjc_bytes.specs.AccessFlags.{is_interface};
ghost use Rattle.cjc_classes.specs.LowerComponents.Descriptor.{no_member};
ghost use Rattle.cjc_classes.specs.ClassOrder.Classes.Numbers.{declared_at};
ghost use Rattle.cjc_world.specs.Added.{added_at};
ghost use Rattle.cjc_world.specs.Classes.{all_classes};
ghost use Rattle.cjc_world.specs.Order.{class_order};
ghost use Rattle.cjc_verify.specs.Pairs.{Pair};
ghost use Rattle.cjc_verify.specs.Working.Methods.{IsLike, facts, got_member, is_at, known_among, known_at, known_by};
ghost use Rattle.cjc_verify.specs.Working.Methods.{known_each, member_by};

use crate::infos::methods_of;
use cjc_bytes::{ACC_ABSTRACT, Bytes, MemberId, NoMemory, Row, has, is_interface};
use cjc_capread::{ClassDescriptor, ClassRef, MethodDescriptor};
use cjc_world::classfile::ClassTree;
use cjc_world::{Found, World};
use std::alloc::Global;

/// What is known of a method.
#[derive(Drop)]
pub(crate) struct KnownMethod {
    /// Whether its class is an interface, whose methods have no header.
    pub(crate) is_of_interface: bool,
    /// The class that Descriptor lists it under.
    pub(crate) holder: ClassRef,
    pub(crate) method: MethodDescriptor,
    /// Whether its class file gives it code.
    pub(crate) has_code: bool,
    /// The descriptor of its class file.
    pub(crate) desc: Bytes,
}

/// The method of a class whose header stands at an offset.
pub(crate) fn method_at(known: &[KnownMethod], offset: u64) -> Option<&KnownMethod>
    ensures { option_copied result ≡ find (is_at offset) known.now }
{
    known.iter().find(|method| !method.is_of_interface && method.method.offset == offset)
}

// ---- how they are put together

/// What is kept of a method of a class file.
#[derive(Clone, Copy)]
struct Signature<'w> {
    has_code: bool,
    desc: &'w [u8],
}

/// A method that a class gets, by its place among these.
fn got<'w>(added: &'w [MemberId], place: usize) -> Signature<'w>
    ensures { IsLike result (unwrap_or (option_map got_member (slice_get added.now place)) no_member) }
{
    match added.get(place) {
        Some(id) => Signature {
            has_code: false,
            desc: id.desc.items(),
        },
        None => Signature {
            has_code: true,
            desc: &[],
        },
    }
}

/// The method that a member of a class is, which gets these.
fn member_by<'w>(class: &'w ClassTree<'_>, added: &'w [MemberId], member: u32) -> Signature<'w>
    ensures { IsLike result (member_by class.now added.now member) }
{
    let place = (member as usize).saturating_sub(class.fields.items().len());
    let methods = class.methods.items();
    match methods.get(place) {
        Some(method) => Signature {
            has_code: !has(method.flags, ACC_ABSTRACT),
            desc: method.desc.items(),
        },
        None => got(added, place.saturating_sub(methods.len())),
    }
}

/// The descriptor of the method that a member of a class is, which gets these.
pub(crate) fn member_desc<'w>(
    class: &'w ClassTree<'_>,
    added: &'w [MemberId],
    member: u32,
) -> &'w [u8]
    ensures { let m = member_by class.now added.now member in result.now ≡ m.desc }
{
    member_by(class, added, member).desc
}

/// What is kept of a member of a class with what Descriptor says of it.
fn known_by(
    alloc: Global,
    class: &ClassTree<'_>,
    added: &[MemberId],
    holder: ClassRef,
    member: u32,
    method: MethodDescriptor,
) -> Result<KnownMethod, NoMemory>
    ensures { IfOk result (λ known. known ≡ known_by (is_interface class.now.flags) holder method (member_by class.now
        added.now member)) }
{
    let signature = member_by(class, added, member);
    Ok(KnownMethod {
        is_of_interface: is_interface(class.flags),
        holder,
        method,
        has_code: signature.has_code,
        desc: Bytes::copy_of(alloc, signature.desc)?,
    })
}

/// Puts members of a class beside what Descriptor says of them at the end, as far as there are both.
#[tactic(auto, using(crate::proofs::KnownMethods::each_next, crate::proofs::KnownMethods::known_end))]
fn put_each(
    alloc: Global,
    row: &mut Row<KnownMethod>,
    class: &ClassTree<'_>,
    added: &[MemberId],
    described: &ClassDescriptor,
    members: &[Found],
) -> Result<(), NoMemory>
    ensures { let d = described.now in OnOk result (row.new ≡ row.old ++ known_each (is_interface class.now.flags)
        d.this_class (member_by class.now added.now) members.now d.methods) }
{
    let mut left = members;
    let mut methods = described.methods.items();
    while let [found, more @ ..] = left {
        let [method, rest @ ..] = methods else {
            return Ok(());
        };
        let holder = described.this_class;
        row.push(known_by(alloc, class, added, holder, found.member, *method)?)?;
        left = more;
        methods = rest;
    }
    Ok(())
}

/// Puts the methods of the class of a number at the end.
fn put_known(
    alloc: Global,
    row: &mut Row<KnownMethod>,
    world: &World<'_>,
    number: u32,
    described: &ClassDescriptor,
) -> Result<(), NoMemory>
    ensures { OnOk result (row.new ≡ row.old ++ known_at world.now number described.now) }
{
    match world.classes().items().get(number as usize) {
        Some(class) => {
            let members = methods_of(alloc, world, number, class)?;
            let added = world.added(number).items();
            put_each(alloc, row, class, added, described, members.items())
        }
        None => Ok(()),
    }
}

/// Puts the methods of the classes of these numbers at the end, as far as Descriptor lists classes.
#[tactic(auto, using(crate::proofs::KnownMethods::among_next, crate::proofs::KnownMethods::known_end))]
fn put_among(
    alloc: Global,
    row: &mut Row<KnownMethod>,
    world: &World<'_>,
    order: &[u32],
    classes: &[ClassDescriptor],
) -> Result<(), NoMemory>
    ensures { OnOk result (row.new ≡ row.old ++ known_among world.now order.now classes.now) }
{
    let mut left = order;
    let mut described = classes;
    while let [number, more @ ..] = left {
        let [class, rest @ ..] = described else {
            return Ok(());
        };
        put_known(alloc, row, world, *number, class)?;
        left = more;
        described = rest;
    }
    Ok(())
}

/// What is known of the methods of all classes, whose numbers these are in the order of Class.
pub(crate) fn known_methods(
    alloc: Global,
    world: &World<'_>,
    order: &[u32],
    classes: &[ClassDescriptor],
) -> Result<Row<KnownMethod>, NoMemory>
    requires { map Some (class_order (all_classes world.now)) ≡ map (declared_at world.now.classes) order.now }
    ensures { (p : Pair) → p.files ≡ world.now → p.components.descriptor.classes ≡ classes.now
        → IfOk result (λ row. row ≡ facts p) }
{
    let mut row = Row::new(alloc);
    put_among(alloc, &mut row, world, order, classes)?;
    Ok(row)
}
