//! What instructions take and give that use members of classes: fields, calls, and new objects (Java Card Virtual
//! Machine Specification 2.2.2, section 7.5). Called by `acts`; knows what a member is, and not how it was named.

ghost use Rattle.std.specs.Prelude.{◌≡◌, ◌++◌, option_to_list, IfOk, OnOk};
ghost use Rattle.cjc_card_acts.specs.Told.{type_told};
ghost use Rattle.cjc_card_acts.specs.CardFrame.Meanings.{letter_of};
ghost use Rattle.cjc_verify.specs.Instructions.{calling, calling_on, getting, getting_static, object_needs};
ghost use Rattle.cjc_verify.specs.Instructions.{object_reads, putting, putting_static};
ghost use Rattle.cjc_verify.specs.Named.{is_outside, is_static_outside};

use crate::class_types::class_type;
use cjc_bytes::{Bytes, NoMemory, Row};
use cjc_capread::{ClassRef, StaticRef};
use cjc_card_acts::frames::{Act, Need, Read};
use cjc_card_acts::rows::idle;
use cjc_card_acts::types::{
    MemberType, ValueType, is_moved_by, put_all_needs, put_needs, put_words,
};
use cjc_card_calls::card_frame::opcodes::Letter;
use std::alloc::Global;

/// Whether a class is of an imported package.
fn is_outside(class: ClassRef) -> bool
    ensures { result ≡ is_outside class }
{
    match class {
        ClassRef::Inside(_) => false,
        ClassRef::Outside { .. } => true,
    }
}

/// Whether a static member is of an imported package.
fn is_static_outside(member: StaticRef) -> bool
    ensures { result ≡ is_static_outside member }
{
    match member {
        StaticRef::Inside(_) => false,
        StaticRef::Outside { .. } => true,
    }
}

/// The object lies beneath what is taken, unless local 0 holds it.
fn put_object_needs(
    alloc: Global,
    needs: &mut Row<Need>,
    this: bool,
    type_: &[u8],
) -> Result<(), NoMemory>
    ensures { OnOk result (needs.new ≡ needs.old ++ object_needs this type_.now) }
{
    if !this {
        needs.push(Need::OfType(Bytes::copy_of(alloc, type_)?))?;
    }
    Ok(())
}

/// Local 0, where it holds the object.
fn object_reads(alloc: Global, this: bool, type_: &[u8]) -> Result<Row<Read>, NoMemory>
    ensures { IfOk result (λ reads. reads ≡ object_reads this type_.now) }
{
    let mut reads = Row::new(alloc);
    if this {
        let need = Need::OfType(Bytes::copy_of(alloc, type_)?);
        reads.push(Read { local: 0, need })?;
    }
    Ok(reads)
}

/// An instance field is read.
pub(crate) fn getting(
    alloc: Global,
    this: bool,
    letter: Letter,
    class: ClassRef,
    type_: ValueType<'_>,
) -> Result<Act, NoMemory>
    ensures { IfOk result (λ act. act ≡ getting this (letter_of letter) class (type_told type_.entry)) }
{
    let of = class_type(alloc, class)?;
    let mut act = idle(alloc);
    put_object_needs(alloc, &mut act.takes, this, of.items())?;
    act.reads = object_reads(alloc, this, of.items())?;
    put_words(alloc, &mut act.gives, type_)?;
    act.misfits = !is_moved_by(letter, type_);
    act.misnames = is_outside(class);
    Ok(act)
}

/// An instance field is written.
pub(crate) fn putting(
    alloc: Global,
    this: bool,
    letter: Letter,
    class: ClassRef,
    type_: ValueType<'_>,
) -> Result<Act, NoMemory>
    ensures { IfOk result (λ act. act ≡ putting this (letter_of letter) class (type_told type_.entry)) }
{
    let of = class_type(alloc, class)?;
    let mut act = idle(alloc);
    put_needs(alloc, &mut act.takes, type_)?;
    put_object_needs(alloc, &mut act.takes, this, of.items())?;
    act.reads = object_reads(alloc, this, of.items())?;
    act.misfits = !is_moved_by(letter, type_);
    act.misnames = is_outside(class);
    Ok(act)
}

/// A static field is read.
pub(crate) fn getting_static(
    alloc: Global,
    letter: Letter,
    field: StaticRef,
    type_: ValueType<'_>,
) -> Result<Act, NoMemory>
    ensures { IfOk result (λ act. act ≡ getting_static (letter_of letter) field (type_told type_.entry)) }
{
    let mut act = idle(alloc);
    put_words(alloc, &mut act.gives, type_)?;
    act.misfits = !is_moved_by(letter, type_);
    act.misnames = is_static_outside(field);
    Ok(act)
}

/// A static field is written.
pub(crate) fn putting_static(
    alloc: Global,
    letter: Letter,
    field: StaticRef,
    type_: ValueType<'_>,
) -> Result<Act, NoMemory>
    ensures { IfOk result (λ act. act ≡ putting_static (letter_of letter) field (type_told type_.entry)) }
{
    let mut act = idle(alloc);
    put_needs(alloc, &mut act.takes, type_)?;
    act.misfits = !is_moved_by(letter, type_);
    act.misnames = is_static_outside(field);
    Ok(act)
}

/// The arguments are taken, with the receiver deepest, and the result is put.
pub(crate) fn calling(
    alloc: Global,
    type_: &MemberType<'_>,
    receiver: Option<Need>,
    misnames: bool,
) -> Result<Act, NoMemory>
    ensures { IfOk result (λ act. act ≡ calling type_.now (option_to_list receiver) misnames) }
{
    let mut act = idle(alloc);
    put_all_needs(alloc, &mut act.takes, type_.params.items())?;
    if let Some(need) = receiver {
        act.takes.push(need)?;
    }
    put_words(alloc, &mut act.gives, type_.result)?;
    act.misnames = misnames;
    Ok(act)
}

/// The same on a receiver of a type.
pub(crate) fn calling_on(
    alloc: Global,
    type_: &MemberType<'_>,
    receiver: Bytes,
    misnames: bool,
) -> Result<Act, NoMemory>
    ensures { IfOk result (λ act. act ≡ calling_on type_.now receiver misnames) }
{
    calling(alloc, type_, Some(Need::OfType(receiver)), misnames)
}
