//! The nibbles of a type descriptor (Java Card Virtual Machine Specification 2.2.2, section 6.13.4). Called by `types`.

ghost use Rattle.std.specs.Prelude.{◌≡◌, ◌∷◌, ◌++◌, ◌/◌, ◌%◌, [], map, IfOk, OnOk};
ghost use Rattle.std.specs.List.{flat_map};
ghost use Rattle.cjc_components.specs.LowerScript.Sorts.{result_by, sort_of};
ghost use Rattle.cjc_components.specs.Types.{ref_nibbles, result_nibbles, sort_nibbles};
ghost use Rattle.cjc_classes.specs.TypeInfo.Meant.{sort_meant};
ghost use Rattle.cjc_classes.specs.ClassInfo.Refs.{ref_of};
ghost use Rattle.cjc_classes.specs.TypeInfo.Working.Nibbles.{nibbles_in, parts_nibbles};

use crate::class_info::ClassRefs;
use crate::type_info::sort::{Sort, parsed, result_sort, sort_by};
use cjc_bytes::{Bytes, Desc, Kind, NoMemory, Row};
use cjc_components::capread::ClassRef;
use std::alloc::Global;

fn put_byte(out: &mut Bytes, byte: u8) -> Result<(), NoMemory>
    ensures { OnOk result (out.new ≡ out.old ++ byte / 16 ∷ byte % 16 ∷ []) }
{
    out.push(byte / 16)?;
    out.push(byte % 16)
}

fn put_ref(out: &mut Bytes, class: ClassRef) -> Result<(), NoMemory>
    ensures { OnOk result (out.new ≡ out.old ++ ref_nibbles class) }
{
    match class {
        ClassRef::Inside(offset) => {
            let [high, low] = ((offset % 65_536) as u16).to_be_bytes();
            put_byte(out, high)?;
            put_byte(out, low)
        }
        ClassRef::Outside { package, class } => {
            put_byte(out, ((0x80 + u64::from(package)) % 256) as u8)?;
            put_byte(out, class)
        }
    }
}

/// A nibble, and a class.
fn put_class<'a>(
    out: &mut Bytes,
    refs: &ClassRefs,
    nibble: u8,
    class: &'a [u8],
) -> Result<(), NoMemory>
    ensures { OnOk result (out.new ≡ out.old ++ nibble ∷ ref_nibbles (ref_of refs.now class.now)) }
{
    out.push(nibble)?;
    put_ref(out, refs.named(class))
}

fn put_sort<'a>(out: &mut Bytes, refs: &ClassRefs, sort: Sort<'a>) -> Result<(), NoMemory>
    ensures { OnOk result (out.new ≡ out.old ++ sort_nibbles (ref_of refs.now) (sort_meant sort.entry)) }
{
    match sort {
        Sort::Boolean => out.push(0x2),
        Sort::Byte => out.push(0x3),
        Sort::Short => out.push(0x4),
        Sort::Int => out.push(0x5),
        Sort::Class(class) => put_class(out, refs, 0x6, class),
        Sort::Booleans => out.push(0xA),
        Sort::Bytes => out.push(0xB),
        Sort::Shorts => out.push(0xC),
        Sort::Ints => out.push(0xD),
        Sort::Array(class) => put_class(out, refs, 0xE, class),
        Sort::NoValue => Ok(()),
    }
}

#[tactic(auto, using(crate::proofs::TypeInfo::Parts::params_next, crate::proofs::TypeInfo::Parts::params_end))]
fn put_params<'a>(out: &mut Bytes, refs: &ClassRefs, desc: &Desc<'a>) -> Result<(), NoMemory>
    ensures { OnOk result (out.new ≡ out.old ++ flat_map (sort_nibbles (ref_of refs.now))
        (map sort_of desc.now.params)) }
{
    for (kind, class) in desc.parameters() {
        put_sort(out, refs, sort_by(kind, class)?)?;
    }
    Ok(())
}

fn put_result<'a>(out: &mut Bytes, refs: &ClassRefs, desc: &Desc<'a>) -> Result<(), NoMemory>
    ensures { let d = desc.now in let r = d.result in OnOk result (out.new ≡ out.old
        ++ result_nibbles (ref_of refs.now) (result_by r.kind r)) }
{
    let (kind, class) = desc.result_type();
    match kind {
        Kind::Void => out.push(1),
        _ => {
            let sort = sort_by(kind, class)?;
            put_sort(out, refs, sort)
        }
    }
}

/// The type of a field, or the parameters and the result of a method.
fn put_parts<'a>(out: &mut Bytes, refs: &ClassRefs, desc: &Desc<'a>) -> Result<(), NoMemory>
    ensures { OnOk result (out.new ≡ out.old ++ parts_nibbles (ref_of refs.now) desc.now) }
{
    if desc.is_method() {
        put_params(out, refs, desc)?;
        put_result(out, refs, desc)
    } else {
        let sort = result_sort(desc)?;
        put_sort(out, refs, sort)
    }
}

fn nibbles_of_parts<'a>(alloc: Global, refs: &ClassRefs, desc: &Desc<'a>) -> Result<Bytes, NoMemory>
    ensures { IfOk result (λ nibbles. nibbles ≡ parts_nibbles (ref_of refs.now) desc.now) }
{
    let mut out = Row::new(alloc);
    put_parts(&mut out, refs, desc)?;
    Ok(out)
}

/// The nibbles of what a descriptor says.
#[tactic(auto, using(crate::proofs::TypeInfo::Parts::nibbles_of_none, crate::proofs::TypeInfo::Parts::nibbles_of_some))]
pub fn nibbles_in<'a>(alloc: Global, refs: &ClassRefs, desc: &'a [u8]) -> Result<Bytes, NoMemory>
    ensures { IfOk result (λ nibbles. nibbles ≡ nibbles_in (ref_of refs.now) desc.now) }
{
    match parsed(desc)? {
        Some(parts) => {
            let nibbles = nibbles_of_parts(alloc, refs, &parts)?;
            Ok(nibbles)
        }
        None => Ok(Row::new(alloc)),
    }
}
