//! The types that the entries of the constant pool are to have by the members that they name (Java Card Virtual Machine
//! Specification 2.2.2, sections 6.7 and 6.13).

ghost use Rattle.std.specs.Prelude.{◌≡◌, map, option_and_then, option_map, IfOk};
ghost use Rattle.cjc_capread.specs.declared.tree.PoolEntry.TheVariants.{InstanceFieldref, StaticFieldref};
ghost use Rattle.cjc_capread.specs.declared.tree.PoolEntry.TheVariants.{StaticMethodref, SuperMethodref};
ghost use Rattle.cjc_capread.specs.declared.tree.PoolEntry.TheVariants.{VirtualMethodref};
ghost use Rattle.cjc_classes.specs.ClassInfo.Refs.{ref_of};
ghost use Rattle.cjc_verify.specs.Cells.{AreCells};
ghost use Rattle.cjc_verify.specs.Entries.{is_class};
ghost use Rattle.cjc_verify.specs.Named.{named_desc};
ghost use Rattle.cjc_verify.specs.WantedDescribed.{wanted_entries, wanted_entry};
ghost use Rattle.cjc_verify.specs.WantedMembers.{card_nibbles};

use crate::described::cells::{Cells, cells_of};
use crate::described::desc::card_nibbles;
use crate::described::named::{
    field_desc, field_inside, first_field, first_virtual, imported_field, line_of, method_desc,
    method_inside, super_inside, virtual_inside,
};
use crate::described::wanted::WantedEntry;
use crate::named::imported_method;
use crate::package::Package;
use cjc_bytes::{Bytes, NoMemory, Row};
use cjc_capread::{ClassRef, PoolEntry, StaticRef};
use cjc_classes::class_info::ClassRefs;
use std::alloc::Global;

// ---- descriptors

/// The descriptor of the instance field of a class.
fn instance_desc<'a>(pair: &Package<'a>, class: ClassRef, token: u8) -> Option<&'a [u8]>
    ensures { option_map (λ desc. desc.now) result ≡ named_desc pair.now (InstanceFieldref class token) }
{
    match class {
        ClassRef::Inside(offset) => field_inside(pair, offset, token),
        ClassRef::Outside {
            package: import,
            class,
        } => field_desc(first_field(line_of(pair, import, class), token)),
    }
}

/// The descriptor of the virtual method of a class.
fn virtual_desc<'a>(pair: &Package<'a>, class: ClassRef, token: u8) -> Option<&'a [u8]>
    ensures { option_map (λ desc. desc.now) result ≡ named_desc pair.now (VirtualMethodref class token) }
{
    match class {
        ClassRef::Inside(offset) => virtual_inside(pair, offset, token),
        ClassRef::Outside {
            package: import,
            class,
        } => method_desc(first_virtual(line_of(pair, import, class), token)),
    }
}

/// The descriptor of the virtual method of a class's superclass.
fn super_desc<'a>(pair: &Package<'a>, class: ClassRef, token: u8) -> Option<&'a [u8]>
    ensures { option_map (λ desc. desc.now) result ≡ named_desc pair.now (SuperMethodref class token) }
{
    match class {
        ClassRef::Inside(offset) => super_inside(pair, offset, token),
        ClassRef::Outside { .. } => None,
    }
}

/// The descriptor of a static field.
fn static_field_desc<'a>(pair: &Package<'a>, cells: &'a Cells, field: StaticRef) -> Option<&'a [u8]>
    requires { AreCells pair.now.image cells.now }
    ensures { option_map (λ desc. desc.now) result ≡ named_desc pair.now (StaticFieldref field) }
{
    match field {
        StaticRef::Inside(offset) => cells.desc(offset),
        StaticRef::Outside {
            package: import,
            class,
            token,
        } => field_desc(imported_field(pair, import, class, token)),
    }
}

/// The descriptor of a static method or a constructor.
fn static_method_desc<'a>(pair: &Package<'a>, method: StaticRef) -> Option<&'a [u8]>
    ensures { option_map (λ desc. desc.now) result ≡ named_desc pair.now (StaticMethodref method) }
{
    match method {
        StaticRef::Inside(offset) => method_inside(pair, offset),
        StaticRef::Outside {
            package: import,
            class,
            token,
        } => method_desc(imported_method(pair, import, class, token)),
    }
}

/// The descriptor of the member that an entry names.
fn named_desc<'a>(pair: &Package<'a>, cells: &'a Cells, entry: PoolEntry) -> Option<&'a [u8]>
    requires { AreCells pair.now.image cells.now }
    ensures { option_map (λ desc. desc.now) result ≡ named_desc pair.now entry }
{
    match entry {
        PoolEntry::Classref(_) => None,
        PoolEntry::InstanceFieldref { class, token } => instance_desc(pair, class, token),
        PoolEntry::VirtualMethodref { class, token } => virtual_desc(pair, class, token),
        PoolEntry::SuperMethodref { class, token } => super_desc(pair, class, token),
        PoolEntry::StaticFieldref(field) => static_field_desc(pair, cells, field),
        PoolEntry::StaticMethodref(method) => static_method_desc(pair, method),
    }
}

// ---- types

/// The nibbles of a descriptor, where there is one.
fn nibbles_by(
    alloc: Global,
    refs: &ClassRefs,
    desc: Option<&[u8]>,
) -> Result<Option<Bytes>, NoMemory>
    ensures { IfOk result (λ nibbles. nibbles ≡ option_and_then (card_nibbles (ref_of refs.now)) (option_map (λ desc.
        desc.now) desc.entry)) }
{
    match desc {
        Some(desc) => card_nibbles(alloc, refs, desc),
        None => Ok(None),
    }
}

fn is_class(entry: PoolEntry) -> bool
    ensures { result ≡ is_class entry }
{
    match entry {
        PoolEntry::Classref(_) => true,
        PoolEntry::InstanceFieldref { .. } => false,
        PoolEntry::VirtualMethodref { .. } => false,
        PoolEntry::SuperMethodref { .. } => false,
        PoolEntry::StaticFieldref(_) => false,
        PoolEntry::StaticMethodref(_) => false,
    }
}

/// The type that an entry is to have.
fn wanted_entry(
    alloc: Global,
    pair: &Package<'_>,
    cells: &Cells,
    entry: PoolEntry,
) -> Result<WantedEntry, NoMemory>
    requires { AreCells pair.now.image cells.now }
    ensures { IfOk result (λ wanted. wanted ≡ wanted_entry pair.now entry) }
{
    if is_class(entry) {
        return Ok(WantedEntry::Class);
    }
    let desc = named_desc(pair, cells, entry);
    let nibbles = nibbles_by(alloc, pair.refs, desc)?;
    Ok(WantedEntry::Member(nibbles))
}

/// The types that all entries are to have.
fn entries_by(
    alloc: Global,
    pair: &Package<'_>,
    cells: &Cells,
    entries: &[PoolEntry],
) -> Result<Row<WantedEntry>, NoMemory>
    requires { AreCells pair.now.image cells.now }
    ensures { IfOk result (λ row. row ≡ map (wanted_entry pair.now) entries.now) }
{
    let mut row = Row::new(alloc);
    for entry in entries {
        row.push(wanted_entry(alloc, pair, cells, *entry)?)?;
    }
    Ok(row)
}

/// The types that the entries of the constant pool are to have.
pub(crate) fn wanted_entries(
    alloc: Global,
    pair: &Package<'_>,
) -> Result<Row<WantedEntry>, NoMemory>
    ensures { IfOk result (λ row. row ≡ wanted_entries pair.now) }
{
    let cells = cells_of(alloc, pair.image)?;
    entries_by(alloc, pair, &cells, pair.parts.pool.entries.items())
}
