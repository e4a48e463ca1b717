//! The fields of objects as a report shows them: by the names of their classes in the package, those of a superclass
//! before a class's own.

ghost use Rattle.std.specs.Prelude.{◌≡◌, ◌++◌, map, option_map, IfOk, OnOk};
ghost use Rattle.std.specs.Option.{option_copied};
ghost use Rattle.cjc_script.specs.Sorts.{field_sort, zero_of};
ghost use Rattle.cjc_card_semantics.specs.Bytecode.Effects.{slot_of};
ghost use Rattle.cjc_card_semantics.specs.Machine.Classes.{same_field};
ghost use Rattle.cjc_card_semantics.specs.Machine.ByToken.{shown_field, shown_fields, shown_own, shown_upwards};
ghost use Rattle.cjc_card_semantics.specs.Machine.ByToken.{value_or};
ghost use Rattle.cjc_card_frame.specs.Objects.{class_of, slot_by};
ghost use Rattle.cjc_card_calls.specs.LowerCardLink.Names.{class_names_of, field_name_of};
ghost use Rattle.cjc_card_calls.specs.LowerCardLink.Tables.{AreKept, loaded_of};

use crate::acts::{field_letter, zero_of};
use cjc_card_calls::card_link::{ClassNames, FieldName, Tables};
use cjc_card_frame::heap::{Class, Field, Slot, slot_at};
use cjc_script::bytes::{Bytes, MemberId, NoMemory, Row};
use cjc_script::{FieldValue, Value};
use std::alloc::Global;

// What the slot of a class's field holds; without a slot, what such a field holds at first.
fn shown_value(class: Class, slots: &[Slot], field: &FieldName) -> Result<Value, NoMemory>
    ensures { IfOk result (λ v. v ≡ value_or (zero_of (field_sort field.now.desc))
        (slot_of same_field (map slot_by slots.now) (record { class = class_of class; token = field.now.token }))) }
{
    let token = field.token;
    match slot_at(slots, Field { class, token }) {
        Some(value) => Ok(value),
        None => Ok(zero_of(field_letter(field.desc.items())?)),
    }
}

// A field by the name of its class, its name and its descriptor.
fn field_id(alloc: Global, class: &[u8], field: &FieldName) -> Result<MemberId, NoMemory>
    ensures { IfOk result (λ id. id ≡ record { class = class.now; name = field.now.name; desc = field.now.desc }) }
{
    let class = Bytes::copy_of(alloc, class)?;
    let name = Bytes::copy_of(alloc, field.name.items())?;
    let desc = Bytes::copy_of(alloc, field.desc.items())?;
    Ok(MemberId { class, name, desc })
}

// A field that a class of a name declares.
fn shown_field(
    alloc: Global,
    class: Class,
    name: &[u8],
    slots: &[Slot],
    field: &FieldName,
) -> Result<FieldValue, NoMemory>
    ensures { IfOk result (λ f. f ≡ shown_field (class_of class) name.now (map slot_by slots.now)
        (field_name_of field.now)) }
{
    let value = shown_value(class, slots, field)?;
    let field = field_id(alloc, name, field)?;
    Ok(FieldValue { field, value })
}

// Puts the fields that a class itself declares at the end.
fn put_declared(
    alloc: Global,
    fields: &mut Row<FieldValue>,
    class: Class,
    names: &ClassNames,
    slots: &[Slot],
) -> Result<(), NoMemory>
    ensures { OnOk result (fields.new ≡ fields.old
        ++ map (shown_field (class_of class) names.now.name (map slot_by slots.now))
        (map field_name_of names.now.fields)) }
{
    let name = names.name.items();
    let declared = names.fields.items();
    for field in declared {
        fields.push(shown_field(alloc, class, name, slots, field)?)?;
    }
    Ok(())
}

// The same, where the class has names.
fn put_own(
    alloc: Global,
    fields: &mut Row<FieldValue>,
    class: Class,
    names: Option<&ClassNames>,
    slots: &[Slot],
) -> Result<(), NoMemory>
    ensures { OnOk result (fields.new ≡ fields.old ++ shown_own (class_of class) (map slot_by slots.now)
        (option_map class_names_of (option_copied names.entry))) }
{
    match names {
        Some(names) => put_declared(alloc, fields, class, names, slots),
        None => Ok(()),
    }
}

// Puts the fields of a class at the end behind those of its superclasses, so many upwards at most.
fn put_upwards(
    alloc: Global,
    tables: &Tables<'_>,
    fields: &mut Row<FieldValue>,
    class: Option<Class>,
    slots: &[Slot],
    depth: u32,
) -> Result<(), NoMemory>
    requires { AreKept tables.now }
    ensures { OnOk result (fields.new ≡ fields.old ++ shown_upwards (loaded_of tables.now) depth
        (option_map class_of class) (map slot_by slots.now)) }
{
    if depth == 0 {
        return Ok(());
    }
    match class {
        None => Ok(()),
        Some(Class::External(_, _)) => Ok(()),
        Some(Class::Own(part, offset)) => {
            let above = tables.superclass(part, offset);
            put_upwards(alloc, tables, fields, above, slots, depth - 1)?;
            let names = tables.class_names(part, offset);
            put_own(alloc, fields, Class::Own(part, offset), names, slots)
        }
    }
}

/// The fields of an object of a class.
pub(crate) fn shown_fields(
    alloc: Global,
    tables: &Tables<'_>,
    class: Class,
    slots: &[Slot],
) -> Result<Row<FieldValue>, NoMemory>
    requires { AreKept tables.now }
    ensures { IfOk result (λ fields. fields ≡ shown_fields (loaded_of tables.now) (class_of class)
        (map slot_by slots.now)) }
{
    let mut fields = Row::new(alloc);
    put_upwards(
        alloc,
        tables,
        &mut fields,
        Some(class),
        slots,
        tables.depth(),
    )?;
    Ok(fields)
}
