//! What static cells hold before anything runs, and the arrays that they hold, by the static image.

ghost use Rattle.std.specs.Prelude.{◌≡◌, ◌<◌, ◌^◌, ◌++◌, ◌+◌, ◌∷◌, [], ℕ, List, map, length, IfOk, OnOk, Some, None};
ghost use Rattle.std.specs.Prelude.{option_map, if◌then◌else◌};
ghost use Rattle.cjc_world.specs.Bytes.declared.fault.MemberId.{MemberId as Id};
ghost use Rattle.cjc_jvm_step.specs.Script.Sorts.{array_of, OfNumbers};
ghost use Rattle.cjc_jvm_step.specs.Heap.Kinds.{elements_of};
ghost use Rattle.cjc_world.specs.declared.image.StaticImage.{StaticImage as Image};
ghost use Rattle.cjc_jvm_semantics.specs.Effects.{is_same_field};
ghost use Rattle.cjc_jvm_semantics.specs.OnePackage.{cell_of, cells, cells_in, is_cell, static_array};
ghost use Rattle.cjc_jvm_link.specs.Keys.{fed, same-fed, fields-equivalence};
ghost use Rattle.cjc_jvm_link.specs.Starts.{start_in, either, AreStarts};
ghost use Rattle.std.specs.Cmp.{partial_equiv_from_equiv};

use crate::zeros::{field_id, zero_of};
use cjc_jvm_semantics::script::{FieldValue, Value};
use cjc_jvm_step::heap::{ArrayKind, Element, Heap, HeapObject, TypeName};
use cjc_world::bytes::{Kind, MemberId, NoMemory, Row, is_static};
use cjc_world::classfile::{ClassTree, FieldTree};
use cjc_world::export_file::may_be_constant;
use cjc_world::{ArrayCell, StaticImage, ValueCell};
use std::alloc::Global;
use std::collections::HashMap;
use std::hash::{Hash, Hasher};
use std::marker::Model;

/// A field as the key of a map.
#[derive(Drop)]
struct Key<'k> {
    class: &'k [u8],
    name: &'k [u8],
    desc: &'k [u8],
}

impl<'k> Model for Key<'k> {
    ghost use Rattle.cjc_world.specs.Bytes.declared.fault.MemberId.{MemberId};

    ghost Value = { MemberId };

    ghost view = { λ k. record { class = k.class.now; name = k.name.now; desc = k.desc.now } };
}

impl<'k> PartialEq for Key<'k> {
    ghost eq = { is_same_field };

    ghost laws = { partial_equiv_from_equiv fields-equivalence };

    fn eq(&self, other: &Key<'k>) -> bool {
        self.class == other.class && self.name == other.name && self.desc == other.desc
    }
}

impl<'k> Eq for Key<'k> {
    ghost laws = { fields-equivalence };
}

impl<'k> Hash for Key<'k> {
    ghost hash_input = { fed };

    ghost respects_eq = { same-fed };

    fn hash<H: Hasher>(&self, state: &mut H) {
        self.name.hash(state)
    }
}

// A field by its class, its name and its descriptor.
fn key_of(id: &MemberId) -> Key<'_>
    ensures { result ≡ id.now }
{
    Key {
        class: id.class.items(),
        name: id.name.items(),
        desc: id.desc.items(),
    }
}

/// What fields hold before anything runs, of those that hold an array or a number other than 0.
#[derive(Drop)]
struct Starts<'k> {
    values: HashMap<Key<'k>, Value>,
}

impl<'k> Starts<'k> {
    // Nothing yet.
    fn new(alloc: Global) -> Starts<'k>
        ensures { AreStarts [] [] result }
    {
        Starts {
            values: HashMap::new(alloc),
        }
    }

    // What is kept for a field.
    fn get(&self, key: &Key<'_>) -> Option<Value>
        ensures { result ≡ start_in self.now key.now }
    {
        self.values.get(key).copied()
    }

    // Keeps the value of a field for which none is kept.
    fn note(&mut self, id: &'k MemberId, value: Value) -> Result<(), NoMemory>
        ensures { OnOk result ((x : Id) → start_in self.new x ≡ either (start_in self.old x) (if is_same_field id.now x
            then Some value else None)) }
    {
        match self.get(&key_of(id)) {
            Some(_) => Ok(()),
            None => {
                self.values.insert(key_of(id), value)?;
                Ok(())
            }
        }
    }

    // Keeps the places of arrays.
    fn note_arrays(&mut self, arrays: &'k [ArrayCell]) -> Result<(), NoMemory>
        requires none { AreStarts [] [] self.old }
        requires few { length arrays.now < 2 ^ 32 }
        ensures { OnOk result (AreStarts arrays.now [] self.new) }
    {
        for (place, array) in arrays.iter().enumerate() {
            self.note(&array.field, Value::Obj(place as u32))?;
        }
        Ok(())
    }

    // Keeps numbers, behind the arrays.
    fn note_numbers(
        &mut self,
        arrays: &[ArrayCell],
        others: &'k [ValueCell],
    ) -> Result<(), NoMemory>
        requires { AreStarts arrays.now [] self.old }
        ensures { OnOk result (AreStarts arrays.now others.now self.new) }
    {
        for number in others {
            self.note(&number.field, Value::Num(number.value))?;
        }
        Ok(())
    }
}

// More arrays than there is memory for.
const TOO_MANY: usize = 1 << 32;

// What the fields of an image hold. No memory is there for 2^32 arrays or more.
fn starts_of<'k>(alloc: Global, image: &'k StaticImage) -> Result<Starts<'k>, NoMemory>
    ensures { IfOk result (AreStarts image.now.arrays image.now.others) }
{
    let arrays = image.arrays.items();
    if arrays.len() >= TOO_MANY {
        return Err(NoMemory);
    }
    let mut starts = Starts::new(alloc);
    starts.note_arrays(arrays)?;
    starts.note_numbers(arrays, image.others.items())?;
    Ok(starts)
}

// Whether a field is static and no constant.
fn is_cell(field: &FieldTree) -> bool
    ensures { result ≡ is_cell field.now }
{
    is_static(field.flags)
        && !(may_be_constant(field.flags, field.desc.items()) && field.constant.is_some())
}

// What a field holds before anything runs.
fn value_of(starts: &Starts<'_>, key: &Key<'_>) -> Result<Value, NoMemory>
    ensures { IfOk result (λ v. (image : Image) → AreStarts image.arrays image.others starts.now
        → v ≡ (cell_of image key.now).value) }
{
    match starts.get(key) {
        Some(value) => Ok(value),
        None => zero_of(key.desc),
    }
}

// The static cell of a field of a class.
fn cell_of(
    alloc: Global,
    starts: &Starts<'_>,
    class: &[u8],
    field: &FieldTree,
) -> Result<FieldValue, NoMemory>
    ensures { IfOk result (λ f. (image : Image) → AreStarts image.arrays image.others starts.now
        → f ≡ cell_of image (record { class = class.now; name = field.now.name; desc = field.now.desc })) }
{
    let name = field.name.items();
    let desc = field.desc.items();
    let value = value_of(starts, &Key { class, name, desc })?;
    let id = field_id(alloc, class, name, desc)?;
    Ok(FieldValue { field: id, value })
}

// The static cell of a field of a class is put at the end, where it has one.
fn put_cell(
    alloc: Global,
    starts: &Starts<'_>,
    class: &[u8],
    field: &FieldTree,
    cells: &mut Row<FieldValue>,
) -> Result<(), NoMemory>
    ensures { OnOk result ((image : Image) → AreStarts image.arrays image.others starts.now → cells.new ≡ cells.old
        ++ (if is_cell field.now then cell_of image (record {
          class = class.now;
          name = field.now.name;
          desc = field.now.desc;
        }) ∷ [] else [])) }
{
    if !is_cell(field) {
        return Ok(());
    }
    cells.push(cell_of(alloc, starts, class, field)?)?;
    Ok(())
}

// The static cells of a class are put at the end.
fn put_cells(
    alloc: Global,
    starts: &Starts<'_>,
    class: &ClassTree<'_>,
    cells: &mut Row<FieldValue>,
) -> Result<(), NoMemory>
    ensures { OnOk result ((image : Image) → AreStarts image.arrays image.others starts.now → cells.new ≡ cells.old
        ++ cells_in image class.now.name class.now.fields) }
{
    for field in class.fields.items() {
        put_cell(alloc, starts, class.name.items(), field, cells)?;
    }
    Ok(())
}

/// The static cells of a package, classes in list order and fields in the order of their file.
pub(crate) fn cells(
    alloc: Global,
    image: &StaticImage,
    classes: &[ClassTree<'_>],
) -> Result<Row<FieldValue>, NoMemory>
    ensures { IfOk result (λ row. row ≡ cells image.now classes.now) }
{
    let starts = starts_of(alloc, image)?;
    let mut row = Row::new(alloc);
    for class in classes {
        put_cells(alloc, &starts, class, &mut row)?;
    }
    Ok(row)
}

// The elements of an array of a kind.
fn element_of(kind: Kind) -> Option<Element>
    ensures { option_map (λ e. OfNumbers (elements_of e)) result ≡ array_of kind [] }
{
    match kind {
        Kind::Bool => Some(Element::Boolean),
        Kind::Byte => Some(Element::Byte),
        Kind::Short => Some(Element::Short),
        Kind::Int => Some(Element::Int),
        Kind::Other => None,
        Kind::Ref => None,
        Kind::Void => None,
    }
}

// An array that is made before anything runs.
fn static_array<'h>(alloc: Global, array: &ArrayCell) -> Result<HeapObject<'h>, NoMemory>
    ensures { IfOk result (λ o. o ≡ static_array array.now) }
{
    match element_of(array.kind) {
        Some(element) => {
            let desc = TypeName::told(element.array_name());
            let kind = ArrayKind::Numbers(element);
            HeapObject::of_numbers(alloc, desc, kind, array.items.items())
        }
        None => {
            let desc = TypeName::told(b"");
            HeapObject::of_numbers(alloc, desc, ArrayKind::Neither, array.items.items())
        }
    }
}

/// The arrays that are made before anything runs.
pub(crate) fn heap_of<'h>(alloc: Global, image: &StaticImage) -> Result<Heap<'h>, NoMemory>
    ensures { IfOk result (λ heap. heap ≡ map static_array image.now.arrays) }
{
    let mut heap = Heap::new(alloc);
    for array in image.arrays.items() {
        heap.push(static_array(alloc, array)?)?;
    }
    Ok(heap)
}
