//! One array or object: its class, or its descriptor and items, or the fields that it holds by class, name and
//! descriptor. It has no number; the heap gives it one.

ghost use Rattle.std.specs.Prelude.{◌≡◌, ◌<◌, ◌^◌, ℕ, List, length, slice_get, slice_set, Some, None, true, false};
ghost use Rattle.std.specs.Prelude.{IfOk, IfSome, MatchOption, MatchBool, if◌then◌else◌, map, replicate};
ghost use Rattle.cjc_script.specs.declared.report.Thing.{Thing};
ghost use Rattle.cjc_script.specs.declared.report.Thing.TheVariants as things;
ghost use Rattle.cjc_script.specs.declared.value.Value.{Value};
ghost use Rattle.cjc_script.specs.declared.value.Value.TheVariants.{Num};
ghost use Rattle.cjc_script.specs.Sorts.{shape_named};
ghost use Rattle.cjc_jvm_semantics.specs.Effects.{Effect, type_of, is_same_field, object_in, with_some, value_in};
ghost use Rattle.cjc_jvm_semantics.specs.Effects;
ghost use Rattle.cjc_jvm_semantics.specs.OnePackage.{of_class};
ghost use Rattle.cjc_jvm_step.specs.Heap.Kinds.{shape_of};
ghost use Rattle.cjc_jvm_step.specs.Heap.Objects.{fields_after_put, fields_with, items_in, place_in, put_in_object};
ghost use Rattle.cjc_jvm_step.specs.Heap.Parts.{AreSound, thing_by};

use crate::frame::is_same_kind;
use crate::heap::kind::ArrayKind;
use crate::heap::type_name::TypeName;
use cjc_script::bytes::{MemberId, NoMemory};
use cjc_script::{FieldValue, Value};
use std::alloc::Global;
use std::marker::Model;

// More elements than an array has.
const TOO_MANY: usize = 1 << 31;

#[derive(Drop)]
enum Body<'a> {
    Array {
        desc: TypeName<'a>,
        kind: ArrayKind,
        items: Vec<Value>,
    },
    // Its fields and what they hold at first are those of every object of its class.
    Object {
        class: &'a [u8],
        fresh: &'a [FieldValue],
        values: Vec<Value>,
    },
}

/// What an array or object holds.
#[derive(Clone, Copy)]
pub enum Parts<'o> {
    Items(&'o [Value]),
    /// The fields as they are at first, and what they hold.
    Fields(&'o [FieldValue], &'o [Value]),
}

/// An array of fewer than 2^31 elements, or an object.
#[derive(Drop)]
pub struct HeapObject<'a> {
    body: Body<'a>,
}

impl<'a> Model for HeapObject<'a> {
    ghost use Rattle.cjc_script.specs.declared.report.Thing.{Thing};

    ghost Value = { Thing };

    ghost use Rattle.cjc_jvm_step.specs.Heap.Objects.{thing_of, IsSound};

    ghost view = { λ o. thing_of o.body };

    ghost invariant = { λ o. IsSound o.body };
}

/// Whether a field is that of a class with the name and descriptor of another.
pub fn is_same_field(field: &MemberId, class: &[u8], id: &MemberId) -> bool
    ensures { result ≡ is_same_field field.now (of_class class.now id.now) }
{
    field.class.items() == class
        && (field.name.items() == id.name.items() && field.desc.items() == id.desc.items())
}

// The place of a field among those of an object.
fn place_in(fields: &[FieldValue], class: &[u8], id: &MemberId) -> Option<usize>
    ensures { result ≡ place_in fields.now (of_class class.now id.now) }
{
    for (i, field) in fields.iter().enumerate() {
        if is_same_field(&field.field, class, id) {
            return Some(i);
        }
    }
    None
}

fn value_in_place(values: &[Value], place: usize) -> Option<Value>
    ensures { result ≡ slice_get values.now place }
{
    values.get(place).copied()
}

/// What the field holds that is this one, of fields with these values.
pub fn value_at(
    fields: &[FieldValue],
    values: &[Value],
    class: &[u8],
    id: &MemberId,
) -> Option<Value>
    requires { length values.now ≡ length fields.now }
    ensures { result ≡ value_in (fields_with fields.now values.now) (of_class class.now id.now) }
{
    match place_in(fields, class, id) {
        Some(place) => value_in_place(values, place),
        None => None,
    }
}

/// Puts a value into the field that is this one, where it is there and holds a value of the same kind; whether it did.
pub fn put_value(
    fields: &[FieldValue],
    values: &mut Vec<Value>,
    class: &[u8],
    id: &MemberId,
    value: Value,
) -> bool
    requires { length values.old.items ≡ length fields.now }
    ensures put { fields_after_put (fields_with fields.now values.old.items) (of_class class.now id.now) value
        ≡ (if result then Some (fields_with fields.now values.new.items) else None) }
    ensures len { length values.new.items ≡ length fields.now }
    ensures same { result ≡ false → values.new.items ≡ values.old.items }
{
    let Some(place) = place_in(fields, class, id) else {
        return false;
    };
    if !is_same_kind(values[place], value) {
        return false;
    }
    values[place] = value;
    true
}

impl<'a> HeapObject<'a> {
    /// Its class, or an array's descriptor.
    pub fn type_name(&self) -> &[u8]
        ensures { result.now ≡ type_of self.now }
    {
        match &self.body {
            Body::Array { desc, .. } => desc.bytes(),
            Body::Object { class, .. } => class,
        }
    }

    /// What an array holds.
    pub fn items(&self) -> Option<(ArrayKind, &[Value])>
        ensures array { IfSome result (λ p. self.now ≡ things.Array (type_of self.now) p.1.now) }
        ensures kind { IfSome result (λ p. shape_named (type_of self.now) ≡ shape_of p.0 (type_of self.now)) }
        ensures few { IfSome result (λ p. length p.1.now < 2 ^ 31) }
        ensures object { result ≡ None → (go : List ℕ → List Value → Effect) → Effects.array_in self.now go
            ≡ Effects.Stick }
    {
        match &self.body {
            Body::Array { kind, items, .. } => Some((*kind, items.as_slice())),
            Body::Object { .. } => None,
        }
    }

    /// Replaces an element.
    pub fn set_item(&mut self, place: usize, value: Value)
        requires { place < length (items_in self.old) }
        ensures { self.new ≡ things.Array (type_of self.old) (slice_set (items_in self.old) place value) }
    {
        if let Body::Array { items, .. } = &mut self.body {
            items[place] = value;
        }
    }

    /// What a field of an object holds.
    pub fn field(&self, class: &[u8], id: &MemberId) -> Option<Value>
        ensures { MatchOption result
            ((go : Value → Effect)
            → object_in self.now (λ type fields. with_some (value_in fields (of_class class.now id.now)) go)
            ≡ Effects.Stick)
            (λ v. (go : Value → Effect)
            → object_in self.now (λ type fields. with_some (value_in fields (of_class class.now id.now)) go)
            ≡ go v) }
    {
        match &self.body {
            Body::Array { .. } => None,
            Body::Object { fresh, values, .. } => match value_at(
                fresh,
                values.as_slice(),
                class,
                id,
            ) {
                Some(value) => Some(value),
                None => None,
            },
        }
    }

    /// Puts a value into a field of an object, where it is there and holds a value of the same kind; whether it did.
    pub fn put_field(&mut self, class: &[u8], id: &MemberId, value: Value) -> bool
        ensures put { MatchBool result
            ((go : Thing → Effect) → put_in_object self.old (of_class class.now id.now) value go ≡ go self.new)
            ((go : Thing → Effect) → put_in_object self.old (of_class class.now id.now) value go ≡ Effects.Stick) }
        ensures same { result ≡ false → self.new ≡ self.old }
    {
        match &mut self.body {
            Body::Array { .. } => false,
            Body::Object { fresh, values, .. } => put_value(fresh, values, class, id, value),
        }
    }

    /// What it holds, beside its type.
    pub fn parts(&self) -> Parts<'_>
        ensures parts { self.now ≡ thing_by (type_of self.now) result }
        ensures sound { AreSound result }
    {
        match &self.body {
            Body::Array { items, .. } => Parts::Items(items.as_slice()),
            Body::Object { fresh, values, .. } => Parts::Fields(fresh, values.as_slice()),
        }
    }
}

/// So many of a value.
fn copies(alloc: Global, count: usize, value: Value) -> Result<Vec<Value>, NoMemory>
    ensures { IfOk result (λ items. items.items ≡ replicate count value) }
{
    let mut items = Vec::new(alloc);
    for i in 0..count {
        items.push(value)?;
    }
    Ok(items)
}

// Numbers as values.
fn numbers_of(alloc: Global, numbers: &[i32]) -> Result<Vec<Value>, NoMemory>
    ensures { IfOk result (λ items. items.items ≡ map (λ z. Num z) numbers.now) }
{
    let mut items = Vec::new(alloc);
    for number in numbers {
        items.push(Value::Num(*number))?;
    }
    Ok(items)
}

// What the fields of an object hold at first.
fn first_values(alloc: Global, fresh: &[FieldValue]) -> Result<Vec<Value>, NoMemory>
    ensures { IfOk result (λ values. values.items ≡ map (λ f. f.value) fresh.now) }
{
    let mut values = Vec::new(alloc);
    for field in fresh {
        values.push(field.value)?;
    }
    Ok(values)
}

/// The same, as the fields of an object that has them.
#[tactic(auto, using(crate::proofs::HeapLaws::Fields::fields_own, crate::proofs::HeapLaws::Fields::as_many))]
pub(crate) fn fresh_values(alloc: Global, fresh: &[FieldValue]) -> Result<Vec<Value>, NoMemory>
    ensures fields { IfOk result (λ values. fields_with fresh.now values.items ≡ fresh.now) }
    ensures len { IfOk result (λ values. length values.items ≡ length fresh.now) }
{
    let values = first_values(alloc, fresh)?;
    Ok(values)
}

impl<'a> HeapObject<'a> {
    /// An array of so many of a value.
    pub fn array(
        alloc: Global,
        desc: TypeName<'a>,
        kind: ArrayKind,
        count: usize,
        value: Value,
    ) -> Result<HeapObject<'a>, NoMemory>
        requires kind { shape_named desc ≡ shape_of kind desc }
        requires few { count < 2 ^ 31 }
        ensures { IfOk result (λ o. o ≡ things.Array desc.entry (replicate count value)) }
    {
        let items = copies(alloc, count, value)?;
        Ok(HeapObject {
            body: Body::Array { desc, kind, items },
        })
    }

    /// An array of these numbers. No memory is there for 2^31 of them or more.
    pub fn of_numbers(
        alloc: Global,
        desc: TypeName<'a>,
        kind: ArrayKind,
        numbers: &[i32],
    ) -> Result<HeapObject<'a>, NoMemory>
        requires { shape_named desc ≡ shape_of kind desc }
        ensures { IfOk result (λ o. o ≡ things.Array desc.entry (map (λ z. Num z) numbers.now)) }
    {
        if numbers.len() >= TOO_MANY {
            return Err(NoMemory);
        }
        let items = numbers_of(alloc, numbers)?;
        Ok(HeapObject {
            body: Body::Array { desc, kind, items },
        })
    }

    /// An object of a class, with the fields of each of its objects.
    pub fn object(
        alloc: Global,
        class: &'a [u8],
        fresh: &'a [FieldValue],
    ) -> Result<HeapObject<'a>, NoMemory>
        ensures { IfOk result (λ o. o ≡ things.Object class.now fresh.now) }
    {
        let values = fresh_values(alloc, fresh)?;
        Ok(HeapObject {
            body: Body::Object {
                class,
                fresh,
                values,
            },
        })
    }
}
