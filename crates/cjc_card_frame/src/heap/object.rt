//! One array or object: its type by token and what it holds, made, read and replaced in place. It has no
//! number; the heap gives it one.

ghost use Rattle.std.specs.Prelude.{◌≡◌, map, pos, replicate, IfOk};
ghost use Rattle.cjc_card_semantics.specs.Script.declared.value.Value.TheVariants.{Null};
ghost use Rattle.cjc_card_semantics.specs.Bytecode.Effects;
ghost use Rattle.cjc_card_semantics.specs.Bytecode.Effects.{shape};
ghost use Rattle.cjc_card_frame.specs.Objects.{class_of, element_of, field_of, object_by, shape_of, slot_by};
ghost use Rattle.cjc_card_frame.specs.Objects.{with_number, with_reference, with_slot};

use crate::heap::class::{Class, Element, Field, Shape};
use crate::heap::slots::{Slot, put_slot};
use cjc_card_semantics::bytes::NoMemory;
use cjc_card_semantics::script::Value;
use std::alloc::Global;
use std::marker::Model;

#[derive(Drop)]
enum Body {
    Numbers(Element, Vec<i32>),
    References(Class, Vec<Value>),
    Object(Class, Vec<Slot>),
}

/// What an array or object is and holds.
#[derive(Clone, Copy)]
pub enum Parts<'o> {
    Numbers(Element, &'o [i32]),
    References(Class, &'o [Value]),
    Object(Class, &'o [Slot]),
}

/// An array of numbers or of references, or an object.
#[derive(Drop)]
pub struct HeapObject {
    body: Body,
}

impl Model for HeapObject {
    ghost use Rattle.cjc_card_frame.specs.Objects.{object_of};
    ghost use Rattle.cjc_card_frame.specs.Objects.{ObjectByToken};

    ghost Value = { ObjectByToken };

    ghost view = { λ o. object_of o.body };
}

/// So many zeros.
fn zeros(alloc: Global, count: usize) -> Result<Vec<i32>, NoMemory>
    ensures { IfOk result (λ items. items.items ≡ replicate count (pos 0)) }
{
    let mut items = Vec::new(alloc);
    for i in 0..count {
        items.push(0)?;
    }
    Ok(items)
}

/// So many nulls.
fn nulls(alloc: Global, count: usize) -> Result<Vec<Value>, NoMemory>
    ensures { IfOk result (λ items. items.items ≡ replicate count Null) }
{
    let mut items = Vec::new(alloc);
    for i in 0..count {
        items.push(Value::Null)?;
    }
    Ok(items)
}

impl HeapObject {
    /// An array of these numbers.
    pub fn of_numbers(element: Element, items: Vec<i32>) -> HeapObject
        ensures { result ≡ Effects.Numbers (element_of element) items.items }
    {
        HeapObject {
            body: Body::Numbers(element, items),
        }
    }

    /// An array of so many zeros.
    pub fn numbers(alloc: Global, element: Element, count: usize) -> Result<HeapObject, NoMemory>
        ensures { IfOk result (λ o. o ≡ Effects.Numbers (element_of element) (replicate count (pos 0))) }
    {
        let items = zeros(alloc, count)?;
        Ok(HeapObject {
            body: Body::Numbers(element, items),
        })
    }

    /// An array of so many nulls.
    pub fn references(alloc: Global, class: Class, count: usize) -> Result<HeapObject, NoMemory>
        ensures { IfOk result (λ o. o ≡ Effects.References (class_of class) (replicate count Null)) }
    {
        let items = nulls(alloc, count)?;
        Ok(HeapObject {
            body: Body::References(class, items),
        })
    }

    /// An object with these slots.
    pub fn object(class: Class, slots: Vec<Slot>) -> HeapObject
        ensures { result ≡ Effects.Object (class_of class) (map slot_by slots.items) }
    {
        HeapObject {
            body: Body::Object(class, slots),
        }
    }

    /// Its type.
    pub fn shape(&self) -> Shape
        ensures { shape_of result ≡ shape self.now }
    {
        match &self.body {
            Body::Numbers(element, _) => Shape::OfNumbers(*element),
            Body::References(class, _) => Shape::OfReferences(*class),
            Body::Object(class, _) => Shape::OfClass(*class),
        }
    }

    /// What it is and holds.
    pub fn parts(&self) -> Parts<'_>
        ensures { object_by result ≡ self.now }
    {
        match &self.body {
            Body::Numbers(element, items) => Parts::Numbers(*element, items.as_slice()),
            Body::References(class, items) => Parts::References(*class, items.as_slice()),
            Body::Object(class, slots) => Parts::Object(*class, slots.as_slice()),
        }
    }

    /// Replaces an element of an array of numbers, where it is there.
    pub fn set_number(&mut self, place: usize, number: i32)
        ensures { self.new ≡ with_number self.old place number }
    {
        if let Body::Numbers(_, items) = &mut self.body {
            if place < items.len() {
                items[place] = number;
            }
        }
    }

    /// Replaces an element of an array of references, where it is there.
    pub fn set_reference(&mut self, place: usize, value: Value)
        ensures { self.new ≡ with_reference self.old place value }
    {
        if let Body::References(_, items) = &mut self.body {
            if place < items.len() {
                items[place] = value;
            }
        }
    }

    /// Puts a value into a field of an object, where it is there.
    pub fn put_slot(&mut self, field: Field, value: Value)
        ensures { self.new ≡ with_slot self.old (field_of field) value }
    {
        if let Body::Object(_, slots) = &mut self.body {
            put_slot(slots, field, value);
        }
    }
}
