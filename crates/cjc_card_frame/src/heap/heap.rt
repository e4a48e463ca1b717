//! The heap by token: each array or object has its number from the order of creation, and none is ever taken
//! away.

ghost use Rattle.std.specs.Prelude.{◌≡◌, ◌++◌, ◌∷◌, [], length, option_map, slice_get, OnOk};
ghost use Rattle.cjc_card_semantics.specs.Bytecode.Effects.{shape};
ghost use Rattle.cjc_card_frame.specs.Objects.{field_of, number_put, object_by, reference_put, shape_of, slot_put};

use crate::heap::class::{Field, Shape};
use crate::heap::object::{HeapObject, Parts};
use cjc_card_semantics::bytes::NoMemory;
use cjc_card_semantics::script::Value;
use std::alloc::Global;
use std::marker::Model;

/// Arrays and objects. The number of each is its place.
#[derive(Drop)]
pub struct Heap {
    objects: Vec<HeapObject>,
}

impl Model for Heap {
    ghost use Rattle.std.specs.Prelude.{List};
    ghost use Rattle.cjc_card_frame.specs.Objects.{ObjectByToken};

    ghost Value = { List ObjectByToken };

    ghost view = { λ h. h.objects.items };
}

impl Heap {
    /// No array and no object. Takes no memory.
    pub fn new(alloc: Global) -> Heap
        ensures { result ≡ [] }
    {
        Heap {
            objects: Vec::new(alloc),
        }
    }

    /// How many arrays and objects there are.
    pub fn len(&self) -> usize
        ensures { result ≡ length self.now }
    {
        self.objects.len()
    }

    /// One more.
    pub fn push(&mut self, object: HeapObject) -> Result<(), NoMemory>
        ensures { OnOk result (self.new ≡ self.old ++ object ∷ []) }
    {
        self.objects.push(object)?;
        Ok(())
    }

    /// The type of the array or object with a number.
    pub fn shape_at(&self, number: u32) -> Option<Shape>
        ensures { option_map shape_of result ≡ option_map shape (slice_get self.now number) }
    {
        match self.objects.get(number as usize) {
            Some(object) => Some(object.shape()),
            None => None,
        }
    }

    /// What the array or object with a number is and holds.
    pub fn get(&self, number: u32) -> Option<Parts<'_>>
        ensures { option_map object_by result ≡ slice_get self.now number }
    {
        match self.objects.get(number as usize) {
            Some(object) => Some(object.parts()),
            None => None,
        }
    }

    /// Replaces an element of an array of numbers, where both are there.
    pub fn set_number(&mut self, array: u32, place: usize, number: i32)
        ensures { self.new ≡ number_put self.old array place number }
    {
        if (array as usize) < self.objects.len() {
            let object = &mut self.objects[array as usize];
            object.set_number(place, number);
        }
    }

    /// Replaces an element of an array of references, where both are there.
    pub fn set_reference(&mut self, array: u32, place: usize, value: Value)
        ensures { self.new ≡ reference_put self.old array place value }
    {
        if (array as usize) < self.objects.len() {
            let object = &mut self.objects[array as usize];
            object.set_reference(place, value);
        }
    }

    /// Puts a value into a field of an object, where both are there.
    pub fn put_slot(&mut self, object: u32, field: Field, value: Value)
        ensures { self.new ≡ slot_put self.old object (field_of field) value }
    {
        if (object as usize) < self.objects.len() {
            let thing = &mut self.objects[object as usize];
            thing.put_slot(field, value);
        }
    }
}
