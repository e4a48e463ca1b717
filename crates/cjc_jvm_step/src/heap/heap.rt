//! The heap by name: each array or object has its number from the order of creation, and none is ever taken
//! away. Items and fields are found by reference, or it is told which exception stops the instruction.

ghost use Rattle.std.specs.Prelude.{◌≡◌, ◌<◌, ◌^◌, ◌++◌, ◌∷◌, [], ℕ, List, length, slice_get, slice_set, option_map};
ghost use Rattle.std.specs.Prelude.{MatchOption, MatchResult, IfOk, IfSome, OnOk, OnErr};
ghost use Rattle.cjc_script.specs.declared.report.Thing.{Thing};
ghost use Rattle.cjc_script.specs.declared.report.Thing.TheVariants as things;
ghost use Rattle.cjc_script.specs.declared.value.Value.{Value};
ghost use Rattle.cjc_script.specs.Sorts.{shape_named};
ghost use Rattle.cjc_jvm_semantics.specs.Effects;
ghost use Rattle.cjc_jvm_semantics.specs.Effects.{Effect, type_of, thing_at, array_in, only_if};
ghost use Rattle.cjc_jvm_step.specs.Heap.Kinds.{shape_of, effect_moves};
ghost use Rattle.cjc_jvm_semantics.specs.OnePackage.{of_class};
ghost use Rattle.cjc_jvm_step.specs.Heap.Looks.{halted, name_at, items_at, element_at, field_at, put_field_at};

use crate::frame::Exception;
use crate::heap::halt::Halt;
use crate::heap::kind::{ArrayKind, Moves, serves};
use crate::heap::object::HeapObject;
use cjc_script::Value;
use cjc_script::bytes::{MemberId, NoMemory};
use std::alloc::Global;
use std::marker::Model;

/// Arrays and objects. The number of each is its place.
#[derive(Drop)]
pub struct Heap<'a> {
    objects: Vec<HeapObject<'a>>,
}

impl<'a> Model for Heap<'a> {
    ghost use Rattle.std.specs.Prelude.{List};
    ghost use Rattle.cjc_script.specs.declared.report.Thing.{Thing};

    ghost Value = { List Thing };

    ghost view = { λ h. h.objects.items };
}

/// An element of an array: the array's number, what arrays of its type hold, the element's place, and what it holds.
#[derive(Clone, Copy)]
pub struct HeapElement {
    pub array: u32,
    pub kind: ArrayKind,
    pub place: usize,
    pub value: Value,
}

impl<'a> Heap<'a> {
    /// No array and no object. Takes no memory.
    pub fn new(alloc: Global) -> Heap<'a>
        ensures { result ≡ [] }
    {
        Heap {
            objects: Vec::new(alloc),
        }
    }

    /// How many arrays and objects there are.
    pub fn len(&self) -> usize
        ensures { result ≡ length self.now }
    {
        self.objects.len()
    }

    /// One more.
    pub fn push(&mut self, object: HeapObject<'a>) -> Result<(), NoMemory>
        ensures { OnOk result (self.new ≡ self.old ++ object.entry ∷ []) }
    {
        self.objects.push(object)?;
        Ok(())
    }

    /// The class of the object with a number, or the descriptor of the array.
    pub fn type_at(&self, number: u32) -> Option<&[u8]>
        ensures { option_map (λ name. name.now) result ≡ option_map type_of (slice_get self.now number) }
    {
        match self.objects.get(number as usize) {
            Some(object) => Some(object.type_name()),
            None => None,
        }
    }

    /// The same, and no name where nothing has the number.
    pub fn name_at(&self, number: u32) -> &[u8]
        ensures { result.now ≡ name_at self.now number }
    {
        match self.objects.get(number as usize) {
            Some(object) => object.type_name(),
            None => &[],
        }
    }

    /// The array of a reference: its number, what it holds, and its elements.
    pub fn array_at(&self, reference: Value) -> Result<(u32, ArrayKind, &[Value]), Halt>
        ensures found { MatchResult result
            (λ p. (go : ℕ → List ℕ → List Value → Effect)
            → thing_at self.now reference (λ k thing. array_in thing (go k)) ≡ go p.0 (name_at self.now p.0)
            p.2.now)
            (λ h. (go : ℕ → List ℕ → List Value → Effect)
            → thing_at self.now reference (λ k thing. array_in thing (go k)) ≡ halted h) }
        ensures kind { IfOk result (λ p. shape_named (name_at self.now p.0) ≡ shape_of p.1 (name_at self.now p.0)) }
        ensures items { IfOk result (λ p. items_at self.now p.0 ≡ p.2.now) }
        ensures few { IfOk result (λ p. length p.2.now < 2 ^ 31) }
    {
        match reference {
            Value::Num(_) => Err(Halt::Stick),
            Value::Null => Err(Halt::Raise(Exception::NullPointer)),
            Value::Obj(k) => match self.objects.get(k as usize) {
                Some(object) => match object.items() {
                    Some((kind, items)) => Ok((k, kind, items)),
                    None => Err(Halt::Stick),
                },
                None => Err(Halt::Stick),
            },
        }
    }

    /// The element at an index of the array of a reference, for an instruction that moves this.
    pub fn element_at(
        &self,
        moves: Moves,
        reference: Value,
        index: i32,
    ) -> Result<HeapElement, Halt>
        ensures found { MatchResult result
            (λ e. (go : ℕ → List ℕ → List Value → ℕ → Value → Effect)
            → element_at (effect_moves moves) self.now reference index go ≡ go e.array (name_at self.now e.array)
            (items_at self.now e.array) e.place e.value)
            (λ h. (go : ℕ → List ℕ → List Value → ℕ → Value → Effect)
            → element_at (effect_moves moves) self.now reference index go ≡ halted h) }
        ensures kind { IfOk result (λ e. shape_named (name_at self.now e.array)
            ≡ shape_of e.kind (name_at self.now e.array)) }
        ensures inside { IfOk result (λ e. e.place < length (items_at self.now e.array)) }
    {
        match self.array_at(reference) {
            Ok((array, kind, items)) => match element_in(moves, array, kind, items, index) {
                Ok(element) => Ok(element),
                Err(halt) => Err(halt),
            },
            Err(halt) => Err(halt),
        }
    }

    /// Replaces an element of an array.
    pub fn set_element(&mut self, array: u32, place: usize, value: Value)
        requires { place < length (items_at self.old array) }
        ensures { self.new ≡ slice_set self.old array (things.Array (name_at self.old array)
            (slice_set (items_at self.old array) place value)) }
    {
        let object = &mut self.objects[array as usize];
        object.set_item(place, value);
    }

    /// The array or object of a reference.
    pub fn object_at(&self, reference: Value) -> Result<(u32, &HeapObject<'a>), Halt>
        ensures { MatchResult result
            (λ p. (go : ℕ → Thing → Effect) → thing_at self.now reference go ≡ go p.0 p.1.now)
            (λ h. (go : ℕ → Thing → Effect) → thing_at self.now reference go ≡ halted h) }
    {
        match reference {
            Value::Num(_) => Err(Halt::Stick),
            Value::Null => Err(Halt::Raise(Exception::NullPointer)),
            Value::Obj(k) => match self.objects.get(k as usize) {
                Some(object) => Ok((k, object)),
                None => Err(Halt::Stick),
            },
        }
    }

    /// What a field of the object of a reference holds.
    pub fn field_at(&self, reference: Value, class: &[u8], id: &MemberId) -> Result<Value, Halt>
        ensures { MatchResult result
            (λ v. (go : Value → Effect) → field_at self.now reference (of_class class.now id.now) go ≡ go v)
            (λ h. (go : Value → Effect) → field_at self.now reference (of_class class.now id.now) go ≡ halted h) }
    {
        match self.object_at(reference) {
            Ok((_, object)) => match object.field(class, id) {
                Some(value) => Ok(value),
                None => Err(Halt::Stick),
            },
            Err(halt) => Err(halt),
        }
    }

    /// The array or object with a number.
    pub fn get(&self, number: usize) -> Option<&HeapObject<'a>>
        ensures { option_map (λ o. o.now) result ≡ slice_get self.now number }
    {
        self.objects.get(number)
    }

    /// Puts a value into a field of the object of a reference, where it is there and holds a value of the same kind.
    pub fn put_field(
        &mut self,
        reference: Value,
        class: &[u8],
        id: &MemberId,
        value: Value,
    ) -> Result<(), Halt>
        ensures put { MatchResult result
            (λ _. (go : List Thing → Effect) → put_field_at self.old reference (of_class class.now id.now) value go
            ≡ go self.new)
            (λ h. (go : List Thing → Effect) → put_field_at self.old reference (of_class class.now id.now) value go
            ≡ halted h) }
        ensures same { OnErr result (self.new ≡ self.old) }
        ensures len { length self.new ≡ length self.old }
    {
        match reference {
            Value::Num(_) => Err(Halt::Stick),
            Value::Null => Err(Halt::Raise(Exception::NullPointer)),
            Value::Obj(k) => {
                if k as usize >= self.objects.len() {
                    return Err(Halt::Stick);
                }
                let object = &mut self.objects[k as usize];
                if object.put_field(class, id, value) {
                    Ok(())
                } else {
                    Err(Halt::Stick)
                }
            }
        }
    }
}

// The element at an index of an array that holds this.
fn element_in(
    moves: Moves,
    array: u32,
    kind: ArrayKind,
    items: &[Value],
    index: i32,
) -> Result<HeapElement, Halt>
    ensures found { MatchResult result
        (λ e. (desc : List ℕ) (go : ℕ → Value → Effect)
        → only_if (Effects.serves (effect_moves moves) (shape_of kind desc)) (Effects.item_at items.now index go)
        ≡ go e.place e.value)
        (λ h. (desc : List ℕ) (go : ℕ → Value → Effect)
        → only_if (Effects.serves (effect_moves moves) (shape_of kind desc)) (Effects.item_at items.now index go)
        ≡ halted h) }
    ensures array { IfOk result (λ e. e.array ≡ array) }
    ensures kind { IfOk result (λ e. e.kind ≡ kind) }
    ensures inside { IfOk result (λ e. e.place < length items.now) }
{
    if !serves(moves, kind) {
        return Err(Halt::Stick);
    }
    match item_at(items, index) {
        Some((place, value)) => Ok(HeapElement {
            array,
            kind,
            place,
            value,
        }),
        None => Err(Halt::Raise(Exception::IndexOutside)),
    }
}

// The element at a number, with its place.
fn item_at(items: &[Value], index: i32) -> Option<(usize, Value)>
    ensures cases { MatchOption result
        ((go : ℕ → Value → Effect) → Effects.item_at items.now index go ≡ Effects.Raise Effects.IndexOutside)
        (λ p. (go : ℕ → Value → Effect) → Effects.item_at items.now index go ≡ go p.0 p.1) }
    ensures inside { IfSome result (λ p. p.0 < length items.now) }
{
    if index < 0 {
        return None;
    }
    match items.get(index as usize) {
        Some(value) => Some((index as usize, *value)),
        None => None,
    }
}
