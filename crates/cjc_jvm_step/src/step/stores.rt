//! Stores of array elements (Java Virtual Machine Specification, 6.5), with the test that an array of
//! references may hold what is put. Called by `instruction`.

ghost use Rattle.std.specs.Prelude.{◌≡◌, ◌<◌, List, length, MatchResult};
ghost use Rattle.cjc_script.specs.declared.value.Value.{Value};
ghost use Rattle.cjc_script.specs.declared.report.FieldValue.{FieldValue};
ghost use Rattle.cjc_jvm_semantics.specs.Effects.{Effect, after_array_store, cut, of_references, stores, with_kept};
ghost use Rattle.cjc_jvm_step.specs.Heap.Kinds.{effect_moves, shape_of};
ghost use Rattle.cjc_jvm_step.specs.Heap.Looks.{halted, name_at};
ghost use Rattle.cjc_jvm_step.specs.Step.Rows.{FollowsBy, store_of};

use crate::frame::number::{byte_of, short_of};
use crate::frame::{Activation, Deed, Exception, is_kind};
use crate::heap::{ArrayKind, Halt, Heap, HeapElement, Moves};
use crate::step::deeds::deed_of;
use crate::step::lookups::LookUps;
use crate::step::shapes::class_within;
use crate::step::types::is_of;
use cjc_jvm_semantics::bytecode::jvm;
use cjc_script::Value;

// What an element keeps of a number.
fn cut(moves: Moves, z: i32) -> i32
    ensures { result ≡ cut (effect_moves moves) z }
{
    match moves {
        Moves::Byte => byte_of(z),
        Moves::Short => short_of(z),
        Moves::Reference => z,
        Moves::Int => z,
    }
}

// Whether an instruction moves references.
fn of_references(moves: Moves) -> bool
    ensures { result ≡ of_references (effect_moves moves) }
{
    match moves {
        Moves::Reference => true,
        Moves::Byte => false,
        Moves::Short => false,
        Moves::Int => false,
    }
}

// An object goes into an array of references, where it is of their class.
fn taken<'a, L: LookUps>(
    links: &L,
    frame: &Activation<'a>,
    heap: &Heap<'a>,
    array: u32,
    number: u32,
) -> Result<(), Halt>
    ensures { MatchResult result
        (λ _. (statics : List FieldValue) (go : Value → Effect) → with_kept (L.linked links.now) frame.now.method
        frame.now.at frame.now.locals (store_of heap.now statics) (effect_moves Moves.Reference)
        (shape_of ArrayKind.References (name_at heap.now array)) (Value.Obj number) go ≡ go (Value.Obj number))
        (λ h. (statics : List FieldValue) (go : Value → Effect) → with_kept (L.linked links.now) frame.now.method
        frame.now.at frame.now.locals (store_of heap.now statics) (effect_moves Moves.Reference)
        (shape_of ArrayKind.References (name_at heap.now array)) (Value.Obj number) go ≡ halted h) }
{
    match is_of(
        links,
        frame,
        heap,
        number,
        class_within(heap.name_at(array)),
    ) {
        Some(true) => Ok(()),
        Some(false) => Err(Halt::Raise(Exception::ArrayStore)),
        None => Err(Halt::Stick),
    }
}

// What an array keeps of a value.
fn kept<'a, L: LookUps>(
    links: &L,
    frame: &Activation<'a>,
    heap: &Heap<'a>,
    element: HeapElement,
    moves: Moves,
    value: Value,
) -> Result<Value, Halt>
    ensures { MatchResult result
        (λ w. (statics : List FieldValue) (go : Value → Effect) → with_kept (L.linked links.now) frame.now.method
        frame.now.at frame.now.locals (store_of heap.now statics) (effect_moves moves) (shape_of element.kind
        (name_at heap.now element.array)) value go ≡ go w)
        (λ h. (statics : List FieldValue) (go : Value → Effect) → with_kept (L.linked links.now) frame.now.method
        frame.now.at frame.now.locals (store_of heap.now statics) (effect_moves moves) (shape_of element.kind
        (name_at heap.now element.array)) value go ≡ halted h) }
{
    match value {
        Value::Num(z) => Ok(Value::Num(cut(moves, z))),
        Value::Null => Ok(Value::Null),
        Value::Obj(number) => match element.kind {
            ArrayKind::References => match taken(links, frame, heap, element.array, number) {
                Ok(()) => Ok(Value::Obj(number)),
                Err(halt) => Err(halt),
            },
            ArrayKind::Numbers(_) => Ok(Value::Obj(number)),
            ArrayKind::Neither => Ok(Value::Obj(number)),
        },
    }
}

// An element is replaced.
fn store_element<'a, L: LookUps>(
    links: &L,
    frame: &mut Activation<'a>,
    heap: &mut Heap<'a>,
    moves: Moves,
) -> Deed<'a>
    requires { frame.old.at < length frame.old.method.insns }
    ensures row { FollowsBy (L.linked links.now) (λ l m at locals store. after_array_store l m at locals store
        (Some (effect_moves moves))) result frame.old frame.new heap.old heap.new }
    ensures len { length heap.new ≡ length heap.old }
{
    let Some((reference, index, value)) = frame.value_number_value() else {
        return Deed::Stick;
    };
    if !is_kind(of_references(moves), value) {
        return Deed::Stick;
    }
    let element = match heap.element_at(moves, reference, index) {
        Ok(element) => element,
        Err(halt) => return deed_of(halt),
    };
    match kept(links, frame, heap, element, moves, value) {
        Ok(kept) => {
            heap.set_element(element.array, element.place, kept);
            frame.pass(3);
            Deed::Go
        }
        Err(halt) => deed_of(halt),
    }
}

/// iastore, aastore, bastore, sastore, by opcode.
pub fn array_store<'a, L: LookUps>(
    links: &L,
    frame: &mut Activation<'a>,
    heap: &mut Heap<'a>,
    op: u8,
) -> Deed<'a>
    requires { frame.old.at < length frame.old.method.insns }
    ensures row { FollowsBy (L.linked links.now) (λ l m at locals store. after_array_store l m at locals store
        (stores op)) result frame.old frame.new heap.old heap.new }
    ensures len { length heap.new ≡ length heap.old }
{
    match op {
        jvm::IASTORE => store_element(links, frame, heap, Moves::Int),
        jvm::AASTORE => store_element(links, frame, heap, Moves::Reference),
        jvm::BASTORE => store_element(links, frame, heap, Moves::Byte),
        jvm::SASTORE => store_element(links, frame, heap, Moves::Short),
        _ => Deed::Stick,
    }
}
