//! Heap and images before the first entry (Java Card Virtual Machine Specification 2.2.2, section 6.10).

ghost use Rattle.std.specs.Prelude.{◌≡◌, ◌+◌, ◌++◌, ◌-◌, ◌≤◌, ◌^◌, length, map, replicate, IfOk, OnOk};
ghost use Rattle.cjc_card_semantics.specs.Script.declared.value.Value.TheVariants.{Null};
ghost use Rattle.cjc_card_semantics.specs.Script.Sorts.{Bytes, Ints, Shorts};
ghost use Rattle.cjc_card_semantics.specs.Machine.Statics.{element_of as element_by, elements, first_array};
ghost use Rattle.cjc_card_semantics.specs.Machine.Statics.{first_image, objects_from};
ghost use Rattle.cjc_card_frame.specs.Objects.{element_of};

use crate::heap::{Element, Heap, HeapObject};
use crate::image::image::Image;
use crate::image::numbers::{byte_in, int_in, short_in};
use cjc_card_semantics::bytes::NoMemory;
use cjc_card_semantics::capread::{ArrayInit, StaticField};
use cjc_card_semantics::script::Value;
use std::alloc::Global;

/// What the elements of an array are, by the number of their type.
fn element_by(type_: u8) -> Element
    ensures { element_of result ≡ element_by type_ }
{
    match type_ {
        2 => Element::Booleans,
        3 => Element::Bytes,
        4 => Element::Shorts,
        _ => Element::Ints,
    }
}

/// Elements of one byte.
#[tactic(auto, using(crate::proofs::ImageLaws::Spelling::bytes_end, crate::proofs::ImageLaws::Spelling::bytes_more))]
fn byte_elements(alloc: Global, bytes: &[u8]) -> Result<Vec<i32>, NoMemory>
    ensures { IfOk result (λ items. items.items ≡ elements Bytes bytes.now) }
{
    let mut items = Vec::new(alloc);
    let mut rest = bytes;
    'elements: while let Some(number) = byte_in(rest) {
        items.push(number)?;
        rest = &rest[1..];
    }
    Ok(items)
}

/// Elements of two bytes.
#[tactic(auto, using(crate::proofs::ImageLaws::Spelling::shorts_end, crate::proofs::ImageLaws::Spelling::shorts_more))]
fn short_elements(alloc: Global, bytes: &[u8]) -> Result<Vec<i32>, NoMemory>
    ensures { IfOk result (λ items. items.items ≡ elements Shorts bytes.now) }
{
    let mut items = Vec::new(alloc);
    let mut rest = bytes;
    'elements: while let Some(number) = short_in(rest) {
        items.push(number)?;
        rest = &rest[2..];
    }
    Ok(items)
}

/// Elements of four bytes.
#[tactic(auto, using(crate::proofs::ImageLaws::Spelling::ints_end, crate::proofs::ImageLaws::Spelling::ints_more))]
fn int_elements(alloc: Global, bytes: &[u8]) -> Result<Vec<i32>, NoMemory>
    ensures { IfOk result (λ items. items.items ≡ elements Ints bytes.now) }
{
    let mut items = Vec::new(alloc);
    let mut rest = bytes;
    'elements: while let Some(number) = int_in(rest) {
        items.push(number)?;
        rest = &rest[4..];
    }
    Ok(items)
}

/// The elements that bytes spell.
#[tactic(auto, using(crate::proofs::ImageLaws::Spelling::booleans_are))]
fn elements(alloc: Global, element: Element, bytes: &[u8]) -> Result<Vec<i32>, NoMemory>
    ensures { IfOk result (λ items. items.items ≡ elements (element_of element) bytes.now) }
{
    match element {
        Element::Booleans => byte_elements(alloc, bytes),
        Element::Bytes => byte_elements(alloc, bytes),
        Element::Shorts => short_elements(alloc, bytes),
        Element::Ints => int_elements(alloc, bytes),
    }
}

/// An array that the image lists.
fn first_array(alloc: Global, init: &ArrayInit) -> Result<HeapObject, NoMemory>
    ensures { IfOk result (λ o. o ≡ first_array init.now) }
{
    let element = element_by(init.type_);
    let items = elements(alloc, element, init.values.items())?;
    Ok(HeapObject::of_numbers(element, items))
}

/// The arrays of a package more.
pub fn push_arrays(alloc: Global, heap: &mut Heap, statics: &StaticField) -> Result<(), NoMemory>
    ensures { OnOk result (heap.new ≡ heap.old ++ map first_array statics.now.array_inits) }
{
    for init in statics.array_inits.items() {
        heap.push(first_array(alloc, init)?)?;
    }
    Ok(())
}

/// The arrays of a package from this number on, and null in what follows them.
#[tactic(auto, using(crate::proofs::ImageLaws::Spelling::one_more))]
fn first_references(
    alloc: Global,
    number: u32,
    arrays: usize,
    count: u64,
) -> Result<Vec<Value>, NoMemory>
    requires { number + arrays ≤ 2 ^ 32 }
    ensures { IfOk result (λ cells. cells.items ≡ objects_from number arrays ++ replicate (count - arrays) Null) }
{
    let mut cells = Vec::new(alloc);
    for i in 0..arrays {
        cells.push(Value::Obj(number + i as u32))?;
    }
    let others = count.saturating_sub(arrays as u64);
    for j in 0..others {
        cells.push(Value::Null)?;
    }
    Ok(cells)
}

/// So many zeros, and these bytes.
fn first_bytes(alloc: Global, zeros: u64, values: &[u8]) -> Result<Vec<u8>, NoMemory>
    ensures { IfOk result (λ bytes. bytes.items ≡ replicate zeros 0 ++ values.now) }
{
    let mut bytes = Vec::new(alloc);
    for i in 0..zeros {
        bytes.push(0)?;
    }
    bytes.extend_from_slice(values)?;
    Ok(bytes)
}

/// The image of a package before the first entry, whose first array has this number.
pub fn first_image(alloc: Global, number: u32, statics: &StaticField) -> Result<Image, NoMemory>
    requires { number + length statics.now.array_inits ≤ 2 ^ 32 }
    ensures { IfOk result (λ i. i ≡ first_image number statics.now) }
{
    let arrays = statics.array_inits.items().len();
    let references = first_references(alloc, number, arrays, statics.reference_count)?;
    let bytes = first_bytes(alloc, statics.default_value_count, statics.values.items())?;
    Ok(Image { references, bytes })
}
