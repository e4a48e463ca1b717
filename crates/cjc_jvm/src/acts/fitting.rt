//! Whether a value of a script is of the type that a descriptor says, by the class of its object; of the
//! arguments of a call in code only whether they are numbers and references where it wants them.

ghost use Rattle.std.specs.Prelude.{◌≡◌, List, None, option_map, map, IfOk};
ghost use Rattle.cjc_jvm_step.specs.Script.declared.report.Thing.{Thing};
ghost use Rattle.cjc_jvm_semantics.specs.Linked.{Linked};
ghost use Rattle.cjc_jvm_step.specs.Script.Sorts.{shape_name, fits, all_fit, result_fits};
ghost use Rattle.cjc_jvm_semantics.specs.Machine.{is_of_sort, are_of_sorts, object_fits};
ghost use Rattle.cjc_jvm_step.specs.Step.Names.{shape_meant};
ghost use Rattle.cjc_jvm.specs.Acts.Meant.{sort_meant};

use crate::acts::sort::Sort;
use cjc_jvm_semantics::bytes::NoMemory;
use cjc_jvm_semantics::script::Value;
use cjc_jvm_step::frame::is_kind;
use cjc_jvm_step::heap::Heap;
use cjc_jvm_step::step::{LookUps, Shape, array_of};
use std::alloc::Global;

// Whether a type is of a shape, as a script asks.
fn is_of_shape<L: LookUps>(
    alloc: Global,
    links: &L,
    sub: &[u8],
    shape: Shape<'_>,
) -> Result<bool, NoMemory>
    ensures { IfOk result (λ is. is ≡ (L.linked links.now).subtype None sub.now
        (shape_name (shape_meant shape.entry))) }
{
    match shape {
        Shape::Class(class) => Ok(links.is_subtype(None, sub, class)),
        Shape::Numbers(element) => Ok(links.is_subtype(None, sub, element.array_name())),
        Shape::References(class) => {
            let desc = array_of(alloc, class)?;
            Ok(links.is_subtype(None, sub, desc.items()))
        }
    }
}

// Whether the array or object of a number is of a shape.
fn object_fits<L: LookUps>(
    alloc: Global,
    links: &L,
    heap: &Heap<'_>,
    number: u32,
    shape: Shape<'_>,
) -> Result<bool, NoMemory>
    ensures { IfOk result (λ is. is ≡ object_fits (L.linked links.now) heap.now number (shape_meant shape.entry)) }
{
    match heap.type_at(number) {
        Some(sub) => Ok(is_of_shape(alloc, links, sub, shape)?),
        None => Ok(false),
    }
}

// Whether a number is of a type.
fn number_fits(sort: Sort<'_>, z: i32) -> bool
    ensures { (l : Linked) (heap : List Thing) → result ≡ fits (object_fits l heap) (sort_meant sort.entry)
        (Value.Num z) }
{
    match sort {
        Sort::Boolean => 0 <= z && z <= 1,
        Sort::Byte => -128 <= z && z <= 127,
        Sort::Short => -32768 <= z && z <= 32767,
        Sort::Int => true,
        Sort::Reference(_) => false,
        Sort::NoValue => false,
    }
}

/// Whether a value is of a type.
pub fn fits<L: LookUps>(
    alloc: Global,
    links: &L,
    heap: &Heap<'_>,
    sort: Sort<'_>,
    value: Value,
) -> Result<bool, NoMemory>
    ensures { IfOk result (λ fit. fit ≡ fits (object_fits (L.linked links.now) heap.now) (sort_meant sort.entry)
        value) }
{
    match value {
        Value::Num(z) => Ok(number_fits(sort, z)),
        Value::Null => Ok(matches!(sort, Sort::Reference(_))),
        Value::Obj(number) => match sort {
            Sort::Reference(shape) => Ok(object_fits(alloc, links, heap, number, shape)?),
            Sort::Boolean => Ok(false),
            Sort::Byte => Ok(false),
            Sort::Short => Ok(false),
            Sort::Int => Ok(false),
            Sort::NoValue => Ok(false),
        },
    }
}

/// Whether there are as many values as types, each of its own.
pub fn all_fit<L: LookUps>(
    alloc: Global,
    links: &L,
    heap: &Heap<'_>,
    sorts: &[Sort<'_>],
    values: &[Value],
) -> Result<bool, NoMemory>
    ensures { IfOk result (λ fit. fit ≡ all_fit (object_fits (L.linked links.now) heap.now) (map sort_meant sorts.now)
        values.now) }
{
    if sorts.len() != values.len() {
        return Ok(false);
    }
    for i in 0..sorts.len() {
        if !fits(alloc, links, heap, sorts[i], values[i])? {
            return Ok(false);
        }
    }
    Ok(true)
}

/// Whether there is a value of the type where there is one, and none otherwise.
pub fn result_fits<L: LookUps>(
    alloc: Global,
    links: &L,
    heap: &Heap<'_>,
    sort: Option<Sort<'_>>,
    value: Option<Value>,
) -> Result<bool, NoMemory>
    ensures { IfOk result (λ fit. fit ≡ result_fits (object_fits (L.linked links.now) heap.now) (option_map sort_meant
        sort.entry) value) }
{
    match (sort, value) {
        (Some(sort), Some(value)) => Ok(fits(alloc, links, heap, sort, value)?),
        (Some(_), None) => Ok(false),
        (None, Some(_)) => Ok(false),
        (None, None) => Ok(true),
    }
}

// A number for a type of numbers, a reference for a class or array.
fn is_of_sort(sort: Sort<'_>, value: Value) -> bool
    ensures { result ≡ is_of_sort (sort_meant sort.entry) value }
{
    match sort {
        Sort::Reference(_) => is_kind(true, value),
        Sort::NoValue => false,
        Sort::Boolean => is_kind(false, value),
        Sort::Byte => is_kind(false, value),
        Sort::Short => is_kind(false, value),
        Sort::Int => is_kind(false, value),
    }
}

/// Whether there are as many values as types, each a number or a reference as its type wants.
pub fn are_of_sorts(sorts: &[Sort<'_>], values: &[Value]) -> bool
    ensures { result ≡ are_of_sorts (map sort_meant sorts.now) values.now }
{
    if sorts.len() != values.len() {
        return false;
    }
    for i in 0..sorts.len() {
        if !is_of_sort(sorts[i], values[i]) {
            return false;
        }
    }
    true
}
