//! Types as descriptors say them: of numbers, of references by the class or the array, or of no value; and what
//! each holds at first. It asks no look-up and no heap.

ghost use Rattle.std.specs.Prelude.{◌≡◌, ◌≤◌, length, option_map, IfOk};
ghost use Rattle.cjc_jvm_semantics.specs.LowerBytes.Descriptor.{part_at};
ghost use Rattle.cjc_jvm_step.specs.Script.Sorts.{sort_of, sort_by, element_sort, zero_of};
ghost use Rattle.cjc_jvm_step.specs.Heap.Kinds.{elements_of};
ghost use Rattle.cjc_jvm.specs.Acts.Meant.{sort_meant};

use cjc_jvm_semantics::bytes::{Desc, Kind, NoMemory};
use cjc_jvm_semantics::script::Value;
use cjc_jvm_step::heap::Element;
use cjc_jvm_step::step::{Shape, shape_named};

/// A type of numbers, of references, or of no value.
#[derive(Clone, Copy)]
pub enum Sort<'a> {
    Boolean,
    Byte,
    Short,
    Int,
    Reference(Shape<'a>),
    NoValue,
}

// A class or an array by its name.
fn reference_to(name: &[u8]) -> Result<Sort<'_>, NoMemory>
    ensures { IfOk result (λ sort. sort_meant sort ≡ sort_by Kind.Ref name.now) }
{
    match shape_named(name)? {
        Some(shape) => Ok(Sort::Reference(shape)),
        None => Ok(Sort::NoValue),
    }
}

// A type by its kind and its name.
fn sort_by(kind: Kind, name: &[u8]) -> Result<Sort<'_>, NoMemory>
    ensures { IfOk result (λ sort. sort_meant sort ≡ sort_by kind name.now) }
{
    match kind {
        Kind::Bool => Ok(Sort::Boolean),
        Kind::Byte => Ok(Sort::Byte),
        Kind::Short => Ok(Sort::Short),
        Kind::Int => Ok(Sort::Int),
        Kind::Other => Ok(Sort::NoValue),
        Kind::Ref => Ok(reference_to(name)?),
        Kind::Void => Ok(Sort::NoValue),
    }
}

/// The type of the parameter at a place; behind them, of the result.
pub(crate) fn sort_at<'a>(desc: &Desc<'a>, i: u32) -> Result<Sort<'a>, NoMemory>
    requires { i ≤ length desc.now.params }
    ensures { IfOk result (λ sort. sort_meant sort ≡ sort_of (part_at desc.now i)) }
{
    sort_by(desc.kind(i), desc.class(i))
}

/// The type of an element.
pub(crate) fn element_sort(element: Element) -> Sort<'static>
    ensures { sort_meant result ≡ element_sort (elements_of element) }
{
    match element {
        Element::Boolean => Sort::Boolean,
        Element::Byte => Sort::Byte,
        Element::Short => Sort::Short,
        Element::Int => Sort::Int,
    }
}

/// What an element of a type holds at first.
pub(crate) fn zero_of(sort: Sort<'_>) -> Value
    ensures { result ≡ zero_of (sort_meant sort.entry) }
{
    match sort {
        Sort::Reference(_) => Value::Null,
        Sort::Boolean => Value::Num(0),
        Sort::Byte => Value::Num(0),
        Sort::Short => Value::Num(0),
        Sort::Int => Value::Num(0),
        Sort::NoValue => Value::Num(0),
    }
}
