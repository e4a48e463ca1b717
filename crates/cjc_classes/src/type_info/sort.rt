//! The types of values as descriptors say them. Called by whoever writes types and by whoever lays out the
//! cells of static fields. Nothing here takes memory; a descriptor whose length 32 bits don't count, which no
//! class file has, is taken for want of it.

ghost use Rattle.std.specs.Prelude.{◌≡◌, IfOk};
ghost use Rattle.cjc_bytes.specs.Spots.{desc_of, part_of};
ghost use Rattle.cjc_components.specs.LowerScript.Sorts.{array_by, field_sort, reference_to, shape_named, sort_by};
ghost use Rattle.cjc_components.specs.LowerScript.Sorts.{sort_of};
ghost use Rattle.cjc_classes.specs.TypeInfo.Meant.{sort_meant};

use cjc_bytes::{Desc, Kind, NoMemory};

/// The type of a value.
#[derive(Clone, Copy)]
pub enum Sort<'a> {
    Boolean,
    Byte,
    Short,
    Int,
    /// A class or an interface, by its name.
    Class(&'a [u8]),
    /// Arrays of numbers.
    Booleans,
    Bytes,
    Shorts,
    Ints,
    /// Arrays of references to a class, by its name.
    Array(&'a [u8]),
    /// char, long, float, double, arrays of these, and arrays of arrays: no value has such a type.
    NoValue,
}

/// The parts of a descriptor, or nothing where the bytes are none.
pub fn parsed(desc: &[u8]) -> Result<Option<Desc<'_>>, NoMemory>
    ensures { IfOk result (λ parts. parts ≡ desc_of desc.now) }
{
    if desc.len() >= 1 << 32 {
        return Err(NoMemory);
    }
    match Desc::parse(desc) {
        Ok(parsed) => Ok(Some(parsed)),
        Err(_) => Ok(None),
    }
}

/// An array by the bytes of its elements' type.
fn array_of(element: &[u8]) -> Sort<'_>
    ensures { sort_meant result ≡ reference_to (array_by (part_of element.now)) }
{
    match element {
        [b'Z', ..] => Sort::Booleans,
        [b'B', ..] => Sort::Bytes,
        [b'S', ..] => Sort::Shorts,
        [b'I', ..] => Sort::Ints,
        [b'L', b'[', ..] => Sort::NoValue,
        [b'L', _] => Sort::NoValue,
        [b'L', class @ .., _] => Sort::Array(class),
        _ => Sort::NoValue,
    }
}

/// What the name of a class or the descriptor of an array stands for.
fn reference_to(name: &[u8]) -> Result<Sort<'_>, NoMemory>
    ensures { IfOk result (λ sort. sort_meant sort ≡ reference_to (shape_named name.now)) }
{
    match name {
        [] => Ok(Sort::NoValue),
        [b'[', element @ ..] => match parsed(name)? {
            Some(_) => Ok(array_of(element)),
            None => Ok(Sort::NoValue),
        },
        _ => Ok(Sort::Class(name)),
    }
}

/// A type by its kind and its class.
pub fn sort_by(kind: Kind, name: &[u8]) -> Result<Sort<'_>, NoMemory>
    ensures { IfOk result (λ sort. sort_meant sort ≡ sort_by kind name.now) }
{
    match kind {
        Kind::Bool => Ok(Sort::Boolean),
        Kind::Byte => Ok(Sort::Byte),
        Kind::Short => Ok(Sort::Short),
        Kind::Int => Ok(Sort::Int),
        Kind::Ref => Ok(reference_to(name)?),
        Kind::Other => Ok(Sort::NoValue),
        Kind::Void => Ok(Sort::NoValue),
    }
}

/// The type of the result; of a field's descriptor its type.
pub fn result_sort<'a>(desc: &Desc<'a>) -> Result<Sort<'a>, NoMemory>
    ensures { IfOk result (λ sort. sort_meant sort ≡ sort_of desc.now.result) }
{
    let (kind, class) = desc.result_type();
    sort_by(kind, class)
}

/// The type of a field.
pub fn field_sort(desc: &[u8]) -> Result<Sort<'_>, NoMemory>
    ensures { IfOk result (λ sort. sort_meant sort ≡ field_sort desc.now) }
{
    match parsed(desc)? {
        Some(parsed) => {
            let sort = result_sort(&parsed)?;
            Ok(sort)
        }
        None => Ok(Sort::NoValue),
    }
}
