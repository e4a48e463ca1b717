//! What several components share: numbers in their low bytes, lists behind their count, references to classes
//! and static members (6.1, 6.7.3). Called by the module of each component, of which it knows none.

ghost use Rattle.std.specs.Prelude.{◌≡◌, ◌++◌, length, OnOk};
ghost use Rattle.std.specs.List.{flat_map};
ghost use Rattle.cjc_capwrite.specs.Parts.{one, two, bytes1, bytes2, class_bytes, static_bytes};
ghost use Rattle.cjc_capwrite.specs.Class.{nibbles};

use cjc_capread::bytes::{NoMemory, Out};
use cjc_capread::{ClassRef, StaticRef};

/// The low byte of a number.
pub(crate) fn put_one(out: &mut Out, n: u64) -> Result<(), NoMemory>
    ensures { OnOk result (out.new ≡ out.old ++ one n) }
{
    out.put1((n % 256) as u8)
}

/// The low two bytes of a number.
pub(crate) fn put_two(out: &mut Out, n: u64) -> Result<(), NoMemory>
    ensures { OnOk result (out.new ≡ out.old ++ two n) }
{
    out.put2((n % 65536) as u16)
}

/// Two nibbles in a byte.
pub(crate) fn put_nibbles(out: &mut Out, high: u8, low: u8) -> Result<(), NoMemory>
    ensures { OnOk result (out.new ≡ out.old ++ nibbles high low) }
{
    out.put1(high % 16 * 16 + low % 16)
}

/// A number of items in one byte.
pub(crate) fn put_count1<T>(out: &mut Out, items: &[T]) -> Result<(), NoMemory>
    ensures { OnOk result (out.new ≡ out.old ++ one (length items.now)) }
{
    put_one(out, items.len() as u64)
}

/// A number of items in two bytes.
pub(crate) fn put_count2<T>(out: &mut Out, items: &[T]) -> Result<(), NoMemory>
    ensures { OnOk result (out.new ≡ out.old ++ two (length items.now)) }
{
    put_two(out, items.len() as u64)
}

/// Bytes behind their number in one byte.
pub(crate) fn put_bytes1(out: &mut Out, bytes: &[u8]) -> Result<(), NoMemory>
    ensures { OnOk result (out.new ≡ out.old ++ bytes1 bytes.now) }
{
    put_count1(out, bytes)?;
    out.put_slice(bytes)
}

/// Bytes behind their number in two bytes.
pub(crate) fn put_bytes2(out: &mut Out, bytes: &[u8]) -> Result<(), NoMemory>
    ensures { OnOk result (out.new ≡ out.old ++ bytes2 bytes.now) }
{
    put_count2(out, bytes)?;
    out.put_slice(bytes)
}

/// The low two bytes of each number.
pub(crate) fn put_numbers(out: &mut Out, numbers: &[u64]) -> Result<(), NoMemory>
    ensures { OnOk result (out.new ≡ out.old ++ flat_map two numbers.now) }
{
    for number in numbers {
        put_two(out, *number)?;
    }
    Ok(())
}

/// A reference to a class, of this package or of an imported one.
pub(crate) fn put_class_ref(out: &mut Out, class: ClassRef) -> Result<(), NoMemory>
    ensures { OnOk result (out.new ≡ out.old ++ class_bytes class) }
{
    match class {
        ClassRef::Inside(offset) => put_two(out, offset),
        ClassRef::Outside { package, class } => {
            put_one(out, 0x80 + u64::from(package))?;
            out.put1(class)
        }
    }
}

/// References to classes, one behind another.
pub(crate) fn put_class_refs(out: &mut Out, classes: &[ClassRef]) -> Result<(), NoMemory>
    ensures { OnOk result (out.new ≡ out.old ++ flat_map class_bytes classes.now) }
{
    for class in classes {
        put_class_ref(out, *class)?;
    }
    Ok(())
}

/// A reference to a static field or a method, of this package or of an imported one.
pub(crate) fn put_static_ref(out: &mut Out, member: StaticRef) -> Result<(), NoMemory>
    ensures { OnOk result (out.new ≡ out.old ++ static_bytes member) }
{
    match member {
        StaticRef::Inside(offset) => {
            out.put1(0)?;
            put_two(out, offset)
        }
        StaticRef::Outside {
            package,
            class,
            token,
        } => {
            put_one(out, 0x80 + u64::from(package))?;
            out.put1(class)?;
            out.put1(token)
        }
    }
}
