//! The types of objects and arrays by the classes that class_refs name, as nibbles (Java Card Virtual Machine
//! Specification 2.2.2, section 6.13.4).

ghost use Rattle.std.specs.Prelude.{◌≡◌, ◌∷◌, ◌++◌, ◌/◌, ◌%◌, [], IfOk, OnOk};
ghost use Rattle.cjc_card_acts.specs.CardFrame.Objects.{class_of};
ghost use Rattle.cjc_classes.specs.LowerComponents.Names.{ref_to};
ghost use Rattle.cjc_classes.specs.LowerComponents.Types.{ref_nibbles};
ghost use Rattle.cjc_verify.specs.ClassTypes.{array_type, class_type};

use cjc_bytes::{Bytes, NoMemory, Row};
use cjc_capread::ClassRef;
use cjc_card_calls::card_frame::heap::Class;
use std::alloc::Global;

/// Puts the nibbles of a byte at the end, the high one first.
fn put_byte(nibbles: &mut Bytes, byte: u8) -> Result<(), NoMemory>
    ensures { OnOk result (nibbles.new ≡ nibbles.old ++ byte / 16 ∷ byte % 16 ∷ []) }
{
    nibbles.push(byte / 16)?;
    nibbles.push(byte % 16)
}

/// Puts the nibbles of a class_ref at the end.
fn put_class(nibbles: &mut Bytes, class: ClassRef) -> Result<(), NoMemory>
    ensures { OnOk result (nibbles.new ≡ nibbles.old ++ ref_nibbles class) }
{
    match class {
        ClassRef::Inside(offset) => {
            let [high, low] = ((offset % 65_536) as u16).to_be_bytes();
            put_byte(nibbles, high)?;
            put_byte(nibbles, low)
        }
        ClassRef::Outside { package, class } => {
            put_byte(nibbles, ((0x80 + u64::from(package)) % 256) as u8)?;
            put_byte(nibbles, class)
        }
    }
}

/// The type of objects of a class.
pub(crate) fn class_type(alloc: Global, class: ClassRef) -> Result<Bytes, NoMemory>
    ensures { IfOk result (λ nibbles. nibbles ≡ class_type class) }
{
    let mut nibbles = Row::new(alloc);
    nibbles.push(0x6)?;
    put_class(&mut nibbles, class)?;
    Ok(nibbles)
}

/// The type of arrays of references to a class.
pub(crate) fn array_type(alloc: Global, class: ClassRef) -> Result<Bytes, NoMemory>
    ensures { IfOk result (λ nibbles. nibbles ≡ array_type class) }
{
    let mut nibbles = Row::new(alloc);
    nibbles.push(0xE)?;
    put_class(&mut nibbles, class)?;
    Ok(nibbles)
}

/// The type of objects of a class, by where it stands.
pub(crate) fn type_of_class(alloc: Global, class: Class) -> Result<Bytes, NoMemory>
    ensures { IfOk result (λ nibbles. nibbles ≡ class_type (ref_to (class_of class))) }
{
    match class {
        Class::Own(_, offset) => class_type(alloc, ClassRef::Inside(u64::from(offset))),
        Class::External(tree, token) => {
            let mut nibbles = Row::new(alloc);
            nibbles.push(0x6)?;
            put_byte(&mut nibbles, ((0x80 + u64::from(tree)) % 256) as u8)?;
            put_byte(&mut nibbles, token)?;
            Ok(nibbles)
        }
    }
}
