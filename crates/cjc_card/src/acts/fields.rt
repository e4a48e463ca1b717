//! By a field's descriptor the letter with which it is read, and what it holds at first: 0, or null.

ghost use Rattle.std.specs.Prelude.{◌≡◌, option_map, IfOk};
ghost use Rattle.cjc_script.specs.Sorts.{Sort, field_sort, sort_by, zero_of};
ghost use Rattle.cjc_card_frame.specs.Meanings.{letter_of};
ghost use Rattle.cjc_card_semantics.specs.Machine.ByToken.{letter_of as letter_by};

use cjc_card_frame::jvm_step::step::shape_named;
use cjc_card_frame::opcodes::Letter;
use cjc_script::Value;
use cjc_script::bytes::{Desc, Kind, NoMemory};

// More bytes than the descriptors of any file have.
const TOO_LONG: usize = 1 << 32;

// The letter of a type by its kind and its name.
fn letter_by(kind: Kind, class: &[u8]) -> Result<Option<Letter>, NoMemory>
    ensures { IfOk result (λ letter. option_map letter_of letter ≡ letter_by (sort_by kind class.now)) }
{
    match kind {
        Kind::Bool => Ok(Some(Letter::Byte)),
        Kind::Byte => Ok(Some(Letter::Byte)),
        Kind::Short => Ok(Some(Letter::Short)),
        Kind::Int => Ok(Some(Letter::Int)),
        Kind::Other => Ok(None),
        Kind::Ref => match shape_named(class)? {
            Some(_) => Ok(Some(Letter::Reference)),
            None => Ok(None),
        },
        Kind::Void => Ok(None),
    }
}

/// The letter by which a field of a descriptor is read. No memory is there for a descriptor of 2^32 bytes or more.
pub fn field_letter(desc: &[u8]) -> Result<Option<Letter>, NoMemory>
    ensures { IfOk result (λ letter. option_map letter_of letter ≡ letter_by (field_sort desc.now)) }
{
    if desc.len() >= TOO_LONG {
        return Err(NoMemory);
    }
    match Desc::parse(desc) {
        Ok(desc) => {
            let count = desc.params();
            letter_by(desc.kind(count), desc.class(count))
        }
        Err(_) => Ok(None),
    }
}

/// What a field of a letter holds at first.
pub fn zero_of(letter: Option<Letter>) -> Value
    ensures { (sort : Sort) → option_map letter_of letter ≡ letter_by sort → result ≡ zero_of sort }
{
    match letter {
        Some(Letter::Reference) => Value::Null,
        Some(Letter::Byte) => Value::Num(0),
        Some(Letter::Short) => Value::Num(0),
        Some(Letter::Int) => Value::Num(0),
        None => Value::Num(0),
    }
}
