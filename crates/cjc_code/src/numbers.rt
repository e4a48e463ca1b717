//! The numbers that stand behind an opcode, read as what they are: unsigned or signed, of one byte or two, a
//! local. It knows no constant pool.

ghost use Rattle.std.specs.Prelude.{◌≡◌};
ghost use Rattle.cjc_code.specs.Numbers.{first, second, u16_of, u8_of, i16_of, local};

use crate::table::Family;

/// The first number; every instruction that is asked for it has it.
pub(crate) fn first(numbers: &[i32]) -> i32
    ensures { result ≡ first numbers.now }
{
    match numbers {
        [z, ..] => *z,
        [] => 0,
    }
}

/// The second number; every instruction that is asked for it has it.
pub(crate) fn second(numbers: &[i32]) -> i32
    ensures { result ≡ second numbers.now }
{
    match numbers {
        [_, z, ..] => *z,
        _ => 0,
    }
}

/// The number of an operand of two bytes without sign.
pub(crate) fn u16_of(z: i32) -> u16
    ensures { result ≡ u16_of z }
{
    if z < 0 || z > 65535 { 0 } else { z as u16 }
}

/// The number of an operand of one byte without sign.
pub(crate) fn u8_of(z: i32) -> u8
    ensures { result ≡ u8_of z }
{
    if z < 0 || z > 255 { 0 } else { z as u8 }
}

/// The number of an operand of two bytes with sign.
pub(crate) fn i16_of(z: i32) -> i16
    ensures { result ≡ i16_of z }
{
    if z < -32768 || z > 32767 { 0 } else { z as i16 }
}

/// The local that an instruction loads, stores or changes.
pub(crate) fn local(family: Family, numbers: &[i32]) -> Option<u16>
    ensures { result ≡ local family numbers.now }
{
    match family {
        Family::Load(_) | Family::Store(_) | Family::Inc | Family::UnsupportedLocal | Family::Ret =>
            { Some(u16_of(first(numbers))) }
        Family::LoadAt(_, n) | Family::StoreAt(_, n) | Family::UnsupportedLocalAt(n) => {
            Some(u16::from(n))
        }
        _ => None,
    }
}
