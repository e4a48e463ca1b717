//! Opcodes of the card for opcodes of class files. Knows no operand.

ghost use Rattle.std.specs.Prelude.{◌≡◌, ◌<◌};
ghost use Rattle.cjc_ncode.specs.Written.{arithmetic, array_load, array_store, condition, element_number, leaving, on_stack};

use cjc_ncode::NInsn;

/// aaload, baload and saload.
pub(crate) fn array_load(op: u8) -> u8
    ensures { result ≡ array_load op }
{
    match op {
        0x32 => 0x24,
        0x33 => 0x25,
        _ => 0x26,
    }
}

/// aastore, bastore and sastore.
pub(crate) fn array_store(op: u8) -> u8
    ensures { result ≡ array_store op }
{
    match op {
        0x53 => 0x37,
        0x54 => 0x38,
        _ => 0x39,
    }
}

/// pop to swap.
pub(crate) fn on_stack(op: u8) -> NInsn
    ensures { result ≡ on_stack op }
{
    let (m, n) = match op {
        0x57 => return NInsn::Op(0x3B),
        0x58 => return NInsn::Op(0x3C),
        0x59 => return NInsn::Op(0x3D),
        0x5C => return NInsn::Op(0x3E),
        0x5A => (1, 2),
        0x5B => (1, 3),
        0x5D => (2, 3),
        0x5E => (2, 4),
        _ => return NInsn::Words {
            op: 0x40,
            m: 1,
            n: 1,
        },
    };
    NInsn::Words { op: 0x3F, m, n }
}

/// iadd to ixor.
pub(crate) fn arithmetic(op: u8) -> u8
    ensures { result ≡ arithmetic op }
{
    match op {
        0x60 => 0x41,
        0x64 => 0x43,
        0x68 => 0x45,
        0x6C => 0x47,
        0x70 => 0x49,
        0x74 => 0x4B,
        0x78 => 0x4D,
        0x7A => 0x4F,
        0x7C => 0x51,
        0x7E => 0x53,
        0x80 => 0x55,
        _ => 0x57,
    }
}

/// The conditional jumps in their narrow form.
pub(crate) fn condition(op: u8) -> u8
    ensures { result ≡ condition op }
{
    match op {
        0..=0x9E => op.saturating_sub(0x99) + 0x60,
        0x9F..=0xA4 => op - 0x9F + 0x6A,
        0xA5 => 0x68,
        0xA6 => 0x69,
        0xC6 => 0x66,
        _ => 0x67,
    }
}

/// ireturn, areturn and return.
pub(crate) fn leaving(op: u8) -> u8
    ensures { result ≡ leaving op }
{
    match op {
        0xAC => 0x78,
        0xB0 => 0x77,
        _ => 0x7A,
    }
}

/// The card's number of a newarray's type number.
pub(crate) fn element_number(number: u8) -> u8
    ensures { result ≡ element_number number }
{
    match number {
        4 => 10,
        8 => 11,
        9 => 12,
        _ => 13,
    }
}
