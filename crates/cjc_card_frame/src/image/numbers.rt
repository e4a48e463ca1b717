//! Numbers in bytes, high bytes first, by the letters b, s and i. Called by images, before the first entry and in it.

ghost use Rattle.std.specs.Prelude.{◌≡◌, ◌+◌, ◌≤◌, length, option_map, slice_set, FitsSigned, IfSome};
ghost use Rattle.std.specs.Int.{w8, w16};
ghost use Rattle.cjc_card_semantics.specs.Bytecode.Effects.{Byte, Int, Short};
ghost use Rattle.cjc_card_semantics.specs.Script.declared.value.Value.TheVariants.{Num};
ghost use Rattle.cjc_card_semantics.specs.Machine.Statics.{number_bytes, number_in, overwritten};

/// The number of one byte at the front of bytes.
pub(crate) fn byte_in(bytes: &[u8]) -> Option<i32>
    ensures is { option_map Num result ≡ number_in Byte bytes.now }
    ensures enough { IfSome result (λ z. 1 ≤ length bytes.now) }
{
    if bytes.is_empty() {
        return None;
    }
    Some(i32::from(bytes[0].cast_signed()))
}

/// The number of two bytes at the front of bytes.
pub(crate) fn short_in(bytes: &[u8]) -> Option<i32>
    ensures is { option_map Num result ≡ number_in Short bytes.now }
    ensures enough { IfSome result (λ z. 2 ≤ length bytes.now) }
{
    if bytes.len() < 2 {
        return None;
    }
    let number = 256 * u16::from(bytes[0]) + u16::from(bytes[1]);
    Some(i32::from(number.cast_signed()))
}

/// The number of four bytes at the front of bytes.
pub(crate) fn int_in(bytes: &[u8]) -> Option<i32>
    ensures is { option_map Num result ≡ number_in Int bytes.now }
    ensures enough { IfSome result (λ z. 4 ≤ length bytes.now) }
{
    if bytes.len() < 4 {
        return None;
    }
    let high = 16777216 * u32::from(bytes[0]) + 65536 * u32::from(bytes[1]);
    let number = high + 256 * u32::from(bytes[2]) + u32::from(bytes[3]);
    Some(number.cast_signed())
}

/// Writes a number of one byte.
pub(crate) fn set_byte(bytes: &mut Vec<u8>, at: usize, number: i32)
    requires there { at + 1 ≤ length bytes.old.items }
    requires fits { FitsSigned w8 number }
    ensures { bytes.new.items ≡ overwritten bytes.old.items at (number_bytes Byte (Num number)) }
{
    bytes[at] = (number as i8).cast_unsigned();
}

/// Writes a number of two bytes.
pub(crate) fn set_short(bytes: &mut Vec<u8>, at: usize, number: i32)
    requires there { at + 2 ≤ length bytes.old.items }
    requires fits { FitsSigned w16 number }
    ensures { bytes.new.items ≡ overwritten bytes.old.items at (number_bytes Short (Num number)) }
{
    let bits = (number as i16).cast_unsigned();
    bytes[at] = (bits / 256) as u8;
    bytes[at + 1] = (bits % 256) as u8;
}

/// Writes a number of four bytes.
pub(crate) fn set_int(bytes: &mut Vec<u8>, at: usize, number: i32)
    requires { at + 4 ≤ length bytes.old.items }
    ensures { bytes.new.items ≡ overwritten bytes.old.items at (number_bytes Int (Num number)) }
{
    let bits = number.cast_unsigned();
    bytes[at] = (bits / 16777216) as u8;
    bytes[at + 1] = (bits / 65536 % 256) as u8;
    bytes[at + 2] = (bits / 256 % 256) as u8;
    bytes[at + 3] = (bits % 256) as u8;
}
