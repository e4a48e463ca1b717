//! The number at a place of bytes. Called by `operands` and `table`.

ghost use Rattle.std.specs.Prelude.{◌≡◌, ◌+◌, ◌*◌, ◌<◌, ◌≤◌, ◌^◌, drop, get_or, length, Some};
ghost use Rattle.cjc_capread.specs.Decode.{operand, signed};
ghost use Rattle.cjc_capread.specs.Opcodes.{width};
ghost use Rattle.cjc_capread.specs.Decoder.Shapes.{operand_of};

/// What an operand is: a number without sign or with, or an index into the constant pool, and its bytes.
#[derive(Clone, Copy)]
pub enum Kind {
    Byte,
    Signed1,
    Signed2,
    Signed4,
    Index1,
    Index2,
}

/// The number that an unsigned one stands for, where half is the first that stands for a negative number.
fn signed(half: u64, n: u64) -> i32
    requires below { n < half + half }
    requires half { half ≤ 2 ^ 31 }
    ensures { result ≡ signed half n }
{
    if n < half {
        n as i32
    } else {
        -1 - (half + half - 1 - n) as i32
    }
}

/// The unsigned number of two bytes, the high one first.
fn two(bytes: &[u8], at: usize) -> u64
    requires { at + 2 ≤ length bytes.now }
    ensures value { result ≡ 256 * get_or bytes.now at 0 + get_or bytes.now (at + 1) 0 }
    ensures small { result < 65536 }
{
    256 * u64::from(bytes[at]) + u64::from(bytes[at + 1])
}

/// The bytes of an operand.
pub fn width(kind: Kind) -> usize
    ensures { result ≡ width (operand_of kind) }
{
    match kind {
        Kind::Byte | Kind::Signed1 | Kind::Index1 => 1,
        Kind::Signed2 | Kind::Index2 => 2,
        Kind::Signed4 => 4,
    }
}

/// The operand of a kind that begins at a place.
pub fn operand(kind: Kind, bytes: &[u8], at: usize) -> i32
    requires { at + width (operand_of kind) ≤ length bytes.now }
    ensures { operand (operand_of kind) (drop at bytes.now) ≡ Some (record {
      value = result;
      rest = drop (at + width (operand_of kind)) bytes.now;
    }) }
{
    match kind {
        Kind::Byte | Kind::Index1 => i32::from(bytes[at]),
        Kind::Signed1 => signed(128, u64::from(bytes[at])),
        Kind::Signed2 => signed(32768, two(bytes, at)),
        Kind::Signed4 => signed(2147483648, 65536 * two(bytes, at) + two(bytes, at + 2)),
        Kind::Index2 => two(bytes, at) as i32,
    }
}
