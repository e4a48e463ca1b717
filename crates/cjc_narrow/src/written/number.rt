//! Numbers that are pushed. Knows no instruction of class files.

ghost use Rattle.std.specs.Prelude.{◌≡◌, ◌∷◌, []};
ghost use Rattle.cjc_types.specs.Range.Words.{low_word};
ghost use Rattle.cjc_ncode.specs.Written.{pushed, pushed_word};

use cjc_ncode::NInsn;
use cjc_ncode::capread::card;

/// The low word of a number, with its sign.
fn low_word(z: i32) -> i32
    ensures { result ≡ low_word z }
{
    let word = z.rem_euclid(65536).unsigned_abs() as u16;
    i32::from(word.cast_signed())
}

fn pushed_word(z: i32) -> NInsn
    ensures { result ≡ pushed_word z }
{
    if -1 <= z && z <= 5 {
        NInsn::Op((z + 3) as u8)
    } else if -128 <= z && z <= 127 {
        NInsn::Push {
            op: card::BSPUSH,
            value: z,
        }
    } else {
        NInsn::Push {
            op: card::SSPUSH,
            value: z,
        }
    }
}

/// The instruction that pushes the low word of a number.
pub fn pushed(z: i32) -> NInsn
    ensures { pushed z ≡ result ∷ [] }
{
    pushed_word(low_word(z))
}
