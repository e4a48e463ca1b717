//! Numbers, and loads and stores of locals. Knows no instruction of class files.

ghost use Rattle.std.specs.Prelude.{◌≡◌, ◌++◌, ◌∷◌, [], map, OnOk};
ghost use Rattle.cjc_ncode.specs.declared.narrow.NInsn.TheVariants.{Op};
ghost use Rattle.cjc_ncode.specs.IntCode.IntCode.{loads, pushed, stores};

use cjc_narrow::written::local;
use cjc_ncode::NInsn;
use cjc_ncode::bytes::{NoMemory, Row};
use cjc_ncode::capread::card;

/// The instruction that pushes a number as two words.
pub(crate) fn pushed(z: i32) -> NInsn
    ensures { result ≡ pushed z }
{
    if -1 <= z && z <= 5 {
        NInsn::Op((z + 10) as u8)
    } else if -128 <= z && z <= 127 {
        NInsn::Push {
            op: card::BIPUSH,
            value: z,
        }
    } else if -32768 <= z && z <= 32767 {
        NInsn::Push {
            op: card::SIPUSH,
            value: z,
        }
    } else {
        NInsn::Push {
            op: card::IIPUSH,
            value: z,
        }
    }
}

/// The load of a reference, or of a number that begins at a word.
pub(crate) fn load(is_reference: bool, word: u8) -> NInsn
    ensures { loads is_reference word ≡ result ∷ [] }
{
    if is_reference {
        local(card::ALOAD_0, card::ALOAD, u16::from(word))
    } else {
        local(card::ILOAD_0, card::ILOAD, u16::from(word))
    }
}

/// The store of a reference, or of a number that begins at a word.
pub(crate) fn store(is_reference: bool, word: u8) -> NInsn
    ensures { stores is_reference word ≡ result ∷ [] }
{
    if is_reference {
        local(card::ASTORE_0, card::ASTORE, u16::from(word))
    } else {
        local(card::ISTORE_0, card::ISTORE, u16::from(word))
    }
}

/// Puts instructions without operands at the end.
pub(crate) fn put_ops(out: &mut Row<NInsn>, ops: &[u8]) -> Result<(), NoMemory>
    ensures { OnOk result (out.new ≡ out.old ++ map Op ops.now) }
{
    for op in ops {
        out.push(NInsn::Op(*op))?;
    }
    Ok(())
}
