//! Opcodes of the card for opcodes of class files. Knows no operand.

ghost use Rattle.std.specs.Prelude.{◌≡◌, ◌<◌};
ghost use Rattle.cjc_ncode.specs.Written.{arithmetic, array_load, array_store, condition, element_number, leaving};
ghost use Rattle.cjc_ncode.specs.Written.{on_stack};

use cjc_ncode::NInsn;
use cjc_ncode::capread::card;
use cjc_types::bytecode::jvm;

/// aaload, baload and saload.
pub(crate) fn array_load(op: u8) -> u8
    ensures { result ≡ array_load op }
{
    match op {
        jvm::AALOAD => card::AALOAD,
        jvm::BALOAD => card::BALOAD,
        _ => card::SALOAD,
    }
}

/// aastore, bastore and sastore.
pub(crate) fn array_store(op: u8) -> u8
    ensures { result ≡ array_store op }
{
    match op {
        jvm::AASTORE => card::AASTORE,
        jvm::BASTORE => card::BASTORE,
        _ => card::SASTORE,
    }
}

/// pop to swap.
pub(crate) fn on_stack(op: u8) -> NInsn
    ensures { result ≡ on_stack op }
{
    let (m, n) = match op {
        jvm::POP => return NInsn::Op(card::POP),
        jvm::POP2 => return NInsn::Op(card::POP2),
        jvm::DUP => return NInsn::Op(card::DUP),
        jvm::DUP2 => return NInsn::Op(card::DUP2),
        jvm::DUP_X1 => (1, 2),
        jvm::DUP_X2 => (1, 3),
        jvm::DUP2_X1 => (2, 3),
        jvm::DUP2_X2 => (2, 4),
        _ => return NInsn::Words {
            op: card::SWAP_X,
            m: 1,
            n: 1,
        },
    };
    NInsn::Words {
        op: card::DUP_X,
        m,
        n,
    }
}

/// iadd to ixor.
pub fn arithmetic(op: u8) -> u8
    ensures { result ≡ arithmetic op }
{
    match op {
        jvm::IADD => card::SADD,
        jvm::ISUB => card::SSUB,
        jvm::IMUL => card::SMUL,
        jvm::IDIV => card::SDIV,
        jvm::IREM => card::SREM,
        jvm::INEG => card::SNEG,
        jvm::ISHL => card::SSHL,
        jvm::ISHR => card::SSHR,
        jvm::IUSHR => card::SUSHR,
        jvm::IAND => card::SAND,
        jvm::IOR => card::SOR,
        _ => card::SXOR,
    }
}

/// The conditional jumps in their narrow form.
pub(crate) fn condition(op: u8) -> u8
    ensures { result ≡ condition op }
{
    match op {
        0..=jvm::IFLE => op.saturating_sub(jvm::IFEQ) + card::IFEQ,
        jvm::IF_ICMPEQ..=jvm::IF_ICMPLE => op - jvm::IF_ICMPEQ + card::IF_SCMPEQ,
        jvm::IF_ACMPEQ => card::IF_ACMPEQ,
        jvm::IF_ACMPNE => card::IF_ACMPNE,
        jvm::IFNULL => card::IFNULL,
        _ => card::IFNONNULL,
    }
}

/// ireturn, areturn and return.
pub(crate) fn leaving(op: u8) -> u8
    ensures { result ≡ leaving op }
{
    match op {
        jvm::IRETURN => card::SRETURN,
        jvm::ARETURN => card::ARETURN,
        _ => card::RETURN,
    }
}

/// The card's number of a newarray's type number.
pub(crate) fn element_number(number: u8) -> u8
    ensures { result ≡ element_number number }
{
    match number {
        4 => 10,
        8 => 11,
        9 => 12,
        _ => 13,
    }
}
