//! Elements of arrays, whose index of two words becomes one. Called by whoever selects code.

ghost use Rattle.std.specs.Prelude.{◌≡◌, ◌+◌, ◌≤◌, ◌++◌, ◌∷◌, [], ◌==◌, if◌then◌else◌, length, IfOk, OnOk};
ghost use Rattle.cjc_int_mode.specs.Bytecode.Jvm as jvm;
ghost use Rattle.cjc_int_mode.specs.CapRead.Card as card;
ghost use Rattle.cjc_ncode.specs.declared.narrow.NInsn.TheVariants.{Op};
ghost use Rattle.cjc_ncode.specs.IntCode.IntCode.{element_read, element_written, guard};
ghost use Rattle.cjc_int_narrow.specs.Working.Elements.{index_below};

use crate::numbers::put_ops;
use cjc_ncode::NInsn;
use cjc_ncode::bytecode::jvm;
use cjc_ncode::bytes::{NoMemory, Row};
use cjc_ncode::capread::card;

/// The place so far behind the last instruction.
fn place_behind(out: &[NInsn], more: u32) -> Result<u32, NoMemory>
    requires { more ≤ 16 }
    ensures { IfOk result (λ place. place ≡ length out.now + more) }
{
    if out.len() > 0x7FFF_FFFF {
        Err(NoMemory)
    } else {
        Ok(out.len() as u32 + more)
    }
}

/// Puts a guard at the end that makes the index on top one word: -1 where it may not fit.
fn put_guard(out: &mut Row<NInsn>, is_inside: bool) -> Result<(), NoMemory>
    ensures { OnOk result (out.new ≡ out.old ++ guard is_inside (length out.old)) }
{
    if is_inside {
        return out.push(NInsn::Op(card::I2S));
    }
    let target = place_behind(out.items(), 8)?;
    put_ops(
        out,
        &[card::DUP2, card::DUP2, card::I2S, card::S2I, card::ICMP],
    )?;
    out.push(NInsn::Jump {
        op: card::IFEQ,
        target,
    })?;
    put_ops(out, &[card::POP2, card::ICONST_M1, card::I2S])
}

/// What reads an element, behind its index.
fn put_element(out: &mut Row<NInsn>, op: u8) -> Result<(), NoMemory>
    ensures { OnOk result (out.new ≡ out.old ++ element_read op) }
{
    match op {
        jvm::IALOAD => put_ops(out, &[card::IALOAD]),
        jvm::AALOAD => put_ops(out, &[card::AALOAD]),
        jvm::BALOAD => put_ops(out, &[card::BALOAD, card::S2I]),
        _ => put_ops(out, &[card::SALOAD, card::S2I]),
    }
}

/// iaload, aaload, baload, saload.
pub(crate) fn put_read(out: &mut Row<NInsn>, op: u8, is_inside: bool) -> Result<(), NoMemory>
    ensures { OnOk result (out.new ≡ out.old ++ guard is_inside (length out.old) ++ element_read op) }
{
    put_guard(out, is_inside)?;
    put_element(out, op)
}

/// Makes the index below a value of so many words one word.
fn put_index_below(out: &mut Row<NInsn>, is_inside: bool, words: u8) -> Result<(), NoMemory>
    ensures { OnOk result (out.new ≡ out.old ++ index_below words is_inside (length out.old)) }
{
    out.push(NInsn::Words {
        op: card::SWAP_X,
        m: words,
        n: 2,
    })?;
    put_guard(out, is_inside)?;
    out.push(NInsn::Words {
        op: card::SWAP_X,
        m: 1,
        n: words,
    })
}

/// Stores a value of so many words.
fn put_store(out: &mut Row<NInsn>, is_inside: bool, words: u8, op: u8) -> Result<(), NoMemory>
    ensures { OnOk result (out.new ≡ out.old ++ index_below words is_inside (length out.old) ++ Op op ∷ []) }
{
    put_index_below(out, is_inside, words)?;
    out.push(NInsn::Op(op))
}

fn narrow_store(op: u8) -> u8
    ensures { result ≡ (if op == jvm.bastore then card.bastore else card.sastore) }
{
    match op {
        jvm::BASTORE => card::BASTORE,
        _ => card::SASTORE,
    }
}

/// iastore, aastore, bastore, sastore.
pub(crate) fn put_written(out: &mut Row<NInsn>, op: u8, is_inside: bool) -> Result<(), NoMemory>
    ensures { OnOk result (out.new ≡ out.old ++ element_written op is_inside (length out.old)) }
{
    match op {
        jvm::IASTORE => put_store(out, is_inside, 2, card::IASTORE),
        jvm::AASTORE => put_store(out, is_inside, 1, card::AASTORE),
        _ => {
            out.push(NInsn::Op(card::I2S))?;
            put_store(out, is_inside, 1, narrow_store(op))
        }
    }
}
