//! What is written for an instruction of a method in int mode. Called by whoever selects code.

ghost use Rattle.std.specs.Prelude.{◌≡◌, ◌+◌, ◌++◌, ◌∷◌, [], ◌==◌, if◌then◌else◌, ℕ, true, length, OnOk};
ghost use Rattle.cjc_int_mode.specs.CapRead.Card as card;
ghost use Rattle.cjc_int_mode.specs.Bytecode.Jvm as jvm;
ghost use Rattle.cjc_int_mode.specs.Bytecode.declared.insn.JOp.TheVariants as jop;
ghost use Rattle.cjc_ncode.specs.declared.narrow.NInsn.TheVariants.{Inc, Op};
ghost use Rattle.cjc_ncode.specs.IntCode.IntCode.{Before as TableRow, Frame as Words, returned, written};
ghost use Rattle.cjc_ncode.specs.Written.{Resolution, arithmetic, is_byte, leaving};
ghost use Rattle.cjc_narrow.specs.Select.Working.Names.{resolution_of};
ghost use Rattle.cjc_narrow.specs.Written.Labels.{place_of};
ghost use Rattle.cjc_int_narrow.specs.Operands.{CanBeSaid};
ghost use Rattle.cjc_int_narrow.specs.Reached.{known};
ghost use Rattle.cjc_int_narrow.specs.Working.Puts.{gives_word, is_same, takes_word};

use crate::elements::{put_read, put_written};
use crate::frame::Frame;
use crate::known::Before;
use crate::names::{put_call, put_field, put_static};
use crate::numbers::{load, pushed, put_ops, store};
use crate::stack::put_stack;
use crate::switches::{put_comparison, put_lookup, put_table};
use cjc_narrow::select::Names;
use cjc_narrow::written::{Places, arithmetic, is_byte, put_plain};
use cjc_ncode::NInsn;
use cjc_ncode::bytecode::{JOp, jvm};
use cjc_ncode::bytes::{NoMemory, Row};
use cjc_ncode::capread::card;
use std::alloc::Global;

/// iadd to ixor, on two words.
#[tactic(auto, using(crate::proofs::Opcodes::arithmetic_low))]
fn calculated(op: u8) -> NInsn
    ensures { result ≡ Op (arithmetic op + 1) }
{
    NInsn::Op(arithmetic(op) + 1)
}

/// iinc, with a number of one byte or of two.
fn increased(word: u8, by: i16) -> NInsn
    ensures { result ≡ Inc (if is_byte by then card.iinc else card.iinc_w) word by }
{
    NInsn::Inc {
        op: if is_byte(by) {
            card::IINC
        } else {
            card::IINC_W
        },
        index: word,
        by,
    }
}

/// i2b and i2s, whose value is a number of two words again.
fn put_narrow(out: &mut Row<NInsn>, op: u8) -> Result<(), NoMemory>
    ensures { OnOk result (out.new ≡ out.old ++ Op (if op == jvm.i2b then card.i2b else card.i2s) ∷ Op card.s2i ∷ []) }
{
    match op {
        jvm::I2B => put_ops(out, &[card::I2B, card::S2I]),
        _ => put_ops(out, &[card::I2S, card::S2I]),
    }
}

/// ireturn of an int, or of a value of one word.
#[tactic(auto, using(crate::proofs::Opcodes::returned_int, crate::proofs::Opcodes::returned_short))]
fn put_returned(out: &mut Row<NInsn>, frame: &Frame<'_>) -> Result<(), NoMemory>
    ensures { let f = frame.now in OnOk result (out.new ≡ out.old ++ returned f.result) }
{
    if frame.returns_int() {
        put_ops(out, &[card::IRETURN])
    } else {
        put_ops(out, &[card::I2S, card::SRETURN])
    }
}

/// ireturn, areturn and return.
fn put_return(out: &mut Row<NInsn>, frame: &Frame<'_>, op: u8) -> Result<(), NoMemory>
    ensures { let f = frame.now in OnOk result (out.new ≡ out.old ++ (if op == jvm.ireturn then returned f.result
        else Op (leaving op) ∷ [])) }
{
    match op {
        jvm::IRETURN => put_returned(out, frame),
        jvm::ARETURN => put_ops(out, &[card::ARETURN]),
        _ => put_ops(out, &[card::RETURN]),
    }
}

/// Every conditional jump.
fn put_if(
    out: &mut Row<NInsn>,
    alloc: Global,
    places: &Places<'_>,
    op: u8,
    target: u32,
    insn: &JOp,
) -> Result<(), NoMemory>
    requires { insn.now ≡ jop.If op target }
    ensures { (f : Words) (r : Resolution) (b : TableRow) (here : ℕ) → OnOk result (out.new ≡ out.old
        ++ written f r (place_of places.now) b here insn.now) }
{
    if op <= jvm::IF_ICMPLE {
        put_comparison(out, places, op, target)
    } else {
        put_plain(out, alloc, places, insn)
    }
}

/// An instruction that is written as in short mode.
fn put_same(
    out: &mut Row<NInsn>,
    alloc: Global,
    places: &Places<'_>,
    op: &JOp,
) -> Result<(), NoMemory>
    requires { is_same op.now ≡ true }
    ensures { (f : Words) (r : Resolution) (b : TableRow) (here : ℕ) → OnOk result (out.new ≡ out.old
        ++ written f r (place_of places.now) b here op.now) }
{
    put_plain(out, alloc, places, op)
}

/// An instruction of short mode whose value is one word, as a number of two words.
fn put_wide(
    out: &mut Row<NInsn>,
    alloc: Global,
    places: &Places<'_>,
    op: &JOp,
) -> Result<(), NoMemory>
    requires { gives_word op.now ≡ true }
    ensures { (f : Words) (r : Resolution) (b : TableRow) (here : ℕ) → OnOk result (out.new ≡ out.old
        ++ written f r (place_of places.now) b here op.now) }
{
    put_plain(out, alloc, places, op)?;
    out.push(NInsn::Op(card::S2I))
}

/// One that takes a number of one word.
fn put_cut(
    out: &mut Row<NInsn>,
    alloc: Global,
    places: &Places<'_>,
    op: &JOp,
) -> Result<(), NoMemory>
    requires { takes_word op.now ≡ true }
    ensures { (f : Words) (r : Resolution) (b : TableRow) (here : ℕ) → OnOk result (out.new ≡ out.old
        ++ written f r (place_of places.now) b here op.now) }
{
    out.push(NInsn::Op(card::I2S))?;
    put_plain(out, alloc, places, op)
}

/// Puts what is written for an instruction at the end.
pub(crate) fn put(
    out: &mut Row<NInsn>,
    alloc: Global,
    names: &Names<'_, '_>,
    places: &Places<'_>,
    frame: &Frame<'_>,
    before: &Before,
    op: &JOp,
) -> Result<(), NoMemory>
    requires { CanBeSaid frame.now op.now }
    ensures { OnOk result (out.new ≡ out.old ++ written frame.now (resolution_of names.now) (place_of places.now)
        (known before.now) (length out.old) op.now) }
{
    match op {
        JOp::Number(z) => out.push(pushed(*z)),
        JOp::Load { refs, local } => out.push(load(*refs, frame.first_word(*local))),
        JOp::Store { refs, local } => out.push(store(*refs, frame.first_word(*local))),
        JOp::ArrayLoad(op) => put_read(out, *op, before.is_index_inside),
        JOp::ArrayStore(op) => put_written(out, *op, before.is_index_inside),
        JOp::Stack(op) => put_stack(out, *op, before.references.items()),
        JOp::Arith(op) => out.push(calculated(*op)),
        JOp::Inc { local, by } => out.push(increased(frame.first_word(*local), *by)),
        JOp::Narrow(op) => put_narrow(out, *op),
        JOp::If { op: kind, target } => put_if(out, alloc, places, *kind, *target, op),
        JOp::TableSwitch {
            other,
            low,
            targets,
        } => put_table(out, alloc, places, *other, *low, targets.items()),
        JOp::LookupSwitch { other, cases } => {
            put_lookup(out, alloc, places, *other, cases.items())
        }
        JOp::Return(op) => put_return(out, frame, *op),
        JOp::Static { put, field } => put_static(out, alloc, names, *put, field),
        JOp::Field { put, field } => put_field(out, alloc, names, *put, field),
        JOp::Call { op, method } => put_call(out, alloc, names, frame, *op, method),
        JOp::ArrayLength | JOp::InstanceOf(_) => put_wide(out, alloc, places, op),
        JOp::NewArray(_) | JOp::ANewArray(_) => put_cut(out, alloc, places, op),
        JOp::Nop | JOp::Null | JOp::Goto(_) | JOp::New(_) | JOp::Throw | JOp::CheckCast(_) =>
            put_same(out, alloc, places, op),
    }
}
