//! pop to swap, by which cells on top are references, which have one word, and which are numbers, which have two.

ghost use Rattle.std.specs.Prelude.{◌≡◌, ◌-◌, ◌≤◌, ◌++◌, if◌then◌else◌, map, take, OnOk};
ghost use Rattle.cjc_int_mode.specs.CapRead.Card as card;
ghost use Rattle.cjc_ncode.specs.declared.narrow.NInsn.TheVariants.{Words};
ghost use Rattle.cjc_ncode.specs.IntCode.IntCode.{copied, dropped, on_stack, words};

use cjc_ncode::NInsn;
use cjc_ncode::bytecode::jvm;
use cjc_ncode::bytes::{NoMemory, Row};
use cjc_ncode::capread::card;

/// pop of a reference, pop2 of a number.
fn dropped(is_reference: bool) -> NInsn
    ensures { result ≡ dropped is_reference }
{
    if is_reference {
        NInsn::Op(card::POP)
    } else {
        NInsn::Op(card::POP2)
    }
}

/// The cells on top, so many.
fn top(cells: usize, references: &[bool]) -> &[bool]
    ensures { result.now ≡ take cells references.now }
{
    if cells < references.len() {
        &references[..cells]
    } else {
        references
    }
}

/// Puts what drops these cells at the end.
fn put_dropped(out: &mut Row<NInsn>, cells: &[bool]) -> Result<(), NoMemory>
    ensures { OnOk result (out.new ≡ out.old ++ map dropped cells.now) }
{
    for is_reference in cells {
        out.push(dropped(*is_reference))?;
    }
    Ok(())
}

fn width(is_reference: bool) -> u8
    ensures { result ≡ (if is_reference then 1 else 2) }
{
    if is_reference { 1 } else { 2 }
}

/// The words of the cells on top.
fn words(cells: usize, references: &[bool]) -> u8
    requires { cells ≤ 4 }
    ensures words { result ≡ words cells references.now }
    ensures few { result ≤ 8 }
{
    let kept = top(cells, references);
    let mut sum = 0;
    for is_reference in kept {
        sum += width(*is_reference);
    }
    sum
}

/// dup, dup2, or dup_x of more words.
fn copied(words: u8) -> NInsn
    ensures { result ≡ copied words }
{
    match words {
        1 => NInsn::Op(card::DUP),
        2 => NInsn::Op(card::DUP2),
        _ => NInsn::Words {
            op: card::DUP_X,
            m: words,
            n: 0,
        },
    }
}

/// dup_x of the words of the cells on top, with those that they go below.
fn copied_below(cells: usize, below: usize, references: &[bool]) -> NInsn
    requires cells { cells ≤ 4 }
    requires below { below ≤ 4 }
    ensures { result ≡ Words card.dup_x (words cells references.now) (words below references.now) }
{
    NInsn::Words {
        op: card::DUP_X,
        m: words(cells, references),
        n: words(below, references),
    }
}

fn swapped(references: &[bool]) -> NInsn
    ensures { result ≡ Words card.swap_x (words 1 references.now) (words 2 references.now - words 1 references.now) }
{
    let above = words(1, references);
    let both = words(2, references);
    NInsn::Words {
        op: card::SWAP_X,
        m: above,
        n: both.saturating_sub(above),
    }
}

/// pop to swap.
pub(crate) fn put_stack(out: &mut Row<NInsn>, op: u8, references: &[bool]) -> Result<(), NoMemory>
    ensures { OnOk result (out.new ≡ out.old ++ on_stack op references.now) }
{
    match op {
        jvm::POP => put_dropped(out, top(1, references)),
        jvm::POP2 => put_dropped(out, top(2, references)),
        jvm::DUP => out.push(copied(words(1, references))),
        jvm::DUP2 => out.push(copied(words(2, references))),
        jvm::DUP_X1 => out.push(copied_below(1, 2, references)),
        jvm::DUP_X2 => out.push(copied_below(1, 3, references)),
        jvm::DUP2_X1 => out.push(copied_below(2, 3, references)),
        jvm::DUP2_X2 => out.push(copied_below(2, 4, references)),
        _ => out.push(swapped(references)),
    }
}
