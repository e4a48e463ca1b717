//! The jumps and switches of the card: the operands are taken off the stack, and the offset is answered that
//! the run goes on at. Called by `instruction`.

ghost use Rattle.std.specs.Prelude.{◌≡◌, ◌≤◌, ℕ, ℤ, List, length, drop, IfOk, IfSome};
ghost use Rattle.cjc_card_semantics.specs.Script.declared.value.Value.{Value};
ghost use Rattle.cjc_card_semantics.specs.Bytecode.Effects.{Branch, Pick, Stick, with_some};
ghost use Rattle.cjc_card_frame.specs.Meanings.{test_of};
ghost use Rattle.cjc_card_semantics.specs.CapRead.Decoder.Decoded.{numbers};
ghost use Rattle.cjc_card_semantics.specs.CapRead.Decoder.Shapes.{matches_of};
ghost use Rattle.cjc_card_semantics.specs.CapRead.declared.decoder.table.Matches.TheVariants.{Counted};
ghost use Rattle.cjc_card_semantics.specs.Machine.Loaded.{Loaded};
ghost use Rattle.cjc_card_semantics.specs.Machine.Operations.{moved, paired, ranged};
ghost use Rattle.cjc_card_step.specs.Effects.Deeds.{EffectByToken, MemoryByToken};
ghost use Rattle.cjc_card_step.specs.Rows.{IsStep, picked, row_of};

use crate::effects::Deed;
use crate::steps::instruction::Step;
use cjc_card_frame::fetch::{arm_of_pairs, arm_of_range, moved};
use cjc_card_frame::frame::{Cells, Choice};
use cjc_card_frame::opcodes::Condition;
use cjc_card_semantics::bytes::NoMemory;

// More than the offsets of any component.
const TOO_FAR: usize = 1 << 32;

// Going on at an offset. No memory is there for one of 2^32 or more.
fn go_to<'a>(offset: usize) -> Result<Step<'a>, NoMemory>
    ensures deed { IfOk result (λ step. step.deed ≡ Deed.Go) }
    ensures to { IfOk result (λ step. step.to ≡ offset) }
{
    if offset >= TOO_FAR {
        return Err(NoMemory);
    }
    Ok(Step {
        deed: Deed::Go,
        to: offset as u32,
    })
}

/// A jump so far from an offset, where its condition holds.
pub(crate) fn branch<'a>(
    cells: &mut Cells,
    at: u32,
    next: u32,
    condition: Condition,
    far: i32,
) -> Result<Step<'a>, NoMemory>
    ensures { IfOk result (λ step. (l : Loaded) (room : ℕ) (m : MemoryByToken)
        → IsStep (row_of l (Branch (test_of condition) (moved at far)) room next cells.old.locals m cells.old.stack)
        step cells.old cells.new m m) }
{
    match cells.ask(condition) {
        Choice::Takes(true) => go_to(moved(at as usize, far)),
        Choice::Takes(false) => Ok(Step {
            deed: Deed::Go,
            to: next,
        }),
        Choice::Neither => Ok(Step {
            deed: Deed::Stick,
            to: next,
        }),
    }
}

// The number that a switch takes, and how many words that is.
#[tactic(auto, using(cjc_card_frame::proofs::FrameLaws::Tops::top_number, cjc_card_frame::proofs::FrameLaws::Tops::top_int, cjc_card_frame::proofs::FrameLaws::Tops::number_high, cjc_card_frame::proofs::FrameLaws::Tops::int_high))]
fn picked(cells: &Cells, is_int: bool) -> Option<(i32, usize)>
    ensures is { (go : ℤ → List Value → EffectByToken) → picked is_int cells.now.stack go ≡ with_some Stick result
        (λ p. go p.0 (drop p.1 cells.now.stack)) }
    ensures there { IfSome result (λ p. p.1 ≤ length cells.now.stack) }
{
    if is_int {
        match cells.int(0) {
            Some(number) => Some((number, 2)),
            None => None,
        }
    } else {
        match cells.number(0) {
            Some(number) => Some((number, 1)),
            None => None,
        }
    }
}

/// A switch over the numbers from a low one on, by the bytes of its table.
pub(crate) fn switch_range<'a>(
    cells: &mut Cells,
    at: u32,
    next: u32,
    is_int: bool,
    other: i32,
    low: i32,
    table: &[u8],
) -> Result<Step<'a>, NoMemory>
    ensures { IfOk result (λ step. (l : Loaded) (room : ℕ) (m : MemoryByToken)
        → IsStep (row_of l (Pick is_int (moved at other) (ranged at low (numbers Counted table.now))) room next
        cells.old.locals m cells.old.stack) step cells.old cells.new m m) }
{
    let Some((number, taken)) = picked(cells, is_int) else {
        return Ok(Step {
            deed: Deed::Stick,
            to: next,
        });
    };
    let from = at as usize;
    let to = arm_of_range(from, moved(from, other), low, table, number);
    cells.forget(taken);
    go_to(to)
}

/// A switch over matches, by the bytes of its table.
pub(crate) fn switch_pairs<'a>(
    cells: &mut Cells,
    at: u32,
    next: u32,
    is_int: bool,
    other: i32,
    table: &[u8],
) -> Result<Step<'a>, NoMemory>
    ensures { IfOk result (λ step. (l : Loaded) (room : ℕ) (m : MemoryByToken)
        → IsStep (row_of l (Pick is_int (moved at other) (paired at (numbers (matches_of is_int) table.now))) room next
        cells.old.locals m cells.old.stack) step cells.old cells.new m m) }
{
    let Some((number, taken)) = picked(cells, is_int) else {
        return Ok(Step {
            deed: Deed::Stick,
            to: next,
        });
    };
    let from = at as usize;
    let to = arm_of_pairs(from, moved(from, other), is_int, table, number);
    cells.forget(taken);
    go_to(to)
}
