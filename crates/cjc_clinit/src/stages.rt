//! How far an initialiser is in a statement behind one instruction more, and what a statement puts.

ghost use Rattle.std.specs.Prelude.{◌≡◌, replicate, pos, slice_set, IfOk};
ghost use Rattle.cjc_clinit.specs.Initialiser.{element_kind, store};
ghost use Rattle.cjc_clinit.specs.Working.Reading.{after_newarray, after_null, after_number, after_return, after_stack};
ghost use Rattle.cjc_clinit.specs.Working.Reading.{after_store, contents_of, count_in, held_from, index_in, new_array};
ghost use Rattle.cjc_clinit.specs.Working.Reading.{stage_after, takes_from};

use crate::fields::{array_desc, fits, fits_kind, is_reference, number_kind};
use crate::stage::{Held, Stage};
use cjc_bytes::{Kind, NoMemory, Row};
use cjc_subset::bytecode::{JOp, jvm};
use std::alloc::Global;

const MOST_ITEMS: u32 = 32_767;

/// The kind of newarray's number of a type.
fn element_kind(number: u8) -> Option<Kind>
    ensures { result ≡ element_kind number }
{
    match number {
        4 => Some(Kind::Bool),
        8 => Some(Kind::Byte),
        9 => Some(Kind::Short),
        10 => Some(Kind::Int),
        _ => None,
    }
}

/// The store of an array's own: bastore, sastore or iastore.
fn store(kind: Kind) -> u8
    ensures { result ≡ store kind }
{
    match kind {
        Kind::Short => jvm::SASTORE,
        Kind::Int => jvm::IASTORE,
        _ => jvm::BASTORE,
    }
}

/// An index inside an array.
fn index_in(items: &[i32], number: i32) -> Option<u32>
    ensures { result ≡ index_in items.now number }
{
    match u32::try_from(number) {
        Ok(index) => {
            let count = items.len();
            if (index as usize) < count {
                Some(index)
            } else {
                None
            }
        }
        Err(_) => None,
    }
}

/// A number of items.
fn count_in(number: i32) -> Option<u32>
    ensures { result ≡ count_in number }
{
    match u32::try_from(number) {
        Ok(count) => {
            if count <= MOST_ITEMS {
                Some(count)
            } else {
                None
            }
        }
        Err(_) => None,
    }
}

fn indexed(kind: Kind, items: Row<i32>, number: i32) -> Option<Stage>
    ensures { result ≡ after_number number (Stage.Copied kind items) }
{
    match index_in(items.items(), number) {
        None => None,
        Some(index) => Some(Stage::Indexed(kind, items, index)),
    }
}

fn valued(kind: Kind, items: Row<i32>, index: u32, number: i32) -> Option<Stage>
    ensures { result ≡ after_number number (Stage.Indexed kind items index) }
{
    if fits(kind, number) {
        Some(Stage::Valued(kind, items, index, number))
    } else {
        None
    }
}

fn after_number(stage: Stage, number: i32) -> Option<Stage>
    ensures { result ≡ after_number number stage }
{
    match stage {
        Stage::Free => Some(Stage::Number(number)),
        Stage::Copied(kind, items) => indexed(kind, items, number),
        Stage::Indexed(kind, items, index) => valued(kind, items, index, number),
        _ => None,
    }
}

fn after_null(stage: Stage) -> Option<Stage>
    ensures { result ≡ after_null stage }
{
    match stage {
        Stage::Free => Some(Stage::Null),
        _ => None,
    }
}

fn after_return(stage: Stage, opcode: u8) -> Option<Stage>
    ensures { result ≡ after_return opcode stage }
{
    match stage {
        Stage::Free => {
            if opcode == jvm::RETURN {
                Some(Stage::Ended)
            } else {
                None
            }
        }
        _ => None,
    }
}

/// The array twice, where it has an item.
fn copied(opcode: u8, kind: Kind, items: Row<i32>) -> Option<Stage>
    ensures { result ≡ after_stack opcode (Stage.Array kind items) }
{
    let count = items.items().len();
    if opcode == jvm::DUP && count > 0 {
        Some(Stage::Copied(kind, items))
    } else {
        None
    }
}

fn after_stack(stage: Stage, opcode: u8) -> Option<Stage>
    ensures { result ≡ after_stack opcode stage }
{
    match stage {
        Stage::Array(kind, items) => copied(opcode, kind, items),
        _ => None,
    }
}

/// The items with another at an index.
fn with_item(items: Row<i32>, index: u32, value: i32) -> Row<i32>
    ensures { result ≡ slice_set items index value }
{
    let mut items = items.into_vec();
    if (index as usize) < items.len() {
        items[index as usize] = value;
    }
    Row::of(items)
}

fn stored(opcode: u8, kind: Kind, items: Row<i32>, index: u32, value: i32) -> Option<Stage>
    ensures { result ≡ after_store opcode (Stage.Valued kind items index value) }
{
    if opcode == store(kind) {
        Some(Stage::Array(kind, with_item(items, index, value)))
    } else {
        None
    }
}

fn after_store(stage: Stage, opcode: u8) -> Option<Stage>
    ensures { result ≡ after_store opcode stage }
{
    match stage {
        Stage::Valued(kind, items, index, value) => stored(opcode, kind, items, index, value),
        _ => None,
    }
}

/// An array of zeros.
fn zeros(alloc: Global, count: u32) -> Result<Row<i32>, NoMemory>
    ensures { IfOk result (λ items. items ≡ replicate count (pos 0)) }
{
    let items = vec![in alloc; 0i32; count as usize]?;
    Ok(Row::of(items))
}

fn new_array(
    alloc: Global,
    kind: Option<Kind>,
    count: Option<u32>,
) -> Result<Option<Stage>, NoMemory>
    ensures { IfOk result (λ stage. stage ≡ new_array kind count) }
{
    match (kind, count) {
        (Some(kind), Some(count)) => {
            let items = zeros(alloc, count)?;
            Ok(Some(Stage::Array(kind, items)))
        }
        _ => Ok(None),
    }
}

fn after_newarray(alloc: Global, stage: Stage, number: u8) -> Result<Option<Stage>, NoMemory>
    ensures { IfOk result (λ s. s ≡ after_newarray number stage) }
{
    match stage {
        Stage::Number(count) => new_array(alloc, element_kind(number), count_in(count)),
        _ => Ok(None),
    }
}

/// How far the statement is behind an instruction that puts nothing; None where none is that begins so.
#[tactic(auto, unfolding(crate::specs::Working::Reading::stage_after))]
pub(crate) fn stage_after(alloc: Global, stage: Stage, op: &JOp) -> Result<Option<Stage>, NoMemory>
    ensures { IfOk result (λ s. s ≡ stage_after stage op.now) }
{
    match op {
        JOp::Number(number) => Ok(after_number(stage, *number)),
        JOp::Null => Ok(after_null(stage)),
        JOp::Return(opcode) => Ok(after_return(stage, *opcode)),
        JOp::Stack(opcode) => Ok(after_stack(stage, *opcode)),
        JOp::ArrayStore(opcode) => Ok(after_store(stage, *opcode)),
        JOp::NewArray(number) => after_newarray(alloc, stage, *number),
        _ => Ok(None),
    }
}

/// Whether a field of a type takes what is on the stack.
pub(crate) fn takes(stage: &Stage, desc: &[u8]) -> bool
    ensures { result ≡ takes_from (contents_of stage.now) desc.now }
{
    match stage {
        Stage::Number(number) => fits_kind(number_kind(desc), *number),
        Stage::Null => is_reference(desc),
        Stage::Array(kind, _) => desc == array_desc(*kind),
        _ => false,
    }
}

/// What a field holds into which what is on the stack is put.
pub(crate) fn held_by(stage: &Stage) -> Held
    ensures { result ≡ held_from (contents_of stage.now) }
{
    match stage {
        Stage::Number(number) => Held::Number(*number),
        Stage::Null => Held::Null,
        Stage::Array(_, _) => Held::Array,
        _ => Held::Nothing,
    }
}
