//! Where instructions may jump, as offsets from the start of the info of Method (Java Card Virtual Machine
//! Specification 2.2.2, chapter 7). Called by `acts`.

ghost use Rattle.std.specs.Prelude.{◌≡◌, ◌++◌, ◌∷◌, [], map, OnOk};
ghost use Rattle.cjc_capread.specs.Decoder.Decoded.{instruction_of, numbers_of, values};
ghost use Rattle.cjc_card_acts.specs.CardSemantics.Machine.Operations.{moved};
ghost use Rattle.cjc_methods.specs.LowerCheck.Codes.Bodies.{IsAt};
ghost use Rattle.cjc_methods.specs.LowerCheck.Jumps.Offsets.{is_switch, offsets_in};
ghost use Rattle.cjc_check_rules.specs.Instructions.{default_of, is_jump, jumps};

use cjc_bytes::{NoMemory, Row};
use cjc_capread::card;
use cjc_capread::decoder::{Kind, Operands, Shape, Table, entry_size, operand};
use cjc_card_calls::card_frame::fetch::moved;
use cjc_methods::check::codes::At;

/// Whether an instruction jumps: ifeq to goto, jsr, and ifeq_w to goto_w.
fn is_jump(opcode: u8) -> bool
    ensures { result ≡ is_jump opcode }
{
    (opcode >= card::IFEQ && opcode <= card::JSR)
        || (opcode >= card::IFEQ_W && opcode <= card::GOTO_W)
}

/// Whether a shape is a switch's.
fn is_switch(shape: Shape) -> bool
    ensures { result ≡ is_switch shape }
{
    match shape {
        Shape::ShortTable | Shape::IntTable | Shape::ShortPairs | Shape::IntPairs => true,
        _ => false,
    }
}

/// Puts the place so far from an offset at the end.
fn put_target(targets: &mut Row<u64>, at: u32, far: i32) -> Result<(), NoMemory>
    ensures { OnOk result (targets.new ≡ targets.old ++ moved at far ∷ []) }
{
    targets.push(moved(at as usize, far) as u64)
}

/// Puts where operands lead at the end.
fn put_operands(targets: &mut Row<u64>, at: u32, operands: Operands) -> Result<(), NoMemory>
    ensures { OnOk result (targets.new ≡ targets.old ++ map (moved at) (values operands)) }
{
    match operands {
        Operands::None => Ok(()),
        Operands::One(one) => put_target(targets, at, one),
        Operands::Two(one, two) => {
            put_target(targets, at, one)?;
            put_target(targets, at, two)
        }
        Operands::Three(one, two, three) => {
            put_target(targets, at, one)?;
            put_target(targets, at, two)?;
            put_target(targets, at, three)
        }
    }
}

/// Puts where the default of a switch leads at the end, which stands first among its operands.
fn put_default(targets: &mut Row<u64>, at: u32, operands: Operands) -> Result<(), NoMemory>
    ensures { OnOk result (targets.new ≡ targets.old ++ map (moved at) (default_of (values operands))) }
{
    match operands {
        Operands::None => Ok(()),
        Operands::One(by) => put_target(targets, at, by),
        Operands::Two(by, _) => put_target(targets, at, by),
        Operands::Three(by, _, _) => put_target(targets, at, by),
    }
}

/// Puts where the entries of a table lead at the end.
#[tactic(auto, using(crate::proofs::Jumps::no_target_left))]
fn put_table(targets: &mut Row<u64>, at: u32, table: Table<'_>) -> Result<(), NoMemory>
    ensures { OnOk result (targets.new ≡ targets.old ++ map (moved at) (offsets_in table.entry.matches
        (numbers_of table.entry))) }
{
    let size = entry_size(table.matches);
    let mut rest = table.entries;
    while rest.len() >= size {
        put_target(targets, at, operand(Kind::Signed2, rest, size - 2))?;
        rest = &rest[size..];
    }
    Ok(())
}

/// Puts where an instruction may jump at the end.
#[tactic(auto, using(crate::proofs::Jumps::jump_targets, crate::proofs::Jumps::switch_targets, crate::proofs::Jumps::no_targets))]
pub(crate) fn put_targets(targets: &mut Row<u64>, placed: &At<'_>) -> Result<(), NoMemory>
    requires { IsAt placed.now }
    ensures { OnOk result (targets.new ≡ targets.old ++ map (moved placed.now.at)
        (jumps (instruction_of placed.now.insn))) }
{
    let insn = placed.insn;
    if is_jump(insn.opcode) {
        put_operands(targets, placed.at, insn.operands)
    } else if is_switch(insn.shape) {
        put_default(targets, placed.at, insn.operands)?;
        put_table(targets, placed.at, insn.table)
    } else {
        Ok(())
    }
}
