//! Jumps land on instructions of their own method, and no last instruction falls off (Java Card Virtual Machine
//! Specification 2.2.2, chapter 7). It knows the code of methods alone.

ghost use Rattle.std.specs.Prelude.{◌≡◌, ◌+◌, ◌<◌, ◌&&◌, ◌||◌, ◌+ℤ◌, flat_map, map, nat_lt, not, pos, Some};
ghost use Rattle.std.specs.List.{list_all};
ghost use Rattle.cjc_check.specs.Codes.Bodies.{AreBodies, IsAt, IsBody, code_of, placed_of};
ghost use Rattle.cjc_capread.specs.Decoder.Decoded.{numbers_of, values};
ghost use Rattle.cjc_check.specs.Jumps.Offsets.{is_switch, natural, offsets_in};
ghost use Rattle.cjc_check_rules.specs.Instructions.{code_spots, default_of, ends_code, in_code, is_empty, is_jump};
ghost use Rattle.cjc_check_rules.specs.Instructions.{jumps_land, lands};
ghost use Rattle.cjc_check_rules.specs.Spots.{first, in_info, unless};

use crate::codes::{At, Body};
use cjc_capread::card;
use cjc_capread::decoder::{Kind, Operands, Shape, Table, entry_size, operand};
use cjc_check_rules::ComponentPlace;
use cjc_check_tables::check_index::lookup::{earlier, is_among, unless};

/// The tag of Method.
const METHOD: u8 = 7;

/// Whether an instruction jumps: ifeq to goto, jsr, and ifeq_w to goto_w.
fn is_jump(opcode: u8) -> bool
    ensures { result ≡ is_jump opcode }
{
    (opcode >= card::IFEQ && opcode <= card::JSR)
        || (opcode >= card::IFEQ_W && opcode <= card::GOTO_W)
}

/// Whether what stands behind an instruction is not run after it: goto, jsr, ret, the switches and returns, athrow,
/// goto_w, impdep1 and impdep2.
fn ends_code(opcode: u8) -> bool
    ensures { result ≡ ends_code opcode }
{
    (opcode >= card::GOTO && opcode <= card::RETURN)
        || opcode == card::ATHROW
        || opcode == card::GOTO_W
        || opcode >= card::IMPDEP1
}

/// Where a jump this far from an offset goes; none where that is before the start.
fn target(at: u32, by: i32) -> Option<u64>
    ensures { result ≡ natural (Some (pos at +ℤ by)) }
{
    let to = i64::from(at) + i64::from(by);
    if to >= 0 { Some(to as u64) } else { None }
}

/// Whether a jump this far from an offset lands on an instruction.
fn lands(body: &Body<'_>, at: u32, by: i32) -> bool
    requires { IsBody body.now }
    ensures { result ≡ lands (code_of body.now) at by }
{
    match target(at, by) {
        Some(to) => is_among(body.starts.items(), to),
        None => false,
    }
}

/// Whether each operand as a jump lands.
fn all_land(body: &Body<'_>, at: u32, operands: Operands) -> bool
    requires { IsBody body.now }
    ensures { result ≡ list_all (lands (code_of body.now) at) (values operands) }
{
    match operands {
        Operands::None => true,
        Operands::One(by) => lands(body, at, by),
        Operands::Two(one, two) => lands(body, at, one) && lands(body, at, two),
        Operands::Three(one, two, three) => {
            lands(body, at, one) && lands(body, at, two) && lands(body, at, three)
        }
    }
}

/// Whether the default of a switch lands, which stands first among its operands.
fn default_lands(body: &Body<'_>, at: u32, operands: Operands) -> bool
    requires { IsBody body.now }
    ensures { result ≡ list_all (lands (code_of body.now) at) (default_of (values operands)) }
{
    match operands {
        Operands::None => true,
        Operands::One(by) => lands(body, at, by),
        Operands::Two(by, _) => lands(body, at, by),
        Operands::Three(by, _, _) => lands(body, at, by),
    }
}

/// Whether each offset of a table lands.
fn table_lands(body: &Body<'_>, at: u32, table: Table<'_>) -> bool
    requires { IsBody body.now }
    ensures { result ≡ list_all (lands (code_of body.now) at) (offsets_in table.entry.matches
        (numbers_of table.entry)) }
{
    let size = entry_size(table.matches);
    let mut rest = table.entries;
    while rest.len() >= size {
        if !lands(body, at, operand(Kind::Signed2, rest, size - 2)) {
            return false;
        }
        rest = &rest[size..];
    }
    true
}

/// Whether a shape is a switch's.
fn is_switch(shape: Shape) -> bool
    ensures { result ≡ is_switch shape }
{
    match shape {
        Shape::ShortTable | Shape::IntTable | Shape::ShortPairs | Shape::IntPairs => true,
        _ => false,
    }
}

/// Whether each jump of an instruction lands.
fn jumps_land(body: &Body<'_>, placed: &At<'_>) -> bool
    requires ready { IsBody body.now }
    requires kept { IsAt placed.now }
    ensures { result ≡ jumps_land (code_of body.now) (placed_of placed.now) }
{
    let insn = placed.insn;
    if is_jump(insn.opcode) {
        all_land(body, placed.at, insn.operands)
    } else if is_switch(insn.shape) {
        default_lands(body, placed.at, insn.operands) && table_lands(body, placed.at, insn.table)
    } else {
        true
    }
}

/// Whether an instruction is not the last one, or ends code.
fn stays_inside(number: usize, count: usize, opcode: u8) -> bool
    requires { number < count }
    ensures { result ≡ (nat_lt (number + 1) count || ends_code opcode) }
{
    number + 1 < count || ends_code(opcode)
}

/// The place of an instruction that jumps elsewhere, or goes on outside.
fn in_insn(body: &Body<'_>, placed: &At<'_>, stays: bool) -> Option<ComponentPlace>
    requires ready { IsBody body.now }
    requires kept { IsAt placed.now }
    ensures { result ≡ first (unless (jumps_land (code_of body.now) (placed_of placed.now)
        && stays) (in_info 7 placed.now.at)) }
{
    unless(jumps_land(body, placed) && stays, METHOD, placed.at)
}

/// The first instruction that jumps elsewhere, or the last one where it falls off.
fn in_code(body: &Body<'_>) -> Option<ComponentPlace>
    requires { IsBody body.now }
    ensures { result ≡ first (in_code (code_of body.now) (map placed_of body.now.insns)) }
{
    let insns = body.insns.items();
    let mut least = None;
    for (i, placed) in insns.iter().enumerate() {
        let stays = stays_inside(i, insns.len(), placed.insn.opcode);
        least = earlier(least, in_insn(body, placed, stays));
    }
    least
}

/// Whether a method is abstract or has an instruction.
fn has_code(body: &Body<'_>) -> bool
    ensures { result ≡ (body.now.is_abstract || not (is_empty (map placed_of body.now.insns))) }
{
    body.is_abstract || body.insns.items().len() > 0
}

/// The first place where the code of a method is broken.
#[tactic(auto, using(cjc_check_rules::proofs::Firsts::first_append))]
fn code_spots(body: &Body<'_>) -> Option<ComponentPlace>
    requires { IsBody body.now }
    ensures { result ≡ first (code_spots (code_of body.now)) }
{
    let none = unless(has_code(body), METHOD, body.first);
    earlier(none, in_code(body))
}

/// Where 710 is broken first: an instruction that jumps elsewhere or falls off, or where the code of a method would
/// begin.
pub fn jump_spot(bodies: &[Body<'_>]) -> Option<ComponentPlace>
    requires { AreBodies bodies.now }
    ensures { result ≡ first (flat_map code_spots (map code_of bodies.now)) }
{
    let mut least = None;
    for body in bodies {
        least = earlier(least, code_spots(body));
    }
    least
}
