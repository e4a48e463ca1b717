//! The indices of instructions into the constant pool name entries of the tag that each opcode needs (Java Card
//! Virtual Machine Specification 2.2.2, chapter 7). It knows the code of methods and the constant pool.

ghost use Rattle.std.specs.Prelude.{◌≡◌, ◌++◌, ◌&&◌, flat_map, IfOk, IfSome, map, OnOk, option_map, slice_get};
ghost use Rattle.cjc_capread.specs.Card as card;
ghost use Rattle.cjc_check.specs.Codes.Bodies.{AreBodies, AllAt, IsAt, IsBody, code_of, placed_of};
ghost use Rattle.cjc_capread.specs.Decoder.Decoded.{values};
ghost use Rattle.cjc_check.specs.Jumps.Offsets.{AreNear, IsNear, index_in, index_operand, index_place_in};
ghost use Rattle.cjc_check.specs.Jumps.Offsets.{index_size_in, index_spot, natural, operand_at, optional};
ghost use Rattle.cjc_capread.specs.Decoder.Shapes.{form_of};
ghost use Rattle.cjc_check_rules.specs.Instructions.{indices, is_entry_for, is_needed_by, is_type_of_numbers};
ghost use Rattle.cjc_check_rules.specs.Spots.{first, lies_between};

use crate::codes::{At, Body};
use cjc_capread::bytes::{NoMemory, Row};
use cjc_capread::decoder::{Operands, Shape};
use cjc_capread::{PoolEntry, card};
use cjc_check_rules::ComponentPlace;
use cjc_check_tables::check_index::lookup::{earlier, unless};
use std::alloc::Global;

/// The tag of Method.
const METHOD: u8 = 7;

/// An index into the constant pool, and where it stands in bytes from the start of the info of Method.
#[derive(Clone, Copy)]
pub struct IndexAt {
    pub opcode: u8,
    pub at: u32,
    /// Its bytes.
    pub size: u8,
    pub index: u32,
}

/// The first operand.
fn first_operand(operands: Operands) -> Option<i32>
    ensures { result ≡ slice_get (values operands) 0 }
{
    match operands {
        Operands::None => None,
        Operands::One(one) | Operands::Two(one, _) | Operands::Three(one, _, _) => Some(one),
    }
}

/// The second operand.
fn second_operand(operands: Operands) -> Option<i32>
    ensures { result ≡ slice_get (values operands) 1 }
{
    match operands {
        Operands::None | Operands::One(_) => None,
        Operands::Two(_, two) | Operands::Three(_, two, _) => Some(two),
    }
}

/// Whether the first operand is the type of an array of boolean, byte, short or int.
fn is_type_of_numbers(operands: Operands) -> bool
    ensures { result ≡ is_type_of_numbers (values operands) }
{
    match first_operand(operands) {
        Some(type_) => type_ >= 10 && type_ <= 13,
        None => false,
    }
}

/// Whether an instruction is checkcast or instanceof of such an array.
fn names_no_class(opcode: u8, operands: Operands) -> bool
    ensures { result ≡ (lies_between card.checkcast card.instanceof opcode && is_type_of_numbers (values operands)) }
{
    (opcode == card::CHECKCAST || opcode == card::INSTANCEOF) && is_type_of_numbers(operands)
}

/// The operand that is the index by an instruction's shape.
fn index_operand(shape: Shape, operands: Operands) -> Option<i32>
    ensures { result ≡ index_operand shape (values operands) }
{
    match shape {
        Shape::Index1 | Shape::Index2 => first_operand(operands),
        Shape::Typed | Shape::Call => second_operand(operands),
        _ => None,
    }
}

/// A number that is not negative.
fn natural(number: Option<i32>) -> Option<u32>
    ensures { result ≡ natural number }
{
    match number {
        Some(number) => {
            if number >= 0 {
                Some(number as u32)
            } else {
                None
            }
        }
        None => None,
    }
}

/// The index among operands.
fn index_in(shape: Shape, operands: Operands) -> Option<u32>
    ensures { result ≡ index_in (form_of shape) (values operands) }
{
    natural(index_operand(shape, operands))
}

/// Where an index stands, in bytes from the opcode.
fn index_place(shape: Shape) -> u32
    ensures { result ≡ index_place_in (form_of shape) }
{
    match shape {
        Shape::Index1 | Shape::Index2 => 1,
        Shape::Typed | Shape::Call => 2,
        _ => 0,
    }
}

/// The bytes of an index.
fn index_size(shape: Shape) -> u8
    ensures { result ≡ index_size_in (form_of shape) }
{
    match shape {
        Shape::Index1 => 1,
        Shape::Index2 | Shape::Typed | Shape::Call => 2,
        _ => 0,
    }
}

/// The index of an instruction, if it has one.
fn index_of(placed: &At<'_>) -> Option<IndexAt>
    requires { IsAt placed.now }
    ensures is { optional (option_map operand_at result) ≡ indices (placed_of placed.now) }
    ensures near { IfSome result (λ x. IsNear x) }
{
    let insn = placed.insn;
    if names_no_class(insn.opcode, insn.operands) {
        return None;
    }
    match index_in(insn.shape, insn.operands) {
        Some(index) => Some(IndexAt {
            opcode: insn.opcode,
            at: placed.at + index_place(insn.shape),
            size: index_size(insn.shape),
            index,
        }),
        None => None,
    }
}

/// Puts the index of an instruction at the end, if it has one.
fn put_index(all: &mut Row<IndexAt>, placed: &At<'_>) -> Result<(), NoMemory>
    requires kept { IsAt placed.now }
    requires near { AreNear all.old }
    ensures is { OnOk result (map operand_at all.new ≡ map operand_at all.old ++ indices (placed_of placed.now)) }
    ensures near { OnOk result (AreNear all.new) }
{
    match index_of(placed) {
        Some(index) => all.push(index),
        None => Ok(()),
    }
}

/// Puts the indices of instructions at the end.
fn put_indices(all: &mut Row<IndexAt>, insns: &[At<'_>]) -> Result<(), NoMemory>
    requires kept { AllAt insns.now }
    requires near { AreNear all.old }
    ensures is { OnOk result (map operand_at all.new ≡ map operand_at all.old
        ++ flat_map indices (map placed_of insns.now)) }
    ensures near { OnOk result (AreNear all.new) }
{
    for placed in insns {
        put_index(all, placed)?;
    }
    Ok(())
}

/// The indices of all instructions, in order.
pub fn all_indices(alloc: Global, bodies: &[Body<'_>]) -> Result<Row<IndexAt>, NoMemory>
    requires { AreBodies bodies.now }
    ensures is { IfOk result (λ r. map operand_at r ≡ flat_map (λ code. flat_map indices code.instructions)
        (map code_of bodies.now)) }
    ensures near { IfOk result (λ r. AreNear r) }
{
    let mut all = Row::new(alloc);
    for body in bodies {
        put_indices(&mut all, body.insns.items())?;
    }
    Ok(all)
}

/// Whether an opcode needs an entry of this tag.
fn is_needed_by(entry: &PoolEntry, opcode: u8) -> bool
    ensures { result ≡ is_needed_by entry.now opcode }
{
    match entry {
        PoolEntry::Classref(_) => {
            opcode == card::INVOKEINTERFACE
                || opcode == card::NEW
                || opcode == card::ANEWARRAY
                || opcode == card::CHECKCAST
                || opcode == card::INSTANCEOF
        }
        PoolEntry::InstanceFieldref { .. } => {
            (opcode >= card::GETFIELD_A && opcode <= card::PUTFIELD_I)
                || (opcode >= card::GETFIELD_A_W && opcode <= card::PUTFIELD_I_THIS)
        }
        PoolEntry::VirtualMethodref { .. } => opcode == card::INVOKEVIRTUAL,
        PoolEntry::SuperMethodref { .. } => opcode == card::INVOKESPECIAL,
        PoolEntry::StaticFieldref(_) => opcode >= card::GETSTATIC_A && opcode <= card::PUTSTATIC_I,
        PoolEntry::StaticMethodref(_) => opcode == card::INVOKESPECIAL
            || opcode == card::INVOKESTATIC,
    }
}

/// Whether the entry of an index is of a tag that the opcode needs.
fn is_entry_for(entries: &[PoolEntry], index: u32, opcode: u8) -> bool
    ensures { result ≡ is_entry_for (slice_get entries.now index) opcode }
{
    match entries.get(index as usize) {
        Some(entry) => is_needed_by(entry, opcode),
        None => false,
    }
}

/// Where 711 is broken first: an index that names no entry of a tag that its opcode needs.
pub fn index_spot(entries: &[PoolEntry], indices: &[IndexAt]) -> Option<ComponentPlace>
    requires { AreNear indices.now }
    ensures { result ≡ first (flat_map (index_spot entries.now) (map operand_at indices.now)) }
{
    let mut least = None;
    for index in indices {
        let is_right = is_entry_for(entries, index.index, index.opcode);
        least = earlier(least, unless(is_right, METHOD, index.at));
    }
    least
}
