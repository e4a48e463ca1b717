//! One instruction, by what its opcode means (Java Card Virtual Machine Specification 2.2.2, chapter 7).

ghost use Rattle.std.specs.Prelude.{◌≡◌, ◌<◌, ◌≤◌, ◌+◌, ◌^◌, ℕ, ℤ, List, false, length, option_map, IfOk, OnOk};
ghost use Rattle.cjc_card_semantics.specs.Bytecode.Effects.{Touch};
ghost use Rattle.cjc_card_semantics.specs.Bytecode.Meanings.{Asks, Branches, CallsInterface, Casts, MakesNumbers};
ghost use Rattle.cjc_card_semantics.specs.Bytecode.Meanings.{Paired, Ranged, Uses};
ghost use Rattle.cjc_card_frame.specs.Meanings.{access_of, meaning_of, test_of, use_of};
ghost use Rattle.cjc_card_semantics.specs.CapRead.Decoder.Decoded.{IsAtFront, instruction_of, numbers_of, values};
ghost use Rattle.cjc_card_semantics.specs.CapRead.Decoder.Shapes.{matches_of};
ghost use Rattle.cjc_card_semantics.specs.CapRead.declared.decoder.table.Matches.TheVariants.{Counted};
ghost use Rattle.cjc_card_semantics.specs.Machine.Loaded.{Loaded};
ghost use Rattle.cjc_card_semantics.specs.Machine.Operations.{operation};
ghost use Rattle.cjc_card_frame.specs.Objects.{shape_of};
ghost use Rattle.cjc_card_frame.specs.Kinds.{IsDecoded, pool_of};
ghost use Rattle.cjc_card_step.specs.Effects.Deeds.{FollowsAlone, FollowsOn, FollowsRow, MemoryByToken, memory};
ghost use Rattle.cjc_card_step.specs.Rows.{AreMeant, IsStep, is_jump, natural, operation_at, row_of, target_of};

use crate::effects::{
    Deed, array_length, check_cast, instance_of, leave, load, new_numbers, store, throw,
};
use crate::steps::calculations::calculate;
use crate::steps::entries::use_entry;
use crate::steps::jumps::{branch, switch_pairs, switch_range};
use crate::steps::types::{element_type, type_by};
use cjc_card_frame::frame::Cells;
use cjc_card_frame::heap::{Heap, Shape};
use cjc_card_frame::image::Statics;
use cjc_card_frame::opcodes::{Access, Condition, Meaning, Use, opcode_meaning};
use cjc_card_frame::parts::{Callee, Code, LookUps};
use cjc_card_semantics::bytes::NoMemory;
use cjc_card_semantics::capread::decoder::{Insn, Operands};
use std::alloc::Global;

/// What an instruction asks of the machine, and the offset where going on leads.
#[derive(Clone, Copy)]
pub struct Step<'a> {
    pub deed: Deed<'a>,
    pub to: u32,
}

// Nothing that applies.
fn stuck<'a>(next: u32) -> Step<'a>
    ensures deed { result.deed ≡ Deed.Stick }
    ensures to { result.to ≡ next }
{
    Step {
        deed: Deed::Stick,
        to: next,
    }
}

// A number that is not negative.
fn natural(number: i32) -> Option<u32>
    ensures { result ≡ natural number }
{
    if number < 0 {
        None
    } else {
        Some(number as u32)
    }
}

// A jump.
fn jump<'a>(
    cells: &mut Cells,
    at: u32,
    next: u32,
    condition: Condition,
    operands: Operands,
) -> Result<Step<'a>, NoMemory>
    ensures { IfOk result (λ step. (l : Loaded) (p : ℕ) (table : List ℤ) (room : ℕ) (m : MemoryByToken)
        → IsStep (row_of l (operation l p (pool_of l p) at (Branches (test_of condition)) (values operands) table) room
        next cells.old.locals m cells.old.stack) step cells.old cells.new m m) }
{
    match operands {
        Operands::One(far) => branch(cells, at, next, condition, far),
        Operands::None => Ok(stuck(next)),
        Operands::Two(_, _) => Ok(stuck(next)),
        Operands::Three(_, _, _) => Ok(stuck(next)),
    }
}

// A switch over the numbers from a low one on.
fn range<'a>(
    cells: &mut Cells,
    at: u32,
    next: u32,
    is_int: bool,
    insn: Insn<'_>,
) -> Result<Step<'a>, NoMemory>
    requires { insn.table.matches ≡ Counted }
    ensures { IfOk result (λ step. (l : Loaded) (p room : ℕ) (m : MemoryByToken)
        → IsStep (row_of l (operation l p (pool_of l p) at (Ranged is_int) (values insn.entry.operands)
        (numbers_of insn.entry.table)) room next cells.old.locals m cells.old.stack) step cells.old cells.new m m) }
{
    match insn.operands {
        Operands::Three(other, low, _) => {
            switch_range(cells, at, next, is_int, other, low, insn.table.entries)
        }
        Operands::None => Ok(stuck(next)),
        Operands::One(_) => Ok(stuck(next)),
        Operands::Two(_, _) => Ok(stuck(next)),
    }
}

// A switch over matches.
fn pairs<'a>(
    cells: &mut Cells,
    at: u32,
    next: u32,
    is_int: bool,
    insn: Insn<'_>,
) -> Result<Step<'a>, NoMemory>
    requires { insn.table.matches ≡ matches_of is_int }
    ensures { IfOk result (λ step. (l : Loaded) (p room : ℕ) (m : MemoryByToken)
        → IsStep (row_of l (operation l p (pool_of l p) at (Paired is_int) (values insn.entry.operands)
        (numbers_of insn.entry.table)) room next cells.old.locals m cells.old.stack) step cells.old cells.new m m) }
{
    match insn.operands {
        Operands::Two(other, _) => {
            switch_pairs(cells, at, next, is_int, other, insn.table.entries)
        }
        Operands::None => Ok(stuck(next)),
        Operands::One(_) => Ok(stuck(next)),
        Operands::Three(_, _, _) => Ok(stuck(next)),
    }
}

// What sees the heap and no name, and returns.
fn touch<'a, L: LookUps>(
    links: &L,
    room: usize,
    cells: &mut Cells,
    heap: &mut Heap,
    access: Access,
) -> Result<Deed<'a>, NoMemory>
    ensures row { IfOk result (λ deed. FollowsOn (row_of (L.loaded links.now) (Touch (access_of access)) room) deed
        cells.old cells.new heap.old heap.new) }
    ensures len { OnOk result (length heap.new ≡ length heap.old) }
{
    match access {
        Access::Load(letter) => load(cells, heap, room, letter),
        Access::Store(letter) => Ok(store(links, cells, heap, letter)),
        Access::Length => array_length(cells, heap),
        Access::Throw => Ok(throw(cells)),
        Access::Return(letter) => Ok(leave(cells, letter)),
    }
}

// What names an entry of the constant pool.
fn use_operand<'a, L: LookUps>(
    alloc: Global,
    links: &'a L,
    part: u32,
    room: usize,
    cells: &mut Cells,
    heap: &mut Heap,
    statics: &mut Statics,
    how: Use,
    operands: Operands,
) -> Result<Deed<'a>, NoMemory>
    requires { length heap.old < 2 ^ 32 }
    ensures row { IfOk result (λ deed. (at : ℕ) (table : List ℤ)
        → FollowsRow (row_of (L.loaded links.now) (operation (L.loaded links.now) part (pool_of (L.loaded links.now)
        part) at (Uses (use_of how)) (values operands) table) room) deed cells.old cells.new
        (memory heap.old statics.old) (memory heap.new statics.new)) }
    ensures len { OnOk result (length heap.new ≤ length heap.old + 1) }
{
    match operands {
        Operands::One(index) => use_entry(
            alloc, links, part, room, cells, heap, statics, how, index,
        ),
        Operands::None => Ok(Deed::Stick),
        Operands::Two(_, _) => Ok(Deed::Stick),
        Operands::Three(_, _, _) => Ok(Deed::Stick),
    }
}

// invokeinterface: the words of the arguments, the entry of the interface, and the token of its method.
fn call_interface<'a, L: LookUps>(
    links: &'a L,
    part: u32,
    cells: &Cells,
    operands: Operands,
) -> Deed<'a>
    ensures { (at room : ℕ) (table : List ℤ)
        → FollowsAlone (row_of (L.loaded links.now) (operation (L.loaded links.now) part (pool_of (L.loaded links.now)
        part) at CallsInterface (values operands) table) room) result cells.now cells.now }
{
    let Operands::Three(words, index, token) = operands else {
        return Deed::Stick;
    };
    let (Some(words), Some(token)) = (natural(words), natural(token)) else {
        return Deed::Stick;
    };
    match links.class_entry(part, index) {
        Some(interface) => Deed::Invoke(Callee::OnInterface(words, interface, token)),
        None => Deed::Stick,
    }
}

// newarray.
fn new_array<'a>(
    alloc: Global,
    room: usize,
    cells: &mut Cells,
    heap: &mut Heap,
    operands: Operands,
) -> Result<Deed<'a>, NoMemory>
    requires { length heap.old < 2 ^ 32 }
    ensures row { IfOk result (λ deed. (l : Loaded) (p at : ℕ) (table : List ℤ)
        → FollowsOn (row_of l (operation l p (pool_of l p) at MakesNumbers (values operands) table) room) deed cells.old
        cells.new heap.old heap.new) }
    ensures len { OnOk result (length heap.new ≤ length heap.old + 1) }
{
    let Operands::One(number) = operands else {
        return Ok(Deed::Stick);
    };
    let Some(number) = natural(number) else {
        return Ok(Deed::Stick);
    };
    match element_type(number) {
        Some(element) => new_numbers(alloc, cells, heap, room, element),
        None => Ok(Deed::Stick),
    }
}

// The type that checkcast and instanceof name, by a number and the entry of a class.
fn named_type<L: LookUps>(links: &L, part: u32, operands: Operands) -> Option<Shape>
    ensures { option_map shape_of result ≡ target_of (L.loaded links.now) part (values operands) }
{
    let Operands::Two(number, index) = operands else {
        return None;
    };
    let Some(number) = natural(number) else {
        return None;
    };
    type_by(number, links.class_entry(part, index))
}

// checkcast.
fn cast<'a, L: LookUps>(
    links: &L,
    part: u32,
    cells: &Cells,
    heap: &Heap,
    operands: Operands,
) -> Deed<'a>
    ensures { (at room : ℕ) (table : List ℤ)
        → FollowsOn (row_of (L.loaded links.now) (operation (L.loaded links.now) part (pool_of (L.loaded links.now)
        part) at Casts (values operands) table) room) result cells.now cells.now heap.now heap.now }
{
    match named_type(links, part, operands) {
        Some(target) => check_cast(links, cells, heap, target),
        None => Deed::Stick,
    }
}

// instanceof.
fn ask<'a, L: LookUps>(
    links: &L,
    part: u32,
    cells: &mut Cells,
    heap: &Heap,
    operands: Operands,
) -> Result<Deed<'a>, NoMemory>
    ensures { IfOk result (λ deed. (at room : ℕ) (table : List ℤ)
        → FollowsOn (row_of (L.loaded links.now) (operation (L.loaded links.now) part (pool_of (L.loaded links.now)
        part) at Asks (values operands) table) room) deed cells.old cells.new heap.now heap.now) }
{
    match named_type(links, part, operands) {
        Some(target) => instance_of(links, cells, heap, target),
        None => Ok(Deed::Stick),
    }
}

// An instruction that leads behind itself, where it goes on.
fn straight<'a, L: LookUps>(
    alloc: Global,
    links: &'a L,
    part: u32,
    room: usize,
    cells: &mut Cells,
    heap: &mut Heap,
    statics: &mut Statics,
    meaning: Meaning,
    operands: Operands,
) -> Result<Deed<'a>, NoMemory>
    requires straight { is_jump meaning ≡ false }
    requires operands { AreMeant meaning (values operands) }
    requires few { length heap.old < 2 ^ 32 }
    ensures row { IfOk result (λ deed. (at : ℕ) (table : List ℤ)
        → FollowsRow (row_of (L.loaded links.now) (operation (L.loaded links.now) part (pool_of (L.loaded links.now)
        part) at (meaning_of meaning) (values operands) table) room) deed cells.old cells.new
        (memory heap.old statics.old) (memory heap.new statics.new)) }
    ensures len { OnOk result (length heap.new ≤ length heap.old + 1) }
{
    match meaning {
        Meaning::Plain(calculation) => calculate(cells, room, calculation, operands),
        Meaning::Touch(access) => touch(links, room, cells, heap, access),
        Meaning::Use(how) => {
            use_operand(
                alloc, links, part, room, cells, heap, statics, how, operands,
            )
        }
        Meaning::CallInterface => Ok(call_interface(links, part, cells, operands)),
        Meaning::NewNumbers => new_array(alloc, room, cells, heap, operands),
        Meaning::Cast => Ok(cast(links, part, cells, heap, operands)),
        Meaning::Ask => ask(links, part, cells, heap, operands),
        Meaning::Nothing => Ok(Deed::Stick),
        Meaning::Branch(_) => Ok(Deed::Stick),
        Meaning::Ranged(_) => Ok(Deed::Stick),
        Meaning::Paired(_) => Ok(Deed::Stick),
    }
}

/// Makes an instruction at an offset of a method's code.
pub fn execute<'a, L: LookUps>(
    alloc: Global,
    links: &'a L,
    code: Code,
    at: u32,
    insn: Insn<'_>,
    cells: &mut Cells,
    heap: &mut Heap,
    statics: &mut Statics,
) -> Result<Step<'a>, NoMemory>
    requires within { at + insn.size ≤ code.end }
    requires decoded { IsDecoded (instruction_of insn) }
    requires front { (bytes : List ℕ) × IsAtFront insn bytes }
    requires few { length heap.old < 2 ^ 32 }
    ensures row { IfOk result (λ step. IsStep (row_of (L.loaded links.now) (operation_at (L.loaded links.now) code.part
        at (instruction_of insn.entry)) code.room (at + insn.entry.size) cells.old.locals (memory heap.old statics.old)
        cells.old.stack) step cells.old cells.new (memory heap.old statics.old) (memory heap.new statics.new)) }
    ensures len { OnOk result (length heap.new ≤ length heap.old + 1) }
{
    let next = at + insn.size as u32;
    let operands = insn.operands;
    match opcode_meaning(insn.opcode) {
        Meaning::Branch(condition) => jump(cells, at, next, condition, operands),
        Meaning::Ranged(is_int) => range(cells, at, next, is_int, insn),
        Meaning::Paired(is_int) => pairs(cells, at, next, is_int, insn),
        meaning => {
            let room = usize::from(code.room);
            let deed = straight(
                alloc, links, code.part, room, cells, heap, statics, meaning, operands,
            )?;
            Ok(Step { deed, to: next })
        }
    }
}
