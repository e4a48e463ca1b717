//! Instructions that name an entry of the constant pool: fields, static cells, calls, new and anewarray (Java Card
//! Virtual Machine Specification 2.2.2, chapter 7).

ghost use Rattle.std.specs.Prelude.{◌≡◌, ◌<◌, ◌≤◌, ◌+◌, ◌^◌, ℕ, length, IfOk, OnOk};
ghost use Rattle.cjc_card_semantics.specs.Bytecode.Meanings.{Calls, Gets, GetsStatic, Makes, MakesReferences, Puts};
ghost use Rattle.cjc_card_semantics.specs.Bytecode.Meanings.{PutsStatic};
ghost use Rattle.cjc_card_frame.specs.Meanings.{letter_of, mode_of, use_of};
ghost use Rattle.cjc_card_step.specs.Effects.Deeds.{FollowsAlone, FollowsIn, FollowsOn, FollowsRow, memory};
ghost use Rattle.cjc_card_step.specs.Rows.{row_of, used};

use crate::effects::{
    Deed, get_field, get_static, new_object, new_references, put_field, put_static,
};
use cjc_card_frame::frame::Cells;
use cjc_card_frame::heap::Heap;
use cjc_card_frame::image::Statics;
use cjc_card_frame::opcodes::{Letter, Mode, Use};
use cjc_card_frame::parts::{LookUps, entries_are_used};
use cjc_card_semantics::bytes::NoMemory;
use std::alloc::Global;

// getfield.
fn get_named<'a, L: LookUps>(
    links: &L,
    part: u32,
    room: usize,
    cells: &mut Cells,
    heap: &Heap,
    this: bool,
    letter: Letter,
    index: i32,
) -> Result<Deed<'a>, NoMemory>
    ensures { IfOk result (λ deed. FollowsOn (row_of (L.loaded links.now) (used (L.loaded links.now) part
        (Gets this (letter_of letter)) index) room) deed cells.old cells.new heap.now heap.now) }
{
    entries_are_used();
    match links.field_entry(part, index) {
        Some(field) => get_field(cells, heap, room, this, letter, field),
        None => Ok(Deed::Stick),
    }
}

// putfield.
fn put_named<'a, L: LookUps>(
    links: &L,
    part: u32,
    cells: &mut Cells,
    heap: &mut Heap,
    this: bool,
    letter: Letter,
    index: i32,
) -> Deed<'a>
    ensures row { (room : ℕ)
        → FollowsOn (row_of (L.loaded links.now) (used (L.loaded links.now) part (Puts this (letter_of letter)) index)
        room) result cells.old cells.new heap.old heap.new }
    ensures len { length heap.new ≡ length heap.old }
{
    entries_are_used();
    match links.field_entry(part, index) {
        Some(field) => put_field(cells, heap, this, letter, field),
        None => Deed::Stick,
    }
}

// getstatic.
fn get_cell<'a, L: LookUps>(
    links: &L,
    part: u32,
    room: usize,
    cells: &mut Cells,
    statics: &Statics,
    letter: Letter,
    index: i32,
) -> Result<Deed<'a>, NoMemory>
    ensures { IfOk result (λ deed. FollowsIn (row_of (L.loaded links.now) (used (L.loaded links.now) part
        (GetsStatic (letter_of letter)) index) room) deed cells.old cells.new statics.now statics.now) }
{
    entries_are_used();
    match links.cell_entry(part, index) {
        Some(cell) => get_static(cells, statics, room, letter, cell),
        None => Ok(Deed::Stick),
    }
}

// putstatic.
fn put_cell<'a, L: LookUps>(
    links: &L,
    part: u32,
    cells: &mut Cells,
    statics: &mut Statics,
    letter: Letter,
    index: i32,
) -> Deed<'a>
    ensures { (room : ℕ)
        → FollowsIn (row_of (L.loaded links.now) (used (L.loaded links.now) part (PutsStatic (letter_of letter)) index)
        room) result cells.old cells.new statics.old statics.new }
{
    entries_are_used();
    match links.cell_entry(part, index) {
        Some(cell) => put_static(cells, statics, letter, cell),
        None => Deed::Stick,
    }
}

// invokevirtual, invokespecial and invokestatic.
fn call_named<'a, L: LookUps>(
    links: &'a L,
    part: u32,
    cells: &Cells,
    mode: Mode,
    index: i32,
) -> Deed<'a>
    ensures { (room : ℕ)
        → FollowsAlone (row_of (L.loaded links.now) (used (L.loaded links.now) part (Calls (mode_of mode)) index) room)
        result cells.now cells.now }
{
    entries_are_used();
    match links.callee_entry(part, mode, index) {
        Some(callee) => Deed::Invoke(callee),
        None => Deed::Stick,
    }
}

// new.
fn new_named<'a, L: LookUps>(
    alloc: Global,
    links: &L,
    part: u32,
    room: usize,
    cells: &mut Cells,
    heap: &mut Heap,
    index: i32,
) -> Result<Deed<'a>, NoMemory>
    requires { length heap.old < 2 ^ 32 }
    ensures row { IfOk result (λ deed. FollowsOn (row_of (L.loaded links.now) (used (L.loaded links.now) part Makes
        index) room) deed cells.old cells.new heap.old heap.new) }
    ensures len { OnOk result (length heap.new ≤ length heap.old + 1) }
{
    entries_are_used();
    match links.class_entry(part, index) {
        Some(class) => new_object(alloc, links, cells, heap, room, class),
        None => Ok(Deed::Stick),
    }
}

// anewarray.
fn new_array_named<'a, L: LookUps>(
    alloc: Global,
    links: &L,
    part: u32,
    room: usize,
    cells: &mut Cells,
    heap: &mut Heap,
    index: i32,
) -> Result<Deed<'a>, NoMemory>
    requires { length heap.old < 2 ^ 32 }
    ensures row { IfOk result (λ deed. FollowsOn (row_of (L.loaded links.now) (used (L.loaded links.now) part
        MakesReferences index) room) deed cells.old cells.new heap.old heap.new) }
    ensures len { OnOk result (length heap.new ≤ length heap.old + 1) }
{
    entries_are_used();
    match links.class_entry(part, index) {
        Some(class) => new_references(alloc, cells, heap, room, class),
        None => Ok(Deed::Stick),
    }
}

/// What is done with the entry of an index.
pub(crate) fn use_entry<'a, L: LookUps>(
    alloc: Global,
    links: &'a L,
    part: u32,
    room: usize,
    cells: &mut Cells,
    heap: &mut Heap,
    statics: &mut Statics,
    how: Use,
    index: i32,
) -> Result<Deed<'a>, NoMemory>
    requires { length heap.old < 2 ^ 32 }
    ensures row { IfOk result (λ deed. FollowsRow (row_of (L.loaded links.now) (used (L.loaded links.now) part
        (use_of how) index) room) deed cells.old cells.new (memory heap.old statics.old)
        (memory heap.new statics.new)) }
    ensures len { OnOk result (length heap.new ≤ length heap.old + 1) }
{
    match how {
        Use::Get(this, letter) => get_named(links, part, room, cells, heap, this, letter, index),
        Use::Put(this, letter) => Ok(put_named(links, part, cells, heap, this, letter, index)),
        Use::GetStatic(letter) => get_cell(links, part, room, cells, statics, letter, index),
        Use::PutStatic(letter) => Ok(put_cell(links, part, cells, statics, letter, index)),
        Use::Call(mode) => Ok(call_named(links, part, cells, mode, index)),
        Use::New => new_named(alloc, links, part, room, cells, heap, index),
        Use::NewReferences => new_array_named(alloc, links, part, room, cells, heap, index),
    }
}
