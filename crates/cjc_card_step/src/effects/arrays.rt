//! Loads and stores of elements, and arraylength (Java Card Virtual Machine Specification 2.2.2, chapter 7).

ghost use Rattle.std.specs.Prelude.{◌≡◌, ℕ, ℤ, pos, length, FitsSigned, IfOk};
ghost use Rattle.std.specs.Int.{w16};
ghost use Rattle.cjc_card_semantics.specs.Bytecode.Effects.{Length, Load, Store, item_of, kept, length_in, load_number};
ghost use Rattle.cjc_card_semantics.specs.Bytecode.Effects.{store_number, thing_of, effect_of_access};
ghost use Rattle.cjc_card_semantics.specs.Range.Words.{low_word};
ghost use Rattle.cjc_card_semantics.specs.Machine.Loaded.{Loaded};
ghost use Rattle.cjc_card_semantics.specs.Machine.ByToken.{classes};
ghost use Rattle.cjc_card_frame.specs.Meanings.{letter_of};
ghost use Rattle.cjc_card_frame.specs.Objects.{class_of};
ghost use Rattle.cjc_card_step.specs.Effects.Deeds.{EffectByToken, FollowsOn, found};

use crate::effects::deed::{Deed, Halt, deed_of};
use crate::effects::items::{number_item, reference_item};
use crate::effects::operands::{operand, put_any, put_value, value_and_number};
use cjc_card_frame::frame::Cells;
use cjc_card_frame::frame::words::low_word;
use cjc_card_frame::heap::{Class, Heap, Parts, Shape};
use cjc_card_frame::jvm_step::frame::Exception;
use cjc_card_frame::opcodes::Letter;
use cjc_card_frame::parts::LookUps;
use cjc_card_semantics::bytes::NoMemory;
use cjc_card_semantics::script::Value;

/// aaload.
fn load_reference<'a>(cells: &mut Cells, heap: &Heap, room: usize) -> Result<Deed<'a>, NoMemory>
    ensures { IfOk result (λ deed. (l : Loaded)
        → FollowsOn (λ next locals m stack. effect_of_access (classes l) (Load (letter_of Letter.Reference)) room next
        locals m stack) deed cells.old cells.new heap.now heap.now) }
{
    let Some((reference, index)) = value_and_number(cells, 0) else {
        return Ok(Deed::Stick);
    };
    match reference_item(heap, reference, index) {
        Ok(item) => Ok(put_any(cells, room, 2, item.value)?),
        Err(halt) => Ok(deed_of(halt)),
    }
}

/// baload, saload and iaload.
fn load_number<'a>(
    cells: &mut Cells,
    heap: &Heap,
    room: usize,
    letter: Letter,
) -> Result<Deed<'a>, NoMemory>
    ensures { IfOk result (λ deed. (l : Loaded)
        → FollowsOn (λ next locals m stack. load_number (classes l) (letter_of letter) room next locals m stack) deed
        cells.old cells.new heap.now heap.now) }
{
    let Some((reference, index)) = value_and_number(cells, 0) else {
        return Ok(Deed::Stick);
    };
    match number_item(heap, letter, reference, index) {
        Ok(item) => Ok(put_value(cells, room, 2, letter, Value::Num(item.number))?),
        Err(halt) => Ok(deed_of(halt)),
    }
}

/// An element is pushed.
pub fn load<'a>(
    cells: &mut Cells,
    heap: &Heap,
    room: usize,
    letter: Letter,
) -> Result<Deed<'a>, NoMemory>
    ensures { IfOk result (λ deed. (l : Loaded)
        → FollowsOn (λ next locals m stack. effect_of_access (classes l) (Load (letter_of letter)) room next locals m
        stack) deed cells.old cells.new heap.now heap.now) }
{
    match letter {
        Letter::Reference => Ok(load_reference(cells, heap, room)?),
        Letter::Byte => Ok(load_number(cells, heap, room, Letter::Byte)?),
        Letter::Short => Ok(load_number(cells, heap, room, Letter::Short)?),
        Letter::Int => Ok(load_number(cells, heap, room, Letter::Int)?),
    }
}

/// Whether a value may be kept in an array of this class.
fn kept<L: LookUps>(links: &L, heap: &Heap, class: Class, value: Value) -> Result<(), Halt>
    ensures { (effect : EffectByToken) → kept (classes (L.loaded links.now)) heap.now (class_of class) value effect
        ≡ found result (λ u. effect) }
{
    match value {
        Value::Num(_) => Err(Halt::Stick),
        Value::Null => Ok(()),
        Value::Obj(number) => match heap.shape_at(number) {
            Some(shape) => {
                if links.is_of(shape, Shape::OfClass(class)) {
                    Ok(())
                } else {
                    Err(Halt::Raise(Exception::ArrayStore))
                }
            }
            None => Err(Halt::Stick),
        },
    }
}

/// aastore.
fn store_reference<'a, L: LookUps>(links: &L, cells: &mut Cells, heap: &mut Heap) -> Deed<'a>
    ensures row { (room : ℕ) → FollowsOn (λ next locals m stack. effect_of_access (classes (L.loaded links.now))
        (Store (letter_of Letter.Reference)) room next locals m stack) result cells.old cells.new heap.old heap.new }
    ensures len { length heap.new ≡ length heap.old }
{
    let Some((value, taken)) = operand(cells, Letter::Reference) else {
        return Deed::Stick;
    };
    let Some((reference, index)) = value_and_number(cells, taken) else {
        return Deed::Stick;
    };
    let item = match reference_item(heap, reference, index) {
        Ok(item) => item,
        Err(halt) => return deed_of(halt),
    };
    match kept(links, heap, item.class, value) {
        Ok(()) => {
            heap.set_reference(item.array, item.place, value);
            cells.forget(taken + 2);
            Deed::Go
        }
        Err(halt) => deed_of(halt),
    }
}

/// The number that an array of numbers keeps.
fn item_of(value: Value) -> i32
    ensures { result ≡ item_of value }
{
    match value {
        Value::Num(number) => number,
        Value::Null => 0,
        Value::Obj(_) => 0,
    }
}

/// bastore, sastore and iastore.
fn store_number<'a>(cells: &mut Cells, heap: &mut Heap, letter: Letter) -> Deed<'a>
    ensures row { (l : Loaded) → FollowsOn (λ next locals m stack. store_number (classes l) (letter_of letter) next
        locals m stack) result cells.old cells.new heap.old heap.new }
    ensures len { length heap.new ≡ length heap.old }
{
    let Some((value, taken)) = operand(cells, letter) else {
        return Deed::Stick;
    };
    let Some((reference, index)) = value_and_number(cells, taken) else {
        return Deed::Stick;
    };
    match number_item(heap, letter, reference, index) {
        Ok(item) => {
            heap.set_number(item.array, item.place, item_of(value));
            cells.forget(taken + 2);
            Deed::Go
        }
        Err(halt) => deed_of(halt),
    }
}

/// An element is replaced.
pub fn store<'a, L: LookUps>(
    links: &L,
    cells: &mut Cells,
    heap: &mut Heap,
    letter: Letter,
) -> Deed<'a>
    ensures row { (room : ℕ) → FollowsOn (λ next locals m stack. effect_of_access (classes (L.loaded links.now))
        (Store (letter_of letter)) room next locals m stack) result cells.old cells.new heap.old heap.new }
    ensures len { length heap.new ≡ length heap.old }
{
    match letter {
        Letter::Reference => store_reference(links, cells, heap),
        Letter::Byte => store_number(cells, heap, Letter::Byte),
        Letter::Short => store_number(cells, heap, Letter::Short),
        Letter::Int => store_number(cells, heap, Letter::Int),
    }
}

/// How many elements the array of a reference has, as a word.
fn length_of(heap: &Heap, reference: Value) -> Result<i32, Halt>
    ensures is { (go : ℤ → EffectByToken) → thing_of heap.now reference (λ k. length_in (λ n. go (low_word (pos n))))
        ≡ found result go }
    ensures fits { IfOk result (λ z. FitsSigned w16 z) }
{
    match reference {
        Value::Num(_) => Err(Halt::Stick),
        Value::Null => Err(Halt::Raise(Exception::NullPointer)),
        Value::Obj(array) => match heap.get(array) {
            Some(Parts::Numbers(_, items)) => Ok(low_word_of(items.len())),
            Some(Parts::References(_, items)) => Ok(low_word_of(items.len())),
            Some(Parts::Object(_, _)) => Err(Halt::Stick),
            None => Err(Halt::Stick),
        },
    }
}

/// The low word of a length.
fn low_word_of(n: usize) -> i32
    ensures is { result ≡ low_word (pos n) }
    ensures fits { FitsSigned w16 result }
{
    let low = n % 65536;
    low_word(low as i32)
}

/// arraylength.
pub fn array_length<'a>(cells: &mut Cells, heap: &Heap) -> Result<Deed<'a>, NoMemory>
    ensures { IfOk result (λ deed. (l : Loaded) (room : ℕ)
        → FollowsOn (λ next locals m stack. effect_of_access (classes l) Length room next locals m stack) deed cells.old
        cells.new heap.now heap.now) }
{
    let Some(reference) = cells.word(0) else {
        return Ok(Deed::Stick);
    };
    match length_of(heap, reference) {
        Ok(length) => {
            cells.put(1, Value::Num(length))?;
            Ok(Deed::Go)
        }
        Err(halt) => Ok(deed_of(halt)),
    }
}
