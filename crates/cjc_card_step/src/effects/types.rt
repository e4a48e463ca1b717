//! checkcast and instanceof by what look-ups answer of types, athrow, and the returns: areturn, sreturn,
//! ireturn and return.

ghost use Rattle.std.specs.Prelude.{◌≡◌, ℕ, Some, option_map, slice_get, IfOk};
ghost use Rattle.cjc_card_semantics.specs.Bytecode.Effects.{Ask, Cast, Return, Throw, effect, shape, effect_of_access};
ghost use Rattle.cjc_card_semantics.specs.Machine.Loaded.{Loaded};
ghost use Rattle.cjc_card_semantics.specs.Machine.Classes.{is_of};
ghost use Rattle.cjc_card_semantics.specs.Machine.ByToken.{classes};
ghost use Rattle.cjc_card_frame.specs.Meanings.{letter_if, letter_of};
ghost use Rattle.cjc_card_frame.specs.Objects.{shape_of};
ghost use Rattle.cjc_card_step.specs.Effects.Deeds.{FollowsAlone, FollowsOn};

use crate::effects::deed::{Deed, Returned};
use cjc_card_frame::frame::Cells;
use cjc_card_frame::heap::{Heap, Shape};
use cjc_card_frame::jvm_step::frame::Exception;
use cjc_card_frame::opcodes::Letter;
use cjc_card_frame::parts::LookUps;
use cjc_card_semantics::bytes::NoMemory;
use cjc_card_semantics::script::Value;

/// Whether the array or object with a number is of a type.
fn is_of<L: LookUps>(links: &L, heap: &Heap, number: u32, target: Shape) -> Option<bool>
    ensures { result ≡ option_map (λ thing. is_of (L.loaded links.now) (shape thing) (shape_of target))
        (slice_get heap.now number) }
{
    match heap.shape_at(number) {
        Some(shape) => Some(links.is_of(shape, target)),
        None => None,
    }
}

/// checkcast.
pub fn check_cast<'a, L: LookUps>(links: &L, cells: &Cells, heap: &Heap, target: Shape) -> Deed<'a>
    ensures { (room : ℕ) → FollowsOn (λ next locals m stack. effect (classes (L.loaded links.now))
        (Cast (shape_of target)) room next locals m stack) result cells.now cells.now heap.now heap.now }
{
    match cells.word(0) {
        Some(Value::Null) => Deed::Go,
        Some(Value::Obj(number)) => match is_of(links, heap, number, target) {
            Some(true) => Deed::Go,
            Some(false) => Deed::Raise(Exception::ClassCast),
            None => Deed::Stick,
        },
        Some(Value::Num(_)) => Deed::Stick,
        None => Deed::Stick,
    }
}

/// instanceof.
pub fn instance_of<'a, L: LookUps>(
    links: &L,
    cells: &mut Cells,
    heap: &Heap,
    target: Shape,
) -> Result<Deed<'a>, NoMemory>
    ensures { IfOk result (λ deed. (room : ℕ) → FollowsOn (λ next locals m stack. effect (classes (L.loaded links.now))
        (Ask (shape_of target)) room next locals m stack) deed cells.old cells.new heap.now heap.now) }
{
    match cells.word(0) {
        Some(Value::Null) => {
            cells.put(1, Value::Num(0))?;
            Ok(Deed::Go)
        }
        Some(Value::Obj(number)) => match is_of(links, heap, number, target) {
            Some(true) => {
                cells.put(1, Value::Num(1))?;
                Ok(Deed::Go)
            }
            Some(false) => {
                cells.put(1, Value::Num(0))?;
                Ok(Deed::Go)
            }
            None => Ok(Deed::Stick),
        },
        Some(Value::Num(_)) => Ok(Deed::Stick),
        None => Ok(Deed::Stick),
    }
}

/// athrow.
pub fn throw<'a>(cells: &Cells) -> Deed<'a>
    ensures { (l : Loaded) (room : ℕ) → FollowsAlone (λ next locals m stack. effect_of_access (classes l) Throw room
        next locals m stack) result cells.now cells.now }
{
    match cells.word(0) {
        Some(Value::Null) => Deed::Raise(Exception::NullPointer),
        Some(Value::Obj(number)) => Deed::Toss(number),
        Some(Value::Num(_)) => Deed::Stick,
        None => Deed::Stick,
    }
}

/// A word is returned, where it is of the letter's kind.
fn leave_with<'a>(cells: &Cells, letter: Letter) -> Deed<'a>
    ensures { (l : Loaded) (room : ℕ)
        → FollowsAlone (λ next locals m stack. effect_of_access (classes l) (Return (Some (letter_of letter))) room next
        locals m stack) result cells.now cells.now }
{
    match letter {
        Letter::Reference => match cells.word(0) {
            Some(Value::Null) => Deed::Leave(Returned::Null),
            Some(Value::Obj(number)) => Deed::Leave(Returned::Object(number)),
            Some(Value::Num(_)) => Deed::Stick,
            None => Deed::Stick,
        },
        Letter::Byte => match cells.number(0) {
            Some(number) => Deed::Leave(Returned::Number(number as i16)),
            None => Deed::Stick,
        },
        Letter::Short => match cells.number(0) {
            Some(number) => Deed::Leave(Returned::Number(number as i16)),
            None => Deed::Stick,
        },
        Letter::Int => match cells.numbers(0) {
            Some((high, low)) => Deed::Leave(Returned::Int(high as i16, low as i16)),
            None => Deed::Stick,
        },
    }
}

/// areturn, sreturn, ireturn and return.
pub fn leave<'a>(cells: &Cells, letter: Option<Letter>) -> Deed<'a>
    ensures { (l : Loaded) (room : ℕ)
        → FollowsAlone (λ next locals m stack. effect_of_access (classes l) (Return (letter_if letter)) room next locals
        m stack) result cells.now cells.now }
{
    match letter {
        Some(letter) => leave_with(cells, letter),
        None => Deed::Leave(Returned::Nothing),
    }
}
