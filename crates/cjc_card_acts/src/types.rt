//! The types that the nibbles of a type descriptor say (Java Card Virtual Machine Specification 2.2.2, section 6.13.4),
//! and what is known and needed of the words of their values.

ghost use Rattle.std.specs.Prelude.{◌≡◌, ◌≤◌, ◌<◌, ◌++◌, ◌∷◌, true, ℕ, List, [], flat_map, length, map, option_map};
ghost use Rattle.std.specs.Prelude.{None, Some};
ghost use Rattle.std.specs.Prelude.{IfOk, MatchOption, OnOk};
ghost use Rattle.cjc_card_acts.specs.CardTypes.{by_nibble as said_by, has_class, is_moved_by, is_returned_by};
ghost use Rattle.cjc_card_acts.specs.CardTypes.{member_type as type_of_types, needs_of, needs_of_all, onto, type_by};
ghost use Rattle.cjc_card_acts.specs.CardTypes.{numbers_type, types_in, width, widths, words};
ghost use Rattle.cjc_card_acts.specs.Told.{type_told};
ghost use Rattle.cjc_card_frame.specs.Meanings.{letter_if, letter_of};

use cjc_card_frame::opcodes::Letter;
use cjc_check_rules::bytes::{Bytes, NoMemory, Row};
use cjc_frames::{Given, Need};
use std::alloc::Global;
use std::marker::Model;

/// The type of a value, of a reference by its nibbles in a type descriptor.
#[derive(Clone, Copy)]
pub enum ValueType<'a> {
    Void,
    Boolean,
    Byte,
    Short,
    Int,
    Reference(&'a [u8]),
}

/// The types of a method's parameters and of its result; of a field its type is the result.
#[derive(Drop)]
pub struct MemberType<'a> {
    pub params: Row<ValueType<'a>>,
    pub result: ValueType<'a>,
}

impl<'a> Model for MemberType<'a> {
    ghost use Rattle.std.specs.Prelude.{map};
    ghost use Rattle.cjc_card_acts.specs.CardTypes.{MemberType as Said};
    ghost use Rattle.cjc_card_acts.specs.Told.{type_told};

    ghost Value = { Said };

    ghost view = { λ m. record { params = map type_told m.params; result = type_told m.result } };
}

/// A type, and the nibbles behind it.
#[derive(Clone, Copy)]
struct Cut<'a> {
    first: ValueType<'a>,
    rest: &'a [u8],
}

/// Whether a class_ref follows.
fn has_class(nibble: u8) -> bool
    ensures { result ≡ has_class nibble }
{
    nibble == 0x6 || nibble == 0xE
}

/// The type that the first of these nibbles says by itself.
fn by_nibble(nibbles: &[u8]) -> Option<ValueType<'_>>
    ensures { (n : ℕ) (rest : List ℕ) → nibbles.now ≡ n ∷ rest → option_map type_told result ≡ said_by n }
{
    match nibbles {
        [] => None,
        [1, ..] => Some(ValueType::Void),
        [2, ..] => Some(ValueType::Boolean),
        [3, ..] => Some(ValueType::Byte),
        [4, ..] => Some(ValueType::Short),
        [5, ..] => Some(ValueType::Int),
        [n, ..] => {
            if 0xA <= *n && *n <= 0xD {
                Some(ValueType::Reference(&nibbles[..1]))
            } else {
                None
            }
        }
    }
}

/// The type of a class_ref, which the first of these nibbles says to follow, and the nibbles behind it.
#[tactic(auto, using(crate::proofs::Nibbles::class_first, crate::proofs::Nibbles::class_cut))]
fn class_type(nibbles: &[u8]) -> Option<Cut<'_>>
    ensures { (n : ℕ) (rest : List ℕ) → nibbles.now ≡ n ∷ rest → has_class n ≡ true → MatchOption result
        (types_in nibbles.now ≡ None) (λ cut. (types_in nibbles.now ≡ onto (Some (type_told cut.first))
        (types_in cut.rest.now)) × (length cut.rest.now < length nibbles.now)) }
{
    if nibbles.len() < 5 {
        return None;
    }
    Some(Cut {
        first: ValueType::Reference(&nibbles[..5]),
        rest: &nibbles[5..],
    })
}

/// The first type that nibbles say, and the nibbles behind it.
#[tactic(auto, using(crate::proofs::Nibbles::nibble_first))]
fn first_type(nibbles: &[u8]) -> Option<Cut<'_>>
    requires { 0 < length nibbles.now }
    ensures { MatchOption result (types_in nibbles.now ≡ None) (λ cut. (types_in nibbles.now ≡ onto
        (Some (type_told cut.first)) (types_in cut.rest.now)) × (length cut.rest.now < length nibbles.now)) }
{
    match nibbles {
        [] => None,
        [n, rest @ ..] => {
            if has_class(*n) {
                return class_type(nibbles);
            }
            match by_nibble(nibbles) {
                Some(first) => Some(Cut { first, rest }),
                None => None,
            }
        }
    }
}

/// The types that nibbles say.
#[tactic(auto, using(crate::proofs::Nibbles::none_so_far, crate::proofs::Nibbles::one_more, crate::proofs::Nibbles::none_more, crate::proofs::Nibbles::all_said))]
fn types_in(alloc: Global, nibbles: &[u8]) -> Result<Option<Row<ValueType<'_>>>, NoMemory>
    ensures { IfOk result (λ types. option_map (map type_told) types ≡ types_in nibbles.now) }
{
    let mut types = Row::new(alloc);
    let mut left = nibbles;
    while let [_, ..] = left {
        match first_type(left) {
            Some(cut) => {
                types.push(cut.first)?;
                left = cut.rest;
            }
            None => return Ok(None),
        }
    }
    Ok(Some(types))
}

/// What has no type has no parameters and no result.
pub(crate) fn untyped<'a>(alloc: Global) -> MemberType<'a>
    ensures { result ≡ type_by None }
{
    MemberType {
        params: Row::new(alloc),
        result: ValueType::Void,
    }
}

/// The last of types as the result, with those before it as parameters.
#[tactic(auto, using(crate::proofs::Nibbles::last_is_result))]
fn with_result<'a>(alloc: Global, types: Row<ValueType<'a>>) -> MemberType<'a>
    ensures { result ≡ type_of_types (map type_told types.entry) }
{
    let mut types = types.into_vec();
    match types.pop() {
        Some(result) => MemberType {
            params: Row::of(types),
            result,
        },
        None => untyped(alloc),
    }
}

/// The type that the nibbles of a type descriptor say; nibbles that say no types say no parameters and no result.
pub fn member_type(alloc: Global, nibbles: &[u8]) -> Result<MemberType<'_>, NoMemory>
    ensures { IfOk result (λ type. type ≡ type_by (types_in nibbles.now)) }
{
    match types_in(alloc, nibbles)? {
        Some(types) => Ok(with_result(alloc, types)),
        None => Ok(untyped(alloc)),
    }
}

/// How many words a value has.
pub fn width(type_: ValueType<'_>) -> u64
    ensures width { result ≡ width (type_told type_.entry) }
    ensures small { result ≤ 2 }
{
    match type_ {
        ValueType::Void => 0,
        ValueType::Boolean => 1,
        ValueType::Byte => 1,
        ValueType::Short => 1,
        ValueType::Int => 2,
        ValueType::Reference(_) => 1,
    }
}

/// How many words several have.
#[tactic(auto, using(crate::proofs::Nibbles::widths_more, crate::proofs::Nibbles::few_words))]
pub fn widths(types: &[ValueType<'_>]) -> u64
    ensures { result ≡ widths (map type_told types.now) }
{
    let mut count = 0;
    let mut left = types;
    while let [type_, rest @ ..] = left {
        count += width(*type_);
        left = rest;
    }
    count
}

/// Puts what is known of the words of a value at the end.
pub fn put_words(
    alloc: Global,
    given: &mut Row<Given>,
    type_: ValueType<'_>,
) -> Result<(), NoMemory>
    ensures { OnOk result (given.new ≡ given.old ++ words (type_told type_.entry)) }
{
    match type_ {
        ValueType::Void => {}
        ValueType::Boolean => given.push(Given::ANumber)?,
        ValueType::Byte => given.push(Given::ANumber)?,
        ValueType::Short => given.push(Given::ANumber)?,
        ValueType::Int => {
            given.push(Given::ANumber)?;
            given.push(Given::ANumber)?;
        }
        ValueType::Reference(nibbles) => {
            given.push(Given::AnObject(Bytes::copy_of(alloc, nibbles)?))?
        }
    }
    Ok(())
}

/// Puts what is known of the words of arguments at the end.
#[tactic(auto, using(crate::proofs::Nibbles::words_more))]
pub fn put_all_words(
    alloc: Global,
    given: &mut Row<Given>,
    types: &[ValueType<'_>],
) -> Result<(), NoMemory>
    ensures { OnOk result (given.new ≡ given.old ++ flat_map words (map type_told types.now)) }
{
    let mut left = types;
    while let [type_, rest @ ..] = left {
        put_words(alloc, given, *type_)?;
        left = rest;
    }
    Ok(())
}

/// Puts what the words of a value are to be at the end.
pub fn put_needs(alloc: Global, needs: &mut Row<Need>, type_: ValueType<'_>) -> Result<(), NoMemory>
    ensures { OnOk result (needs.new ≡ needs.old ++ needs_of (type_told type_.entry)) }
{
    match type_ {
        ValueType::Void => {}
        ValueType::Boolean => needs.push(Need::NumberWord)?,
        ValueType::Byte => needs.push(Need::NumberWord)?,
        ValueType::Short => needs.push(Need::NumberWord)?,
        ValueType::Int => {
            needs.push(Need::NumberWord)?;
            needs.push(Need::NumberWord)?;
        }
        ValueType::Reference(nibbles) => {
            needs.push(Need::OfType(Bytes::copy_of(alloc, nibbles)?))?
        }
    }
    Ok(())
}

/// Puts what arguments on the stack are to be at the end: the last one lies on top.
#[tactic(auto, using(crate::proofs::Nibbles::needs_none, crate::proofs::Nibbles::needs_step, crate::proofs::Nibbles::needs_end))]
pub fn put_all_needs(
    alloc: Global,
    needs: &mut Row<Need>,
    types: &[ValueType<'_>],
) -> Result<(), NoMemory>
    ensures { OnOk result (needs.new ≡ needs.old ++ needs_of_all (map type_told types.now)) }
{
    for k in 0..types.len() {
        put_needs(alloc, needs, types[types.len() - 1 - k])?;
    }
    Ok(())
}

/// Whether a letter moves values of a type.
pub fn is_moved_by(letter: Letter, type_: ValueType<'_>) -> bool
    ensures { result ≡ is_moved_by (letter_of letter) (type_told type_.entry) }
{
    matches!(
        (letter, type_),
        (Letter::Byte, ValueType::Boolean)
            | (Letter::Byte, ValueType::Byte)
            | (Letter::Short, ValueType::Short)
            | (Letter::Int, ValueType::Int)
            | (Letter::Reference, ValueType::Reference(_))
    )
}

/// Whether a return with a letter, or with none, returns values of a type.
pub fn is_returned_by(letter: Option<Letter>, type_: ValueType<'_>) -> bool
    ensures { result ≡ is_returned_by (letter_if letter) (type_told type_.entry) }
{
    matches!(
        (letter, type_),
        (None, ValueType::Void)
            | (Some(Letter::Reference), ValueType::Reference(_))
            | (Some(Letter::Short), ValueType::Boolean)
            | (Some(Letter::Short), ValueType::Byte)
            | (Some(Letter::Short), ValueType::Short)
            | (Some(Letter::Int), ValueType::Int)
    )
}

/// The type of arrays of numbers by newarray's type number: boolean 10, byte 11, short 12, int 13.
pub fn numbers_type(alloc: Global, number: u32) -> Result<Option<Bytes>, NoMemory>
    ensures { IfOk result (λ type. type ≡ numbers_type number) }
{
    if 10 <= number && number <= 13 {
        Ok(Some(Bytes::copy_of(alloc, &[number as u8])?))
    } else {
        Ok(None)
    }
}
