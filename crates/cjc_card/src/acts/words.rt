//! Between values of scripts and words of frames: an int is two words, any other value one. Calls and answers
//! come in by it, and events go out.

ghost use Rattle.std.specs.Prelude.{◌≡◌, ◌≤◌, ◌∷◌, ◌++◌, List, None, Some, true, length, drop, map, option_map, IfOk};
ghost use Rattle.std.specs.Prelude.{IfSome, OnOk, if◌then◌else◌};
ghost use Rattle.std.specs.List.{All};
ghost use Rattle.cjc_script.specs.Sorts.{Sort as SortOf, all_fit, fits};
ghost use Rattle.cjc_jvm.specs.Acts.Meant.{sort_meant};
ghost use Rattle.cjc_card_semantics.specs.Bytecode.Arguments.{event_values, first_and, value_words, values_of};
ghost use Rattle.cjc_card_semantics.specs.Bytecode.Arguments.{words_of};
ghost use Rattle.cjc_card_semantics.specs.Bytecode.Effects.{with_some};
ghost use Rattle.cjc_card_semantics.specs.Bytecode.Machine.{fitting_words};
ghost use Rattle.cjc_card_semantics.specs.Machine.ByToken.{by_token};
ghost use Rattle.cjc_card_frame.specs.Frame.Frames.{IsWord};

use crate::acts::fitting::all_fit;
use cjc_card_frame::frame::words::{high_word, low_word, spelt_by};
use cjc_card_frame::heap::Heap;
use cjc_card_frame::parts::LookUps;
use cjc_jvm::acts::Sort;
use cjc_script::Value;
use cjc_script::bytes::{NoMemory, Row};
use std::alloc::Global;

// The words of a value of a type more.
fn push_words(words: &mut Row<Value>, sort: Sort<'_>, value: Value) -> Result<(), NoMemory>
    requires { fits (λ k shape. true) (sort_meant sort) value ≡ true }
    ensures is { OnOk result (option_map (λ more. words.old ++ more) (value_words (sort_meant sort.entry) value)
        ≡ Some words.new) }
    ensures fit { OnOk result (All IsWord words.old → All IsWord words.new) }
{
    match value {
        Value::Num(z) => {
            if let Sort::Int = sort {
                words.push(Value::Num(high_word(z)))?;
                words.push(Value::Num(low_word(z)))?;
                return Ok(());
            }
            words.push(Value::Num(z))?;
        }
        Value::Null => words.push(Value::Null)?,
        Value::Obj(number) => words.push(Value::Obj(number))?,
    }
    Ok(())
}

// The words of as many values as types more.
fn put_words(words: &mut Row<Value>, sorts: &[Sort<'_>], values: &[Value]) -> Result<(), NoMemory>
    requires same { length sorts.now ≡ length values.now }
    requires fit { all_fit (λ k shape. true) (map sort_meant sorts.now) values.now ≡ true }
    ensures is { OnOk result (option_map (λ more. words.old ++ more) (words_of (map sort_meant sorts.now) values.now)
        ≡ Some words.new) }
    ensures fit { OnOk result (All IsWord words.old → All IsWord words.new) }
{
    for i in 0..sorts.len() {
        push_words(words, sorts[i], values[i])?;
    }
    Ok(())
}

/// The words of values more, where each fits its type.
pub fn put_fitting<L: LookUps>(
    links: &L,
    heap: &Heap,
    words: &mut Row<Value>,
    sorts: &[Sort<'_>],
    values: &[Value],
) -> Result<bool, NoMemory>
    ensures is { IfOk result (λ fit. option_map (λ more. words.old
        ++ more) (fitting_words (by_token (L.loaded links.now)) heap.now (map sort_meant sorts.now) values.now)
        ≡ (if fit then Some words.new else None)) }
    ensures fit { OnOk result (All IsWord words.old → All IsWord words.new) }
{
    if !all_fit(links, heap, sorts, values) {
        return Ok(false);
    }
    put_words(words, sorts, values)?;
    Ok(true)
}

// A value of a type at the front of words, and how many words it has.
fn value_of(sort: Sort<'_>, words: &[Value]) -> Option<(Value, usize)>
    requires { All IsWord words.now }
    ensures is { (sorts : List SortOf) → values_of (sort_meant sort.entry ∷ sorts) words.now
        ≡ with_some None result (λ p. first_and p.0 (values_of sorts (drop p.1 words.now))) }
    ensures within { IfSome result (λ p. p.1 ≤ length words.now) }
    ensures few { IfSome result (λ p. p.1 ≤ 2) }
{
    match sort {
        Sort::Boolean | Sort::Byte | Sort::Short => match words {
            [Value::Num(z), ..] => Some((Value::Num(*z), 1)),
            _ => None,
        },
        Sort::Int => match words {
            [Value::Num(high), Value::Num(low), ..] => {
                Some((Value::Num(spelt_by(*high, *low)), 2))
            }
            _ => None,
        },
        Sort::Reference(_) => match words {
            [Value::Null, ..] => Some((Value::Null, 1)),
            [Value::Obj(number), ..] => Some((Value::Obj(*number), 1)),
            _ => None,
        },
        Sort::NoValue => None,
    }
}

// The values of words more, where each word is of its type's kind and none is left.
fn put_values(
    values: &mut Row<Value>,
    sorts: &[Sort<'_>],
    words: &[Value],
) -> Result<bool, NoMemory>
    requires { All IsWord words.now }
    ensures { IfOk result (λ fit. option_map (λ more. values.old ++ more) (values_of (map sort_meant sorts.now)
        words.now) ≡ (if fit then Some values.new else None)) }
{
    let mut rest = words;
    for sort in sorts {
        let Some((value, count)) = value_of(*sort, rest) else {
            return Ok(false);
        };
        values.push(value)?;
        rest = &rest[count..];
    }
    Ok(rest.is_empty())
}

// The values of words by themselves.
fn plain_values(
    alloc: Global,
    sorts: &[Sort<'_>],
    words: &[Value],
) -> Result<Option<Row<Value>>, NoMemory>
    requires { All IsWord words.now }
    ensures { IfOk result (λ values. values ≡ values_of (map sort_meant sorts.now) words.now) }
{
    let mut values = Row::new(alloc);
    if put_values(&mut values, sorts, words)? {
        Ok(Some(values))
    } else {
        Ok(None)
    }
}

/// The values of a call's words, with its receiver, where each word is of its type's kind.
pub fn event_values(
    alloc: Global,
    on_object: bool,
    sorts: &[Sort<'_>],
    words: &[Value],
) -> Result<Option<Row<Value>>, NoMemory>
    requires { All IsWord words.now }
    ensures { IfOk result (λ values. values ≡ event_values on_object (map sort_meant sorts.now) words.now) }
{
    if !on_object {
        return plain_values(alloc, sorts, words);
    }
    let [first, rest @ ..] = words else {
        return Ok(None);
    };
    let mut values = Row::new(alloc);
    values.push(*first)?;
    if put_values(&mut values, sorts, rest)? {
        Ok(Some(values))
    } else {
        Ok(None)
    }
}
