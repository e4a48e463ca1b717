//! Switches: the cases within 16 bits. Called by whoever writes instructions.

ghost use Rattle.std.specs.Prelude.{◌≡◌, ◌++◌, pos, IfOk, OnOk};
ghost use Rattle.cjc_jvm_semantics.specs.CapRead.Card as card;
ghost use Rattle.std.specs.List.{list_any};
ghost use Rattle.cjc_ncode.specs.LowerCardSemantics.Bytecode.Numbers.{is_word};
ghost use Rattle.cjc_ncode.specs.Written.{low_of, pair_cases, switched, table_cases};
ghost use Rattle.cjc_narrow.specs.Written.Working.Switches.{any_word, case_if, next_value};
ghost use Rattle.cjc_narrow.specs.Written.Labels.{place_of};

use crate::written::places::Places;
use cjc_ncode::capread::card;
use cjc_ncode::{NCase, NInsn};
use cjc_types::bytecode::JCase;
use cjc_types::bytes::{NoMemory, Row};
use std::alloc::Global;

/// Whether one word holds a number.
fn is_word(value: i32) -> bool
    ensures { result ≡ is_word value }
{
    -32768 <= value && value <= 32767
}

/// The next number, up to the first above all words.
fn next_value(value: i32) -> i32
    ensures { result ≡ next_value value }
{
    if value <= 32767 { value + 1 } else { value }
}

/// Whether a table from a low value on has a case within 16 bits.
pub(crate) fn has_word(low: i32, targets: &[u32]) -> bool
    ensures { result ≡ any_word low targets.now }
{
    let mut value = low;
    for _ in targets {
        if is_word(value) {
            return true;
        }
        value = next_value(value);
    }
    false
}

/// Whether a pair's value is within 16 bits.
pub(crate) fn has_pair(cases: &[JCase]) -> bool
    ensures { result ≡ list_any (λ c. is_word c.value) cases.now }
{
    cases.iter().any(|case| is_word(case.value))
}

/// Puts a case at the end, where its value is within 16 bits.
fn put_case(
    cases: &mut Row<NCase>,
    places: &Places<'_>,
    value: i32,
    target: u32,
) -> Result<(), NoMemory>
    ensures { OnOk result (cases.new ≡ cases.old ++ case_if value (place_of places.now target)) }
{
    if is_word(value) {
        let target = places.place(target);
        cases.push(NCase { value, target })?;
    }
    Ok(())
}

fn table_cases(
    alloc: Global,
    places: &Places<'_>,
    low: i32,
    targets: &[u32],
) -> Result<Row<NCase>, NoMemory>
    ensures { IfOk result (λ cases. cases ≡ table_cases (place_of places.now) low targets.now) }
{
    let mut cases = Row::new(alloc);
    let mut value = low;
    for target in targets {
        put_case(&mut cases, places, value, *target)?;
        value = next_value(value);
    }
    Ok(cases)
}

#[tactic(auto, using(crate::proofs::WrittenLaws::Cases::pair_next, crate::proofs::WrittenLaws::Cases::pair_end))]
fn pair_cases(alloc: Global, places: &Places<'_>, pairs: &[JCase]) -> Result<Row<NCase>, NoMemory>
    ensures { IfOk result (λ cases. cases ≡ pair_cases (place_of places.now) pairs.now) }
{
    let mut cases = Row::new(alloc);
    for pair in pairs {
        put_case(&mut cases, places, pair.value, pair.target)?;
    }
    Ok(cases)
}

/// The first value that is left.
fn low_of(cases: &[NCase]) -> i32
    ensures { result ≡ low_of cases.now }
{
    match cases {
        [] => 0,
        [case, ..] => case.value,
    }
}

/// Puts a switch at the end; pop and a goto to its default where it has no case.
fn put_switch(
    out: &mut Row<NInsn>,
    op: u8,
    other: u32,
    low: i32,
    cases: Row<NCase>,
) -> Result<(), NoMemory>
    ensures { OnOk result (out.new ≡ out.old ++ switched op other low cases) }
{
    if cases.items().is_empty() {
        out.push(NInsn::Op(card::POP))?;
        return out.push(NInsn::Jump {
            op: card::GOTO,
            target: other,
        });
    }
    out.push(NInsn::Switch {
        op,
        other,
        low,
        cases,
    })
}

/// Puts a tableswitch at the end.
pub(crate) fn put_table(
    out: &mut Row<NInsn>,
    alloc: Global,
    places: &Places<'_>,
    other: u32,
    low: i32,
    targets: &[u32],
) -> Result<(), NoMemory>
    ensures { let cases = table_cases (place_of places.now) low targets.now in OnOk result (out.new ≡ out.old
        ++ switched card.stableswitch (place_of places.now other) (low_of cases) cases) }
{
    let cases = table_cases(alloc, places, low, targets)?;
    let first = low_of(cases.items());
    put_switch(out, card::STABLESWITCH, places.place(other), first, cases)
}

/// Puts a lookupswitch at the end.
pub(crate) fn put_lookup(
    out: &mut Row<NInsn>,
    alloc: Global,
    places: &Places<'_>,
    other: u32,
    pairs: &[JCase],
) -> Result<(), NoMemory>
    ensures { OnOk result (out.new ≡ out.old ++ switched card.slookupswitch (place_of places.now other) (pos 0)
        (pair_cases (place_of places.now) pairs.now)) }
{
    let cases = pair_cases(alloc, places, pairs)?;
    put_switch(out, card::SLOOKUPSWITCH, places.place(other), 0, cases)
}
