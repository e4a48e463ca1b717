//! Switches, every case of which is kept, and jumps that compare numbers. Called by whoever selects code.

ghost use Rattle.std.specs.Prelude.{◌≡◌, ◌≤◌, ◌++◌, ◌∷◌, [], map, pos, ◌+ℤ◌, IfOk, OnOk};
ghost use Rattle.cjc_int_mode.specs.CapRead.Card as card;
ghost use Rattle.cjc_ncode.specs.declared.narrow.NInsn.TheVariants.{Switch};
ghost use Rattle.cjc_ncode.specs.Written.{pair_case};
ghost use Rattle.cjc_ncode.specs.IntCode.IntCode.{jumped, table_cases};
ghost use Rattle.cjc_narrow.specs.Written.Labels.{place_of};

use crate::numbers::put_ops;
use cjc_narrow::written::Places;
use cjc_ncode::bytecode::{JCase, jvm};
use cjc_ncode::bytes::{NoMemory, Row};
use cjc_ncode::capread::card;
use cjc_ncode::{NCase, NInsn};
use std::alloc::Global;

/// The value of a case so far behind the first, where 32 bits hold it, as they do for every table that is decoded.
fn value_at(low: i32, place: usize) -> Result<i32, NoMemory>
    ensures { IfOk result (λ value. value ≡ low +ℤ pos place) }
{
    let Ok(place) = i32::try_from(place) else {
        return Err(NoMemory);
    };
    match low.checked_add(place) {
        Some(value) => Ok(value),
        None => Err(NoMemory),
    }
}

#[tactic(auto, using(crate::proofs::Cases::table_next, crate::proofs::Cases::table_end))]
fn table_cases(
    alloc: Global,
    places: &Places<'_>,
    low: i32,
    targets: &[u32],
) -> Result<Row<NCase>, NoMemory>
    ensures { IfOk result (λ cases. cases ≡ table_cases (place_of places.now) low targets.now) }
{
    let mut cases = Row::new(alloc);
    for k in 0..targets.len() {
        let value = value_at(low, k)?;
        let target = places.place(targets[k]);
        cases.push(NCase { value, target })?;
    }
    Ok(cases)
}

fn pair_cases(alloc: Global, places: &Places<'_>, pairs: &[JCase]) -> Result<Row<NCase>, NoMemory>
    ensures { IfOk result (λ cases. cases ≡ map (pair_case (place_of places.now)) pairs.now) }
{
    let mut cases = Row::new(alloc);
    for pair in pairs {
        let target = places.place(pair.target);
        cases.push(NCase {
            value: pair.value,
            target,
        })?;
    }
    Ok(cases)
}

/// Puts a tableswitch at the end.
pub(crate) fn put_table(
    out: &mut Row<NInsn>,
    alloc: Global,
    places: &Places<'_>,
    other: u32,
    low: i32,
    targets: &[u32],
) -> Result<(), NoMemory>
    ensures { OnOk result (out.new ≡ out.old ++ Switch card.itableswitch (place_of places.now other) low
        (table_cases (place_of places.now) low targets.now) ∷ []) }
{
    let cases = table_cases(alloc, places, low, targets)?;
    out.push(NInsn::Switch {
        op: card::ITABLESWITCH,
        other: places.place(other),
        low,
        cases,
    })
}

/// Puts a lookupswitch at the end.
pub(crate) fn put_lookup(
    out: &mut Row<NInsn>,
    alloc: Global,
    places: &Places<'_>,
    other: u32,
    pairs: &[JCase],
) -> Result<(), NoMemory>
    ensures { OnOk result (out.new ≡ out.old ++ Switch card.ilookupswitch (place_of places.now other) (pos 0)
        (map (pair_case (place_of places.now)) pairs.now) ∷ []) }
{
    let cases = pair_cases(alloc, places, pairs)?;
    out.push(NInsn::Switch {
        op: card::ILOOKUPSWITCH,
        other: places.place(other),
        low: 0,
        cases,
    })
}

/// Puts a jump at the end that compares a number with 0, or two numbers.
pub(crate) fn put_comparison(
    out: &mut Row<NInsn>,
    places: &Places<'_>,
    op: u8,
    target: u32,
) -> Result<(), NoMemory>
    requires { op ≤ 164 }
    ensures { OnOk result (out.new ≡ out.old ++ jumped op (place_of places.now target)) }
{
    let target = places.place(target);
    if op <= jvm::IFLE {
        put_ops(out, &[card::ICONST_0, card::ICMP])?;
        return out.push(NInsn::Jump {
            op: card::IFEQ + op.saturating_sub(jvm::IFEQ),
            target,
        });
    }
    out.push(NInsn::Op(card::ICMP))?;
    out.push(NInsn::Jump {
        op: card::IFEQ + op.saturating_sub(jvm::IF_ICMPEQ),
        target,
    })
}
