//! Rule 103: code that is not a run of instructions (Java Virtual Machine Specification, 4.9.1).

ghost use Rattle.std.specs.Prelude.{◌≡◌, ◌++◌, ◌≤◌, ◌^◌, ◌<◌, length, OnOk, IfOk, map, pos};
ghost use Rattle.std.specs.List.{flat_map};
ghost use Rattle.cjc_bytes.specs.Spots.{desc_of};
ghost use Rattle.cjc_code.specs.Unfit.{rise, has_wrong_item, has_wrong_jump, has_wrong_local, has_wrong_values};
ghost use Rattle.cjc_code.specs.Unfit.{has_wrong_type, is_unfit, where_true, unfit_places, may_go_on, last_places};
ghost use Rattle.cjc_code.specs.Unfit.{arguments, catch_places, cut_places};

use crate::items::{meets, needed};
use crate::numbers::{first, local, u8_of, u16_of};
use crate::raw::{Cut, Raw};
use crate::starts::{is_start, jumps_land};
use crate::table::Family;
use cjc_bytes::{Desc, NoMemory, Row, is_static};
use cjc_classfile::{Catch, ClassTree, Code, MethodTree, PoolItem};
use std::alloc::Global;

/// Whether the values of pairs rise strictly.
fn rise(pairs: &[i32]) -> bool
    ensures { result ≡ rise pairs.now }
{
    let mut left = pairs;
    while let [value, _, next, ..] = left {
        if value >= next {
            return false;
        }
        left = &left[2..];
    }
    true
}

fn has_wrong_item(major: u16, pool: &[PoolItem<'_>], insn: &Raw) -> bool
    ensures { result ≡ has_wrong_item major pool.now insn.now }
{
    let index = u16_of(first(insn.numbers.items()));
    !meets(pool, index, needed(major, insn.family))
}

fn has_wrong_jump(starts: &[bool], insn: &Raw) -> bool
    ensures { result ≡ has_wrong_jump starts.now insn.now }
{
    !jumps_land(starts, insn.at, insn.family, insn.numbers.items())
}

fn has_wrong_local(max_locals: u16, insn: &Raw) -> bool
    ensures { result ≡ has_wrong_local max_locals insn.now }
{
    match local(insn.family, insn.numbers.items()) {
        Some(n) => n >= max_locals,
        None => false,
    }
}

fn has_wrong_values(family: Family, numbers: &[i32]) -> bool
    ensures { result ≡ has_wrong_values family numbers.now }
{
    match (family, numbers) {
        (Family::TableSwitch, [_, low, high, ..]) => high < low,
        (Family::LookupSwitch, [_, pairs, more @ ..]) => *pairs < 0 || !rise(more),
        _ => false,
    }
}

fn has_wrong_type(family: Family, numbers: &[i32]) -> bool
    ensures { result ≡ has_wrong_type family numbers.now }
{
    match family {
        Family::NewArray => {
            let number = u8_of(first(numbers));
            !(number >= 4 && number <= 11)
        }
        _ => false,
    }
}

/// Whether an instruction breaks the rule at its own place.
fn is_unfit(major: u16, pool: &[PoolItem<'_>], max_locals: u16, starts: &[bool], insn: &Raw) -> bool
    ensures { result ≡ is_unfit major pool.now max_locals starts.now insn.now }
{
    has_wrong_item(major, pool, insn)
        || has_wrong_jump(starts, insn)
        || has_wrong_local(max_locals, insn)
        || has_wrong_values(insn.family, insn.numbers.items())
        || has_wrong_type(insn.family, insn.numbers.items())
}

/// A place, where the rule is broken there.
fn put(places: &mut Row<u32>, is_broken: bool, place: u32) -> Result<(), NoMemory>
    ensures { OnOk result (places.new ≡ places.old ++ where_true is_broken place) }
{
    if is_broken {
        places.push(place)?;
    }
    Ok(())
}

#[tactic(auto, using(crate::proofs::Places::flat_more, crate::proofs::Places::flat_ends))]
fn put_unfit(
    major: u16,
    pool: &[PoolItem<'_>],
    max_locals: u16,
    starts: &[bool],
    insns: &[Raw],
    places: &mut Row<u32>,
) -> Result<(), NoMemory>
    ensures { OnOk result (places.new ≡ places.old ++ unfit_places major pool.now max_locals starts.now insns.now) }
{
    for insn in insns {
        let is_broken = is_unfit(major, pool, max_locals, starts, insn);
        put(places, is_broken, u32::from(insn.at))?;
    }
    Ok(())
}

/// Whether the next instruction may follow.
fn may_go_on(family: Family) -> bool
    ensures { result ≡ may_go_on family }
{
    !matches!(
        family,
        Family::Goto
            | Family::TableSwitch
            | Family::LookupSwitch
            | Family::Return
            | Family::Throw
            | Family::UnsupportedJump
            | Family::UnsupportedReturn
            | Family::Ret
    )
}

fn put_last(insns: &[Raw], places: &mut Row<u32>) -> Result<(), NoMemory>
    ensures { OnOk result (places.new ≡ places.old ++ last_places insns.now) }
{
    match insns {
        [] => Ok(()),
        [.., last] => put(places, may_go_on(last.family), u32::from(last.at)),
    }
}

/// How many locals the arguments take, one for each parameter and one for `this`.
fn arguments(method: &MethodTree<'_>) -> u64
    requires { length method.now.desc < 2 ^ 32 }
    ensures { result ≡ arguments method.now }
{
    let params = match Desc::parse(method.desc.items()) {
        Ok(desc) => desc.params(),
        Err(_) => 0,
    };
    let this = if is_static(method.flags) { 0 } else { 1 };
    u64::from(params) + this
}

fn put_catch(
    starts: &[bool],
    size: u32,
    catch: &Catch,
    places: &mut Row<u32>,
) -> Result<(), NoMemory>
    ensures { OnOk result (places.new ≡ places.old ++ catch_places starts.now size catch.now) }
{
    let start = !is_start(starts, i64::from(catch.start));
    put(places, start, u32::from(catch.start))?;
    let end = !(is_start(starts, i64::from(catch.end)) || u32::from(catch.end) == size);
    put(places, end, u32::from(catch.end))?;
    let target = !is_start(starts, i64::from(catch.target));
    put(places, target, u32::from(catch.target))
}

#[tactic(auto, using(crate::proofs::Places::flat_more, crate::proofs::Places::flat_ends))]
fn put_catches(
    starts: &[bool],
    size: u32,
    catches: &[Catch],
    places: &mut Row<u32>,
) -> Result<(), NoMemory>
    ensures { OnOk result (places.new ≡ places.old ++ flat_map (catch_places starts.now size) catches.now) }
{
    for catch in catches {
        put_catch(starts, size, catch, places)?;
    }
    Ok(())
}

/// The places where the code of a method breaks the rule.
pub(crate) fn places(
    alloc: Global,
    class: &ClassTree<'_>,
    method: &MethodTree<'_>,
    code: &Code<'_>,
    cut: &Cut,
    starts: &[bool],
) -> Result<Row<u32>, NoMemory>
    requires desc { length method.now.desc < 2 ^ 32 }
    requires bytes { length code.now.bytes ≤ 65535 }
    ensures { IfOk result (λ ps. ps ≡ cut_places class.now method.now code.now cut.now starts.now) }
{
    let size = code.bytes.len() as u32;
    let mut places = Row::new(alloc);
    put_unfit(
        class.major,
        class.pool.items(),
        code.max_locals,
        starts,
        cut.insns.items(),
        &mut places,
    )?;
    put(&mut places, cut.stop < size, cut.stop)?;
    if cut.stop == size {
        put_last(cut.insns.items(), &mut places)?;
    }
    let are_too_many = arguments(method) > u64::from(code.max_locals);
    put(&mut places, are_too_many, 0)?;
    put_catches(starts, size, code.catches.items(), &mut places)?;
    Ok(places)
}
