//! A broken rule, by names that are lent, and the first of several.

ghost use Rattle.std.specs.Prelude.{◌≡◌, ◌⊎◌, ◌<◌, ◌++◌, ◌∷◌, ◌==◌, ◌&&◌, ◌||◌, nat_lt, [], List, IfOk, IfErr, OnOk, option_map};
ghost use Rattle.cjc_bytes.specs.declared.fault.Fault.TheVariants as faults;
ghost use Rattle.cjc_world.specs.Rules.{Break as Broken, IsFirstRefusal};
ghost use Rattle.cjc_subset.specs.Breaks.{break_of, spot_of, text_of};
ghost use Rattle.cjc_subset.specs.Places.{IsFirstOf, is_up_to, at};
ghost use Rattle.cjc_bytes.specs.Order.{numbers};

use cjc_bytes::{Bytes, Fault, NoMemory, Place, Refusal, Rule};
use std::alloc::Global;

/// What of a class a place is.
#[derive(Clone, Copy)]
pub enum Part<'w> {
    /// The class itself, or no class.
    Whole,
    /// A field, by its name and its descriptor.
    Field(&'w [u8], &'w [u8]),
    /// A method, by its name and its descriptor.
    Method(&'w [u8], &'w [u8]),
}

/// A place that a rule speaks of.
#[derive(Clone, Copy)]
pub struct Spot<'w> {
    /// The list is 0; then the files in list order.
    pub file: usize,
    pub file_name: &'w [u8],
    /// Of the list 0, of a class file 1.
    pub class: usize,
    pub class_name: &'w [u8],
    /// The class itself is 0; then its fields, its methods. Wide enough for the sum of two counts.
    pub member: u128,
    pub part: Part<'w>,
    pub offset: u32,
}

/// A broken rule and its place.
#[derive(Clone, Copy)]
pub struct Break<'w> {
    pub rule: u16,
    pub spot: Spot<'w>,
}

/// The rule at a place, where it is broken there.
pub(crate) fn broken<'w>(is_broken: bool, spot: Spot<'w>, rule: u16) -> Option<Break<'w>>
    ensures { IsFirstOf (at is_broken (spot_of spot.entry) rule) (option_map break_of result) }
{
    if is_broken {
        Some(Break { rule, spot })
    } else {
        None
    }
}

/// Whether of two numbers the first is less, or they are equal and what follows is so.
fn up_to(left: u128, right: u128, rest: bool) -> bool
    ensures { result ≡ (nat_lt left right || ((left == right) && rest)) }
{
    left < right || (left == right && rest)
}

/// Whether a place does not stand after another in its class, where by an equal place the rule decides.
fn is_up_to_in_class(left: &Spot<'_>, right: &Spot<'_>, rule: bool) -> bool
    ensures { result ≡ (nat_lt left.now.member right.now.member || ((left.now.member == right.now.member) && (nat_lt left.now.offset right.now.offset || ((left.now.offset == right.now.offset) && rule)))) }
{
    let offset = up_to(u128::from(left.offset), u128::from(right.offset), rule);
    up_to(left.member, right.member, offset)
}

/// Whether a break does not stand after another in the order of refusals.
fn is_up_to(left: &Break<'_>, right: &Break<'_>) -> bool
    ensures { result ≡ is_up_to (numbers (break_of left.now).rank) (numbers (break_of right.now).rank) }
{
    let rule = up_to(u128::from(left.rule), u128::from(right.rule), true);
    let in_class = is_up_to_in_class(&left.spot, &right.spot, rule);
    let in_file = up_to(left.spot.class as u128, right.spot.class as u128, in_class);
    let in_family = up_to(left.spot.file as u128, right.spot.file as u128, in_file);
    up_to(
        u128::from(left.rule / 100),
        u128::from(right.rule / 100),
        in_family,
    )
}

/// The first of two in the order of refusals.
pub fn first<'w>(left: Option<Break<'w>>, right: Option<Break<'w>>) -> Option<Break<'w>>
    ensures { (xs ys : List Broken) → IsFirstOf xs (option_map break_of left.entry) → IsFirstOf ys (option_map break_of right.entry) → IsFirstOf (xs ++ ys) (option_map break_of result) }
{
    match (left, right) {
        (None, _) => right,
        (_, None) => left,
        (Some(one), Some(other)) => { if is_up_to(&one, &other) { left } else { right } }
    }
}

fn joined(alloc: Global, name: &[u8], between: &[u8], desc: &[u8]) -> Result<Bytes, NoMemory>
    ensures { IfOk result (λ text. text ≡ name.now ++ (between.now ++ desc.now)) }
{
    let mut text = Vec::from_slice(alloc, name)?;
    text.extend_from_slice(between)?;
    text.extend_from_slice(desc)?;
    Ok(Bytes::of(text))
}

fn text_of(alloc: Global, part: Part<'_>) -> Result<Bytes, NoMemory>
    ensures { IfOk result (λ text. text ≡ text_of part.entry) }
{
    match part {
        Part::Whole => Ok(Bytes::new(alloc)),
        Part::Field(name, desc) => joined(alloc, name, b":", desc),
        Part::Method(name, desc) => joined(alloc, name, b"", desc),
    }
}

fn refusal(alloc: Global, broken: Break<'_>) -> Result<Refusal, NoMemory>
    ensures { IfOk result (λ r. r ≡ (break_of broken.entry).refusal) }
{
    let file = Bytes::copy_of(alloc, broken.spot.file_name)?;
    let class = Bytes::copy_of(alloc, broken.spot.class_name)?;
    let member = text_of(alloc, broken.spot.part)?;
    Ok(Refusal {
        rule: Rule(broken.rule),
        place: Place {
            file,
            class,
            member,
            offset: broken.spot.offset,
        },
    })
}

/// The refusal of what is broken, or that there is no memory to say so; or nothing.
pub fn answer(alloc: Global, broken: Option<Break<'_>>) -> Result<(), Fault>
    ensures ok { (bs : List Broken) → IsFirstOf bs (option_map break_of broken.entry) → OnOk result (bs ≡ []) }
    ensures refused { (bs : List Broken) → IsFirstOf bs (option_map break_of broken.entry) → IfErr result (IsFirstRefusal bs) }
{
    match broken {
        None => Ok(()),
        Some(broken) => match refusal(alloc, broken) {
            Ok(refusal) => Err(Fault::Refused(refusal)),
            Err(NoMemory) => Err(Fault::NoMemory),
        },
    }
}
