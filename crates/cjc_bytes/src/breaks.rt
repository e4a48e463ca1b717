//! Broken rules with their places, by names that are lent: the first of several, and the refusal of one. Every crate
//! that tests rules tells what is broken by it. It knows no rule.

ghost use Rattle.std.specs.Prelude.{◌≡◌, ◌⊎◌, ◌++◌, ◌==◌, ◌&&◌, ◌||◌, nat_lt, [], List, IfOk, IfErr, OnOk, option_map};
ghost use Rattle.cjc_bytes.specs.declared.fault.Fault.TheVariants as faults;
ghost use Rattle.cjc_bytes.specs.Breaks.{Break as BreakOf, IsFirstOf, IsFirstRefusal, at, class_spot, list_spot};
ghost use Rattle.cjc_bytes.specs.Order.{numbers};
ghost use Rattle.cjc_bytes.specs.Refused.{refusal, refused_at};
ghost use Rattle.cjc_bytes.specs.Told.{break_of, file_place_of, place_of, spot_of, text_of};
ghost use Rattle.cjc_bytes.specs.Working.Ranks.{is_up_to};

use crate::fault::{Fault, Place, Refusal, Rule};
use crate::order::{FileKey, FileRef};
use crate::row::Bytes;
use crate::stop::NoMemory;
use std::alloc::Global;

/// A broken rule and its offset in bytes, where the file, the class and the member are known.
#[derive(Clone, Copy)]
pub struct BrokenAt {
    pub rule: u16,
    pub offset: u32,
}

/// What of a class a place is.
#[derive(Clone, Copy)]
pub enum Part<'w> {
    /// The class itself, or no class.
    Whole,
    /// A field, by its name and its descriptor.
    Field(&'w [u8], &'w [u8]),
    /// A method, by its name and its descriptor.
    Method(&'w [u8], &'w [u8]),
}

/// What a refusal tells of a place, by names that are lent.
#[derive(Clone, Copy)]
pub struct PlaceRef<'w> {
    /// The file's name.
    pub file: &'w [u8],
    /// The class's full name, or nothing.
    pub class: &'w [u8],
    pub part: Part<'w>,
    pub offset: u32,
}

/// A place that a rule speaks of: where it stands in the order of refusals, and what is told of it.
#[derive(Clone, Copy)]
pub struct RulePlace<'w> {
    pub file: FileKey,
    /// The class's place in its file, from 1; the empty class is 0.
    pub class: usize,
    /// The class itself is 0; then its fields, its methods. Wide enough for the sum of two counts.
    pub member: u128,
    pub place: PlaceRef<'w>,
}

impl<'w> RulePlace<'w> {
    /// The list, of this name.
    pub fn of_list(list: &'w [u8]) -> RulePlace<'w>
        ensures { spot_of result ≡ list_spot list.now }
    {
        RulePlace {
            file: FileKey::List,
            class: 0,
            member: 0,
            place: PlaceRef {
                file: list,
                class: &[],
                part: Part::Whole,
                offset: 0,
            },
        }
    }

    /// The class at this place of a file, from 1, of this name; 0 and no name is the file as a whole.
    pub fn of_class(file: FileRef<'w>, class: usize, name: &'w [u8]) -> RulePlace<'w>
        ensures { spot_of result ≡ class_spot (file_place_of file.entry) class name.now }
    {
        RulePlace {
            file: file.key,
            class,
            member: 0,
            place: PlaceRef {
                file: file.name,
                class: name,
                part: Part::Whole,
                offset: 0,
            },
        }
    }
}

/// A broken rule and its place.
#[derive(Clone, Copy)]
pub struct Break<'w> {
    pub rule: u16,
    pub spot: RulePlace<'w>,
}

/// The rule at a place, where it is broken there.
pub fn broken<'w>(is_broken: bool, spot: RulePlace<'w>, rule: u16) -> Option<Break<'w>>
    ensures { IsFirstOf (at is_broken (spot_of spot.entry) rule) (option_map break_of result) }
{
    if is_broken {
        Some(Break { rule, spot })
    } else {
        None
    }
}

/// Whether of two numbers the first is less, or they are equal and what follows is so.
fn up_to(left: u128, right: u128, rest: bool) -> bool
    ensures { result ≡ (nat_lt left right || ((left == right) && rest)) }
{
    left < right || (left == right && rest)
}

/// Whether a place does not stand after another in its class, where by an equal place the rule decides.
fn is_up_to_in_class(left: &RulePlace<'_>, right: &RulePlace<'_>, rule: bool) -> bool
    ensures { result ≡ (nat_lt left.now.member right.now.member || ((left.now.member == right.now.member)
        && (nat_lt left.now.place.offset right.now.place.offset || ((left.now.place.offset == right.now.place.offset)
        && rule)))) }
{
    let left_offset = u128::from(left.place.offset);
    let right_offset = u128::from(right.place.offset);
    let offset = up_to(left_offset, right_offset, rule);
    up_to(left.member, right.member, offset)
}

/// Whether a break does not stand after another in the order of refusals.
fn is_up_to(left: &Break<'_>, right: &Break<'_>) -> bool
    ensures { result ≡ is_up_to (numbers (break_of left.now).rank) (numbers (break_of right.now).rank) }
{
    let rule = up_to(u128::from(left.rule), u128::from(right.rule), true);
    let in_class = is_up_to_in_class(&left.spot, &right.spot, rule);
    let in_file = up_to(left.spot.class as u128, right.spot.class as u128, in_class);
    let left_file = left.spot.file.number();
    let right_file = right.spot.file.number();
    let in_family = up_to(left_file, right_file, in_file);
    up_to(
        u128::from(left.rule / 100),
        u128::from(right.rule / 100),
        in_family,
    )
}

/// The first of two in the order of refusals.
pub fn first<'w>(left: Option<Break<'w>>, right: Option<Break<'w>>) -> Option<Break<'w>>
    ensures { (xs ys : List BreakOf) → IsFirstOf xs (option_map break_of left.entry)
        → IsFirstOf ys (option_map break_of right.entry) → IsFirstOf (xs ++ ys) (option_map break_of result) }
{
    match (left, right) {
        (None, _) => right,
        (_, None) => left,
        (Some(one), Some(other)) => { if is_up_to(&one, &other) { left } else { right } }
    }
}

fn joined(alloc: Global, name: &[u8], between: &[u8], desc: &[u8]) -> Result<Bytes, NoMemory>
    ensures { IfOk result (λ text. text ≡ name.now ++ (between.now ++ desc.now)) }
{
    let mut text = Vec::from_slice(alloc, name)?;
    text.extend_from_slice(between)?;
    text.extend_from_slice(desc)?;
    Ok(Bytes::of(text))
}

fn text_of(alloc: Global, part: Part<'_>) -> Result<Bytes, NoMemory>
    ensures { IfOk result (λ text. text ≡ text_of part.entry) }
{
    match part {
        Part::Whole => Ok(Bytes::new(alloc)),
        Part::Field(name, desc) => joined(alloc, name, b":", desc),
        Part::Method(name, desc) => joined(alloc, name, b"", desc),
    }
}

/// The refusal by a rule at a place, in memory of its own.
pub fn refusal(alloc: Global, rule: u16, place: PlaceRef<'_>) -> Result<Refusal, NoMemory>
    ensures { IfOk result (λ r. r ≡ refused_at rule (place_of place.entry)) }
{
    let file = Bytes::copy_of(alloc, place.file)?;
    let class = Bytes::copy_of(alloc, place.class)?;
    let member = text_of(alloc, place.part)?;
    Ok(Refusal {
        rule: Rule(rule),
        place: Place {
            file,
            class,
            member,
            offset: place.offset,
        },
    })
}

/// The refusal by a rule at a place, or that there is no memory to say so.
pub fn refused_at(alloc: Global, rule: u16, place: PlaceRef<'_>) -> Fault
    ensures { (result ≡ faults.Refused (refused_at rule (place_of place.entry))) ⊎ (result ≡ faults.NoMemory) }
{
    match refusal(alloc, rule, place) {
        Ok(refusal) => Fault::Refused(refusal),
        Err(NoMemory) => Fault::NoMemory,
    }
}

/// The refusal of a file by a rule at an offset, with no class and no member, or that there is no memory
/// to say so.
pub fn refused(alloc: Global, file: &[u8], rule: u16, offset: u32) -> Fault
    ensures { (result ≡ faults.Refused (refusal file.now rule offset)) ⊎ (result ≡ faults.NoMemory) }
{
    let place = PlaceRef {
        file,
        class: &[],
        part: Part::Whole,
        offset,
    };
    refused_at(alloc, rule, place)
}

/// The refusal of what is broken, or that there is no memory to say so; or nothing.
pub fn answer(alloc: Global, broken: Option<Break<'_>>) -> Result<(), Fault>
    ensures ok { (bs : List BreakOf) → IsFirstOf bs (option_map break_of broken.entry) → OnOk result (bs ≡ []) }
    ensures refused { (bs : List BreakOf) → IsFirstOf bs (option_map break_of broken.entry)
        → IfErr result (IsFirstRefusal bs) }
{
    match broken {
        None => Ok(()),
        Some(broken) => Err(refused_at(alloc, broken.rule, broken.spot.place)),
    }
}
