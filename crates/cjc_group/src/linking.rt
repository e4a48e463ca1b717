//! Which of rules 731 to 735 a group breaks first, and where.

ghost use Rattle.std.specs.Prelude.{◌≡◌, ◌<◌, [], length, option_map, IfErr, IfOk, OnOk};
ghost use Rattle.cjc_bytes.specs.Breaks.{IsFirstOf, IsFirstRefusal};
ghost use Rattle.cjc_bytes.specs.Told.{break_of, file_place_of, spot_of};
ghost use Rattle.cjc_group.specs.Agree.{Agree};
ghost use Rattle.cjc_group.specs.Rules.{breaks, class_breaks, list_breaks, list_file, member_breaks};

use crate::implementing::lacks_implementation;
use crate::member::Member;
use crate::rules::{imports_differing_from, imports_later, imports_other_of, is_named_before};
use cjc_bytes::{Break, Fault, FileKey, FileRef, NoMemory, RulePlace, answer, broken, first};
use std::alloc::Global;

/// The list of the package at this place of the group.
pub(crate) fn list_file<'w>(place: usize, member: &'w Member<'_, '_>) -> FileRef<'w>
    ensures { file_place_of result ≡ list_file place member.now }
{
    FileRef {
        key: FileKey::Line(place),
        name: member.list().name.items(),
    }
}

/// What of 731 to 734 the package at this place breaks, each at its list.
fn list_break<'w>(
    group: &[Member<'_, '_>],
    place: usize,
    member: &'w Member<'_, '_>,
) -> Option<Break<'w>>
    requires { place < length group.now }
    ensures { IsFirstOf (list_breaks group.now place member.now) (option_map break_of result) }
{
    let (before, later) = group.split_at(place);
    let spot = RulePlace::of_class(list_file(place, member), 0, &[]);
    let other = broken(imports_other_of(before, member), spot, 731);
    let late = broken(imports_later(group, later, member), spot, 732);
    let alike = broken(is_named_before(before, member), spot, 733);
    let differing = broken(imports_differing_from(group, before, member), spot, 734);
    first(first(first(other, late), alike), differing)
}

/// 735 of the classes of the package at this place.
fn class_break<'w>(
    alloc: Global,
    group: &[Member<'_, '_>],
    place: usize,
    member: &'w Member<'_, '_>,
) -> Result<Option<Break<'w>>, NoMemory>
    ensures { IfOk result (λ b. IsFirstOf (class_breaks group.now place member.now) (option_map break_of b)) }
{
    let mut least = None;
    let file = list_file(place, member);
    let classes = member.world().classes().items();
    for (number, class) in classes.iter().enumerate() {
        let spot = RulePlace::of_class(file, number + 1, class.name.items());
        let lacks = lacks_implementation(alloc, group, place, class)?;
        least = first(least, broken(lacks, spot, 735));
    }
    Ok(least)
}

/// The first that the package at this place breaks.
fn member_break<'w>(
    alloc: Global,
    group: &[Member<'_, '_>],
    place: usize,
    member: &'w Member<'_, '_>,
) -> Result<Option<Break<'w>>, NoMemory>
    requires { place < length group.now }
    ensures { IfOk result (λ b. IsFirstOf (member_breaks group.now place member.now) (option_map break_of b)) }
{
    let list = list_break(group, place, member);
    let classes = class_break(alloc, group, place, member)?;
    Ok(first(list, classes))
}

/// The first that a group breaks.
fn first_break<'w>(
    alloc: Global,
    group: &'w [Member<'_, '_>],
) -> Result<Option<Break<'w>>, NoMemory>
    ensures { IfOk result (λ b. IsFirstOf (breaks group.now) (option_map break_of b)) }
{
    let mut least = None;
    for (place, member) in group.iter().enumerate() {
        least = first(least, member_break(alloc, group, place, member)?);
    }
    Ok(least)
}

/// Whether the packages of a group, in this order, can be linked.
///
/// # Errors
///
/// The first of rules 731 to 735 that is broken, package by package, 731 to 734 at the list of the package that breaks
/// them and 735 at the class; or want of memory.
pub fn test_group(alloc: Global, group: &[Member<'_, '_>]) -> Result<(), Fault>
    ensures unbroken { OnOk result (breaks group.now ≡ []) }
    ensures refused { IfErr result (IsFirstRefusal (breaks group.now)) }
    ensures keeps { OnOk result (Agree group.now) }
{
    let least = first_break(alloc, group)?;
    answer(alloc, least)
}
