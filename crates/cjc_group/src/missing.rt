//! Rule 203 in a group: classes that implement an interface below one that no file of their package has, and where the
//! first stands. It asks `linking` for the place of a list.

ghost use Rattle.std.specs.Prelude.{◌≡◌, ◌++◌, [], option_map, IfErr, IfOk, OnOk};
ghost use Rattle.std.specs.List.{list_any};
ghost use Rattle.cjc_bytes.specs.Breaks.{IsFirstOf, IsFirstRefusal};
ghost use Rattle.cjc_bytes.specs.Told.{break_of};
ghost use Rattle.cjc_group.specs.Missing.{classes_missing, gaps, implements_one, is_below_one, knows, lists_missed};
ghost use Rattle.cjc_group.specs.Missing.{member_missing, misses, misses_one, missing, missing_above, name_where};
ghost use Rattle.cjc_world.specs.Classes.{all_classes};

use crate::linking::list_file;
use crate::member::Member;
use cjc_bytes::{
    Break, Bytes, Fault, NoMemory, Row, RulePlace, answer, broken, first, is_interface,
};
use cjc_world::World;
use cjc_world::classfile::ClassTree;
use cjc_world::export_file::ExportClass;
use std::alloc::Global;

/// Whether a file of a package has a class of this name.
fn knows(name: &[u8], member: &Member<'_, '_>) -> bool
    ensures { result ≡ knows name.now member.now }
{
    let world = member.world();
    world.class_named(name).is_some()
}

/// Whether one of the group has.
fn is_known(group: &[Member<'_, '_>], name: &[u8]) -> bool
    ensures { result ≡ list_any (λ m. knows name.now m) group.now }
{
    group.iter().any(|m| knows(name, m))
}

/// Whether no file of a package has a class of this name, and one of the group does.
fn misses(group: &[Member<'_, '_>], member: &Member<'_, '_>, name: &[u8]) -> bool
    ensures { result ≡ misses group.now member.now name.now }
{
    !knows(name, member) && is_known(group, name)
}

fn misses_one(group: &[Member<'_, '_>], member: &Member<'_, '_>, names: &[Bytes]) -> bool
    ensures { result ≡ misses_one group.now member.now names.now }
{
    names.iter().any(|x| misses(group, member, x.items()))
}

fn lists_missed(group: &[Member<'_, '_>], member: &Member<'_, '_>, class: &ExportClass) -> bool
    ensures { result ≡ lists_missed group.now member.now class.now }
{
    misses_one(group, member, class.supers.items())
        || misses_one(group, member, class.interfaces.items())
}

/// Puts a name behind others where it is so.
fn put_where(alloc: Global, so: bool, name: &[u8], names: &mut Row<Bytes>) -> Result<(), NoMemory>
    ensures { OnOk result (names.new ≡ names.old ++ name_where so name.now) }
{
    if so {
        names.push(Bytes::copy_of(alloc, name)?)?;
    }
    Ok(())
}

/// Puts the names of those of these classes behind others that list one that the package misses.
fn put_missing(
    alloc: Global,
    group: &[Member<'_, '_>],
    member: &Member<'_, '_>,
    classes: &[ExportClass],
    names: &mut Row<Bytes>,
) -> Result<(), NoMemory>
    ensures { OnOk result (names.new ≡ names.old ++ missing_above group.now member.now classes.now) }
{
    for class in classes {
        let so = lists_missed(group, member, class);
        put_where(alloc, so, class.name.items(), names)?;
    }
    Ok(())
}

/// The names of the classes of a package's export files that list one that the package misses.
fn gaps(
    alloc: Global,
    group: &[Member<'_, '_>],
    member: &Member<'_, '_>,
) -> Result<Row<Bytes>, NoMemory>
    ensures { IfOk result (λ names. names ≡ gaps group.now member.now) }
{
    let mut names = Row::new(alloc);
    let trees = member.world().exports().items();
    for tree in trees {
        put_missing(alloc, group, member, tree.classes.items(), &mut names)?;
    }
    Ok(names)
}

/// Whether a name is one of these, or one of them stands above its class.
fn is_below_one(world: &World<'_>, names: &[Bytes], name: &[u8]) -> bool
    ensures { result ≡ is_below_one (all_classes world.now) names.now name.now }
{
    names.iter().any(|x| world.is_subclass(name, x.items()))
}

fn are_below_one(world: &World<'_>, names: &[Bytes], interfaces: &[Bytes]) -> bool
    ensures { result ≡ list_any (λ j. is_below_one (all_classes world.now) names.now j) interfaces.now }
{
    interfaces
        .iter()
        .any(|j| is_below_one(world, names, j.items()))
}

fn implements_one(world: &World<'_>, names: &[Bytes], class: &ClassTree<'_>) -> bool
    ensures { result ≡ implements_one (all_classes world.now) names.now class.now }
{
    !is_interface(class.flags) && are_below_one(world, names, class.interfaces.items())
}

/// The first class of the package at this place that implements an interface of these names, or one below.
fn class_missing<'w>(names: &[Bytes], place: usize, member: &'w Member<'_, '_>) -> Option<Break<'w>>
    ensures { IsFirstOf (classes_missing names.now place member.now) (option_map break_of result) }
{
    let mut least = None;
    let file = list_file(place, member);
    let world = member.world();
    let classes = world.classes().items();
    for (number, class) in classes.iter().enumerate() {
        let spot = RulePlace::of_class(file, number + 1, class.name.items());
        let so = implements_one(world, names, class);
        least = first(least, broken(so, spot, 203));
    }
    least
}

/// The first of the package at this place.
fn member_missing<'w>(
    alloc: Global,
    group: &[Member<'_, '_>],
    place: usize,
    member: &'w Member<'_, '_>,
) -> Result<Option<Break<'w>>, NoMemory>
    ensures { IfOk result (λ b. IsFirstOf (member_missing group.now place member.now) (option_map break_of b)) }
{
    let names = gaps(alloc, group, member)?;
    Ok(class_missing(names.items(), place, member))
}

/// The first of a group.
fn first_missing<'w>(
    alloc: Global,
    group: &'w [Member<'_, '_>],
) -> Result<Option<Break<'w>>, NoMemory>
    ensures { IfOk result (λ b. IsFirstOf (missing group.now) (option_map break_of b)) }
{
    let mut least = None;
    for (place, member) in group.iter().enumerate() {
        least = first(least, member_missing(alloc, group, place, member)?);
    }
    Ok(least)
}

/// Whether each package of a group knows what stands in it above the interfaces of its classes.
///
/// # Errors
///
/// Rule 203 at the first class, package by package, that is no interface and lists an interface which is, or stands
/// below, one above which a class stands that no file of the package has and a file of another package does; or want of
/// memory.
pub fn test_missing(alloc: Global, group: &[Member<'_, '_>]) -> Result<(), Fault>
    ensures unbroken { OnOk result (missing group.now ≡ []) }
    ensures refused { IfErr result (IsFirstRefusal (missing group.now)) }
{
    let least = first_missing(alloc, group)?;
    answer(alloc, least)
}
