//! Rules 731 to 734, each as a test of packages of a group. `linking` asks them. Nothing here knows a place.

ghost use Rattle.std.specs.Prelude.{◌≡◌, ◌&&◌, ◌||◌, not};
ghost use Rattle.std.specs.List.{list_any};
ghost use Rattle.cjc_group.specs.Rules.{declares, differs_from, differs_from_one, imports, imports_differing};
ghost use Rattle.cjc_group.specs.Rules.{imports_other, imports_resting, is_named_alike, is_of, is_outside};
ghost use Rattle.cjc_group.specs.Rules.{names_declared, rests_on, stands_below};
ghost use Rattle.cjc_group.specs.Trees.{same_tree};

use crate::implementing::class_file;
use crate::member::Member;
use crate::trees::same_tree;
use cjc_bytes::Bytes;
use cjc_world::export_file::{ExportClass, ExportTree};

/// Whether an export file is of a package.
fn is_of(tree: &ExportTree, member: &Member<'_, '_>) -> bool
    ensures { result ≡ is_of tree.now member.now }
{
    let list = member.list();
    tree.name.items() == list.package.items() || tree.aid.items() == list.aid.items()
}

/// Whether it is of one of the group.
fn is_inside(group: &[Member<'_, '_>], tree: &ExportTree) -> bool
    ensures { result ≡ list_any (λ m. is_of tree.now m) group.now }
{
    group.iter().any(|m| is_of(tree, m))
}

/// Whether it is of no package of the group.
fn is_outside(group: &[Member<'_, '_>], tree: &ExportTree) -> bool
    ensures { result ≡ is_outside group.now tree.now }
{
    !is_inside(group, tree)
}

/// Whether a package imports another.
fn imports(importing: &Member<'_, '_>, imported: &Member<'_, '_>) -> bool
    ensures { result ≡ imports importing.now imported.now }
{
    let trees = importing.world().exports();
    trees.items().iter().any(|t| is_of(t, imported))
}

fn is_other(tree: &ExportTree, member: &Member<'_, '_>) -> bool
    ensures { result ≡ (is_of tree.now member.now && not (same_tree tree.now member.now.written)) }
{
    is_of(tree, member) && !same_tree(tree, member.written())
}

/// 731 of one earlier package: it is imported by another export file than the one that is written for it.
fn imports_other(importing: &Member<'_, '_>, imported: &Member<'_, '_>) -> bool
    ensures { result ≡ imports_other importing.now imported.now }
{
    let trees = importing.world().exports();
    trees.items().iter().any(|t| is_other(t, imported))
}

/// Whether a package has a class file of this name.
fn declares(name: &[u8], member: &Member<'_, '_>) -> bool
    ensures { result ≡ declares name.now member.now }
{
    class_file(name, member).is_some()
}

/// Whether one of the group has.
fn is_among(group: &[Member<'_, '_>], name: &[u8]) -> bool
    ensures { result ≡ list_any (λ m. declares name.now m) group.now }
{
    group.iter().any(|m| declares(name, m))
}

fn names_declared(group: &[Member<'_, '_>], names: &[Bytes]) -> bool
    ensures { result ≡ names_declared group.now names.now }
{
    names.iter().any(|x| is_among(group, x.items()))
}

fn stands_below(group: &[Member<'_, '_>], class: &ExportClass) -> bool
    ensures { result ≡ stands_below group.now class.now }
{
    names_declared(group, class.listed.items()) || names_declared(group, class.interfaces.items())
}

/// Whether one of these classes stands below a class of the group.
fn stand_below(group: &[Member<'_, '_>], classes: &[ExportClass]) -> bool
    ensures { result ≡ list_any (λ c. stands_below group.now c) classes.now }
{
    classes.iter().any(|c| stands_below(group, c))
}

/// Whether an export file of a package outside the group lists a class of the group above one of its own.
fn rests_on(group: &[Member<'_, '_>], tree: &ExportTree) -> bool
    ensures { result ≡ rests_on group.now tree.now }
{
    is_outside(group, tree) && stand_below(group, tree.classes.items())
}

/// 732 of one package's imports from outside.
fn imports_resting(group: &[Member<'_, '_>], member: &Member<'_, '_>) -> bool
    ensures { result ≡ imports_resting group.now member.now }
{
    let trees = member.world().exports();
    trees.items().iter().any(|t| rests_on(group, t))
}

/// 733 of two packages.
fn is_named_alike(left: &Member<'_, '_>, right: &Member<'_, '_>) -> bool
    ensures { result ≡ is_named_alike left.now right.now }
{
    let one = left.list();
    let other = right.list();
    one.package.items() == other.package.items() || one.aid.items() == other.aid.items()
}

fn differs_from(group: &[Member<'_, '_>], left: &ExportTree, right: &ExportTree) -> bool
    ensures { result ≡ differs_from group.now left.now right.now }
{
    (left.name.items() == right.name.items() || left.aid.items() == right.aid.items())
        && is_outside(group, right)
        && !same_tree(left, right)
}

/// Whether one of these export files differs so from this one.
fn differ_from(group: &[Member<'_, '_>], trees: &[ExportTree], tree: &ExportTree) -> bool
    ensures { result ≡ list_any (λ u. differs_from group.now tree.now u) trees.now }
{
    trees.iter().any(|u| differs_from(group, tree, u))
}

fn differs_from_one(group: &[Member<'_, '_>], trees: &[ExportTree], tree: &ExportTree) -> bool
    ensures { result ≡ differs_from_one group.now trees.now tree.now }
{
    is_outside(group, tree) && differ_from(group, trees, tree)
}

/// 734 of two packages.
fn imports_differing(
    group: &[Member<'_, '_>],
    left: &Member<'_, '_>,
    right: &Member<'_, '_>,
) -> bool
    ensures { result ≡ imports_differing group.now left.now right.now }
{
    let trees = left.world().exports();
    let others = right.world().exports();
    trees
        .items()
        .iter()
        .any(|t| differs_from_one(group, others.items(), t))
}

/// 731 of the packages before one.
pub(crate) fn imports_other_of(before: &[Member<'_, '_>], member: &Member<'_, '_>) -> bool
    ensures { result ≡ list_any (λ m. imports_other member.now m) before.now }
{
    before.iter().any(|m| imports_other(member, m))
}

/// Whether a package imports one of these.
fn imports_one(later: &[Member<'_, '_>], member: &Member<'_, '_>) -> bool
    ensures { result ≡ list_any (λ m. imports member.now m) later.now }
{
    later.iter().any(|m| imports(member, m))
}

/// 732 of a package: it imports itself or one behind it, or one from outside that rests on the group.
pub(crate) fn imports_later(
    group: &[Member<'_, '_>],
    later: &[Member<'_, '_>],
    member: &Member<'_, '_>,
) -> bool
    ensures { result ≡ (list_any (λ m. imports member.now m) later.now || imports_resting group.now member.now) }
{
    imports_one(later, member) || imports_resting(group, member)
}

/// 733 of the packages before one.
pub(crate) fn is_named_before(before: &[Member<'_, '_>], member: &Member<'_, '_>) -> bool
    ensures { result ≡ list_any (λ m. is_named_alike member.now m) before.now }
{
    before.iter().any(|m| is_named_alike(member, m))
}

/// 734 of the packages before one.
pub(crate) fn imports_differing_from(
    group: &[Member<'_, '_>],
    before: &[Member<'_, '_>],
    member: &Member<'_, '_>,
) -> bool
    ensures { result ≡ list_any (λ m. imports_differing group.now member.now m) before.now }
{
    before.iter().any(|m| imports_differing(group, member, m))
}
