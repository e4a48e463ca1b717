//! When two export files say the same. Rules 731 and 734 ask it. Nothing here knows a group.

ghost use Rattle.std.specs.Prelude.{◌≡◌};
ghost use Rattle.std.specs.Bool.{Decides};
ghost use Rattle.cjc_group.specs.Trees.{are_alike, same, same_class, same_constant, same_field, same_method};
ghost use Rattle.cjc_group.specs.Trees.{same_names, same_tree};
ghost use Rattle.cjc_world.specs.ExportFile.declared.tree.ExportTree.{ExportTree as Tree};

use cjc_bytes::Bytes;
use cjc_world::export_file::{ExportClass, ExportField, ExportMethod, ExportTree};

/// Whether both are so, or neither is.
fn same(left: bool, right: bool) -> bool
    ensures { result ≡ same left right }
{
    if left { right } else { !right }
}

fn same_constant(left: Option<i32>, right: Option<i32>) -> bool
    ensures { result ≡ same_constant left right }
{
    match (left, right) {
        (None, None) => true,
        (Some(x), Some(y)) => x == y,
        _ => false,
    }
}

fn same_field(left: &ExportField, right: &ExportField) -> bool
    ensures { result ≡ same_field left.now right.now }
{
    left.token == right.token
        && left.flags == right.flags
        && left.name.items() == right.name.items()
        && left.desc.items() == right.desc.items()
        && same_constant(left.constant, right.constant)
}

fn same_method(left: &ExportMethod, right: &ExportMethod) -> bool
    ensures { result ≡ same_method left.now right.now }
{
    left.token == right.token
        && left.flags == right.flags
        && left.name.items() == right.name.items()
        && left.desc.items() == right.desc.items()
}

#[tactic(auto, using(crate::proofs::Alike::alike_next, crate::proofs::Alike::alike_breaks, crate::proofs::Alike::alike_ends))]
fn same_names(left: &[Bytes], right: &[Bytes]) -> bool
    ensures { result ≡ same_names left.now right.now }
{
    if left.len() != right.len() {
        return false;
    }
    for (place, name) in left.iter().enumerate() {
        if name.items() != right[place].items() {
            return false;
        }
    }
    true
}

#[tactic(auto, using(crate::proofs::Alike::alike_next, crate::proofs::Alike::alike_breaks, crate::proofs::Alike::alike_ends))]
fn same_fields(left: &[ExportField], right: &[ExportField]) -> bool
    ensures { result ≡ are_alike same_field left.now right.now }
{
    if left.len() != right.len() {
        return false;
    }
    for (place, field) in left.iter().enumerate() {
        if !same_field(field, &right[place]) {
            return false;
        }
    }
    true
}

#[tactic(auto, using(crate::proofs::Alike::alike_next, crate::proofs::Alike::alike_breaks, crate::proofs::Alike::alike_ends))]
fn same_methods(left: &[ExportMethod], right: &[ExportMethod]) -> bool
    ensures { result ≡ are_alike same_method left.now right.now }
{
    if left.len() != right.len() {
        return false;
    }
    for (place, method) in left.iter().enumerate() {
        if !same_method(method, &right[place]) {
            return false;
        }
    }
    true
}

fn same_class(left: &ExportClass, right: &ExportClass) -> bool
    ensures { result ≡ same_class left.now right.now }
{
    left.token == right.token
        && left.flags == right.flags
        && left.name.items() == right.name.items()
        && same_names(left.listed.items(), right.listed.items())
        && same_names(left.supers.items(), right.supers.items())
        && same_names(left.interfaces.items(), right.interfaces.items())
        && same_fields(left.fields.items(), right.fields.items())
        && same_methods(left.methods.items(), right.methods.items())
}

#[tactic(auto, using(crate::proofs::Alike::alike_next, crate::proofs::Alike::alike_breaks, crate::proofs::Alike::alike_ends))]
fn same_classes(left: &[ExportClass], right: &[ExportClass]) -> bool
    ensures { result ≡ are_alike same_class left.now right.now }
{
    if left.len() != right.len() {
        return false;
    }
    for (place, class) in left.iter().enumerate() {
        if !same_class(class, &right[place]) {
            return false;
        }
    }
    true
}

/// Whether two export files say the same.
pub(crate) fn same_tree(left: &ExportTree, right: &ExportTree) -> bool
    ensures { result ≡ same_tree left.now right.now }
{
    left.name.items() == right.name.items()
        && left.aid.items() == right.aid.items()
        && left.major == right.major
        && left.minor == right.minor
        && same(left.library, right.library)
        && same_classes(left.classes.items(), right.classes.items())
}

/// Export files say the same exactly where their trees are one.
pub fn same_trees_are_one()
    ensures { (t u : Tree) → Decides (same_tree t u) (t ≡ u) }
{}
