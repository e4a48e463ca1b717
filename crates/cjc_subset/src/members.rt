//! Shared by the rules of the subset: a found member with its class and flags, and the classes and the kinds
//! that names and descriptors mean. It tests no rule.

ghost use Rattle.std.specs.Prelude.{◌≡◌, ◌&&◌, ◌||◌, ◌∷◌, ◌++◌, option_map, slice_get, []};
ghost use Rattle.std.specs.List.{list_any};
ghost use Rattle.cjc_world.specs.Access.{is_accessible};
ghost use Rattle.cjc_world.specs.Classes.{all_classes, class_named};
ghost use Rattle.cjc_world.specs.Working.Known.{class_of};
ghost use Rattle.cjc_world.specs.Rules.{is_desc_missing, is_element_missing, is_missing, is_type_missing};
ghost use Rattle.cjc_subset.specs.Working.Hits.{hit_of};
ghost use Rattle.cjc_subset.specs.Members.{hit, imports, is_array, is_constant, is_constructor, is_declared_constant};
ghost use Rattle.cjc_subset.specs.Members.{is_descriptor, is_imported_constant, is_initialiser};
ghost use Rattle.cjc_subset.specs.Names.{is_name_missing};

use cjc_bytes::{Desc, is_private, is_protected, is_public, is_static};
use cjc_code::classfile::ClassTree;
use cjc_world::export_file::{ExportClass, ExportTree, may_be_constant};
use cjc_world::{Found, Known, World};

const CONSTRUCTOR: &[u8] = b"<init>";

const INITIALISER: &[u8] = b"<clinit>";

/// A field or method that is found.
#[derive(Clone, Copy)]
pub(crate) struct ResolvedMember<'w, 'a> {
    /// The class that declares it.
    pub owner: Known<'w, 'a>,
    pub flags: u16,
}

/// Whether a name is an array's, which is its descriptor.
pub(crate) fn is_array(name: &[u8]) -> bool
    ensures { result ≡ is_array name.now }
{
    match name {
        [] => false,
        [byte, ..] => *byte == b'[',
    }
}

/// Whether a method of this name is a constructor.
pub(crate) fn is_constructor(name: &[u8]) -> bool
    ensures { result ≡ is_constructor name.now }
{
    name == CONSTRUCTOR
}

/// Whether a method of this name is the initialiser of a class or interface.
pub(crate) fn is_initialiser(name: &[u8]) -> bool
    ensures { result ≡ is_initialiser name.now }
{
    name == INITIALISER
}

fn is_descriptor(name: &[u8]) -> bool
    ensures { result ≡ is_descriptor name.now }
{
    if name.len() >= 0x1_0000_0000 {
        return false;
    }
    match Desc::parse(name) {
        Ok(_) => true,
        Err(_) => false,
    }
}

// ---- classes that are in no file

/// Whether no file has a class of the name.
pub(crate) fn is_missing(world: &World<'_>, name: &[u8]) -> bool
    ensures { result ≡ is_missing (all_classes world.now) name.now }
{
    match world.class_named(name) {
        Some(_) => false,
        None => true,
    }
}

/// Behind `[` of an array's descriptor: whether the class of its elements is in no file.
#[tactic(auto, unfolding(cjc_world::specs::Rules::is_element_missing))]
fn is_element_missing(world: &World<'_>, bytes: &[u8]) -> bool
    ensures { result ≡ is_element_missing (all_classes world.now) bytes.now }
{
    match bytes {
        [] => false,
        [b'[', rest @ ..] => is_element_missing(world, rest),
        [byte, rest @ ..] => {
            *byte == b'L' && is_missing(world, &rest[..rest.len().saturating_sub(1)])
        }
    }
}

/// Whether the class that a type of a descriptor names is in no file.
#[tactic(auto, unfolding(cjc_world::specs::Rules::is_type_missing))]
fn is_type_missing(world: &World<'_>, class: &[u8]) -> bool
    ensures { result ≡ is_type_missing (all_classes world.now) class.now }
{
    match class {
        [] => false,
        [b'[', rest @ ..] => is_element_missing(world, rest),
        _ => is_missing(world, class),
    }
}

fn is_any_missing(world: &World<'_>, desc: &Desc<'_>) -> bool
    ensures { result ≡ list_any (λ p. is_type_missing (all_classes world.now) p.class) (desc.now.params
        ++ desc.now.result ∷ []) }
{
    desc.types().any(|(_, class)| is_type_missing(world, class))
}

/// Whether a descriptor names a class that is in no file.
#[tactic(auto, unfolding(cjc_world::specs::Rules::is_desc_missing))]
pub(crate) fn is_desc_missing(world: &World<'_>, desc: &[u8]) -> bool
    ensures { result ≡ is_desc_missing (all_classes world.now) desc.now }
{
    if desc.len() >= 0x1_0000_0000 {
        return false;
    }
    match Desc::parse(desc) {
        Ok(desc) => is_any_missing(world, &desc),
        Err(_) => false,
    }
}

/// Whether the class of a name, or of an array's elements, is in no file.
#[tactic(auto, unfolding(crate::specs::Names::is_name_missing))]
pub(crate) fn is_name_missing(world: &World<'_>, name: &[u8]) -> bool
    ensures { result ≡ is_name_missing (all_classes world.now) name.now }
{
    if is_array(name) {
        !is_descriptor(name) || is_type_missing(world, name)
    } else {
        is_missing(world, name)
    }
}

// ---- what is found

/// The field or method at the place that a look-up gave.
#[tactic(auto, unfolding(crate::specs::Members::hit))]
pub(crate) fn member_found<'w, 'a>(
    world: &'w World<'a>,
    field: bool,
    found: Option<Found>,
) -> Option<ResolvedMember<'w, 'a>>
    ensures { option_map hit_of result ≡ hit (all_classes world.now) field found }
{
    let found = found?;
    let owner = world.class_at(found.imported, found.class)?;
    let before = if field { 0 } else { owner.field_count() };
    let place = (found.member as usize).saturating_sub(before);
    if place < owner.member_count(field) {
        let flags = owner.member_flags(field, place);
        Some(ResolvedMember { owner, flags })
    } else {
        None
    }
}

/// Whether code of a class of the package may use a member that it names by a class (Java Virtual Machine
/// Specification, section 5.4.4).
#[tactic(auto, unfolding(cjc_world::specs::Access::is_accessible))]
pub(crate) fn is_accessible(
    world: &World<'_>,
    holder: &[u8],
    named: &[u8],
    hit: ResolvedMember<'_, '_>,
) -> bool
    ensures { result ≡ is_accessible (all_classes world.now) holder.now named.now (hit_of hit.entry).owner
        hit.entry.flags }
{
    let owner = hit.owner.name();
    let inside = !hit.owner.is_imported();
    if is_public(hit.flags) {
        return true;
    }
    if is_private(hit.flags) {
        return inside && owner == holder;
    }
    inside
        || is_protected(hit.flags)
            && world.is_below(holder, owner)
            && (is_static(hit.flags)
                || world.is_below(named, holder)
                || world.is_below(holder, named))
}

// ---- constants

/// The class of this number among those of all export files.
fn import_at(exports: &[ExportTree], number: u32) -> Option<&ExportClass>
    ensures { option_map (λ c. c.now) result ≡ slice_get (imports exports.now) number }
{
    let mut left = number as usize;
    for tree in exports {
        let classes = tree.classes.items();
        if left < classes.len() {
            return Some(&classes[left]);
        }
        left -= classes.len();
    }
    None
}

fn is_imported_constant(class: &ExportClass, place: u32) -> bool
    ensures { result ≡ is_imported_constant (slice_get class.now.fields place) }
{
    match class.fields.items().get(place as usize) {
        Some(field) => {
            may_be_constant(field.flags, field.desc.items()) && field.constant.is_some()
        }
        None => false,
    }
}

fn is_declared_constant(class: &ClassTree<'_>, place: u32) -> bool
    ensures { result ≡ is_declared_constant (slice_get class.now.fields place) }
{
    match class.fields.items().get(place as usize) {
        Some(field) => {
            may_be_constant(field.flags, field.desc.items()) && field.constant.is_some()
        }
        None => false,
    }
}

/// Whether the field that a look-up gave is a constant.
#[tactic(auto, unfolding(crate::specs::Members::is_constant))]
pub(crate) fn is_constant(world: &World<'_>, found: Found) -> bool
    ensures { result ≡ is_constant world.now found }
{
    if found.imported {
        match import_at(world.exports().items(), found.class) {
            Some(class) => is_imported_constant(class, found.member),
            None => false,
        }
    } else {
        match world.classes().items().get(found.class as usize) {
            Some(class) => is_declared_constant(class, found.member),
            None => false,
        }
    }
}
