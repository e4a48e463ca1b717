//! What a look-up tells of a member: the class that declares it, its flags, and the value of a constant, from a
//! class file or an export file.

ghost use Rattle.std.specs.Prelude.{◌≡◌, ◌-◌, length, option_map, slice_get, if◌then◌else◌};
ghost use Rattle.std.specs.List.{flat_map};
ghost use Rattle.cjc_world.specs.Classes.{all_classes};
ghost use Rattle.cjc_world.specs.Working.Known.{class_of};
ghost use Rattle.cjc_world.specs.Bytes.declared.fault.MemberId.{MemberId as Id};
ghost use Rattle.cjc_jvm_semantics.specs.OnePackage.{constant_in, exported_constant, constant_at, field_by};
ghost use Rattle.cjc_jvm_semantics.specs.OnePackage.{field_hit, field_named};
ghost use Rattle.cjc_jvm_step.specs.Step.Names.{field_of};
ghost use Rattle.cjc_jvm_link.specs.Found.{hit_of, hit_at};

use cjc_jvm_step::step::ResolvedField;
use cjc_world::bytes::{MemberId, is_static};
use cjc_world::classfile::ClassTree;
use cjc_world::export_file::{ExportClass, ExportTree, may_be_constant};
use cjc_world::{Found, Known, World};

/// The class that declares a member, and the member's flags.
#[derive(Clone, Copy)]
pub struct Owner<'w, 'a> {
    pub class: Known<'w, 'a>,
    pub flags: u16,
}

// The place of a member among the fields of its class, or among its methods.
fn place_in(class: Known<'_, '_>, field: bool, member: u32) -> usize
    ensures { result ≡ (if field then member else member - length (class_of class.entry).fields) }
{
    if field {
        member as usize
    } else {
        (member as usize).saturating_sub(class.field_count())
    }
}

/// The class and flags of a field or method that was found.
pub(crate) fn owner_of<'w, 'a>(
    world: &'w World<'a>,
    field: bool,
    found: Found,
) -> Option<Owner<'w, 'a>>
    ensures { option_map hit_of result ≡ hit_at field (all_classes world.now) found }
{
    let Some(class) = world.class_at(found.imported, found.class) else {
        return None;
    };
    let place = place_in(class, field, found.member);
    if place >= class.member_count(field) {
        return None;
    }
    Some(Owner {
        class,
        flags: class.member_flags(field, place),
    })
}

// The value of a constant of a class file.
fn constant_in(class: &ClassTree<'_>, member: usize) -> Option<i32>
    ensures { result ≡ constant_in member class.now }
{
    match class.fields.items().get(member) {
        Some(field) if may_be_constant(field.flags, field.desc.items()) => field.constant,
        _ => None,
    }
}

// The value of a constant of an export file.
fn exported_constant(class: &ExportClass, member: usize) -> Option<i32>
    ensures { result ≡ exported_constant member class.now }
{
    match class.fields.items().get(member) {
        Some(field) if may_be_constant(field.flags, field.desc.items()) => field.constant,
        _ => None,
    }
}

// The class with a number among those of all export files.
fn exported_class(exports: &[ExportTree], number: usize) -> Option<&ExportClass>
    ensures { option_map (λ c. c.now) result ≡ slice_get (flat_map (λ t. t.classes) exports.now) number }
{
    let mut left = number;
    for export in exports {
        let classes = export.classes.items();
        if left < classes.len() {
            return Some(&classes[left]);
        }
        left -= classes.len();
    }
    None
}

/// The value of the constant that a look-up found.
pub(crate) fn constant_at(world: &World<'_>, found: Found) -> Option<i32>
    ensures { result ≡ constant_at world.now found }
{
    if found.imported {
        match exported_class(world.exports().items(), found.class as usize) {
            Some(class) => exported_constant(class, found.member as usize),
            None => None,
        }
    } else {
        match world.classes().items().get(found.class as usize) {
            Some(class) => constant_in(class, found.member as usize),
            None => None,
        }
    }
}

/// The field that a look-up found.
pub(crate) fn field_at<'w>(world: &'w World<'_>, found: Found) -> Option<ResolvedField<'w>>
    ensures { (id : Id) → option_map (λ f. field_of f id) result ≡ option_map (field_by (constant_at world.now found)
        id) (field_hit (all_classes world.now) found) }
{
    let Some(owner) = owner_of(world, true, found) else {
        return None;
    };
    if let Some(value) = constant_at(world, found) {
        return Some(ResolvedField::Constant(value));
    }
    if is_static(owner.flags) {
        Some(ResolvedField::Static(owner.class.name()))
    } else {
        Some(ResolvedField::Instance(owner.class.name()))
    }
}

/// The field that is found from the class that a member names.
pub(crate) fn field_named<'w>(world: &'w World<'_>, id: &MemberId) -> Option<ResolvedField<'w>>
    ensures { option_map (λ f. field_of f id.now) result ≡ field_named world.now (all_classes world.now) id.now }
{
    match world.find_field(id) {
        Some(found) => field_at(world, found),
        None => None,
    }
}
