//! The values of constants, by the look-ups of the world. Knows no instruction.

ghost use Rattle.std.specs.Prelude.{◌≡◌, option_map, slice_get};
ghost use Rattle.std.specs.List.{flat_map};
ghost use Rattle.cjc_types.specs.World.Classes.{all_classes};
ghost use Rattle.cjc_jvm_semantics.specs.OnePackage.{constant_at, constant_in, exported_constant};
ghost use Rattle.cjc_narrow.specs.Rows.Resolved.{constant_named};

use cjc_types::bytes::MemberId;
use cjc_types::classfile::ClassTree;
use cjc_types::export_file::{ExportClass, ExportTree, may_be_constant};
use cjc_types::world::{Found, World};

/// The class of this number among those of all export files.
fn import_at(exports: &[ExportTree], number: u32) -> Option<&ExportClass>
    ensures { option_map (λ c. c.now) result ≡ slice_get (flat_map (λ t. t.classes) exports.now) number }
{
    let mut left = number as usize;
    for tree in exports {
        let classes = tree.classes.items();
        if left < classes.len() {
            return Some(&classes[left]);
        }
        left -= classes.len();
    }
    None
}

fn exported_constant(class: &ExportClass, place: u32) -> Option<i32>
    ensures { result ≡ exported_constant place class.now }
{
    let field = class.fields.items().get(place as usize)?;
    if may_be_constant(field.flags, field.desc.items()) {
        field.constant
    } else {
        None
    }
}

fn constant_in(class: &ClassTree<'_>, place: u32) -> Option<i32>
    ensures { result ≡ constant_in place class.now }
{
    let field = class.fields.items().get(place as usize)?;
    if may_be_constant(field.flags, field.desc.items()) {
        field.constant
    } else {
        None
    }
}

/// The value of the constant that a look-up found.
fn constant_at(world: &World<'_>, found: Found) -> Option<i32>
    ensures { result ≡ constant_at world.now found }
{
    if found.imported {
        exported_constant(
            import_at(world.exports().items(), found.class)?,
            found.member,
        )
    } else {
        constant_in(
            world.classes().items().get(found.class as usize)?,
            found.member,
        )
    }
}

/// The value of a constant that is named.
pub fn constant_named(world: &World<'_>, id: &MemberId) -> Option<i32>
    ensures { result ≡ constant_named world.now (all_classes world.now) id.now }
{
    constant_at(world, world.find_field(id)?)
}
