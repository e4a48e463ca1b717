//! Whether a package uses the type int: whether a descriptor of one of its members names it (Java Card Virtual Machine
//! Specification 2.2.2, section 6.3). Called by whoever writes Header. It knows no instruction.

ghost use Rattle.std.specs.Prelude.{◌≡◌, ◌||◌, false, Some, IfOk};
ghost use Rattle.std.specs.List.{list_any};
ghost use Rattle.cjc_classes.specs.Subset.Types.{is_int_desc};
ghost use Rattle.cjc_exported.specs.World.Classes.{Class, all_classes, class_at};
ghost use Rattle.cjc_exported.specs.Components.Components.{has_int, uses_int};

use cjc_classes::bytes::{MemberId, NoMemory};
use cjc_classes::classfile::{FieldTree, MethodTree};
use cjc_classes::subset::is_int_desc;
use cjc_classes::world::World;

fn any_field(fields: &[FieldTree]) -> bool
    ensures { result ≡ list_any (λ f. is_int_desc f.desc) fields.now }
{
    fields.iter().any(|field| is_int_desc(field.desc.items()))
}

fn any_method(methods: &[MethodTree<'_>]) -> bool
    ensures { result ≡ list_any (λ m. is_int_desc m.desc) methods.now }
{
    methods
        .iter()
        .any(|method| is_int_desc(method.desc.items()))
}

fn any_added(added: &[MemberId]) -> bool
    ensures { result ≡ list_any (λ m. is_int_desc m.desc) added.now }
{
    added.iter().any(|method| is_int_desc(method.desc.items()))
}

fn any_int(fields: &[FieldTree], methods: &[MethodTree<'_>], added: &[MemberId]) -> bool
    ensures { result ≡ ((list_any (λ f. is_int_desc f.desc) fields.now
        || list_any (λ m. is_int_desc m.desc) methods.now) || list_any (λ m. is_int_desc m.desc) added.now) }
{
    any_field(fields) || any_method(methods) || any_added(added)
}

/// Whether a member of the class of a number has such a descriptor; methods that it got count too.
fn has_int(world: &World<'_>, number: u32) -> bool
    requires { (c : Class) × (class_at (all_classes world.now) false number ≡ Some c) }
    ensures { (c : Class) → class_at (all_classes world.now) false number ≡ Some c
        → result ≡ has_int (all_classes world.now) c }
{
    let class = &world.classes().items()[number as usize];
    any_int(
        class.fields.items(),
        class.methods.items(),
        world.added(number).items(),
    )
}

/// Whether a class of the package has a member whose descriptor names int.
pub fn uses_int(world: &World<'_>) -> Result<bool, NoMemory>
    ensures { IfOk result (λ b. b ≡ uses_int (all_classes world.now)) }
{
    for number in 0..0xFFFF_FFFF {
        if world.class_at(false, number).is_none() {
            return Ok(false);
        }
        if has_int(world, number) {
            return Ok(true);
        }
    }
    Err(NoMemory)
}
