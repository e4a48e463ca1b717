//! What names in code stand for, by the look-ups of the world. Knows no instruction.

ghost use Rattle.std.specs.Prelude.{◌≡◌, option_map, IfOk};
ghost use Rattle.cjc_types.specs.World.Classes.{all_classes, class_named};
ghost use Rattle.cjc_jvm_semantics.specs.OnePackage.{of_class};
ghost use Rattle.cjc_narrow.specs.Rows.Resolved.{by_owner, method_found, resolved_field, resolved_method, special_by};
ghost use Rattle.cjc_narrow.specs.Rows.Resolved.{virtual_by};
ghost use Rattle.cjc_narrow.specs.Rows.Working.Hits.{hit_of};

use crate::rows::hits::{self, ResolvedMember};
use cjc_ncode::PoolKey;
use cjc_types::bytes::{Bytes, MemberId, NoMemory, is_private};
use cjc_types::world::World;
use std::alloc::Global;

const CONSTRUCTOR: &[u8] = b"<init>";

/// The same member, named by another class.
fn of_class(alloc: Global, class: &[u8], id: &MemberId) -> Result<MemberId, NoMemory>
    ensures { IfOk result (λ member. member ≡ of_class class.now id.now) }
{
    Ok(MemberId {
        class: Bytes::copy_of(alloc, class)?,
        name: Bytes::copy_of(alloc, id.name.items())?,
        desc: Bytes::copy_of(alloc, id.desc.items())?,
    })
}

/// A member with the class that declares it; one that is nowhere as it is named.
fn by_owner(
    alloc: Global,
    id: &MemberId,
    hit: Option<ResolvedMember<'_, '_>>,
) -> Result<MemberId, NoMemory>
    ensures { IfOk result (λ member. member ≡ by_owner id.now (option_map hit_of hit.entry)) }
{
    match hit {
        Some(hit) => of_class(alloc, hit.owner.name(), id),
        None => of_class(alloc, id.class.items(), id),
    }
}

/// A field with the class in which it is found (Java Virtual Machine Specification, section 5.4.3.2); one that
/// is nowhere as it is named.
pub fn resolved_field(alloc: Global, world: &World<'_>, id: &MemberId) -> Result<MemberId, NoMemory>
    ensures { IfOk result (λ member. member ≡ resolved_field (all_classes world.now) id.now) }
{
    by_owner(alloc, id, hits::field_found(world, id))
}

/// A method with the class in which it is found (sections 5.4.3.3 and 5.4.3.4); one that is nowhere as it is named.
pub fn resolved_method(
    alloc: Global,
    world: &World<'_>,
    id: &MemberId,
) -> Result<MemberId, NoMemory>
    ensures { IfOk result (λ member. member ≡ resolved_method (all_classes world.now) id.now) }
{
    by_owner(alloc, id, hits::method_found(world, id))
}

/// A virtual method as the constant pool names it: one that is named through a class of the package keeps that class.
pub fn virtual_method(alloc: Global, world: &World<'_>, id: &MemberId) -> Result<MemberId, NoMemory>
    ensures { IfOk result (λ member. member ≡ virtual_by (all_classes world.now) id.now
        (class_named (all_classes world.now) id.now.class)) }
{
    match world.class_named(id.class.items()) {
        Some(class) => {
            if class.is_imported() {
                resolved_method(alloc, world, id)
            } else {
                of_class(alloc, id.class.items(), id)
            }
        }
        None => resolved_method(alloc, world, id),
    }
}

/// The key of a method that invokespecial names in the code of a class: a constructor or private method is
/// itself; any other is sought above the class that holds the code.
pub fn special_key(
    alloc: Global,
    world: &World<'_>,
    holder: &[u8],
    id: &MemberId,
) -> Result<PoolKey, NoMemory>
    ensures { IfOk result (λ key. key ≡ special_by holder.now id.now (method_found (all_classes world.now) id.now)) }
{
    let Some(hit) = hits::method_found(world, id) else {
        return Ok(PoolKey::StaticMethod(of_class(alloc, id.class.items(), id)?));
    };
    if id.name.items() == CONSTRUCTOR || is_private(hit.flags) {
        let method = of_class(alloc, hit.owner.name(), id)?;
        return Ok(PoolKey::StaticMethod(method));
    }
    Ok(PoolKey::Super(of_class(alloc, holder, id)?))
}
