//! The method that a member of a class is: one of the class file, or one that the class gets from its interfaces. It
//! knows no code.

ghost use Rattle.std.specs.Prelude.{◌≡◌, ◌<◌, Some, length};
ghost use Rattle.cjc_world.specs.Classes.{Class, all_classes, class_at};
ghost use Rattle.cjc_components.specs.Descriptor.{method_in};
ghost use Rattle.cjc_methods.specs.Ready.{IsOwn};
ghost use Rattle.cjc_methods.specs.Working.Methods.{added_in, IsLike};

use cjc_bytes::{ACC_ABSTRACT, ACC_PUBLIC};
use cjc_world::{Found, World};

/// A method by its flags, its name and its descriptor.
#[derive(Clone, Copy)]
pub(crate) struct Signature<'w> {
    pub flags: u16,
    pub name: &'w [u8],
    pub desc: &'w [u8],
}

/// The method that a class gets, by its place among these.
fn added<'w>(world: &'w World<'_>, class: u32, place: usize) -> Signature<'w>
    requires { class < length world.now.classes }
    ensures { IsLike result (added_in world.now class place) }
{
    match world.added(class).items().get(place) {
        Some(id) => Signature {
            flags: ACC_PUBLIC | ACC_ABSTRACT,
            name: id.name.items(),
            desc: id.desc.items(),
        },
        None => Signature {
            flags: 0,
            name: &[],
            desc: &[],
        },
    }
}

/// The method that a member of a class of the package is.
pub(crate) fn method_in<'w>(world: &'w World<'_>, member: Found) -> Signature<'w>
    requires { IsOwn world.now member }
    ensures { (c : Class) → class_at (all_classes world.now) member.imported member.class ≡ Some c
        → IsLike result (method_in (all_classes world.now) c member.member) }
{
    let class = &world.classes().items()[member.class as usize];
    let methods = class.methods.items();
    let place = (member.member as usize).saturating_sub(class.fields.items().len());
    if place < methods.len() {
        let method = &methods[place];
        return Signature {
            flags: method.flags,
            name: method.name.items(),
            desc: method.desc.items(),
        };
    }
    added(world, member.class, place - methods.len())
}
