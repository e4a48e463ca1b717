//! The superclass of a class of the package, for the walks upwards that look for a slot.

ghost use Rattle.std.specs.Prelude.{◌≡◌, ◌<◌, Some, length, option_map, slice_get};
ghost use Rattle.cjc_world.specs.ClassFile.declared.tree.ClassTree.{ClassTree as Tree};
ghost use Rattle.cjc_world.specs.Classes.{all_classes, class_named};
ghost use Rattle.cjc_world.specs.Working.Known.{class_of};

use cjc_world::{Known, World};

/// The superclass of a class of the package.
pub(crate) fn above<'w, 'a>(world: &'w World<'a>, number: u32) -> Option<Known<'w, 'a>>
    requires { number < length world.now.classes }
    ensures { (c : Tree) → slice_get world.now.classes number ≡ Some c → option_map class_of result
        ≡ class_named (all_classes world.now) c.superclass }
{
    let class = &world.classes().items()[number as usize];
    world.class_named(class.superclass.items())
}
