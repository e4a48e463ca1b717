//! getfield and putfield of a field that is found (Java Virtual Machine Specification, 6.5).

ghost use Rattle.std.specs.Prelude.{◌≡◌, ◌<◌, length, Some, IfOk};
ghost use Rattle.cjc_by_name.specs.Linked.{Instance};
ghost use Rattle.cjc_by_name.specs.Effects.{field_get, field_put};
ghost use Rattle.cjc_by_name.specs.OnePackage.{of_class};
ghost use Rattle.cjc_frame.specs.Deeds.{FollowsOn};

use crate::deeds::deed_of;
use cjc_bytes::{MemberId, NoMemory};
use cjc_frame::{Activation, Deed};
use cjc_heap::Heap;

/// getfield, by the class that declares the field.
pub fn get_field<'a>(
    frame: &mut Activation<'a>,
    heap: &Heap<'a>,
    class: &[u8],
    id: &MemberId,
) -> Result<Deed<'a>, NoMemory>
    requires { frame.old.at < length frame.old.method.insns }
    ensures { IfOk result (λ deed. FollowsOn (λ l m at locals store. field_get l m at locals store (Some (Instance (of_class class.now id.now)))) deed frame.old frame.new heap.now heap.now) }
{
    let Some(reference) = frame.value() else {
        return Ok(Deed::Stick);
    };
    match heap.field_at(reference, class, id) {
        Ok(value) => {
            frame.put(1, value)?;
            Ok(Deed::Go)
        }
        Err(halt) => Ok(deed_of(halt)),
    }
}

/// putfield, by the class that declares the field.
pub fn put_field<'a>(
    frame: &mut Activation<'a>,
    heap: &mut Heap<'a>,
    class: &[u8],
    id: &MemberId,
) -> Deed<'a>
    requires { frame.old.at < length frame.old.method.insns }
    ensures row { FollowsOn (λ l m at locals store. field_put l m at locals store (Some (Instance (of_class class.now id.now)))) result frame.old frame.new heap.old heap.new }
    ensures len { length heap.new ≡ length heap.old }
{
    let Some((reference, value)) = frame.two_values() else {
        return Deed::Stick;
    };
    match heap.put_field(reference, class, id, value) {
        Ok(()) => {
            frame.pass(2);
            Deed::Go
        }
        Err(halt) => deed_of(halt),
    }
}
