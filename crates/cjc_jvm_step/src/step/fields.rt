//! getfield and putfield of a field that is found (Java Virtual Machine Specification, 6.5).

ghost use Rattle.std.specs.Prelude.{◌≡◌, ◌<◌, length, Some, IfOk, option_map};
ghost use Rattle.cjc_jvm_semantics.specs.LowerBytecode.declared.insn.JOp.TheVariants as jop;
ghost use Rattle.cjc_jvm_semantics.specs.Linked.{Instance};
ghost use Rattle.cjc_jvm_semantics.specs.Effects.{field_get, field_put, effect};
ghost use Rattle.cjc_jvm_semantics.specs.OnePackage.{of_class};
ghost use Rattle.cjc_jvm_step.specs.Frame.Deeds.{FollowsOn};
ghost use Rattle.cjc_jvm_step.specs.Step.Names.{field_of};
ghost use Rattle.cjc_jvm_step.specs.Step.Rows.{FollowsBy};

use crate::frame::{Activation, Deed};
use crate::heap::Heap;
use crate::step::deeds::deed_of;
use crate::step::lookups::{LookUps, ResolvedField};
use cjc_script::bytes::{MemberId, NoMemory};

// getfield, by the class that declares the field.
fn get_field_of<'a>(
    frame: &mut Activation<'a>,
    heap: &Heap<'a>,
    class: &[u8],
    id: &MemberId,
) -> Result<Deed<'a>, NoMemory>
    requires { frame.old.at < length frame.old.method.insns }
    ensures { IfOk result (λ deed. FollowsOn (λ l m at locals store. field_get l m at locals store
        (Some (Instance (of_class class.now id.now)))) deed frame.old frame.new heap.now heap.now) }
{
    let Some(reference) = frame.value() else {
        return Ok(Deed::Stick);
    };
    match heap.field_at(reference, class, id) {
        Ok(value) => {
            frame.put(1, value)?;
            Ok(Deed::Go)
        }
        Err(halt) => Ok(deed_of(halt)),
    }
}

// putfield, by the class that declares the field.
fn put_field_of<'a>(
    frame: &mut Activation<'a>,
    heap: &mut Heap<'a>,
    class: &[u8],
    id: &MemberId,
) -> Deed<'a>
    requires { frame.old.at < length frame.old.method.insns }
    ensures row { FollowsOn (λ l m at locals store. field_put l m at locals store
        (Some (Instance (of_class class.now id.now)))) result frame.old frame.new heap.old heap.new }
    ensures len { length heap.new ≡ length heap.old }
{
    let Some((reference, value)) = frame.two_values() else {
        return Deed::Stick;
    };
    match heap.put_field(reference, class, id, value) {
        Ok(()) => {
            frame.pass(2);
            Deed::Go
        }
        Err(halt) => deed_of(halt),
    }
}

/// getfield of a field that is found, or is not.
pub fn get_field<'a>(
    frame: &mut Activation<'a>,
    heap: &Heap<'a>,
    field: Option<ResolvedField<'_>>,
    id: &MemberId,
) -> Result<Deed<'a>, NoMemory>
    requires { frame.old.at < length frame.old.method.insns }
    ensures { IfOk result (λ deed. FollowsOn (λ l m at locals store. field_get l m at locals store
        (option_map (λ f. field_of f id.now) field.entry)) deed frame.old frame.new heap.now heap.now) }
{
    match field {
        Some(ResolvedField::Instance(class)) => get_field_of(frame, heap, class, id),
        Some(ResolvedField::Constant(_)) => Ok(Deed::Stick),
        Some(ResolvedField::Static(_)) => Ok(Deed::Stick),
        None => Ok(Deed::Stick),
    }
}

/// putfield of a field that is found, or is not.
pub fn put_field<'a>(
    frame: &mut Activation<'a>,
    heap: &mut Heap<'a>,
    field: Option<ResolvedField<'_>>,
    id: &MemberId,
) -> Deed<'a>
    requires { frame.old.at < length frame.old.method.insns }
    ensures row { FollowsOn (λ l m at locals store. field_put l m at locals store (option_map (λ f. field_of f id.now)
        field.entry)) result frame.old frame.new heap.old heap.new }
    ensures len { length heap.new ≡ length heap.old }
{
    match field {
        Some(ResolvedField::Instance(class)) => put_field_of(frame, heap, class, id),
        Some(ResolvedField::Constant(_)) => Deed::Stick,
        Some(ResolvedField::Static(_)) => Deed::Stick,
        None => Deed::Stick,
    }
}

/// getfield and putfield, by what look-ups answer of their field.
pub fn act_on_field<'a, L: LookUps>(
    links: &L,
    frame: &mut Activation<'a>,
    heap: &mut Heap<'a>,
    put: bool,
    id: &MemberId,
) -> Result<Deed<'a>, NoMemory>
    requires { frame.old.at < length frame.old.method.insns }
    ensures row { IfOk result (λ deed. FollowsBy (L.linked links.now) (λ l m at locals store. effect l m at locals store
        (jop.Field put id.now)) deed frame.old frame.new heap.old heap.new) }
    ensures len { length heap.new ≡ length heap.old }
{
    let found = links.field(frame.holder(), id);
    if put {
        Ok(put_field(frame, heap, found, id))
    } else {
        get_field(frame, heap, found, id)
    }
}
