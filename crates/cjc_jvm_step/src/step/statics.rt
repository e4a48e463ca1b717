//! getstatic and putstatic (Java Virtual Machine Specification, 6.5): the field is looked up, and its cell is
//! read or written. Called by `instruction`.

ghost use Rattle.std.specs.Prelude.{◌≡◌, ◌<◌, length, List, Some, IfOk, option_map};
ghost use Rattle.cjc_jvm_semantics.specs.LowerBytecode.declared.insn.JOp.TheVariants as jop;
ghost use Rattle.cjc_script.specs.declared.report.Thing.{Thing};
ghost use Rattle.cjc_jvm_semantics.specs.Linked.{Static};
ghost use Rattle.cjc_jvm_semantics.specs.OnePackage.{of_class};
ghost use Rattle.cjc_jvm_semantics.specs.Effects.{static_get, static_put, effect};
ghost use Rattle.cjc_jvm_step.specs.Frame.Deeds.{FollowsEffect};
ghost use Rattle.cjc_jvm_step.specs.Step.Names.{field_of};
ghost use Rattle.cjc_jvm_step.specs.Step.Rows.{FollowsIn, store_of};

use crate::frame::{Activation, Deed};
use crate::heap::Statics;
use crate::step::lookups::{LookUps, ResolvedField};
use cjc_script::Value;
use cjc_script::bytes::{MemberId, NoMemory};

// getstatic of a cell, by the class that declares its field.
fn get_cell<'a>(
    frame: &mut Activation<'a>,
    statics: &Statics<'a>,
    class: &[u8],
    id: &MemberId,
) -> Result<Deed<'a>, NoMemory>
    requires { frame.old.at < length frame.old.method.insns }
    ensures { IfOk result (λ deed. FollowsIn (λ l m at locals store. static_get l m at locals store
        (Some (Static (of_class class.now id.now)))) deed frame.old frame.new statics.now statics.now) }
{
    match statics.value(class, id) {
        Some(value) => Ok(frame.push(value)?),
        None => Ok(Deed::Stick),
    }
}

/// getstatic of a field that is found, or is not.
pub fn get_static<'a>(
    frame: &mut Activation<'a>,
    statics: &Statics<'a>,
    field: Option<ResolvedField<'_>>,
    id: &MemberId,
) -> Result<Deed<'a>, NoMemory>
    requires { frame.old.at < length frame.old.method.insns }
    ensures { IfOk result (λ deed. FollowsIn (λ l m at locals store. static_get l m at locals store
        (option_map (λ f. field_of f id.now) field.entry)) deed frame.old frame.new statics.now statics.now) }
{
    match field {
        Some(ResolvedField::Constant(z)) => frame.push(Value::Num(z)),
        Some(ResolvedField::Static(class)) => get_cell(frame, statics, class, id),
        Some(ResolvedField::Instance(_)) => Ok(Deed::Stick),
        None => Ok(Deed::Stick),
    }
}

/// putstatic of a field that is found, or is not.
pub fn put_static<'a>(
    frame: &mut Activation<'a>,
    statics: &mut Statics<'a>,
    field: Option<ResolvedField<'_>>,
    id: &MemberId,
) -> Deed<'a>
    requires { frame.old.at < length frame.old.method.insns }
    ensures { FollowsIn (λ l m at locals store. static_put l m at locals store (option_map (λ f. field_of f id.now)
        field.entry)) result frame.old frame.new statics.old statics.new }
{
    let Some(ResolvedField::Static(class)) = field else {
        return Deed::Stick;
    };
    match frame.value() {
        Some(value) => {
            if statics.put(class, id, value) {
                frame.pass(1);
                Deed::Go
            } else {
                Deed::Stick
            }
        }
        None => Deed::Stick,
    }
}

/// getstatic and putstatic, by what look-ups answer of their field.
pub fn act_on_static<'a, L: LookUps>(
    links: &L,
    frame: &mut Activation<'a>,
    statics: &mut Statics<'a>,
    put: bool,
    id: &MemberId,
) -> Result<Deed<'a>, NoMemory>
    requires { frame.old.at < length frame.old.method.insns }
    ensures { IfOk result (λ deed. (heap : List Thing)
        → FollowsEffect (effect (L.linked links.now) frame.old.method frame.old.at frame.old.locals
        (store_of heap statics.old) (jop.Static put id.now) frame.old.stack) deed frame.old frame.new
        (store_of heap statics.old) (store_of heap statics.new)) }
{
    let found = links.field(frame.holder(), id);
    if put {
        Ok(put_static(frame, statics, found, id))
    } else {
        get_static(frame, statics, found, id)
    }
}
