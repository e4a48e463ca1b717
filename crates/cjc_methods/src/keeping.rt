//! Which members keep the code that was selected to know the pool: those whose methods name no instance field. Called
//! by codes.rt; it selects nothing.

ghost use Rattle.std.specs.Prelude.{◌≡◌, List, true};
ghost use Rattle.std.specs.List.{list_any};
ghost use Rattle.cjc_bytes.specs.declared.fault.MemberId.{MemberId};
ghost use Rattle.cjc_int_package.specs.Modes.{Tables};
ghost use Rattle.cjc_int_package.specs.Written.{code_by_mode_at};
ghost use Rattle.cjc_methods.specs.Ready.{AreReady, AreTold, IsOwn};
ghost use Rattle.cjc_methods.specs.Working.Fields.{names_field};
ghost use Rattle.cjc_methods.specs.Working.Places.{class_places};

use crate::selecting::{Sources, place_of};
use cjc_code::{JInsn, JOp};
use cjc_world::{Found, World};

/// Whether an instruction names an instance field.
fn names_field(insn: &JInsn) -> bool
    ensures { result ≡ names_field insn.now }
{
    match &insn.op {
        JOp::Field {
            put: _put,
            field: _field,
        } => true,
        _ => false,
    }
}

/// Whether one of these does.
fn any_names_field(insns: &[JInsn]) -> bool
    ensures { result ≡ list_any names_field insns.now }
{
    for insn in insns {
        if names_field(insn) {
            return true;
        }
    }
    false
}

/// Whether a member has the same code whichever instance fields have an index of one byte.
pub(crate) fn keeps_code(world: &World<'_>, sources: Sources<'_>, member: Found) -> bool
    requires ready { AreReady world.now sources.codes.now sources.types.now }
    requires places { sources.places.now ≡ class_places 0 world.now.classes }
    requires own { IsOwn world.now member }
    ensures { (t : Tables) (before after : List MemberId) → AreTold world.now sources.entry.codes.now
        sources.entry.types.now sources.entry.modes.now t → result ≡ true
        → code_by_mode_at world.now before t member ≡ code_by_mode_at world.now after t member }
{
    match place_of(world, sources, member) {
        Some(place) => !any_names_field(sources.codes[place as usize].insns.items()),
        None => true,
    }
}
