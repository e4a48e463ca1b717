//! The first state of a run by token: arrays of the static field images stand on the heap, cells hold what the
//! images say, and the whole script is left. No instruction has run.

ghost use Rattle.std.specs.Prelude.{◌≡◌, ◌++◌, ◌∷◌, [], length, map, IfOk, OnOk};
ghost use Rattle.cjc_card_semantics.specs.Machine.Statics.{first_array, first_arrays, first_image, first_images};
ghost use Rattle.cjc_card_semantics.specs.Machine.ByToken.{start};

use crate::turns::Machine;
use cjc_card_frame::heap::Heap;
use cjc_card_frame::image::{Statics, first_image, push_arrays};
use cjc_card_frame::jvm_step::frame::Pile;
use cjc_card_frame::parts::LookUps;
use cjc_card_semantics::capread::StaticField;
use cjc_script::Script;
use cjc_script::bytes::{NoMemory, Row};
use std::alloc::Global;

// More arrays and objects than have a number.
const TOO_MANY: usize = 1 << 32;

// The arrays and the image of a package more. No memory is there for 2^32 arrays.
fn put_package(
    alloc: Global,
    heap: &mut Heap,
    statics: &mut Statics,
    component: &StaticField,
) -> Result<(), NoMemory>
    ensures heap { OnOk result (heap.new ≡ heap.old ++ map first_array component.now.array_inits) }
    ensures statics { OnOk result (statics.new ≡ statics.old ++ first_image (length heap.old) component.now ∷ []) }
{
    let number = heap.len();
    let count = component.array_inits.items().len();
    if number >= TOO_MANY || count > TOO_MANY - number {
        return Err(NoMemory);
    }
    statics.push(first_image(alloc, number as u32, component)?)?;
    push_arrays(alloc, heap, component)?;
    Ok(())
}

// The arrays and the images of all packages more. No memory is there for 2^32 packages.
fn put_packages<L: LookUps>(
    alloc: Global,
    links: &L,
    heap: &mut Heap,
    statics: &mut Statics,
) -> Result<(), NoMemory>
    ensures heap { OnOk result (heap.new ≡ heap.old ++ first_arrays (L.loaded links.now).parts) }
    ensures statics { OnOk result (statics.new ≡ statics.old
        ++ first_images (length heap.old) (L.loaded links.now).parts) }
{
    let mut part = 0;
    'parts: while let Some(component) = links.statics(part) {
        if part == u32::MAX {
            return Err(NoMemory);
        }
        put_package(alloc, heap, statics, component)?;
        part += 1;
    }
    Ok(())
}

/// The first state.
pub(crate) fn start<'a, L: LookUps>(
    alloc: Global,
    links: &L,
    script: &'a Script,
) -> Result<Machine<'a>, NoMemory>
    ensures { IfOk result (λ machine. machine ≡ start (L.loaded links.now) script.now) }
{
    let mut heap = Heap::new(alloc);
    let mut statics = Statics::new(alloc);
    put_packages(alloc, links, &mut heap, &mut statics)?;
    Ok(Machine {
        callers: Pile::new(alloc),
        heap,
        statics,
        entries: script.entries.items(),
        answers: script.answers.items(),
        notes: Row::new(alloc),
        spent: 0,
    })
}
