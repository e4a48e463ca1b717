//! What `compat OLD NEW` reads and tests: two versions of an export file. The program's top call calls it. Nothing
//! here writes.

ghost use Rattle.std.specs.Prelude.{◌≡◌, ◌<◌, ◌^◌, ◌∷◌, [], length, IfErr, IfOk, OnOk};
ghost use Rattle.cjc_world.specs.Bytes.Breaks.{IsFirstRefusal};
ghost use Rattle.cjc_cmd_compat.specs.Compat.{AreCompatible, Compares, compat_breaks, plan_of_compat, plan_of_new};
ghost use Rattle.cjc_cmd_check.specs.LowerShelf.Command.Gather.{Gathers, Judged};

use cjc_cmd_check::checking::print_ok;
use cjc_cmd_check::shelf::Shelf;
use cjc_cmd_check::shelf::command::{Status, Todo, fetch};
use cjc_compat::compat;
use cjc_compat::export_file::read;
use cjc_world::bytes::{Fault, NoMemory};
use std::alloc::Global;

/// Tests what the bytes of two versions say.
fn test(
    alloc: Global,
    old: &[u8],
    old_bytes: &[u8],
    new: &[u8],
    new_bytes: &[u8],
) -> Result<(), Fault>
    requires old { length old_bytes.now < 2 ^ 32 }
    requires new { length new_bytes.now < 2 ^ 32 }
    ensures unbroken { OnOk result (compat_breaks old.now new.now (old_bytes.now, new_bytes.now) ≡ []) }
    ensures compatible { OnOk result (AreCompatible new.now (old_bytes.now, new_bytes.now)) }
    ensures refused { IfErr result (IsFirstRefusal (compat_breaks old.now new.now (old_bytes.now, new_bytes.now))) }
{
    let before = read(alloc, old, old_bytes)?;
    let after = read(alloc, new, new_bytes)?;
    compat(alloc, new, &before, &after)
}

// All is computed here, the line too.
fn judge(
    alloc: Global,
    old: &[u8],
    old_bytes: &[u8],
    new: &[u8],
    new_bytes: &[u8],
) -> Result<Todo, Status>
    requires old { length old_bytes.now < 2 ^ 32 }
    requires new { length new_bytes.now < 2 ^ 32 }
    ensures { Judged (Compares old.now new.now (old_bytes.now, new_bytes.now)) result }
{
    match test(alloc, old, old_bytes, new, new_bytes) {
        Ok(()) => match print_ok(alloc) {
            Ok(todo) => Ok(todo),
            Err(NoMemory) => Err(Status::NoMemory),
        },
        Err(fault) => Err(Status::from(fault)),
    }
}

/// Reads the new version behind the old one, and tests both.
fn gather_new<S: Shelf>(
    alloc: Global,
    old: &[u8],
    bytes: &[u8],
    new: &[u8],
    shelf: &mut S,
) -> Result<Todo, Status>
    requires { length bytes.now < 2 ^ 32 }
    ensures { Gathers (plan_of_new new.now bytes.now) (Compares old.now new.now) (S.shelved shelf.old)
        (S.shelved shelf.new) result }
{
    let more = fetch(alloc, shelf, new)?;
    judge(alloc, old, bytes, new, more.items())
}

/// Reads two versions of an export file, and tests whether the new one may stand in the place of the old one.
///
/// # Errors
///
/// The first file that is absent, too long or can't be read; where both are read the first broken rule: 104 of the old
/// or of the new one, else of what they say 741 to 745; want of memory.
pub fn gather_compat<S: Shelf>(
    alloc: Global,
    old: &[u8],
    new: &[u8],
    shelf: &mut S,
) -> Result<Todo, Status>
    ensures { Gathers (plan_of_compat old.now new.now) (Compares old.now new.now) (S.shelved shelf.old)
        (S.shelved shelf.new) result }
{
    let bytes = fetch(alloc, shelf, old)?;
    gather_new(alloc, old, bytes.items(), new, shelf)
}
