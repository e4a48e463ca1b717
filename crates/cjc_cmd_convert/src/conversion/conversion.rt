//! `convert`, from a list and the bytes of its files to the bytes of all that is to be written, with the
//! promise that is made of it. It reads no file and writes none.

ghost use Rattle.std.specs.Prelude.{◌≡◌, ◌⊎◌, ◌≤◌, ◌^◌, length, All, IfOk, IfErr};
ghost use Rattle.cjc_shelf.specs.Bytes.declared.fault.Fault.TheVariants as faults;
ghost use Rattle.cjc_shelf.specs.Bytes.declared.fault.Refusal.{Refusal as Broken};
ghost use Rattle.cjc_cmd_convert.specs.Conversion.Promise.{KeepsPromise};
ghost use Rattle.cjc_convert.specs.Conversion.{IsConvertedByModes};
ghost use Rattle.cjc_convert.specs.Judge.Spelt.{IsRead};
ghost use Rattle.cjc_theorem.specs.Shape.Whole.Conversion.{IsRefused};

use cjc_convert::Converted;
use cjc_convert::list::List;
use cjc_int_theorem::whole::converted_packages_behave_alike;
use cjc_shelf::bytes::{Bytes, Fault, Row};
use std::alloc::Global;

/// Converts the package of a list, whose files these are in list order, each of 512 MiB at most. Over fair
/// export files the components that are written are consistent with them, and they and the class files behave
/// alike, whichever methods are in int mode.
///
/// # Errors
///
/// The first rule that the files break: 101 to 104, else one of 201 to 208, 301 to 310, 401 to 409 and 413, 501
/// to 503, 601 to 609; where they break none, 417; else 311, 414 or 415; else 411 or 416.
pub fn convert(alloc: Global, list: &List, files: &Row<Bytes>) -> Result<Converted, Fault>
    requires read { IsRead list.now }
    requires count { length files.now ≡ length list.now.lines }
    requires files { All (λ bytes. length bytes ≤ 2 ^ 29) files.now }
    ensures converted { IfOk result (IsConvertedByModes list.now files.now) }
    ensures kept { IfOk result (KeepsPromise list.now files.now) }
    ensures refused { IfErr result (λ e. (e ≡ faults.NoMemory) ⊎ ((r : Broken) × IsRefused list.now files.now r
        × (e ≡ faults.Refused r))) }
{
    converted_packages_behave_alike();
    cjc_convert::convert(alloc, list, files)
}
