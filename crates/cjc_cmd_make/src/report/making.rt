//! What `make NUMBER SIZE` prints. The program's top call calls it. Nothing here reads or writes a file: the package
//! and what is written of it stand on a shelf in memory.

ghost use Rattle.std.specs.Prelude.{◌≡◌, ◌≤◌, ◌^◌, All, length, map, true, IfErr, IfOk, OnOk};
ghost use Rattle.cjc_cmd_card.specs.Shelf.Command.Gather.{Gathers, Judged};
ghost use Rattle.cjc_cmd_card.specs.Shelf.Command.Plan.{complete};
ghost use Rattle.cjc_cmd_card.specs.Shelf.Command.Publish.{written_files};
ghost use Rattle.cjc_cmd_convert.specs.Conversion.Promise.{KeepsPromise};
ghost use Rattle.cjc_cmd_convert.specs.Conversion.Conversion.{IsConverted};
ghost use Rattle.cjc_cmd_convert.specs.Publication.{below, files_made};
ghost use Rattle.cjc_cmd_card.specs.LowerCmdJvm.Running.Reads.{IsInput};
ghost use Rattle.cjc_cmd_card.specs.Shelf.Memory.{clean_shelved, files_of};
ghost use Rattle.cjc_cmd_make.specs.Report.Package.{folder, made_files};
ghost use Rattle.cjc_cmd_make.specs.Report.Runs.{IsMade, IsSummary, Makes, plan_of_make, reads_end};
ghost use Rattle.cjc_cmd_make.specs.Report.Working.{IsConversionFault, IsListFault, IsMakeFault, IsRunsFault};

use crate::report::by_name::report_by_name;
use crate::report::by_token::report_by_token;
use crate::report::ends::fault_of;
use crate::report::shelf::{add_files, package_shelf};
use crate::report::summary::{size_item, summary};
use cjc_cmd_card::cmd_jvm::running::{Input, gather_input};
use cjc_cmd_convert::bytes::{Bytes, Fault, NoMemory};
use cjc_cmd_convert::conversion::{Converted, convert};
use cjc_cmd_convert::publication::publication;
use cjc_cmd_convert::shelf::command::{Status, Todo};
use cjc_cmd_convert::shelf::{CleanShelf, LONGEST, Shelf};
use std::alloc::Global;

/// The list, its files and the script.
fn read_package(alloc: Global, shelf: &mut CleanShelf) -> Result<Input, Fault>
    ensures kept { files_of (clean_shelved shelf.new) ≡ files_of (clean_shelved shelf.old) }
    ensures input { IfOk result IsInput }
    ensures read { IfOk result (λ input. reads_end (files_of (clean_shelved shelf.old)) ≡ complete input) }
    ensures refused { IfErr result (IsListFault (files_of (clean_shelved shelf.old))) }
{
    match gather_input(alloc, b"list", b"script", shelf) {
        Ok(input) => Ok(input),
        Err(end) => Err(fault_of(end)),
    }
}

/// Whether no file is longer than those that are read.
fn are_short(files: &[Bytes]) -> bool
    ensures { result ≡ true → All (λ bytes. length bytes ≤ 2 ^ 29) files.now }
{
    for bytes in files {
        if bytes.items().len() > LONGEST {
            return false;
        }
    }
    true
}

/// Converts what was read. No file that a shelf gives is longer than those that are read; memory would be wanting for
/// one.
fn convert_input(alloc: Global, input: &Input) -> Result<Converted, Fault>
    requires { IsInput input.now }
    ensures converted { IfOk result (IsConverted input.now.list input.now.files) }
    ensures kept { IfOk result (KeepsPromise input.now.list input.now.files) }
    ensures refused { IfErr result (IsConversionFault input.now) }
{
    if !are_short(input.files.items()) {
        return Err(Fault::NoMemory);
    }
    convert(alloc, &input.list, &input.files)
}

/// Adds the files of a conversion, below the folder `out`.
fn add_converted(
    alloc: Global,
    shelf: &mut CleanShelf,
    package_name: &[u8],
    made: Converted,
) -> Result<(), NoMemory>
    ensures { OnOk result (files_of (clean_shelved shelf.new)
        ≡ written_files (map (below folder) (files_made package_name.now made.caps made.export))
        (files_of (clean_shelved shelf.old))) }
{
    let Converted { caps, export } = made;
    let todo = publication(alloc, b"out", package_name, caps, export)?;
    add_files(shelf, todo.files.items())?;
    Ok(())
}

/// Adds the files of a conversion, runs class files and components, and sums up.
fn report_converted(
    alloc: Global,
    size: u32,
    input: &Input,
    made: Converted,
    shelf: &mut CleanShelf,
) -> Result<Todo, Fault>
    requires input { IsInput input.now }
    requires size { size ≤ 250 }
    ensures made { IfOk result (IsSummary size (files_of (clean_shelved shelf.old)) input.now made) }
    ensures refused { IfErr result (IsRunsFault (files_of (clean_shelved shelf.old)) input.now made) }
{
    let method_bytes = size_item(made.caps.method.items());
    add_converted(alloc, shelf, input.list.package.items(), made)?;
    let by_name = report_by_name(alloc, input)?;
    let by_token = report_by_token(alloc, shelf)?;
    Ok(summary(alloc, size, method_bytes, &by_name, &by_token)?)
}

/// Converts what was read, runs it, and sums up.
fn report_input(
    alloc: Global,
    number: u32,
    size: u32,
    input: &Input,
    shelf: &mut CleanShelf,
) -> Result<Todo, Fault>
    requires input { IsInput input.now }
    requires size { size ≤ 250 }
    requires shelf { files_of (clean_shelved shelf.old) ≡ made_files number size }
    requires read { reads_end (made_files number size) ≡ complete input.now }
    ensures made { IfOk result (IsMade number size) }
    ensures refused { IfErr result (IsMakeFault number size) }
{
    let _number = number;
    let made = convert_input(alloc, input)?;
    let todo = report_converted(alloc, size, input, made, shelf)?;
    Ok(todo)
}

/// Makes a package, converts it, runs it, and sums up.
fn report_package(alloc: Global, number: u32, size: u32) -> Result<Todo, Fault>
    requires least { 1 ≤ size }
    requires greatest { size ≤ 250 }
    ensures made { IfOk result (IsMade number size) }
    ensures refused { IfErr result (IsMakeFault number size) }
{
    let mut shelf = package_shelf(alloc, number, size)?;
    let input = read_package(alloc, &mut shelf)?;
    report_input(alloc, number, size, &input, &mut shelf)
}

// All is computed here, the lines too.
fn judge(alloc: Global, number: u32, size: u32) -> Result<Todo, Status>
    requires least { 1 ≤ size }
    requires greatest { size ≤ 250 }
    ensures { Judged (Makes (number, size)) result }
{
    match report_package(alloc, number, size) {
        Ok(todo) => Ok(todo),
        Err(fault) => Err(Status::from(fault)),
    }
}

/// Makes a package from a number and a size, converts it, runs 1,000,000 instructions of its class files by name and
/// 3,000,000 of its components by token, and sums up. It asks nothing of the shelf.
///
/// # Errors
///
/// The first broken rule of a conversion, of a run by name or of a run by token, tested in this order; want of memory.
pub fn gather_make<S: Shelf>(
    alloc: Global,
    number: u32,
    size: u32,
    shelf: &mut S,
) -> Result<Todo, Status>
    requires least { 1 ≤ size }
    requires greatest { size ≤ 250 }
    ensures { Gathers (plan_of_make number size) Makes (S.shelved shelf.old) (S.shelved shelf.new) result }
{
    let _shelf = &*shelf;
    judge(alloc, number, size)
}
