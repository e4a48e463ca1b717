//! What `verify LIST DIR` makes of what it reads: whether the components of a folder are typed by token as the package
//! of a list is. The program's top call calls it; it knows no instruction. Nothing here writes.

ghost use Rattle.std.specs.Prelude.{◌≡◌, Some, IfErr, IfOk, OnOk};
ghost use Rattle.cjc_cmd_card.specs.CheckIndex.Lookup.Parts.{complete_of};
ghost use Rattle.cjc_cmd_card.specs.CheckRules.Complete.{AreSmall, Complete, complete};
ghost use Rattle.cjc_cmd_card.specs.Running.Reads.{IsInput};
ghost use Rattle.cjc_cmd_card.specs.Shelf.Command.Gather.{Gathers, Judged as JudgedBy};
ghost use Rattle.cjc_cmd_verify.specs.Verify.{AnyBreaks, AreTyped, Verifies, plan_of_verify};
ghost use Rattle.cjc_cmd_verify.specs.Working.{AreChecked};
ghost use Rattle.cjc_cmd_card.specs.Clinit.Image.{IsImage};
ghost use Rattle.cjc_verify_theorem.specs.Judge.Rules.{IsFirstFault};
ghost use Rattle.cjc_cmd_card.specs.Components.Paired.Pairs.{ArePaired};
ghost use Rattle.cjc_verify_theorem.specs.Passed.{AreBytes};

use crate::bytes::are_bytes;
use cjc_cmd_card::bytes::{Fault, NoMemory};
use cjc_cmd_card::check::Checked;
use cjc_cmd_card::check_index::lookup::{Parts, parts_of};
use cjc_cmd_card::check_rules::consistent_where_unbroken;
use cjc_cmd_card::cmd_check::checking::print_ok;
use cjc_cmd_card::cmd_check::folder::Parts as Folder;
use cjc_cmd_card::judge::{Judged, image_of, tokens_of};
use cjc_cmd_card::pairing::test_pair;
use cjc_cmd_card::running::{Input, Ready, gather_package, make_ready};
use cjc_cmd_card::shelf::Shelf;
use cjc_cmd_card::shelf::command::{Status, Todo};
use cjc_cmd_card::world::StaticImage;
use cjc_verify_theorem::never_stuck;
use cjc_verify_theorem::verify::verify;
use std::alloc::Global;

// The files of a folder's components are bytes.
fn parts_are_bytes(parts: &Folder)
    ensures { AreBytes parts.now.others }
{
    are_bytes(&parts.others);
}

/// The components, of which none but Applet and Export is absent.
fn parts_in<'a>(checked: &'a Checked<'_>) -> Parts<'a>
    requires { (c : Complete) × (complete checked.now.tree ≡ Some c) × AreSmall c }
    ensures whole { complete checked.now.tree ≡ Some (complete_of result) }
    ensures small { AreSmall (complete_of result) }
{
    match parts_of(&checked.tree) {
        Some(parts) => parts,
        None => unreachable!(),
    }
}

/// What the initialisers of the package leave in static fields, where the components are of the package.
fn paired_image(
    alloc: Global,
    input: &Input,
    judged: &Judged<'_>,
    checked: &Checked<'_>,
) -> Result<StaticImage, Fault>
    requires { AreChecked input.now judged.now checked.now.tree }
    ensures image { IfOk result (IsImage judged.now.world judged.now.codes) }
    ensures paired { IfOk result (λ image. (c : Complete) → complete checked.now.tree ≡ Some c
        → ArePaired judged.now.world image c) }
    ensures refused { IfErr result (IsFirstFault (AnyBreaks input.now)) }
{
    consistent_where_unbroken();
    let _input = input;
    let image = image_of(alloc, &judged.world, &judged.codes)?;
    let parts = parts_in(checked);
    test_pair(alloc, &parts, &judged.world, &image)?;
    Ok(image)
}

/// Tests the types of components that are of the package; where they pass no run of them is stuck.
fn test_types(
    alloc: Global,
    input: &Input,
    judged: &Judged<'_>,
    checked: &Checked<'_>,
    image: &StaticImage,
) -> Result<(), Fault>
    requires input { IsInput input.now }
    requires checked { AreChecked input.now judged.now checked.now.tree }
    requires image { IsImage judged.now.world judged.now.codes image.now }
    requires paired { (c : Complete) → complete checked.now.tree ≡ Some c → ArePaired judged.now.world image.now c }
    ensures typed { OnOk result (AreTyped input.now) }
    ensures refused { IfErr result (IsFirstFault (AnyBreaks input.now)) }
{
    consistent_where_unbroken();
    never_stuck();
    are_bytes(&input.files);
    let parts = &input.parts;
    parts_are_bytes(parts);
    let tokens = tokens_of(alloc, &input.list, &judged.world)?;
    verify(alloc, checked, &judged.world, &tokens, image)
}

/// Tests whether components that were checked are of the package, and then their types.
fn test_checked(
    alloc: Global,
    input: &Input,
    judged: &Judged<'_>,
    checked: &Checked<'_>,
) -> Result<(), Fault>
    requires input { IsInput input.now }
    requires checked { AreChecked input.now judged.now checked.now.tree }
    ensures typed { OnOk result (AreTyped input.now) }
    ensures refused { IfErr result (IsFirstFault (AnyBreaks input.now)) }
{
    let image = paired_image(alloc, input, judged, checked)?;
    test_types(alloc, input, judged, checked, &image)
}

/// Tests what was read.
fn test(alloc: Global, input: &Input) -> Result<(), Fault>
    requires { IsInput input.now }
    ensures typed { OnOk result (AreTyped input.now) }
    ensures refused { IfErr result (IsFirstFault (AnyBreaks input.now)) }
{
    let ready = make_ready(alloc, input, b"")?;
    let Ready {
        judged,
        cap,
        script: _script,
    } = ready;
    let exports = judged.world.exports();
    let checked = Checked { tree: cap, exports };
    test_checked(alloc, input, &judged, &checked)
}

// All is computed here, the line too.
fn judge(alloc: Global, input: &Input) -> Result<Todo, Status>
    requires { IsInput input.now }
    ensures { JudgedBy (Verifies input.now) result }
{
    match test(alloc, input) {
        Ok(()) => match print_ok(alloc) {
            Ok(todo) => Ok(todo),
            Err(NoMemory) => Err(Status::NoMemory),
        },
        Err(fault) => Err(Status::from(fault)),
    }
}

/// Reads a list, its files and the components of a folder, and tests whether the components are typed by token as the
/// package is.
///
/// # Errors
///
/// A list that is refused; the first file that is absent, too long or can't be read; where all are read the first
/// broken rule of the first three hundreds, of 401 to 409 and 413, or of 701 to 719, those of single files first, 106
/// of components behind the files of the list; where none of these is broken the first of 721 to 729; want of memory.
pub fn gather_verify<S: Shelf>(
    alloc: Global,
    name: &[u8],
    dir: &[u8],
    shelf: &mut S,
) -> Result<Todo, Status>
    ensures { Gathers (plan_of_verify name.now dir.now) Verifies (S.shelved shelf.old) (S.shelved shelf.new) result }
{
    let input = gather_package(alloc, name, dir, shelf)?;
    judge(alloc, &input)
}
