//! The report of a run by token. Called by running.rt, and by the command that sums up two runs. It reads no file.

ghost use Rattle.std.specs.Prelude.{◌≡◌, ◌<◌, ◌^◌, List as Items, ℕ, Some, IfErr, IfOk};
ghost use Rattle.cjc_pairing.specs.CardSemantics.Machine.ByToken.{run as run_by_token};
ghost use Rattle.cjc_cmd_card.specs.Report.Runs.{IsReport};
ghost use Rattle.cjc_cmd_card.specs.Report.Working.{IsPairFault, alone_with};
ghost use Rattle.cjc_cmd_card.specs.Running.Ready.{IsReady};
ghost use Rattle.cjc_cmd_card.specs.declared.running.input.Input.{Input as Given};
ghost use Rattle.cjc_cmd_jvm.specs.Judge.Rules.{has_applets};
ghost use Rattle.cjc_shape.specs.Components.Paired.Naming.{loaded_of};
ghost use Rattle.cjc_pairing.specs.CheckIndex.Lookup.Parts.{complete_of};
ghost use Rattle.cjc_pairing.specs.CheckRules.Complete.{AreSmall, class_info_size, complete};

use crate::report::parts::part_of;
use crate::running::{Input, Ready};
use cjc_card::card_frame::parts::CellName;
use cjc_card::check_index::lookup::{Parts, parts_of};
use cjc_card::export_file::ExportTree;
use cjc_card::group::Group;
use cjc_card::runs::run;
use cjc_card::script::{Report, Script};
use cjc_card::world::StaticImage;
use cjc_cmd_check::bytes::{Fault, NoMemory};
use cjc_cmd_check::list::List;
use cjc_pairing::card_link::ClassNames;
use cjc_pairing::card_names::{cell_names, class_names};
use cjc_pairing::test_pair;
use cjc_shape::judge::{image_of, tokens_of};
use std::alloc::Global;

/// The report of components with these names and export files.
fn run_with(
    alloc: Global,
    parts: &Parts<'_>,
    classes: &[ClassNames],
    cells: &[CellName],
    exports: &[ExportTree],
    script: &Script,
    n: u32,
) -> Result<Report, NoMemory>
    requires small { class_info_size (complete_of parts.now).class < 2 ^ 32 }
    ensures { IfOk result (λ report. report ≡ run_by_token (alone_with (complete_of parts.now) classes.now cells.now
        exports.now) script.now n) }
{
    let part = part_of(parts, classes, cells);
    let group = Group::new(alloc, part, exports)?;
    run(alloc, &group, script, n)
}

/// The report of the components of a package with what its initialisers leave.
fn report_from(
    alloc: Global,
    list: &List,
    ready: &Ready<'_>,
    parts: &Parts<'_>,
    image: &StaticImage,
    n: u32,
) -> Result<Report, NoMemory>
    requires ready { (input : Given) × (name : Items ℕ) × (input.list ≡ list.now) × IsReady input name ready.now }
    requires small { class_info_size (complete_of parts.now).class < 2 ^ 32 }
    ensures { IfOk result (λ report. report ≡ run_by_token (loaded_of (has_applets list.now) ready.now.judged.world
        image.now (complete_of parts.now)) ready.now.script n) }
{
    let judged = &ready.judged;
    let tokens = tokens_of(alloc, list, &judged.world)?;
    let classes = class_names(alloc, &judged.world, &tokens)?;
    let cells = cell_names(alloc, &judged.world, image)?;
    run_with(
        alloc,
        parts,
        classes.items(),
        cells.items(),
        judged.world.exports().items(),
        &ready.script,
        n,
    )
}

/// The components, of which none but Applet and Export is absent.
fn parts_in<'a>(ready: &'a Ready<'_>) -> Parts<'a>
    requires { (input : Given) × (name : Items ℕ) × IsReady input name ready.now }
    ensures whole { complete ready.now.cap ≡ Some (complete_of result) }
    ensures small { AreSmall (complete_of result) }
{
    match parts_of(&ready.cap) {
        Some(parts) => parts,
        None => unreachable!(),
    }
}

/// Whether the components are of the package, and the report of the run of n instructions of them and a script.
///
/// # Errors
///
/// Components that are not of the package, as 719; want of memory.
pub fn report_of(alloc: Global, input: &Input, ready: &Ready<'_>, n: u32) -> Result<Report, Fault>
    requires { (name : Items ℕ) × IsReady input.now name ready.now }
    ensures report { IfOk result (IsReport input.now ready.now n) }
    ensures refused { IfErr result (IsPairFault ready.now) }
{
    let image = image_of(alloc, &ready.judged.world, &ready.judged.codes)?;
    let parts = parts_in(ready);
    test_pair(alloc, &parts, &ready.judged.world, &image)?;
    Ok(report_from(alloc, &input.list, ready, &parts, &image, n)?)
}
