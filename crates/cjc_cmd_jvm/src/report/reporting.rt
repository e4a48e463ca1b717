//! The report of a run by name. Called by running.rt, and by the command that sums up two runs. It reads no file.

ghost use Rattle.std.specs.Prelude.{◌≡◌, ◌<◌, ◌+◌, ◌^◌, length, true, IfOk};
ghost use Rattle.std.specs.List.{sum_by};
ghost use Rattle.cjc_shelf.specs.Bytes.Breaks.{Break as Broken};
ghost use Rattle.cjc_jvm_link.specs.JvmSemantics.ByName.{run as run_by_name};
ghost use Rattle.cjc_judge.specs.LowerClinit.Rules.{BreaksImage};
ghost use Rattle.cjc_jvm.specs.Bytecode.PackageCodes.{all_codes};
ghost use Rattle.cjc_cmd_jvm.specs.Runs.{IsReport};

use crate::report::room::{behind_answers, behind_entries};
use crate::running::Ready;
use cjc_judge::image_of;
use cjc_jvm::runs::run;
use cjc_jvm_link::world::StaticImage;
use cjc_jvm_link::{Links, indices_of};
use cjc_script_text::script::{Report, Script};
use cjc_shelf::bytes::NoMemory;
use std::alloc::Global;

/// Whether n instructions, the acts of a script and the arrays of an image are together fewer than 32 bits count.
pub fn has_room(image: &StaticImage, script: &Script, n: u32) -> bool
    ensures { result ≡ true → n + (length image.now.arrays + sum_by (λ e. length e.acts) script.now.entries + sum_by
        (λ a. length a.acts) script.now.answers) < 2 ^ 32 }
{
    let arrays = image.arrays.items().len();
    let left = u32::MAX - n;
    if arrays > left as usize {
        return false;
    }
    match behind_entries(script.entries.items(), left - arrays as u32) {
        None => false,
        Some(rest) => behind_answers(script.answers.items(), rest).is_some(),
    }
}

/// The report of a run from an image. No run of a script that was read has as many objects as 32 bits can't number.
fn report_from(
    alloc: Global,
    ready: &Ready<'_>,
    image: &StaticImage,
    n: u32,
) -> Result<Report, NoMemory>
    requires { ready.now.judged.codes ≡ all_codes ready.now.judged.world.classes }
    ensures { IfOk result (λ report. report ≡ run_by_name ready.now.judged.world image.now ready.now.script n) }
{
    if !has_room(image, &ready.script, n) {
        return Err(NoMemory);
    }
    let judged = &ready.judged;
    let indices = indices_of(alloc, judged.codes.items())?;
    let links = Links::new(
        alloc,
        &judged.world,
        judged.codes.items(),
        indices.items(),
        image,
    )?;
    run(alloc, &links, &ready.script, n)
}

/// The report of the run of n instructions of a package's class files and a script.
///
/// # Errors
///
/// Want of memory.
pub fn report_of(alloc: Global, ready: &Ready<'_>, n: u32) -> Result<Report, NoMemory>
    requires codes { ready.now.judged.codes ≡ all_codes ready.now.judged.world.classes }
    requires unbroken { (b : Broken) → BreaksImage ready.now.judged.world ready.now.judged.codes b → ⊥ }
    ensures { IfOk result (IsReport ready.now n) }
{
    let image = image_of(alloc, &ready.judged.world, &ready.judged.codes)?;
    report_from(alloc, ready, &image, n)
}
