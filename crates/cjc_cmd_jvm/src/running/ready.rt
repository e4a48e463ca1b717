//! A package and a script, tested in the order of refusals: a rule of a single file of the list, then the
//! script, then all others.

ghost use Rattle.std.specs.Prelude.{◌≡◌, ◌<◌, ◌^◌, length, IfOk, IfErr};
ghost use Rattle.cjc_judge.specs.Rules.{IsFirstFault};
ghost use Rattle.cjc_judge.specs.Spelt.{IsRead, AreFiles};
ghost use Rattle.cjc_cmd_jvm.specs.Running.Ready.{Breaks, IsReady};

use cjc_judge::{Group, Judged, files_first, judge, test_files};
use cjc_script_text::list::List;
use cjc_script_text::read;
use cjc_script_text::script::Script;
use cjc_shelf::bytes::{Bytes, Fault, Row};
use std::alloc::Global;

/// A package that breaks no rule of the first three hundreds, and a script.
#[derive(Drop)]
pub struct Ready<'a> {
    /// The package.
    pub judged: Judged<'a>,
    /// The script.
    pub script: Script,
}

/// The package of a list, whose files these are in list order, with the script of this name and text, where
/// neither breaks a rule of the first three hundreds.
///
/// # Errors
///
/// The first broken rule of all these, in the order of refusals: 105 stands behind the rules of single files,
/// and before all others.
pub fn make_ready<'a>(
    alloc: Global,
    list: &'a List,
    files: &'a Row<Bytes>,
    name: &[u8],
    text: &[u8],
) -> Result<Ready<'a>, Fault>
    requires read { IsRead list.now }
    requires count { length files.now ≡ length list.now.lines }
    requires files { AreFiles files.now }
    requires text { length text.now < 2 ^ 32 }
    ensures ready { IfOk result (IsReady list.now files.now name.now text.now) }
    ensures refused { IfErr result (IsFirstFault (Breaks list.now files.now name.now text.now)) }
{
    files_first();
    match read(alloc, name, text) {
        Ok(script) => {
            let groups = [Group::Unsupported, Group::Language, Group::Initialisers];
            let judged = judge(alloc, list, files, &groups)?;
            Ok(Ready { judged, script })
        }
        Err(fault) => {
            test_files(alloc, list, files)?;
            Err(fault)
        }
    }
}
