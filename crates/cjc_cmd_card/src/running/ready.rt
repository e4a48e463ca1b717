//! A package, components and a script, tested in the order of refusals: a rule of a single file of the list,
//! then the components and the script by themselves, then the rules of the package, and last what components
//! say together.

ghost use Rattle.std.specs.Prelude.{◌≡◌, [], Some, Ok, IfOk, IfErr, OnOk};
ghost use Rattle.cjc_cmd_check.specs.Bytes.Breaks.{Break as Broken, IsFirstRefusal};
ghost use Rattle.cjc_cmd_check.specs.Folder.Breaks.{cap_in, part_breaks};
ghost use Rattle.cjc_cmd_jvm.specs.Judge.Judged.{IsJudged};
ghost use Rattle.cjc_cmd_jvm.specs.Judge.Rules.{BreaksFile, IsFirstFault};
ghost use Rattle.cjc_cmd_jvm.specs.LowerScriptText.Scripted.{ScriptTree, scripted};
ghost use Rattle.cjc_pairing.specs.CheckRules.Complete.{IsSmall};
ghost use Rattle.cjc_pairing.specs.CheckRules.Consistent.{Consistent, breaks};
ghost use Rattle.cjc_cmd_card.specs.Running.Reads.{IsInput};
ghost use Rattle.cjc_cmd_card.specs.Running.Ready.{Breaks, IsReady, tested};

use crate::running::input::Input;
use cjc_card::export_file::ExportTree;
use cjc_card::script::Script;
use cjc_cmd_check::bytes::{Fault, Row};
use cjc_cmd_check::capread::CapTree;
use cjc_cmd_check::check::{Checked, check};
use cjc_cmd_check::folder::{cap_of, parts_between};
use cjc_cmd_jvm::script_text::read;
use cjc_shape::judge::{Group, Judged, files_first, judge, test_files};
use std::alloc::Global;

/// A package that breaks no rule of the first three hundreds, of limits and of tokens, components that are
/// consistent with its export files, and a script.
#[derive(Drop)]
pub struct Ready<'a> {
    /// The package.
    pub judged: Judged<'a>,
    /// The components, of which none but Applet and Export is absent.
    pub cap: CapTree,
    /// The script.
    pub script: Script,
}

/// The answer for a fault of what stands behind the files of the list: the first rule that one of these breaks,
/// else the fault.
fn behind_files(alloc: Global, input: &Input, name: &[u8], fault: Fault) -> Fault
    requires input { IsInput input.now }
    requires behind { ((b : Broken) → BreaksFile input.now.list.lines input.now.files b → ⊥)
        → IsFirstFault (Breaks input.now name.now) fault }
    ensures { IsFirstFault (Breaks input.now name.now) result }
{
    files_first();
    parts_between();
    let _name = name;
    match test_files(alloc, &input.list, &input.files) {
        Ok(()) => fault,
        Err(first) => first,
    }
}

/// What the components say, each by itself.
fn read_cap(alloc: Global, input: &Input, name: &[u8]) -> Result<CapTree, Fault>
    requires { IsInput input.now }
    ensures found { IfOk result (λ cap. cap_in input.now.parts ≡ Some cap) }
    ensures unbroken { OnOk result (part_breaks input.now.parts ≡ []) }
    ensures refused { IfErr result (IsFirstFault (Breaks input.now name.now)) }
{
    files_first();
    parts_between();
    match cap_of(alloc, &input.parts) {
        Ok(cap) => Ok(cap),
        Err(fault) => Err(behind_files(alloc, input, name, fault)),
    }
}

/// The script.
fn read_script(alloc: Global, input: &Input, name: &[u8]) -> Result<Script, Fault>
    requires input { IsInput input.now }
    requires parts { part_breaks input.now.parts ≡ [] }
    ensures found { IfOk result (λ script. scripted name.now input.now.script ≡ Ok script) }
    ensures refused { IfErr result (IsFirstFault (Breaks input.now name.now)) }
{
    files_first();
    parts_between();
    match read(alloc, name, input.script.items()) {
        Ok(script) => Ok(script),
        Err(fault) => Err(behind_files(alloc, input, name, fault)),
    }
}

/// The package, where components and script break nothing by themselves.
fn judge_package<'a>(alloc: Global, input: &'a Input, name: &[u8]) -> Result<Judged<'a>, Fault>
    requires input { IsInput input.now }
    requires parts { part_breaks input.now.parts ≡ [] }
    requires script { (script : ScriptTree) × (scripted name.now input.now.script ≡ Ok script) }
    ensures judged { IfOk result (IsJudged input.now.list input.now.files tested) }
    ensures refused { IfErr result (IsFirstFault (Breaks input.now name.now)) }
{
    files_first();
    parts_between();
    let _name = name;
    let groups = [
        Group::Unsupported,
        Group::Initialisers,
        Group::Limits,
        Group::Tokens,
    ];
    judge(alloc, &input.list, &input.files, &groups)
}

/// These components, where they are consistent with export files.
fn consistent(alloc: Global, cap: CapTree, exports: &Row<ExportTree>) -> Result<CapTree, Fault>
    requires { IsSmall cap }
    ensures same { IfOk result (λ tree. tree ≡ cap) }
    ensures consistent { OnOk result (Consistent cap exports.now) }
    ensures refused { IfErr result (IsFirstRefusal (breaks cap exports.now)) }
{
    match check(alloc, cap, exports) {
        Ok(checked) => {
            let Checked {
                tree,
                exports: _exports,
            } = checked;
            Ok(tree)
        }
        Err(fault) => Err(fault),
    }
}

/// The components, where the package breaks nothing and they are consistent with its export files.
fn check_cap(
    alloc: Global,
    input: &Input,
    name: &[u8],
    judged: &Judged<'_>,
    cap: CapTree,
) -> Result<CapTree, Fault>
    requires input { IsInput input.now }
    requires parts { part_breaks input.now.parts ≡ [] }
    requires script { (script : ScriptTree) × (scripted name.now input.now.script ≡ Ok script) }
    requires judged { IsJudged input.now.list input.now.files tested judged.now }
    requires cap { cap_in input.now.parts ≡ Some cap }
    ensures same { IfOk result (λ tree. tree ≡ cap) }
    ensures consistent { OnOk result (Consistent cap judged.now.world.exports) }
    ensures refused { IfErr result (IsFirstFault (Breaks input.now name.now)) }
{
    files_first();
    parts_between();
    let (_input, _name) = (input, name);
    consistent(alloc, cap, judged.world.exports())
}

/// The package of a list with the components of a folder and a script of this name, where they break none of
/// 101 to 106, of families 2 and 3, of 401 to 409 and 413, and of 701 to 718.
///
/// # Errors
///
/// The first broken rule of all these, in the order of refusals: 106 of components stands behind the rules of
/// single files of the list, 105 of the script behind it, and both before all others.
pub fn make_ready<'a>(alloc: Global, input: &'a Input, name: &[u8]) -> Result<Ready<'a>, Fault>
    requires { IsInput input.now }
    ensures ready { IfOk result (IsReady input.now name.now) }
    ensures refused { IfErr result (IsFirstFault (Breaks input.now name.now)) }
{
    let cap = read_cap(alloc, input, name)?;
    let script = read_script(alloc, input, name)?;
    let judged = judge_package(alloc, input, name)?;
    let checked = check_cap(alloc, input, name, &judged, cap)?;
    Ok(Ready {
        judged,
        cap: checked,
        script,
    })
}
