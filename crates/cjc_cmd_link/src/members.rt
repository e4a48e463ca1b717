//! The packages of a group, tested in the order of refusals: each as the command that runs one tests it, the script,
//! and what they agree on.

ghost use Rattle.std.specs.Prelude.{◌≡◌, ◌<◌, ◌^◌, ◌++◌, ◌∷◌, [], List as Items, ℕ, length, map, IfErr, IfNone, IfOk};
ghost use Rattle.std.specs.Prelude.{None, Ok, OnOk, Some};
ghost use Rattle.std.specs.List.{AllByRecursion};
ghost use Rattle.cjc_group.specs.Bytes.declared.fault.Fault.TheVariants as faults;
ghost use Rattle.cjc_group.specs.Bytes.declared.fault.Refusal.{Refusal as Refused};
ghost use Rattle.cjc_cmd_card.specs.CheckIndex.Lookup.Parts.{complete_of};
ghost use Rattle.cjc_link_semantics.specs.CheckRules.Complete.{AreSmall, Complete, complete};
ghost use Rattle.cjc_link_semantics.specs.Components.Paired.Pairs.{ArePaired};
ghost use Rattle.cjc_link_semantics.specs.Clinit.Image.{IsImage};
ghost use Rattle.cjc_cmd_card.specs.Report.Runs.{AnyBreaks};
ghost use Rattle.cjc_cmd_card.specs.Running.Reads.{IsInput};
ghost use Rattle.cjc_cmd_card.specs.Running.Ready.{IsReady};
ghost use Rattle.cjc_cmd_card.specs.declared.running.input.Input.{Input as Given};
ghost use Rattle.cjc_cmd_card.specs.LowerJudge.Rules.{IsFirstFault};
ghost use Rattle.cjc_cmd_card.specs.LowerScriptText.Scripted.{scripted};
ghost use Rattle.cjc_group.specs.World.declared.image.StaticImage.{StaticImage as Image};
ghost use Rattle.cjc_group.specs.Missing.{missing};
ghost use Rattle.cjc_group.specs.Rules.{breaks};
ghost use Rattle.cjc_cmd_link.specs.Reads.{IsGroup};
ghost use Rattle.cjc_cmd_link.specs.Refused.{AreAgreed, IsFault, IsFirstPart, IsRefused, MissNone, NoPart};
ghost use Rattle.cjc_cmd_link.specs.Refused.{PartRefused};
ghost use Rattle.cjc_cmd_link.specs.Working.{AreMade, AreOfGroup, Follows, IsMade, IsTogetherFault, MemberRefused};
ghost use Rattle.cjc_cmd_link.specs.Working.{StandsSo, StopsBy, earlier, linked_as, written_of};

use crate::reads::GroupInput;
use cjc_cmd_card::check_index::lookup::{Parts, parts_of};
use cjc_cmd_card::exported::export_file::export_of;
use cjc_cmd_card::judge::{image_of, tokens_of};
use cjc_cmd_card::pairing::test_pair;
use cjc_cmd_card::running::{Input, Ready, make_ready};
use cjc_cmd_card::script_text::read;
use cjc_group::bytes::{Fault, NoMemory, Refusal, Row};
use cjc_group::export_file::ExportTree;
use cjc_group::world::StaticImage;
use cjc_group::{Member, test_group, test_missing};
use cjc_link_semantics::check_rules::consistent_where_unbroken;
use cjc_link_semantics::script::Script;
use std::alloc::Global;

/// A package that breaks no rule by itself, with what was read of it.
#[derive(Drop)]
pub(crate) struct Tested<'a> {
    pub(crate) input: &'a Input,
    pub(crate) ready: Ready<'a>,
}

/// The packages of a group, what the static cells of each hold at first, and a script.
#[derive(Drop)]
pub(crate) struct ReadyGroup<'a> {
    pub(crate) members: Row<Tested<'a>>,
    pub(crate) images: Row<StaticImage>,
    pub(crate) script: Script,
}

/// The first of two refusals by the hundreds of their rules.
fn earlier(first: Option<Refusal>, second: Refusal) -> Refusal
    ensures { result ≡ earlier first second }
{
    match first {
        Some(first) => {
            if second.rule.0 / 100 < first.rule.0 / 100 {
                second
            } else {
                first
            }
        }
        None => second,
    }
}

/// The components of a package.
pub(crate) fn parts_in<'a>(ready: &'a Ready<'_>) -> Parts<'a>
    requires { (input : Given) × (name : Items ℕ) × IsReady input name ready.now }
    ensures whole { complete ready.now.cap ≡ Some (complete_of result) }
    ensures small { AreSmall (complete_of result) }
{
    match parts_of(&ready.cap) {
        Some(parts) => parts,
        None => unreachable!(),
    }
}

/// What the static cells of a package hold at first, where its components are of the package.
fn paired_image(alloc: Global, input: &Input, ready: &Ready<'_>) -> Result<StaticImage, Fault>
    requires { IsReady input.now [] ready.now }
    ensures image { IfOk result (IsImage ready.now.judged.world ready.now.judged.codes) }
    ensures paired { IfOk result (λ image. (c : Complete) → complete ready.now.cap ≡ Some c
        → ArePaired ready.now.judged.world image c) }
    ensures refused { IfErr result (IsFirstFault (AnyBreaks input.now [])) }
{
    consistent_where_unbroken();
    let _input = input;
    let image = image_of(alloc, &ready.judged.world, &ready.judged.codes)?;
    let parts = parts_in(ready);
    test_pair(alloc, &parts, &ready.judged.world, &image)?;
    Ok(image)
}

/// A package with what its static cells hold at first, where it breaks no rule by itself.
fn test_member<'a>(alloc: Global, input: &'a Input) -> Result<(Tested<'a>, StaticImage), Fault>
    requires { IsInput input.now }
    ensures made { IfOk result (λ p. IsMade input.now p.0 p.1) }
    ensures refused { IfErr result (IsFirstFault (AnyBreaks input.now [])) }
{
    let ready = make_ready(alloc, input, b"")?;
    let image = paired_image(alloc, input, &ready)?;
    Ok((Tested { input, ready }, image))
}

/// Puts a package, and what its static cells hold at first, behind others.
fn put_tested<'a>(
    tested: Tested<'a>,
    image: StaticImage,
    members: &mut Row<Tested<'a>>,
    images: &mut Row<StaticImage>,
) -> Result<(), NoMemory>
    ensures members { OnOk result (members.new ≡ members.old ++ tested.entry ∷ []) }
    ensures images { OnOk result (images.new ≡ images.old ++ image ∷ []) }
{
    members.push(tested)?;
    images.push(image)
}

/// Puts a package behind those that were tested; or the first refusal with that of this package.
fn test_next<'a>(
    alloc: Global,
    input: &'a Input,
    refusal: Option<Refusal>,
    members: &mut Row<Tested<'a>>,
    images: &mut Row<StaticImage>,
) -> Result<Option<Refusal>, NoMemory>
    requires { IsInput input.now }
    ensures { IfOk result (Follows input.now refusal members.old members.new images.old images.new) }
{
    match test_member(alloc, input) {
        Ok((tested, image)) => {
            put_tested(tested, image, members, images)?;
            Ok(refusal)
        }
        Err(Fault::Refused(second)) => Ok(Some(earlier(refusal, second))),
        Err(Fault::NoMemory) => Err(NoMemory),
    }
}

/// The first refusal of packages; where none is refused, the packages and what their static cells hold at first.
fn test_members<'a>(
    alloc: Global,
    inputs: &'a [Input],
    members: &mut Row<Tested<'a>>,
    images: &mut Row<StaticImage>,
) -> Result<Option<Refusal>, NoMemory>
    requires inputs { AllByRecursion IsInput inputs.now }
    requires members { members.old ≡ [] }
    requires images { images.old ≡ [] }
    ensures parts { IfOk result (StandsSo (MemberRefused inputs.now) (length inputs.now)) }
    ensures made { IfOk result (λ o. IfNone o (AreMade inputs.now members.new images.new)) }
{
    consistent_where_unbroken();
    let mut refusal = None;
    for member in inputs {
        refusal = test_next(alloc, member, refusal, members, images)?;
    }
    Ok(refusal)
}

/// A script, where nothing was refused before it.
fn unless_refused(refusal: Option<Refusal>, script: Script) -> Result<Script, Fault>
    ensures same { IfOk result (λ s. s ≡ script) }
    ensures passed { OnOk result (refusal ≡ None) }
    ensures refused { IfErr result (λ e. (r : Refused) × (refusal ≡ Some r) × (e ≡ faults.Refused r)) }
{
    match refusal {
        Some(refusal) => Err(Fault::Refused(refusal)),
        None => Ok(script),
    }
}

/// The script, where it says something and nothing was refused before it.
fn test_script(
    alloc: Global,
    name: &[u8],
    text: &[u8],
    refusal: Option<Refusal>,
) -> Result<Script, Fault>
    requires { length text.now < 2 ^ 32 }
    ensures script { IfOk result (λ s. scripted name.now text.now ≡ Ok s) }
    ensures passed { OnOk result (refusal ≡ None) }
    ensures refused { IfErr result (IsFault (StopsBy refusal (scripted name.now text.now))) }
{
    match read(alloc, name, text) {
        Ok(script) => unless_refused(refusal, script),
        Err(Fault::Refused(second)) => Err(Fault::Refused(earlier(refusal, second))),
        Err(Fault::NoMemory) => Err(Fault::NoMemory),
    }
}

/// The packages and the script, where none of these is refused by itself.
fn test_parts<'a>(
    alloc: Global,
    input: &'a GroupInput,
    name: &[u8],
) -> Result<ReadyGroup<'a>, Fault>
    requires { IsGroup input.now }
    ensures made { IfOk result (λ g. AreMade input.now.members g.members g.images) }
    ensures script { IfOk result (λ g. scripted name.now input.now.script ≡ Ok g.script) }
    ensures passed { OnOk result (NoPart input.now name.now) }
    ensures refused { IfErr result (IsFault (IsFirstPart (PartRefused input.now name.now))) }
{
    let mut members = Row::new(alloc);
    let mut images = Row::new(alloc);
    let refusal = test_members(alloc, input.members.items(), &mut members, &mut images)?;
    let script = test_script(alloc, name, input.script.items(), refusal)?;
    Ok(ReadyGroup {
        members,
        images,
        script,
    })
}

/// The export file of a package.
fn written_of(alloc: Global, member: &Tested<'_>) -> Result<ExportTree, NoMemory>
    requires { (given : Given) × (image : Image) × IsMade given member.now image }
    ensures { IfOk result (λ t. t ≡ written_of member.now) }
{
    let list = &member.input.list;
    let world = &member.ready.judged.world;
    let tokens = tokens_of(alloc, list, world)?;
    export_of(alloc, list, world, &tokens)
}

/// The export files of all.
fn all_written(alloc: Global, members: &[Tested<'_>]) -> Result<Row<ExportTree>, NoMemory>
    requires { AreOfGroup members.now }
    ensures { IfOk result (λ ts. ts ≡ map written_of members.now) }
{
    let mut trees = Row::new(alloc);
    for member in members {
        let tree = written_of(alloc, member)?;
        trees.push(tree)?;
    }
    Ok(trees)
}

/// The packages as they are linked, with the export files of all.
fn linked_with<'w, 'a>(
    alloc: Global,
    members: &'w [Tested<'a>],
    trees: &'w [ExportTree],
) -> Result<Row<Member<'w, 'a>>, NoMemory>
    requires { trees.now ≡ map written_of members.now }
    ensures { IfOk result (λ group. group ≡ map linked_as members.now) }
{
    let mut group = Row::new(alloc);
    for (place, member) in members.iter().enumerate() {
        let world = &member.ready.judged.world;
        group.push(Member::new(&member.input.list, world, &trees[place]))?;
    }
    Ok(group)
}

/// Tests what packages agree on, and what each misses that the others know.
fn test_linked(alloc: Global, group: &[Member<'_, '_>]) -> Result<(), Fault>
    ensures agreed { OnOk result (breaks group.now ≡ []) }
    ensures known { OnOk result (missing group.now ≡ []) }
    ensures refused { IfErr result (IsTogetherFault group.now) }
{
    test_group(alloc, group)?;
    test_missing(alloc, group)
}

/// Tests what the packages agree on, and what each misses.
fn test_together(alloc: Global, members: &[Tested<'_>]) -> Result<(), Fault>
    requires { AreOfGroup members.now }
    ensures agreed { OnOk result (breaks (map linked_as members.now) ≡ []) }
    ensures known { OnOk result (missing (map linked_as members.now) ≡ []) }
    ensures refused { IfErr result (IsTogetherFault (map linked_as members.now)) }
{
    let trees = all_written(alloc, members)?;
    let group = linked_with(alloc, members, trees.items())?;
    test_linked(alloc, group.items())
}

/// Tests what packages and a script that were tested by themselves agree on, and what each package misses.
fn test_agreed(alloc: Global, group: &ReadyGroup<'_>) -> Result<(), Fault>
    requires { AreOfGroup group.now.members }
    ensures agreed { OnOk result (breaks (map linked_as group.now.members) ≡ []) }
    ensures known { OnOk result (missing (map linked_as group.now.members) ≡ []) }
    ensures refused { IfErr result (IsTogetherFault (map linked_as group.now.members)) }
{
    test_together(alloc, group.members.items())
}

/// The packages and the script, where none of these breaks a rule, the packages agree, and none misses an interface.
pub(crate) fn make_group<'a>(
    alloc: Global,
    input: &'a GroupInput,
    script: &[u8],
) -> Result<ReadyGroup<'a>, Fault>
    requires { IsGroup input.now }
    ensures made { IfOk result (λ g. AreMade input.now.members g.members g.images) }
    ensures script { IfOk result (λ g. scripted script.now input.now.script ≡ Ok g.script) }
    ensures passed { OnOk result (NoPart input.now script.now) }
    ensures agreed { OnOk result (AreAgreed input.now) }
    ensures known { OnOk result (MissNone input.now) }
    ensures refused { (name : Items ℕ) → IfErr result (IsFault (IsRefused input.now name script.now)) }
{
    let group = test_parts(alloc, input, script)?;
    test_agreed(alloc, &group)?;
    Ok(group)
}
