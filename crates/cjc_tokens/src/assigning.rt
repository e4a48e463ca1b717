//! Tokens for a whole package, or rule 413 at the first class that breaks it; the slots of a superclass are
//! made before those of its subclasses. The only call that makes `Tokens`.

ghost use Rattle.std.specs.Prelude.{◌≡◌, ◌⊎◌, ◌≤◌, ◌<◌, [], length, nat_lt, slice_get, All, true, false, None, Some};
ghost use Rattle.std.specs.Prelude.{IfOk, IfErr, OnOk};
ghost use Rattle.cjc_bytes.specs.declared.fault.Fault.TheVariants as faults;
ghost use Rattle.std.specs.List.{list_all};
ghost use Rattle.cjc_world.specs.Classes.{all_classes, declared};
ghost use Rattle.cjc_bytes.specs.Breaks.{IsFirstRefusal};
ghost use Rattle.cjc_bytes.specs.Order.{file_of};
ghost use Rattle.cjc_bytes.specs.Told.{break_of};
ghost use Rattle.cjc_tokens.specs.Fields.{instance_cells};
ghost use Rattle.cjc_tokens.specs.Rules.{FewCells, FewExported, at_class, has_few_cells, has_few_exported, is_few};
ghost use Rattle.cjc_tokens.specs.Rules.{IsFirstHigh, token_breaks};
ghost use Rattle.cjc_world.specs.Exported.{is_exported};
ghost use Rattle.cjc_tokens.specs.Tokens.{assigned};
ghost use Rattle.cjc_tokens.specs.Working.{AreAllTokens, AreTokensOf, IsKept};

use crate::class::{class_tokens, interface_tokens};
use crate::fields::has_few_cells;
use crate::imports::import_tokens;
use crate::line::{added_to, keep};
use crate::slot::Rows;
use crate::tokens::{ClassTokens, Tokens};
use cjc_bytes::{
    Break, Fault, NoMemory, Row, RulePlace, Settings, file_of, is_interface, refused_at,
};
use cjc_world::classfile::ClassTree;
use cjc_world::{Known, World};
use std::alloc::Global;

fn class_count(world: &World<'_>) -> Result<u32, NoMemory>
    ensures { IfOk result (λ count. count ≡ length world.now.classes) }
{
    let count = world.classes().items().len();
    if count > 0xFFFF_FFFF {
        Err(NoMemory)
    } else {
        Ok(count as u32)
    }
}

/// Whether at most 255 classes are exported.
fn few_exported(world: &World<'_>, applets: bool, count: u32) -> bool
    requires { count ≡ length world.now.classes }
    ensures { result ≡ has_few_exported applets world.now }
{
    let mut exported = 0u32;
    for number in 0..count {
        let class = &world.classes().items()[number as usize];
        if world.is_exported(applets, Known::Declared(number, class)) {
            exported += 1;
        }
    }
    exported <= 255
}

/// Whether each class declares at most 255 cells of instance fields.
fn few_cells(classes: &[ClassTree<'_>]) -> bool
    ensures { result ≡ list_all has_few_cells classes.now }
{
    classes
        .iter()
        .all(|class| has_few_cells(class.fields.items()))
}

/// No rows yet, for so many classes.
fn no_rows<'w>(alloc: Global, count: u32) -> Result<Vec<Option<Rows<'w>>>, NoMemory>
    ensures { IfOk result (λ kept. (length kept.items ≡ count) × All (λ r. r ≡ None) kept.items) }
{
    let mut kept = Vec::new(alloc);
    for _ in 0..count {
        kept.push(None)?;
    }
    Ok(kept)
}

/// The rows of the classes of the package. Interfaces have none.
fn all_rows<'w>(
    alloc: Global,
    world: &'w World<'_>,
    count: u32,
) -> Result<Vec<Option<Rows<'w>>>, NoMemory>
    requires count { count ≡ length world.now.classes }
    ensures { IfOk result (λ kept. IsKept (all_classes world.now) world.now.classes kept.items) }
{
    let mut kept = no_rows(alloc, count)?;
    for number in 0..count {
        keep(alloc, world, &mut kept, number)?;
    }
    Ok(kept)
}

/// The tokens of a class of the package; None where it breaks 413.
fn tokens_at<'w, 'a>(
    alloc: Global,
    world: &'w World<'a>,
    applets: bool,
    kept: &[Option<Rows<'w>>],
    before: u32,
    number: u32,
    class: &'w ClassTree<'a>,
) -> Result<Option<ClassTokens>, NoMemory>
    requires kept { IsKept (all_classes world.now) world.now.classes kept.now }
    requires number { number < length world.now.classes }
    requires class { slice_get world.now.classes number ≡ Some class.now }
    requires cells { instance_cells class.now.fields ≤ 255 }
    requires before { is_exported (all_classes world.now) applets (declared number class.now) ≡ true → before < 255 }
    ensures { IfOk result (AreTokensOf (all_classes world.now) applets before number class.now) }
{
    if class.fields.items().len() > 0xFFFF_FFFF {
        return Err(NoMemory);
    }
    if is_interface(class.flags) {
        return interface_tokens(alloc, world, applets, before, number, class);
    }
    match kept.get(number as usize) {
        Some(Some(rows)) => {
            let added = added_to(world, number);
            class_tokens(alloc, world, applets, before, number, class, rows, added)
        }
        _ => Err(NoMemory),
    }
}

/// The tokens of the classes of the package, in list order, or the number of the first that breaks 413.
fn declared_tokens<'w>(
    alloc: Global,
    world: &'w World<'_>,
    applets: bool,
    kept: &[Option<Rows<'w>>],
    count: u32,
) -> Result<Result<Row<ClassTokens>, u32>, NoMemory>
    requires exported { FewExported applets world.now }
    requires cells { FewCells world.now }
    requires kept { IsKept (all_classes world.now) world.now.classes kept.now }
    requires count { count ≡ length world.now.classes }
    ensures { IfOk result (AreAllTokens applets world.now) }
{
    let mut rows = Row::new(alloc);
    let mut before = 0;
    for number in 0..count {
        let class = &world.classes().items()[number as usize];
        match tokens_at(alloc, world, applets, kept, before, number, class)? {
            None => return Ok(Err(number)),
            Some(tokens) => rows.push(tokens)?,
        }
        if world.is_exported(applets, Known::Declared(number, class)) {
            before += 1;
        }
    }
    Ok(Ok(rows))
}

/// Rule 413 at a class of the package.
fn high_break<'w>(world: &'w World<'_>, number: u32, class: &'w ClassTree<'_>) -> Break<'w>
    ensures { break_of result ≡ at_class (file_of world.now.lines number) class.now.name }
{
    let file = file_of(world.lines().items(), number as usize);
    Break {
        rule: 413,
        spot: RulePlace::of_class(file, 1, class.name.items()),
    }
}

/// The refusal of a class of the package that breaks 413, or that there is no memory to say so.
fn refused(alloc: Global, world: &World<'_>, number: u32, class: &ClassTree<'_>) -> Fault
    ensures { (result ≡ faults.Refused (at_class (file_of world.now.lines number) class.now.name).refusal)
        ⊎ (result ≡ faults.NoMemory) }
{
    let high = high_break(world, number, class);
    refused_at(alloc, high.rule, high.spot.place)
}

/// The tokens of a package that exports no more than 255 classes and has no class with more than 255 cells of
/// instance fields. A refusal is the first of what is broken of the rule 413.
pub fn assign(alloc: Global, world: &World<'_>, settings: &Settings) -> Result<Tokens, Fault>
    requires exported { FewExported (nat_lt 0 (length settings.now.applets)) world.now }
    requires cells { FewCells world.now }
    ensures unbroken { OnOk result (token_breaks (nat_lt 0 (length settings.now.applets)) world.now ≡ []) }
    ensures tokens { IfOk result (λ t. t ≡ assigned (nat_lt 0 (length settings.now.applets)) world.now) }
    ensures refused { IfErr result (IsFirstRefusal (token_breaks (nat_lt 0 (length settings.now.applets)) world.now)) }
{
    let applets = settings.applets.items().len() > 0;
    let count = class_count(world)?;
    let kept = all_rows(alloc, world, count)?;
    match declared_tokens(alloc, world, applets, &kept, count)? {
        Err(number) => {
            let class = &world.classes().items()[number as usize];
            Err(refused(alloc, world, number, class))
        }
        Ok(classes) => {
            let imports = import_tokens(alloc, world.exports().items())?;
            Ok(Tokens::of(classes, imports))
        }
    }
}

/// Whether 401 and 406 are kept, on which tokens stand.
pub fn few(world: &World<'_>, settings: &Settings) -> Result<bool, NoMemory>
    ensures whether { IfOk result (λ b. b ≡ is_few (nat_lt 0 (length settings.now.applets)) world.now) }
    ensures exported { IfOk result (λ b. b ≡ true → FewExported (nat_lt 0 (length settings.now.applets)) world.now) }
    ensures cells { IfOk result (λ b. b ≡ true → FewCells world.now) }
{
    let applets = settings.applets.items().len() > 0;
    let count = class_count(world)?;
    Ok(few_exported(world, applets, count) && few_cells(world.classes().items()))
}

/// The number of the first class that breaks 413, for whoever orders it among other rules. None where 401 or 406 is
/// broken, on which tokens stand.
pub fn first_high(
    alloc: Global,
    world: &World<'_>,
    settings: &Settings,
) -> Result<Option<u32>, NoMemory>
    ensures { IfOk result (IsFirstHigh (nat_lt 0 (length settings.now.applets)) world.now) }
{
    if !few(world, settings)? {
        return Ok(None);
    }
    let applets = settings.applets.items().len() > 0;
    let count = class_count(world)?;
    let kept = all_rows(alloc, world, count)?;
    match declared_tokens(alloc, world, applets, &kept, count)? {
        Err(number) => Ok(Some(number)),
        Ok(_) => Ok(None),
    }
}
