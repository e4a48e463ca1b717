//! The rules that are tested over the world of a package, behind those of names: what the language of the card leaves
//! out, limits, and types.

ghost use Rattle.std.specs.Prelude.{◌≡◌, All, IfOk, IfErr, OnOk, [], length, nat_lt, option_map};
ghost use Rattle.cjc_subset.specs.Breaks.{break_of};
ghost use Rattle.cjc_subset.specs.Places.{IsFirstOf};
ghost use Rattle.cjc_types.specs.Tables.{IsOfPackage};
ghost use Rattle.cjc_tokens.specs.Rules.{tested_breaks};
ghost use Rattle.cjc_world.specs.Classes.{all_classes};
ghost use Rattle.cjc_world.specs.Rules.{IsFirstRefusal, breaks, Break as Broken};
ghost use Rattle.cjc_convert.specs.Rules.{foreign_break, foreign_breaks, language_breaks, settings_of, BreaksType, BreaksAnyType, IsFirstIn, IsFirstFault};

use crate::reading::Foreign;
use cjc_bytes::{AppletLine, Bytes, Fault, NoMemory, Row, Settings};
use cjc_code::{Codes, MethodCode};
use cjc_list::List;
use cjc_subset::{Break, answer, class_spot, file_of, first, first_broken, method_spot};
use cjc_tokens::first_high;
use cjc_types::infer;
use cjc_world::World;
use std::alloc::Global;

// The applet lines of a list, in memory of their own.
fn applets_of(alloc: Global, list: &List) -> Result<Row<AppletLine>, NoMemory>
    ensures { IfOk result (λ applets. applets ≡ list.now.applets) }
{
    let mut applets = Row::new(alloc);
    for applet in list.applets.items() {
        applets.push(AppletLine {
            class: Bytes::copy_of(alloc, applet.class.items())?,
            aid: Bytes::copy_of(alloc, applet.aid.items())?,
        })?;
    }
    Ok(applets)
}

// What a list settles for all classes, in memory of its own.
fn settings(alloc: Global, list: &List) -> Result<Settings, NoMemory>
    ensures { IfOk result (λ s. s ≡ settings_of list.now) }
{
    let applets = applets_of(alloc, list)?;
    Ok(Settings {
        ints: list.ints,
        applets,
    })
}

// Rule 303 in a method that breaks it.
#[tactic(auto, unfolding(crate::specs::Rules::foreign_break))]
fn foreign_break<'w>(world: &'w World<'_>, foreign: &Foreign) -> Option<Break<'w>>
    ensures { IsFirstOf (foreign_break world.now foreign.now) (option_map break_of result) }
{
    let class = world.classes().items().get(foreign.class as usize)?;
    let place = foreign.method as usize;
    let method = class.methods.items().get(place)?;
    let (file, file_name) = file_of(world.lines().items(), foreign.class as usize);
    let spot = class_spot(file, file_name, class);
    Some(Break {
        rule: 303,
        spot: method_spot(spot, class, place, method, foreign.offset),
    })
}

// The first of the methods that break rule 303.
#[tactic(auto, unfolding(crate::specs::Rules::foreign_breaks))]
fn foreigns_break<'w>(world: &'w World<'_>, foreigns: &[Foreign]) -> Option<Break<'w>>
    ensures { IsFirstOf (foreign_breaks world.now foreigns.now) (option_map break_of result) }
{
    let mut least = None;
    for foreign in foreigns {
        least = first(least, foreign_break(world, foreign));
    }
    least
}

// Rule 413 in the first class that breaks it.
fn tokens_break<'w>(
    alloc: Global,
    world: &'w World<'_>,
    settings: &Settings,
) -> Result<Option<Break<'w>>, NoMemory>
    ensures { IfOk result (λ b. IsFirstOf (tested_breaks (nat_lt 0 (length settings.now.applets)) world.now) (option_map break_of b)) }
{
    match first_high(alloc, world, settings)? {
        None => Ok(None),
        Some(number) => {
            let class = &world.classes().items()[number as usize];
            let (file, file_name) = cjc_tokens::file_of(world.lines().items(), number);
            Ok(Some(Break {
                rule: 413,
                spot: class_spot(file, file_name, class),
            }))
        }
    }
}

/// Rules 301 to 310, 401 to 409 and 413 of a package, 303 among them. A refusal is the first of what is broken.
pub(crate) fn language(
    alloc: Global,
    list: &List,
    world: &World<'_>,
    codes: &Codes,
    foreigns: &[Foreign],
) -> Result<(), Fault>
    ensures unbroken { OnOk result (language_breaks list.now world.now codes.now foreigns.now ≡ []) }
    ensures refused { IfErr result (IsFirstRefusal (language_breaks list.now world.now codes.now foreigns.now)) }
{
    let settings = settings(alloc, list)?;
    let foreign = foreigns_break(world, foreigns);
    let broken = first_broken(alloc, list.name.items(), world, codes, &settings)?;
    let tokens = tokens_break(alloc, world, &settings)?;
    answer(alloc, first(first(foreign, broken), tokens))
}

// What of 501 to 503 a method breaks.
fn type_break<'w>(
    alloc: Global,
    world: &'w World<'_>,
    code: &MethodCode,
) -> Result<Option<Break<'w>>, NoMemory>
    requires { IsOfPackage world.now code.now }
    ensures { IfOk result (λ b. IsFirstIn (BreaksType world.now code.now) (option_map break_of b)) }
{
    let class = &world.classes().items()[code.class as usize];
    let place = code.method as usize;
    let method = &class.methods.items()[place];
    let (file, file_name) = file_of(world.lines().items(), code.class as usize);
    match infer(alloc, file_name, world, code) {
        Ok(_) => Ok(None),
        Err(Fault::Refused(refusal)) => {
            let spot = class_spot(file, file_name, class);
            Ok(Some(Break {
                rule: refusal.rule.0,
                spot: method_spot(spot, class, place, method, refusal.place.offset),
            }))
        }
        Err(Fault::NoMemory) => Err(NoMemory),
    }
}

// The first of the methods that break one of 501 to 503.
fn types_break<'w>(
    alloc: Global,
    world: &'w World<'_>,
    codes: &[MethodCode],
) -> Result<Option<Break<'w>>, NoMemory>
    requires { All (IsOfPackage world.now) codes.now }
    ensures { IfOk result (λ b. IsFirstIn (BreaksAnyType world.now codes.now) (option_map break_of b)) }
{
    let mut least = None;
    for code in codes {
        least = first(least, type_break(alloc, world, code)?);
    }
    Ok(least)
}

/// Rules 501 to 503 of the methods of a package. A refusal is the first of what is broken.
pub(crate) fn types(alloc: Global, world: &World<'_>, codes: &[MethodCode]) -> Result<(), Fault>
    requires { All (IsOfPackage world.now) codes.now }
    ensures unbroken { OnOk result ((b : Broken) → BreaksAnyType world.now codes.now b → ⊥) }
    ensures refused { IfErr result (IsFirstFault (BreaksAnyType world.now codes.now)) }
{
    answer(alloc, types_break(alloc, world, codes)?)
}
