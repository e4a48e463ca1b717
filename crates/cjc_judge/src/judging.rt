//! The groups of rules that are tested over the world of a package, behind those of names: what the language of
//! the card leaves out, limits, tokens, types, and ranges. Called by judged.rt.

ghost use Rattle.std.specs.Prelude.{◌≡◌, ◌≤◌, All, IfOk, IfErr, IfNone, OnOk, [], List as Items, length, nat_lt};
ghost use Rattle.std.specs.Prelude.{option_map, Some, true};
ghost use Rattle.cjc_bytes.specs.Told.{break_of};
ghost use Rattle.cjc_bytes.specs.Breaks.{Among, IsFirstOf, Break as Broken};
ghost use Rattle.cjc_world.specs.ClassFile.Code.{CodeTree};
ghost use Rattle.cjc_world.specs.ClassFile.declared.tree.ClassTree.{ClassTree};
ghost use Rattle.cjc_world.specs.ClassFile.declared.tree.MethodTree.{MethodTree};
ghost use Rattle.cjc_narrow.specs.Types.Tables.{IsMethodOf, IsOfPackage};
ghost use Rattle.cjc_vtable.specs.LowerTokens.Members.{is_initialiser};
ghost use Rattle.cjc_vtable.specs.LowerTokens.Rules.{is_few, tested_breaks};
ghost use Rattle.cjc_vtable.specs.LowerTokens.Tokens.{assigned};
ghost use Rattle.cjc_judge.specs.Rules.{unsupported_break, unsupported_breaks, settings_of, method_break, BreaksType};
ghost use Rattle.cjc_judge.specs.Rules.{has_applets};
ghost use Rattle.cjc_judge.specs.Rules.{BreaksAnyType, BreaksRange, BreaksAnyRange, IsFirstIn, IsFirstFault};
ghost use Rattle.cjc_judge.specs.Rules.{IsOfThirdHundred};
ghost use Rattle.cjc_judge.specs.Modes.{AreModes, AreModesWhereNamed, may_be_int};
ghost use Rattle.cjc_judge.specs.Tokens.{AreTokensWhereNamed, asks_tokens};
ghost use Rattle.cjc_judge.specs.Types.{AreTables, AreTablesWhereNamed, IsTableOf, asks_ranges, asks_types};
ghost use Rattle.std.specs.List.{list_any};
ghost use Rattle.cjc_judge.specs.Working.Groups.{EarlyBreaks, EarlyBreaksAny, NamedTypeBreaks, NamedRangeBreaks};
ghost use Rattle.cjc_judge.specs.Working.Groups.{WorldBreaksAny, PutsMode, PutsTable};

use crate::groups::Group;
use crate::ranges::verdict_of;
use crate::reading::UnsupportedInsn;
use cjc_bytes::{
    AppletLine, Break, BrokenAt, Bytes, Fault, NoMemory, Row, Settings, answer, file_of, first,
};
use cjc_flow::types::{InferError, TypeTable, infer_method};
use cjc_int_mode::modes::Mode;
use cjc_list::List;
use cjc_tokens::few;
use cjc_vtable::bytecode::{Codes, MethodCode};
use cjc_vtable::subset::{class_spot, first_broken, method_spot};
use cjc_vtable::tokens::{Tokens, assign, first_high};
use cjc_world::World;
use std::alloc::Global;

const INITIALISER: &[u8] = b"<clinit>";

// The applet lines of a list, in memory of their own.
fn applets_of(alloc: Global, list: &List) -> Result<Row<AppletLine>, NoMemory>
    ensures { IfOk result (λ applets. applets ≡ list.now.applets) }
{
    let mut applets = Row::new(alloc);
    for applet in list.applets.items() {
        applets.push(AppletLine {
            class: Bytes::copy_of(alloc, applet.class.items())?,
            aid: Bytes::copy_of(alloc, applet.aid.items())?,
        })?;
    }
    Ok(applets)
}

/// What a list settles for all classes, in memory of its own.
pub(crate) fn settings(alloc: Global, list: &List) -> Result<Settings, NoMemory>
    ensures { IfOk result (λ s. s ≡ settings_of list.now) }
{
    let applets = applets_of(alloc, list)?;
    Ok(Settings {
        ints: list.ints,
        applets,
    })
}

// Rule 303 in a method that breaks it.
#[tactic(auto, unfolding(crate::specs::Rules::unsupported_break))]
fn unsupported_break<'w>(world: &'w World<'_>, unsupported: &UnsupportedInsn) -> Option<Break<'w>>
    ensures { IsFirstOf (unsupported_break world.now unsupported.now) (option_map break_of result) }
{
    let class = world.classes().items().get(unsupported.class as usize)?;
    let place = unsupported.method as usize;
    let method = class.methods.items().get(place)?;
    let file = file_of(world.lines().items(), unsupported.class as usize);
    let spot = class_spot(file, class);
    Some(Break {
        rule: 303,
        spot: method_spot(spot, class, place, method, unsupported.offset),
    })
}

// The first of the methods that break rule 303.
#[tactic(auto, unfolding(crate::specs::Rules::unsupported_breaks))]
fn unsupported_insns_break<'w>(
    world: &'w World<'_>,
    unsupported_insns: &[UnsupportedInsn],
) -> Option<Break<'w>>
    ensures { IsFirstOf (unsupported_breaks world.now unsupported_insns.now) (option_map break_of result) }
{
    let mut least = None;
    for unsupported in unsupported_insns {
        least = first(least, unsupported_break(world, unsupported));
    }
    least
}

// Rule 413 in the first class that breaks it.
fn tokens_break<'w>(
    alloc: Global,
    world: &'w World<'_>,
    settings: &Settings,
) -> Result<Option<Break<'w>>, NoMemory>
    ensures { IfOk result (λ b. IsFirstOf (tested_breaks (nat_lt 0 (length settings.now.applets)) world.now)
        (option_map break_of b)) }
{
    match first_high(alloc, world, settings)? {
        None => Ok(None),
        Some(number) => {
            let class = &world.classes().items()[number as usize];
            let file = file_of(world.lines().items(), number as usize);
            Ok(Some(Break {
                rule: 413,
                spot: class_spot(file, class),
            }))
        }
    }
}

// What assigning its tokens tells of a package.
struct Assigning<'w> {
    // The tokens, where they were asked for and none is too high.
    tokens: Option<Tokens>,
    // Rule 413 in the first class that breaks it.
    broken: Option<Break<'w>>,
}

// The tokens of a package, or rule 413. There are none where 401 or 406 is broken, on which tokens stand.
fn assign_tokens<'w>(
    alloc: Global,
    world: &'w World<'_>,
    settings: &Settings,
) -> Result<Assigning<'w>, NoMemory>
    ensures first { IfOk result (λ a. IsFirstOf (tested_breaks (nat_lt 0 (length settings.now.applets)) world.now)
        (option_map break_of a.broken)) }
    ensures tokens { IfOk result (λ a. is_few (nat_lt 0 (length settings.now.applets)) world.now ≡ true
        → tested_breaks (nat_lt 0 (length settings.now.applets)) world.now ≡ []
        → a.tokens ≡ Some (assigned (nat_lt 0 (length settings.now.applets)) world.now)) }
{
    if !few(world, settings)? {
        return Ok(Assigning {
            tokens: None,
            broken: None,
        });
    }
    match assign(alloc, world, settings) {
        Ok(tokens) => Ok(Assigning {
            tokens: Some(tokens),
            broken: None,
        }),
        Err(Fault::NoMemory) => Err(NoMemory),
        Err(Fault::Refused(_)) => {
            let broken = tokens_break(alloc, world, settings)?;
            Ok(Assigning {
                tokens: None,
                broken,
            })
        }
    }
}

// What a method breaks at an instruction, with its place.
fn method_break<'w>(world: &'w World<'_>, code: &MethodCode, broken: BrokenAt) -> Break<'w>
    requires { IsOfPackage world.now code.now }
    ensures { (c : ClassTree) (m : MethodTree) (t : CodeTree) → IsMethodOf world.now code.now c m t
        → break_of result ≡ method_break world.now code.now c m broken }
{
    let class = &world.classes().items()[code.class as usize];
    let place = code.method as usize;
    let method = &class.methods.items()[place];
    let file = file_of(world.lines().items(), code.class as usize);
    let spot = class_spot(file, class);
    Break {
        rule: broken.rule,
        spot: method_spot(spot, class, place, method, broken.offset),
    }
}

// What of 501 to 503 a method breaks. Where it breaks none its types are put behind those that there are.
fn type_break<'w>(
    alloc: Global,
    world: &'w World<'_>,
    code: &MethodCode,
    types: &mut Row<TypeTable>,
) -> Result<Option<Break<'w>>, NoMemory>
    requires { IsOfPackage world.now code.now }
    ensures first { IfOk result (λ b. IsFirstIn (BreaksType world.now code.now) (option_map break_of b)) }
    ensures types { IfOk result (λ b. IfNone b (PutsTable world.now code.now types.old types.new)) }
{
    match infer_method(alloc, world, code) {
        Ok(table) => {
            types.push(table)?;
            Ok(None)
        }
        Err(InferError::Broken(broken)) => Ok(Some(method_break(world, code, broken))),
        Err(InferError::NoMemory) => Err(NoMemory),
    }
}

// The first of the methods that break one of 501 to 503. Where none does these are the types of all.
fn types_break<'w>(
    alloc: Global,
    world: &'w World<'_>,
    codes: &[MethodCode],
    types: &mut Row<TypeTable>,
) -> Result<Option<Break<'w>>, NoMemory>
    requires codes { All (IsOfPackage world.now) codes.now }
    requires types { types.old ≡ [] }
    ensures first { IfOk result (λ b. IsFirstIn (BreaksAnyType world.now codes.now) (option_map break_of b)) }
    ensures types { IfOk result (λ b. IfNone b (AreTables world.now codes.now types.new)) }
{
    let mut least = None;
    for code in codes {
        let broken = type_break(alloc, world, code, types)?;
        least = first(least, broken);
    }
    Ok(least)
}

// Whether a method of this name is the initialiser of a class or interface.
fn is_initialiser(name: &[u8]) -> bool
    ensures { result ≡ is_initialiser name.now }
{
    name == INITIALISER
}

// Whether a method may be in int mode, where `ints` says whether the list has the line `int`: an initialiser may not.
fn may_be_int(ints: bool, world: &World<'_>, code: &MethodCode) -> bool
    requires { IsOfPackage world.now code.now }
    ensures { (c : ClassTree) (m : MethodTree) (t : CodeTree) → IsMethodOf world.now code.now c m t
        → result ≡ may_be_int ints m }
{
    if !ints {
        return false;
    }
    let class = &world.classes().items()[code.class as usize];
    let method = &class.methods.items()[code.method as usize];
    !is_initialiser(method.name.items())
}

// What of 601 to 609 a method breaks that has these types. Its mode is put behind those that there are.
fn range_break<'w>(
    alloc: Global,
    ints: bool,
    world: &'w World<'_>,
    code: &MethodCode,
    types: &TypeTable,
    modes: &mut Row<Mode>,
) -> Result<Option<Break<'w>>, NoMemory>
    requires code { IsOfPackage world.now code.now }
    requires types { IsTableOf world.now code.now types.now }
    ensures first { IfOk result (λ b. IsFirstIn (BreaksRange ints world.now code.now) (option_map break_of b)) }
    ensures modes { OnOk result (PutsMode ints world.now code.now modes.old modes.new) }
{
    let may = may_be_int(ints, world, code);
    let told = verdict_of(alloc, world, code, types, may)?;
    modes.push(told.mode)?;
    match told.broken {
        Some(broken) => Ok(Some(method_break(world, code, broken))),
        None => Ok(None),
    }
}

// The first of the methods that break one of 601 to 609, where these are the types of all. What is put behind the modes
// that there are, which is none, are the modes of all.
fn ranges_break<'w>(
    alloc: Global,
    ints: bool,
    world: &'w World<'_>,
    codes: &[MethodCode],
    types: &[TypeTable],
    modes: &mut Row<Mode>,
) -> Result<Option<Break<'w>>, NoMemory>
    requires codes { All (IsOfPackage world.now) codes.now }
    requires types { AreTables world.now codes.now types.now }
    requires modes { modes.old ≡ [] }
    ensures first { IfOk result (λ b. IsFirstIn (BreaksAnyRange ints world.now codes.now) (option_map break_of b)) }
    ensures modes { OnOk result (AreModes ints world.now codes.now modes.new) }
{
    let mut least = None;
    for (place, code) in codes.iter().enumerate() {
        let broken = range_break(alloc, ints, world, code, &types[place], modes)?;
        least = first(least, broken);
    }
    Ok(least)
}

// Of the first that is broken of 301 to 310 and 401 to 409, what is of the third hundred.
fn of_third_hundred<'w>(broken: Option<Break<'w>>) -> Option<Break<'w>>
    ensures { (bs : Items Broken) → IsFirstOf bs (option_map break_of broken.entry) → ((b : Broken) → Among b bs
        → 3 ≤ b.rank.family) → IsFirstIn (λ b. Among b bs × IsOfThirdHundred b) (option_map break_of result) }
{
    match broken {
        Some(found) => {
            if found.rule / 100 == 3 {
                Some(found)
            } else {
                None
            }
        }
        None => None,
    }
}

// What of a group is broken first, where this is what the package breaks of 413, if the group asks for tokens. Types and
// ranges are left to `named_types` and `named_modes`: every rule of another group stands before theirs.
fn group_break<'w>(
    alloc: Global,
    list: &'w List,
    world: &'w World<'_>,
    codes: &Codes,
    unsupported_insns: &[UnsupportedInsn],
    settings: &Settings,
    high: Option<Break<'w>>,
    group: Group,
) -> Result<Option<Break<'w>>, NoMemory>
    requires codes { All (IsOfPackage world.now) codes.now }
    requires settings { settings.now ≡ settings_of list.now }
    requires high { asks_tokens group ≡ true → IsFirstOf (tested_breaks (has_applets list.now) world.now)
        (option_map break_of high) }
    ensures { IfOk result (λ b. IsFirstIn (EarlyBreaks list.now world.now codes.now unsupported_insns.now group)
        (option_map break_of b)) }
{
    match group {
        Group::Unsupported => Ok(unsupported_insns_break(world, unsupported_insns)),
        Group::Language => {
            let broken = first_broken(alloc, list.name.items(), world, codes, settings)?;
            Ok(of_third_hundred(broken))
        }
        Group::Initialisers => cjc_clinit::first_broken(alloc, world, codes),
        Group::Limits => first_broken(alloc, list.name.items(), world, codes, settings),
        Group::Tokens => Ok(high),
        Group::Types | Group::Ranges => Ok(None),
    }
}

// What of some groups is broken first, but for types and ranges, where this is what the package breaks of 413, if one of
// them asks for tokens.
fn groups_break<'w>(
    alloc: Global,
    list: &'w List,
    world: &'w World<'_>,
    codes: &Codes,
    unsupported_insns: &[UnsupportedInsn],
    settings: &Settings,
    high: Option<Break<'w>>,
    groups: &[Group],
) -> Result<Option<Break<'w>>, NoMemory>
    requires codes { All (IsOfPackage world.now) codes.now }
    requires settings { settings.now ≡ settings_of list.now }
    requires high { list_any asks_tokens groups.now ≡ true → IsFirstOf (tested_breaks (has_applets list.now) world.now)
        (option_map break_of high) }
    ensures { IfOk result (λ b. IsFirstIn (EarlyBreaksAny list.now world.now codes.now unsupported_insns.now groups.now)
        (option_map break_of b)) }
{
    let mut least = None;
    for group in groups {
        let broken = group_break(
            alloc,
            list,
            world,
            codes,
            unsupported_insns,
            settings,
            high,
            *group,
        )?;
        least = first(least, broken);
    }
    Ok(least)
}

fn asks_tokens(group: Group) -> bool
    ensures { result ≡ asks_tokens group }
{
    match group {
        Group::Tokens => true,
        _ => false,
    }
}

fn asks_types(group: Group) -> bool
    ensures { result ≡ asks_types group }
{
    match group {
        Group::Types | Group::Ranges => true,
        _ => false,
    }
}

fn asks_ranges(group: Group) -> bool
    ensures { result ≡ asks_ranges group }
{
    match group {
        Group::Ranges => true,
        _ => false,
    }
}

// Whether one of the groups asks for tokens.
fn any_asks_tokens(groups: &[Group]) -> bool
    ensures { result ≡ list_any asks_tokens groups.now }
{
    for group in groups {
        if asks_tokens(*group) {
            return true;
        }
    }
    false
}

// Whether one of the groups asks for types.
fn any_asks_types(groups: &[Group]) -> bool
    ensures { result ≡ list_any asks_types groups.now }
{
    for group in groups {
        if asks_types(*group) {
            return true;
        }
    }
    false
}

// Whether one of the groups asks for ranges.
fn any_asks_ranges(groups: &[Group]) -> bool
    ensures { result ≡ list_any asks_ranges groups.now }
{
    for group in groups {
        if asks_ranges(*group) {
            return true;
        }
    }
    false
}

// The tokens of a package, or rule 413, where one of the groups asks for tokens.
fn named_tokens<'w>(
    alloc: Global,
    world: &'w World<'_>,
    settings: &Settings,
    groups: &[Group],
) -> Result<Assigning<'w>, NoMemory>
    ensures first { IfOk result (λ a. list_any asks_tokens groups.now ≡ true
        → IsFirstOf (tested_breaks (nat_lt 0 (length settings.now.applets)) world.now) (option_map break_of a.broken)) }
    ensures tokens { IfOk result (λ a. tested_breaks (nat_lt 0 (length settings.now.applets)) world.now ≡ []
        → AreTokensWhereNamed groups.now (nat_lt 0 (length settings.now.applets)) world.now a.tokens) }
{
    if !any_asks_tokens(groups) {
        return Ok(Assigning {
            tokens: None,
            broken: None,
        });
    }
    assign_tokens(alloc, world, settings)
}

// The types of all methods, where one of the groups asks for them.
fn named_types(
    alloc: Global,
    world: &World<'_>,
    codes: &Codes,
    groups: &[Group],
) -> Result<Row<TypeTable>, Fault>
    requires { All (IsOfPackage world.now) codes.now }
    ensures types { IfOk result (AreTablesWhereNamed groups.now world.now codes.now) }
    ensures unbroken { OnOk result ((b : Broken) → NamedTypeBreaks world.now codes.now groups.now b → ⊥) }
    ensures refused { IfErr result (IsFirstFault (NamedTypeBreaks world.now codes.now groups.now)) }
{
    let mut types = Row::new(alloc);
    if !any_asks_types(groups) {
        return Ok(types);
    }
    let broken = types_break(alloc, world, codes.items(), &mut types)?;
    answer(alloc, broken)?;
    Ok(types)
}

// The modes of all methods, whose types these are, where one of the groups asks for ranges.
fn named_modes(
    alloc: Global,
    ints: bool,
    world: &World<'_>,
    codes: &Codes,
    types: &Row<TypeTable>,
    groups: &[Group],
) -> Result<Row<Mode>, Fault>
    requires codes { All (IsOfPackage world.now) codes.now }
    requires types { AreTablesWhereNamed groups.now world.now codes.now types.now }
    ensures modes { IfOk result (AreModesWhereNamed groups.now ints world.now codes.now) }
    ensures unbroken { OnOk result ((b : Broken) → NamedRangeBreaks ints world.now codes.now groups.now b → ⊥) }
    ensures refused { IfErr result (IsFirstFault (NamedRangeBreaks ints world.now codes.now groups.now)) }
{
    let mut modes = Row::new(alloc);
    if !any_asks_ranges(groups) {
        return Ok(modes);
    }
    let broken = ranges_break(alloc, ints, world, codes.items(), types.items(), &mut modes)?;
    answer(alloc, broken)?;
    Ok(modes)
}

/// What is told of the methods of a package.
pub(crate) struct Told {
    /// Their types, where a group asks for them.
    pub types: Row<TypeTable>,
    /// Their modes, where a group asks for ranges.
    pub modes: Row<Mode>,
    /// The tokens of the package, where a group asks for them.
    pub tokens: Option<Tokens>,
}

/// Tests a world, whose methods have these codes and break 303 at these places, for groups of rules. A refusal
/// is the first of what is broken; else these are the types and the modes of all methods and the tokens, where a group
/// asks for them.
/// Types are inferred only where no other rule is broken, so that what inference costs is bounded by the limits of
/// methods; and ranges are found over types that break no rule.
pub(crate) fn test(
    alloc: Global,
    list: &List,
    world: &World<'_>,
    codes: &Codes,
    unsupported_insns: &[UnsupportedInsn],
    groups: &[Group],
) -> Result<Told, Fault>
    requires { All (IsOfPackage world.now) codes.now }
    ensures types { IfOk result (λ told. AreTablesWhereNamed groups.now world.now codes.now told.types) }
    ensures modes { IfOk result (λ told. (let l = list.now in AreModesWhereNamed groups.now l.ints world.now codes.now
        told.modes)) }
    ensures tokens { IfOk result (λ told. AreTokensWhereNamed groups.now (has_applets list.now) world.now told.tokens) }
    ensures unbroken { OnOk result ((b : Broken) → WorldBreaksAny list.now world.now codes.now unsupported_insns.now
        groups.now b → ⊥) }
    ensures refused { IfErr result (IsFirstFault (WorldBreaksAny list.now world.now codes.now unsupported_insns.now
        groups.now)) }
{
    let settings = settings(alloc, list)?;
    let Assigning {
        tokens,
        broken: high,
    } = named_tokens(alloc, world, &settings, groups)?;
    let broken = groups_break(
        alloc,
        list,
        world,
        codes,
        unsupported_insns,
        &settings,
        high,
        groups,
    )?;
    answer(alloc, broken)?;
    let types = named_types(alloc, world, codes, groups)?;
    let modes = named_modes(alloc, list.ints, world, codes, &types, groups)?;
    Ok(Told {
        types,
        modes,
        tokens,
    })
}
