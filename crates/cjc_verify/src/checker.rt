//! The test of components beside their package by rules 721 to 729. What the crate is called for.

ghost use Rattle.std.specs.Prelude.{◌≡◌, ◌++◌, [], Bool, List, Some, map, option_map, IfErr, IfOk, IsSome, OnOk};
ghost use Rattle.cjc_bytes.specs.Breaks.{IsFirstOf};
ghost use Rattle.cjc_bytes.specs.Told.{break_of};
ghost use Rattle.cjc_card_calls.specs.LowerCardLink.Group.{alone};
ghost use Rattle.cjc_card_calls.specs.LowerCardLink.Tables.{AreKept, loaded_of};
ghost use Rattle.cjc_pairing.specs.CheckIndex.Lookup.Indexed.{IsIndexed};
ghost use Rattle.cjc_pairing.specs.CheckIndex.Lookup.Parts.{complete_of};
ghost use Rattle.cjc_check_rules.specs.Complete.{AreSmall, Complete, IsSmall, complete};
ghost use Rattle.cjc_check_rules.specs.Consistent.{break_at};
ghost use Rattle.cjc_classes.specs.LowerComponents.Paired.Naming.{exported_in};
ghost use Rattle.cjc_world.specs.ExportFile.declared.tree.ExportTree.{ExportTree as Tree};
ghost use Rattle.cjc_methods.specs.Tokens.Tokens.{assigned};
ghost use Rattle.cjc_verify.specs.Bodies.{bodies};
ghost use Rattle.cjc_verify.specs.Described.{all_array_spots, described_spots};
ghost use Rattle.cjc_verify.specs.Infos.{all_abstract_spots, all_info_spots, all_table_spots};
ghost use Rattle.cjc_verify.specs.Pairs.{pair_of};
ghost use Rattle.cjc_verify.specs.Verified.{Breaks, IsRefused, IsVerified};
ghost use Rattle.cjc_verify.specs.Working.Bodies.{InBodies};
ghost use Rattle.cjc_verify.specs.Working.Firsts.{IsFirstWhere};
ghost use Rattle.cjc_verify.specs.Working.Made.{IsMade, alone_with};
ghost use Rattle.cjc_verify.specs.Working.Ready.{pair_by};

use crate::bodies::bodies_break;
use crate::breaks::{either, with_rule};
use crate::described::{array_spot, described_spot};
use crate::infos::{all_starts, class_refs, info_spots, numbers_in_order};
use crate::listed::{all_listed, bodies, codes_of};
use crate::methods::{KnownMethod, known_methods};
use crate::package::Package;
use cjc_bytes::{Break, Fault, NoMemory, Row, answer};
use cjc_capread::{Export, ExportedClass};
use cjc_card_calls::card_frame::parts::CellName;
use cjc_card_calls::card_link::{ClassNames, Part, Tables};
use cjc_card_calls::check_index::lookup::{Names, Parts, first_class, parts_of, starts, tokens_of};
use cjc_card_calls::files::Files;
use cjc_card_calls::lines::Lines;
use cjc_classes::class_info::ClassRefs;
use cjc_classes::tokens::Tokens;
use cjc_methods::check::Checked;
use cjc_methods::check::codes::cut;
use cjc_pairing::card_names::{cell_names, class_names};
use cjc_world::{StaticImage, World};
use std::alloc::Global;

// ---- what is broken

/// The first rule that is broken by other items than headers and instructions of methods.
fn listed_break(alloc: Global, pair: &Package<'_>) -> Result<Option<Break<'static>>, NoMemory>
    requires { (applets : Bool) × (pair.now.tokens ≡ assigned applets pair.now.files) }
    ensures { IfOk result (λ b. IsFirstOf (map (break_at 725) (all_table_spots pair.now)
        ++ (map (break_at 727) (all_abstract_spots pair.now)
        ++ (map (break_at 729) (all_info_spots pair.now)
        ++ (map (break_at 728) (all_array_spots pair.now)
        ++ (map (break_at 721) (described_spots pair.now) ++ []))))) (option_map break_of b)) }
{
    let spots = info_spots(alloc, pair)?;
    let array = array_spot(alloc, pair)?;
    let item = described_spot(alloc, pair)?;
    let members = with_rule(721, item, None);
    let arrays = with_rule(728, array, members);
    let infos = with_rule(729, spots.infos, arrays);
    let abstracts = with_rule(727, spots.abstracts, infos);
    Ok(with_rule(725, spots.tables, abstracts))
}

/// The first rule that methods break, where classes are kept.
fn by_names(
    alloc: Global,
    pair: &Package<'_>,
    names: &Names<'_>,
) -> Result<Option<Break<'static>>, NoMemory>
    requires ready { IsIndexed names.now }
    requires small { AreSmall (complete_of names.now.parts.now) }
    requires same { complete_of names.now.parts.now ≡ pair.now.components }
    ensures { IfOk result (λ b. IsFirstWhere (InBodies pair.now (bodies pair.now.components)) (option_map break_of b)) }
{
    let listed = all_listed(alloc, names)?;
    let cutting = cut(alloc, names)?;
    let bodies = bodies(alloc, names.parts, listed.items(), codes_of(&cutting))?;
    bodies_break(alloc, pair, bodies.items())
}

/// The first rule that methods break.
fn code_break(alloc: Global, pair: &Package<'_>) -> Result<Option<Break<'static>>, NoMemory>
    ensures { IfOk result (λ b. IsFirstWhere (InBodies pair.now (bodies pair.now.components)) (option_map break_of b)) }
{
    let class = pair.parts.class;
    let exports = pair.world.exports().items();
    let interfaces = starts(alloc, 2, class.interfaces.items())?;
    let classes = starts(alloc, first_class(class), class.classes.items())?;
    let tokens = tokens_of(alloc, exports)?;
    let names = Names {
        parts: pair.parts,
        exports,
        interfaces: interfaces.items(),
        classes: classes.items(),
        tokens: tokens.items(),
    };
    by_names(alloc, pair, &names)
}

/// The first broken rule.
fn any_break(alloc: Global, pair: &Package<'_>) -> Result<Option<Break<'static>>, NoMemory>
    requires { (applets : Bool) × (pair.now.tokens ≡ assigned applets pair.now.files) }
    ensures { IfOk result (λ b. IsFirstWhere (Breaks pair.now) (option_map break_of b)) }
{
    let listed = listed_break(alloc, pair)?;
    let in_code = code_break(alloc, pair)?;
    Ok(either(listed, in_code))
}

// ---- what is made before

/// What is made of a package before its components are tested.
struct Made {
    order: Row<u32>,
    starts: Row<u64>,
    refs: ClassRefs,
    methods: Row<KnownMethod>,
    classes: Row<ClassNames>,
    cells: Row<CellName>,
}

impl Drop for Made {
    fn drop(self) {
        let Made {
            order: _order,
            starts: _starts,
            refs: _refs,
            methods: _methods,
            classes: _classes,
            cells: _cells,
        } = self;
    }
}

/// What is made of a package and of Class and Descriptor.
fn make(
    alloc: Global,
    parts: &Parts<'_>,
    world: &World<'_>,
    tokens: &Tokens,
    image: &StaticImage,
) -> Result<Made, NoMemory>
    requires { AreSmall (complete_of parts.now) }
    ensures { IfOk result (IsMade (complete_of parts.now) world.now tokens.now image.now) }
{
    let order = numbers_in_order(alloc, world)?;
    let starts = all_starts(alloc, parts.class)?;
    let refs = class_refs(alloc, world, order.items(), starts.items())?;
    let described = parts.descriptor.classes.items();
    let methods = known_methods(alloc, world, order.items(), described)?;
    let classes = class_names(alloc, world, tokens)?;
    let cells = cell_names(alloc, world, image)?;
    Ok(Made {
        order,
        starts,
        refs,
        methods,
        classes,
        cells,
    })
}

// The classes that Export lists; none where it is absent.
fn exports_of(export: &Option<Export>) -> &[ExportedClass]
    ensures { result.now ≡ exported_in export.now }
{
    match export {
        Some(export) => export.classes.items(),
        None => &[],
    }
}

/// The components with names.
fn part_of<'a>(parts: &Parts<'a>, classes: &'a [ClassNames], cells: &'a [CellName]) -> Part<'a>
    ensures alone { (trees : List Tree) → alone result trees ≡ alone_with (complete_of parts.now) classes.now cells.now
        trees }
    ensures class { result.class.now ≡ (complete_of parts.now).class }
{
    Part {
        method: parts.method,
        pool: parts.pool.entries.items(),
        class: parts.class,
        descriptor: parts.descriptor.classes.items(),
        exports: exports_of(parts.export),
        statics: parts.statics,
        classes,
        cells,
    }
}

/// The first broken rule, by tables of the components.
fn break_by(
    alloc: Global,
    parts: &Parts<'_>,
    world: &World<'_>,
    tokens: &Tokens,
    image: &StaticImage,
    made: &Made,
    tables: &Tables<'_>,
) -> Result<Option<Break<'static>>, NoMemory>
    requires small { AreSmall (complete_of parts.now) }
    requires tokens { (applets : Bool) × (tokens.now ≡ assigned applets world.now) }
    requires made { IsMade (complete_of parts.now) world.now tokens.now image.now made.now }
    requires kept { AreKept tables.now }
    requires tables { loaded_of tables.now ≡ alone_with (complete_of parts.now) made.now.classes made.now.cells
        world.now.exports }
    ensures { IfOk result (λ b. IsFirstWhere (Breaks (pair_by world.now tokens.now image.now parts.now tables.now))
        (option_map break_of b)) }
{
    let lines = Lines::new(alloc, tables)?;
    let files = Files::new(alloc, tables)?;
    let pair = Package {
        world,
        tokens,
        image,
        parts,
        tables,
        lines: &lines,
        files: &files,
        refs: &made.refs,
        order: made.order.items(),
        starts: made.starts.items(),
        methods: made.methods.items(),
    };
    any_break(alloc, &pair)
}

/// The first broken rule, where tables are made of what was made before.
fn break_of_made(
    alloc: Global,
    parts: &Parts<'_>,
    world: &World<'_>,
    tokens: &Tokens,
    image: &StaticImage,
    made: &Made,
) -> Result<Option<Break<'static>>, NoMemory>
    requires small { AreSmall (complete_of parts.now) }
    requires tokens { (applets : Bool) × (tokens.now ≡ assigned applets world.now) }
    requires made { IsMade (complete_of parts.now) world.now tokens.now image.now made.now }
    ensures { (applets : Bool) → tokens.now ≡ assigned applets world.now → IfOk result (λ b. IsFirstWhere
        (Breaks (pair_of applets world.now image.now (complete_of parts.now))) (option_map break_of b)) }
{
    let part = part_of(parts, made.classes.items(), made.cells.items());
    let tables = Tables::new(alloc, part, world.exports().items())?;
    break_by(alloc, parts, world, tokens, image, made, &tables)
}

/// The first broken rule of components of which only Applet and Export may be absent.
fn break_of_parts(
    alloc: Global,
    parts: &Parts<'_>,
    world: &World<'_>,
    tokens: &Tokens,
    image: &StaticImage,
) -> Result<Option<Break<'static>>, NoMemory>
    requires small { AreSmall (complete_of parts.now) }
    requires tokens { (applets : Bool) × (tokens.now ≡ assigned applets world.now) }
    ensures { (applets : Bool) → tokens.now ≡ assigned applets world.now → IfOk result (λ b. IsFirstWhere
        (Breaks (pair_of applets world.now image.now (complete_of parts.now))) (option_map break_of b)) }
{
    let made = make(alloc, parts, world, tokens, image)?;
    break_of_made(alloc, parts, world, tokens, image, &made)
}

/// The answer of components of which only Applet and Export may be absent.
fn verify_parts(
    alloc: Global,
    parts: &Parts<'_>,
    world: &World<'_>,
    tokens: &Tokens,
    image: &StaticImage,
) -> Result<(), Fault>
    requires small { AreSmall (complete_of parts.now) }
    requires tokens { (applets : Bool) × (tokens.now ≡ assigned applets world.now) }
    ensures verified { (applets : Bool) → tokens.now ≡ assigned applets world.now
        → OnOk result (IsVerified (pair_of applets world.now image.now (complete_of parts.now))) }
    ensures refused { (applets : Bool) → tokens.now ≡ assigned applets world.now
        → IfErr result (IsRefused (pair_of applets world.now image.now (complete_of parts.now))) }
{
    let broken = break_of_parts(alloc, parts, world, tokens, image)?;
    answer(alloc, broken)
}

/// Tests whether components are typed by token as their package is: `image` is what its static fields hold at first,
/// and `tokens` are its own.
///
/// # Errors
///
/// The first broken rule of 721 to 729 and its place, in the order of refusals; want of memory.
pub fn verify(
    alloc: Global,
    checked: &Checked<'_>,
    world: &World<'_>,
    tokens: &Tokens,
    image: &StaticImage,
) -> Result<(), Fault>
    // None but Applet and Export is absent, and bytes that were read, fewer than 2^32 of each component, spell trees
    // that are small.
    requires whole { IsSome (complete checked.now.tree) }
    requires small { IsSmall checked.now.tree }
    requires tokens { (applets : Bool) × (tokens.now ≡ assigned applets world.now) }

    // Ok exactly where no rule is broken, unless memory runs out.
    ensures verified { (applets : Bool) (c : Complete) → tokens.now ≡ assigned applets world.now
        → complete checked.now.tree ≡ Some c → OnOk result (IsVerified (pair_of applets world.now image.now c)) }
    ensures refused { (applets : Bool) (c : Complete) → tokens.now ≡ assigned applets world.now
        → complete checked.now.tree ≡ Some c → IfErr result (IsRefused (pair_of applets world.now image.now c)) }
{
    match parts_of(checked.tree()) {
        Some(parts) => verify_parts(alloc, &parts, world, tokens, image),
        None => unreachable!(),
    }
}
