//! The first places of all sentences on components of which only Applet and Export may be absent, and the first
//! of these in the order of refusals. What looks classes up is made here, once.

ghost use Rattle.std.specs.Prelude.{◌≡◌, ◌+◌, ◌<◌, ◌^◌, IfOk, List, flat_map, option_map};
ghost use Rattle.cjc_capread.specs.Bytes.Breaks.{IsFirstOf};
ghost use Rattle.cjc_capread.specs.Bytes.Told.{break_of};
ghost use Rattle.cjc_check.specs.Firsts.{AreCounted, AreFirsts, from_whole};
ghost use Rattle.cjc_check_rules.specs.ExportFile.declared.tree.ExportTree.{ExportTree as Export};
ghost use Rattle.cjc_check_tables.specs.CheckIndex.Lookup.Indexed.{IsIndexed};
ghost use Rattle.cjc_check_tables.specs.CheckIndex.Lookup.Parts.{complete_of};
ghost use Rattle.cjc_check_rules.specs.Classes.{first_class, first_interface};
ghost use Rattle.cjc_check_rules.specs.Complete.{AreSmall, Complete, class_info_size, class_size, interface_size};
ghost use Rattle.cjc_check_rules.specs.Consistent.{breaks_of, of_complete};
ghost use Rattle.cjc_check_rules.specs.Spots.{starts};

use crate::coded::{Coded, code_spots};
use crate::linked::{Linked, link_spots};
use crate::order::{both, is_true, with_sentence};
use cjc_capread::ClassInfo;
use cjc_capread::bytes::{Break, NoMemory, Row};
use cjc_check_rules::ComponentPlace;
use cjc_check_rules::export_file::ExportTree;
use cjc_check_tables::check_index::lookup::{Names, Parts, first_class, starts, tokens_of};
use cjc_check_tables::counts::{image_spot, import_spot, stop_spot};
use std::alloc::Global;

/// Where 703, 713 and 716 are broken first, each by itself.
#[derive(Clone, Copy)]
pub(crate) struct Counted {
    pub(crate) imports: Option<ComponentPlace>,
    pub(crate) stops: Option<ComponentPlace>,
    pub(crate) image: Option<ComponentPlace>,
}

/// Where each sentence from 703 on is broken first, each by itself.
#[derive(Clone, Copy)]
pub(crate) struct Firsts {
    pub(crate) counted: Counted,
    pub(crate) linked: Linked,
    pub(crate) coded: Coded,
}

// ---- the first places

fn count_spots(parts: &Parts<'_>, exports: &[ExportTree]) -> Counted
    requires { AreSmall (complete_of parts.now) }
    ensures { AreCounted result (complete_of parts.now) exports.now }
{
    Counted {
        imports: import_spot(parts.import, exports),
        stops: stop_spot(parts.method),
        image: image_spot(parts.statics),
    }
}

/// Where the interfaces of Class begin.
fn interface_starts(alloc: Global, class: &ClassInfo) -> Result<Row<u64>, NoMemory>
    requires { 3 + class_info_size class.now < 2 ^ 32 }
    ensures { IfOk result (λ s. s ≡ starts interface_size first_interface class.now.interfaces) }
{
    starts(alloc, 2, class.interfaces.items())
}

/// Where the classes of Class begin.
fn class_starts(alloc: Global, class: &ClassInfo) -> Result<Row<u64>, NoMemory>
    requires { 3 + class_info_size class.now < 2 ^ 32 }
    ensures { IfOk result (λ s. s ≡ starts class_size (first_class class.now) class.now.classes) }
{
    starts(alloc, first_class(class), class.classes.items())
}

/// The first places, where the classes are kept.
fn by_names(alloc: Global, names: &Names<'_>) -> Result<Firsts, NoMemory>
    requires ready { IsIndexed names.now }
    requires small { AreSmall (complete_of names.now.parts.now) }
    ensures { IfOk result (λ r. AreFirsts r (complete_of names.now.parts.now) names.now.exports.now) }
{
    let linked = link_spots(alloc, names)?;
    let coded = code_spots(alloc, names)?;
    Ok(Firsts {
        counted: count_spots(names.parts, names.exports),
        linked,
        coded,
    })
}

/// Where each sentence is broken first.
pub(crate) fn first_spots(
    alloc: Global,
    parts: &Parts<'_>,
    exports: &[ExportTree],
) -> Result<Firsts, NoMemory>
    requires { AreSmall (complete_of parts.now) }
    ensures { IfOk result (λ r. AreFirsts r (complete_of parts.now) exports.now) }
{
    let interfaces = interface_starts(alloc, parts.class)?;
    let classes = class_starts(alloc, parts.class)?;
    let tokens = tokens_of(alloc, exports)?;
    let names = Names {
        parts,
        exports,
        interfaces: interfaces.items(),
        classes: classes.items(),
        tokens: tokens.items(),
    };
    by_names(alloc, &names)
}

// ---- the first break

/// The first break of 709 to 718.
fn from_whole(f: &Firsts) -> Option<Break<'static>>
    ensures { (c : Complete) (exports : List Export) → AreFirsts f.now c exports
        → IsFirstOf (flat_map breaks_of (from_whole c)) (option_map break_of result) }
{
    let whole = is_true(f.coded.whole);
    let descriptor = with_sentence(718, true, f.linked.descriptor, None);
    let exported = with_sentence(717, true, f.linked.exported, descriptor);
    let image = with_sentence(716, true, f.counted.image, exported);
    let installs = with_sentence(715, true, f.linked.installs, image);
    let locations = with_sentence(714, whole, f.coded.locations, installs);
    let stops = with_sentence(713, true, f.counted.stops, locations);
    let handlers = with_sentence(712, whole, f.coded.handlers, stops);
    let indices = with_sentence(711, whole, f.coded.indices, handlers);
    let jumps = with_sentence(710, whole, f.coded.jumps, indices);
    with_sentence(709, true, f.coded.whole, jumps)
}

/// The first break of 703 to 718.
pub(crate) fn first_break(f: &Firsts) -> Option<Break<'static>>
    ensures { (c : Complete) (exports : List Export) → AreFirsts f.now c exports
        → IsFirstOf (flat_map breaks_of (of_complete c exports)) (option_map break_of result) }
{
    let imported = is_true(f.counted.imports);
    let named = is_true(f.linked.class_refs);
    let placed = is_true(f.linked.supers);
    let refs = both(imported, named);
    let supers = both(refs, placed);
    let whole = from_whole(f);
    let entries = with_sentence(708, supers, f.linked.entries, whole);
    let maps = with_sentence(707, supers, f.linked.maps, entries);
    let tables = with_sentence(706, supers, f.linked.tables, maps);
    let extended = with_sentence(705, refs, f.linked.supers, tables);
    let class_refs = with_sentence(704, imported, f.linked.class_refs, extended);
    with_sentence(703, true, f.counted.imports, class_refs)
}
