//! The sentences that look classes, methods and types up: what is kept of methods and classes is made here,
//! once, and handed to their tests.

ghost use Rattle.std.specs.Prelude.{◌≡◌, ℕ, ◌==◌, ◌&&◌, IfOk, length};
ghost use Rattle.std.specs.List.{list_any};
ghost use Rattle.std.specs.List.Sorted.{IsNonDecreasing};
ghost use Rattle.cjc_capread.specs.Bytes.AccessFlags.{is_static};
ghost use Rattle.cjc_check_rules.specs.Complete.{AreSmall};
ghost use Rattle.cjc_check_rules.specs.Described.{descriptor_spots};
ghost use Rattle.cjc_check_rules.specs.Members.{class_methods};
ghost use Rattle.cjc_check_rules.specs.Spots.{first};
ghost use Rattle.cjc_check_tables.specs.CheckIndex.Lookup.Indexed.{IsIndexed};
ghost use Rattle.cjc_check_tables.specs.CheckIndex.Lookup.MethodStarts.{HasMethods};
ghost use Rattle.cjc_check_tables.specs.Links.Leaving.{IsLeaving};
ghost use Rattle.cjc_check.specs.Linked.{AreFirst};
ghost use Rattle.cjc_check_tables.specs.CheckIndex.Lookup.Parts.{complete_of};

use cjc_capread::bytes::NoMemory;
use cjc_check_rules::ComponentPlace;
use cjc_check_tables::check_index::lookup::{Methods, Names, method_starts, static_starts};
use cjc_check_tables::exported::export_spot;
use cjc_check_tables::links::{
    Tables, class_ref_spot, descriptor_spot, install_spot, leaving_of, super_spot, table_spot,
};
use cjc_check_tables::members::member_spots;
use std::alloc::Global;

/// Where 704 to 708, 715, 717 and 718 are broken first, each by itself.
#[derive(Clone, Copy)]
pub(crate) struct Linked {
    pub(crate) class_refs: Option<ComponentPlace>,
    pub(crate) supers: Option<ComponentPlace>,
    pub(crate) tables: Option<ComponentPlace>,
    pub(crate) maps: Option<ComponentPlace>,
    pub(crate) entries: Option<ComponentPlace>,
    pub(crate) installs: Option<ComponentPlace>,
    pub(crate) exported: Option<ComponentPlace>,
    pub(crate) descriptor: Option<ComponentPlace>,
}

/// The first places, where methods are kept, and of each class whether upwards some class is imported.
fn by_methods(
    alloc: Global,
    methods: &Methods<'_>,
    leaving: &[bool],
    descriptor: Option<ComponentPlace>,
) -> Result<Linked, NoMemory>
    requires ready { HasMethods methods.now }
    requires small { AreSmall (complete_of methods.now.names.now.parts.now) }
    requires leaving_is { IsLeaving methods.now.names.now.parts.now.class.now leaving.now }
    requires each { length leaving.now ≡ length methods.now.names.now.parts.now.class.now.classes }
    requires described { descriptor ≡ first (descriptor_spots (complete_of methods.now.names.now.parts.now)) }
    ensures { IfOk result (λ r. AreFirst r (complete_of methods.now.names.now.parts.now)
        methods.now.names.now.exports.now) }
{
    let exported = export_spot(alloc, methods)?;
    let members = member_spots(alloc, methods)?;
    let tables = Tables { methods, leaving };
    Ok(Linked {
        class_refs: class_ref_spot(methods.names),
        supers: super_spot(methods.names),
        tables: table_spot(&tables),
        maps: members.maps,
        entries: members.entries,
        installs: install_spot(methods),
        exported,
        descriptor,
    })
}

/// The first places, where the offsets of methods are kept.
fn by_offsets(
    alloc: Global,
    names: &Names<'_>,
    all: &[u64],
    statics: &[u64],
) -> Result<Linked, NoMemory>
    requires ready { IsIndexed names.now }
    requires small { AreSmall (complete_of names.now.parts.now) }
    requires all_rise { IsNonDecreasing all.now }
    requires all_are { (offset : ℕ) → list_any (λ n. n == offset) all.now ≡ list_any (λ m. m.offset == offset)
        (class_methods (complete_of names.now.parts.now)) }
    requires statics_rise { IsNonDecreasing statics.now }
    requires statics_are { (offset : ℕ) → list_any (λ n. n == offset) statics.now ≡ list_any (λ m. m.offset == offset
        && is_static m.flags) (class_methods (complete_of names.now.parts.now)) }
    ensures { IfOk result (λ r. AreFirst r (complete_of names.now.parts.now) names.now.exports.now) }
{
    let leaving = leaving_of(alloc, names)?;
    let descriptor = descriptor_spot(alloc, names)?;
    let methods = Methods {
        names,
        all,
        statics,
    };
    by_methods(alloc, &methods, leaving.items(), descriptor)
}

/// Where 704 to 708, 715, 717 and 718 are broken first, each by itself.
pub(crate) fn link_spots(alloc: Global, names: &Names<'_>) -> Result<Linked, NoMemory>
    requires ready { IsIndexed names.now }
    requires small { AreSmall (complete_of names.now.parts.now) }
    ensures { IfOk result (λ r. AreFirst r (complete_of names.now.parts.now) names.now.exports.now) }
{
    let all = method_starts(alloc, names)?;
    let statics = static_starts(alloc, names)?;
    by_offsets(alloc, names, all.items(), statics.items())
}
