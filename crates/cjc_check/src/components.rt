//! The test of components, whole: the first broken sentence in the order of refusals, or components that are
//! consistent.

ghost use Rattle.std.specs.Prelude.{◌≡◌, IfErr, IfOk, List, OnOk, flat_map, option_map};
ghost use Rattle.cjc_capread.specs.Bytes.Breaks.{IsFirstOf, IsFirstRefusal};
ghost use Rattle.cjc_capread.specs.Bytes.Told.{break_of};
ghost use Rattle.cjc_check_tables.specs.CheckIndex.Lookup.Parts.{complete_of};
ghost use Rattle.cjc_check_rules.specs.Complete.{AreSmall, IsSmall, complete};
ghost use Rattle.cjc_check_rules.specs.Consistent.{Consistent, Unbroken, breaks, breaks_of, of_complete};
ghost use Rattle.cjc_check_rules.specs.Consistent.{where_complete};

use crate::checked::Checked;
use crate::firsts::{first_break, first_spots};
use crate::order::with_sentence;
use cjc_capread::CapTree;
use cjc_capread::bytes::{Break, Fault, NoMemory, Row, answer};
use cjc_check_rules::consistent_where_unbroken;
use cjc_check_rules::export_file::ExportTree;
use cjc_check_tables::check_index::lookup::{Parts, parts_of};
use cjc_check_tables::counts::{directory_spot, flags_spot};
use std::alloc::Global;

/// The first break of components of which only Applet and Export may be absent.
fn complete_break(
    alloc: Global,
    parts: &Parts<'_>,
    exports: &[ExportTree],
) -> Result<Option<Break<'static>>, NoMemory>
    requires { AreSmall (complete_of parts.now) }
    ensures { IfOk result (λ b. IsFirstOf (flat_map breaks_of (of_complete (complete_of parts.now) exports.now))
        (option_map break_of b)) }
{
    let firsts = first_spots(alloc, parts, exports)?;
    Ok(first_break(&firsts))
}

/// The first break from 703 on: where another component is absent, none is tested.
fn later_break(
    alloc: Global,
    tree: &CapTree,
    exports: &[ExportTree],
) -> Result<Option<Break<'static>>, NoMemory>
    requires { IsSmall tree.now }
    ensures { IfOk result (λ b. IsFirstOf (flat_map breaks_of (where_complete (complete tree.now) exports.now))
        (option_map break_of b)) }
{
    match parts_of(tree) {
        Some(parts) => complete_break(alloc, &parts, exports),
        None => Ok(None),
    }
}

/// The first break of all sentences.
fn any_break(
    alloc: Global,
    tree: &CapTree,
    exports: &[ExportTree],
) -> Result<Option<Break<'static>>, NoMemory>
    requires { IsSmall tree.now }
    ensures { IfOk result (λ b. IsFirstOf (breaks tree.now exports.now) (option_map break_of b)) }
{
    let later = later_break(alloc, tree, exports)?;
    let flags = with_sentence(702, true, flags_spot(tree), later);
    Ok(with_sentence(701, true, directory_spot(tree), flags))
}

/// Answers the first broken sentence.
fn test(alloc: Global, tree: &CapTree, exports: &[ExportTree]) -> Result<(), Fault>
    requires { IsSmall tree.now }
    ensures unbroken { OnOk result (Unbroken tree.now exports.now) }
    ensures consistent { OnOk result (Consistent tree.now exports.now) }
    ensures refused { IfErr result (IsFirstRefusal (breaks tree.now exports.now)) }
{
    let broken = any_break(alloc, tree, exports)?;
    consistent_where_unbroken();
    answer(alloc, broken)
}

/// The components as such that are consistent with these export files, which stand in the order of Import.
///
/// # Errors
///
/// The first broken sentence and its place, in the order of refusals: 701 to 718. A sentence counts as true
/// where one that it needs is false; where a component other than Applet and Export is absent, only 701 and 702
/// are tested.
pub fn check(alloc: Global, tree: CapTree, exports: &Row<ExportTree>) -> Result<Checked<'_>, Fault>
    // Bytes that were read, fewer than 2^32 of each component, spell trees that are small.
    requires { IsSmall tree }

    // Ok exactly where no sentence is broken at any place, and then all are true.
    ensures unbroken { OnOk result (Unbroken tree exports.now) }
    ensures consistent { OnOk result (Consistent tree exports.now) }
    ensures same { IfOk result (λ c. (c.tree ≡ tree) × (c.exports.now ≡ exports.now)) }
    ensures refused { IfErr result (IsFirstRefusal (breaks tree exports.now)) }
{
    match test(alloc, &tree, exports.items()) {
        Ok(()) => Ok(Checked { tree, exports }),
        Err(fault) => Err(fault),
    }
}
