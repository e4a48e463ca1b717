//! The components of a package with names, as they are run. Called by reporting.rt.

ghost use Rattle.std.specs.Prelude.{◌≡◌, List as Items};
ghost use Rattle.cjc_card.specs.CardLink.Group.{alone};
ghost use Rattle.cjc_cmd_card.specs.Report.Working.{alone_with};
ghost use Rattle.cjc_pairing.specs.ExportFile.declared.tree.ExportTree.{ExportTree as Tree};
ghost use Rattle.cjc_pairing.specs.CheckIndex.Lookup.Parts.{complete_of};
ghost use Rattle.cjc_shape.specs.Components.Paired.Naming.{exported_in};

use cjc_card::card_frame::parts::CellName;
use cjc_card::check_index::lookup::Parts;
use cjc_cmd_check::capread::{Export, ExportedClass};
use cjc_pairing::card_link::{ClassNames, Part};

// The classes that Export lists; none where it is absent.
fn exports_of(export: &Option<Export>) -> &[ExportedClass]
    ensures { result.now ≡ exported_in export.now }
{
    match export {
        Some(export) => export.classes.items(),
        None => &[],
    }
}

/// The components with names.
pub fn part_of<'a>(parts: &Parts<'a>, classes: &'a [ClassNames], cells: &'a [CellName]) -> Part<'a>
    ensures alone { (trees : Items Tree) → alone result trees ≡ alone_with (complete_of parts.now) classes.now cells.now
        trees }
    ensures class { result.class.now ≡ (complete_of parts.now).class }
{
    Part {
        method: parts.method,
        pool: parts.pool.entries.items(),
        class: parts.class,
        descriptor: parts.descriptor.classes.items(),
        exports: exports_of(parts.export),
        statics: parts.statics,
        classes,
        cells,
    }
}
