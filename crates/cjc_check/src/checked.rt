//! Components that were found consistent, with the export files that they import. Whoever runs or verifies
//! components takes them as such.

ghost use Rattle.std.specs.Prelude.{◌≡◌};
ghost use Rattle.cjc_check_rules.specs.Consistent.{Consistent};

use cjc_capread::CapTree;
use cjc_capread::bytes::Row;
use cjc_check_rules::export_file::ExportTree;

/// Consistent components and the export files that they import, in the order of Import.
#[derive(Drop)]
pub struct Checked<'a> {
    pub tree: CapTree,
    pub exports: &'a Row<ExportTree>,
    pub ghost consistent: { Consistent tree exports.now },
}

impl<'a> Checked<'a> {
    /// The components.
    pub fn tree(&self) -> &CapTree
        ensures { result.now ≡ self.now.tree }
    {
        &self.tree
    }

    /// The export files.
    pub fn exports(&self) -> &'a Row<ExportTree>
        ensures { result.now ≡ self.now.exports.now }
    {
        self.exports
    }
}
