//! What the rules of a package promise of its export file: that the tree which is written fits the format of
//! export files (Java Card Virtual Machine Specification 2.2.2, chapter 5), so that its bytes spell it. For
//! whoever converts a package. Nothing here runs.
ghost use Rattle.cjc_world.specs.ExportFile.Writable.{IsWritable};
ghost use Rattle.cjc_components.specs.ExportFile.{export_of};
ghost use Rattle.cjc_components.specs.Package.{Package};
ghost use Rattle.cjc_exported.specs.Exportable.{ClassesStand, IsExportable};

use crate::export_file::{few_classes, tokens_are_places};

/// The export file of a package of read files that breaks none of 202, 401, 406, 408, 413 and 414 fits the
/// format, where the methods of each class that it lists do, and its supers and interfaces can be counted.
pub fn export_file_fits()
    ensures { (p : Package) → IsExportable p → ClassesStand p → IsWritable (export_of p) }
{
    few_classes();
    tokens_are_places();
}
