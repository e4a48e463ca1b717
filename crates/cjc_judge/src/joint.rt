//! What files spell that break no rule by themselves, read once more: the files of several packages, for a world of all
//! of them. Called by who runs packages together.

ghost use Rattle.std.specs.Prelude.{◌≡◌, ◌<◌, length, IfOk, List as Items};
ghost use Rattle.cjc_judge.specs.Joint.{AreOf};
ghost use Rattle.cjc_judge.specs.Spelt.{AreFiles, FileTree, SpellTrees};
ghost use Rattle.cjc_judge.specs.Trees.{AllSpelt};

use crate::reading::{Trees, read_files};
use cjc_bytes::{Bytes, Fault, FileLine, NoMemory, Row};
use cjc_vtable::bytecode::Codes;
use cjc_world::classfile::ClassTree;
use cjc_world::export_file::ExportTree;
use std::alloc::Global;

/// What files spell, the classes and the export files each in the order of their lines.
#[derive(Drop)]
pub struct JointTrees<'a> {
    pub classes: Row<ClassTree<'a>>,
    pub exports: Row<ExportTree>,
    /// The instructions of each method that breaks neither 103 nor 303.
    pub codes: Codes,
}

/// What the files of these lines spell, where each of them spells something and breaks no rule by itself.
pub fn trees_of<'a>(
    alloc: Global,
    lines: &[FileLine],
    files: &'a [Bytes],
) -> Result<JointTrees<'a>, NoMemory>
    requires few { length lines.now < 4294967296 }
    requires count { length files.now ≡ length lines.now }
    requires files { AreFiles files.now }
    requires spelt { (trees : Items FileTree) × AllSpelt lines.now files.now trees }
    ensures { IfOk result (λ read. (trees : Items FileTree) → SpellTrees lines.now files.now trees
        → AreOf trees read) }
{
    match read_files(alloc, lines, files) {
        Ok(trees) => {
            let Trees {
                classes,
                exports,
                codes,
                unsupported_insns: _unsupported_insns,
            } = trees;
            Ok(JointTrees {
                classes,
                exports,
                codes,
            })
        }
        Err(Fault::NoMemory) => Err(NoMemory),
        Err(Fault::Refused(_)) => unreachable!(),
    }
}
