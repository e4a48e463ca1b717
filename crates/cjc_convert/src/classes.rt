//! The class files of a list, read in list order.

ghost use Rattle.std.specs.Prelude.{◌≡◌, length};
ghost use Rattle.cjc_convert.specs.Conversion.{AreFiles, ReadsClasses};

use cjc_bytes::{Bytes, Fault, FileLine, Row};
use cjc_classfile::{ClassTree, read};
use std::alloc::Global;

/// The trees of the class files, in list order, or the refusal of the first that breaks.
pub(crate) fn read_classes<'a>(
    alloc: Global,
    lines: &[FileLine],
    files: &'a [Bytes],
) -> Result<Row<ClassTree<'a>>, Fault>
    requires count { length files.now ≡ length lines.now }
    requires files { AreFiles files.now }
    ensures { ReadsClasses lines.now files.now result }
{
    let mut trees = Row::new(alloc);
    for (at, line) in lines.iter().enumerate() {
        if line.class_file {
            let tree = read(alloc, line.name.items(), files[at].items())?;
            trees.push(tree)?;
        }
    }
    Ok(trees)
}
