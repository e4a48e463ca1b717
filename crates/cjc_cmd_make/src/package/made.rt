//! A made package in one piece: its list, the export file of java/lang and its class files, and a script. What
//! the crate is called for.

ghost use Rattle.std.specs.Prelude.{◌≡◌, ◌≤◌, ◌++◌, ◌∷◌, [], map, OnOk, IfOk};
ghost use Rattle.cjc_cmd_make.specs.Package.ClassFile.{file_bytes};
ghost use Rattle.cjc_cmd_make.specs.Package.Classes.{class_file, class_with};
ghost use Rattle.cjc_cmd_make.specs.Package.Numbers.{below, number_behind, operand_of};
ghost use Rattle.cjc_cmd_make.specs.Package.Package.{package_of};

use crate::package::classes::class_file;
use crate::package::lang::lang_file;
use crate::package::numbers::{number_behind, operand_of};
use crate::package::texts::{list_text, script_text};
use cjc_cmd_convert::bytes::{Bytes, NoMemory, Row};
use std::alloc::Global;

/// A package: what its conversion and its runs are given.
#[derive(Drop)]
pub struct Made {
    /// The list, which names the files.
    pub list: Bytes,
    /// The files in the order of the list's lines: the export file of java/lang, and the classes.
    pub files: Row<Bytes>,
    /// The script, which calls a method of each class.
    pub script: Bytes,
}

/// Appends the file of class i, whose numbers are those behind this one, and gives the last of them.
fn put_class(alloc: Global, files: &mut Row<Bytes>, i: u32, x: u16) -> Result<u16, NoMemory>
    ensures last { IfOk result (λ y. y ≡ number_behind (number_behind x)) }
    ensures file { OnOk result (files.new ≡ files.old
        ++ file_bytes (class_with i (operand_of (number_behind x)) (operand_of (number_behind (number_behind x))))
        ∷ []) }
{
    let first = number_behind(x);
    let second = number_behind(first);
    let file = class_file(alloc, i, operand_of(first), operand_of(second))?;
    files.push(file)?;
    Ok(second)
}

/// Appends the files of so many classes that are made from a number.
#[tactic(auto, using(crate::proofs::PackageLaws::Loops::map_none), unfolding(crate::specs::Package::Numbers::number_at))]
fn put_classes(
    alloc: Global,
    files: &mut Row<Bytes>,
    number: u32,
    size: u32,
) -> Result<(), NoMemory>
    ensures { OnOk result (files.new ≡ files.old ++ map (class_file number) (below size)) }
{
    let mut x = (number % 65536) as u16;
    for i in 0..size {
        let last = put_class(alloc, files, i, x)?;
        x = last;
    }
    Ok(())
}

/// So many classes made from a number, 1 to 250 of them. Each extends java/lang/Object or the class before it, and has
/// a method that calculates with numbers of its own.
pub fn package(alloc: Global, number: u32, size: u32) -> Result<Made, NoMemory>
    requires least { 1 ≤ size }
    requires greatest { size ≤ 250 }
    ensures { IfOk result (λ made. made ≡ package_of number size) }
{
    let mut files = Row::new(alloc);
    let lang = lang_file(alloc)?;
    files.push(lang)?;
    put_classes(alloc, &mut files, number, size)?;
    let list = list_text(alloc, size)?;
    let script = script_text(alloc, size)?;
    Ok(Made {
        list,
        files,
        script,
    })
}
