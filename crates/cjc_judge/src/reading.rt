//! The files of a list, read in list order: each is a class file, whose methods are decoded, or an export
//! file, or breaks a rule by itself.

ghost use Rattle.std.specs.Prelude.{◌≡◌, ◌<◌, length, true};
ghost use Rattle.cjc_clinit.specs.Bytecode.Decoded.{HasCode};
ghost use Rattle.cjc_world.specs.ClassFile.Fits.{ClassFits};
ghost use Rattle.cjc_judge.specs.Spelt.{AreFiles};
ghost use Rattle.cjc_judge.specs.Working.Reading.{DecodesMethod, DecodesClass, ReadsFile, ReadsFiles};

use cjc_bytes::{Bytes, Fault, FileLine, Row};
use cjc_vtable::bytecode::{Codes, DecodeError, MethodCode, refusal_of};
use cjc_world::classfile::ClassTree;
use cjc_world::export_file::ExportTree;
use std::alloc::Global;

/// What the files of a list spell, the classes and the export files each in list order.
#[derive(Drop)]
pub(crate) struct Trees<'a> {
    pub(crate) classes: Row<ClassTree<'a>>,
    pub(crate) exports: Row<ExportTree>,
    /// The instructions of each method that breaks neither 103 nor 303.
    pub(crate) codes: Codes,
    /// The methods that break rule 303, and not 103.
    pub(crate) unsupported_insns: Row<UnsupportedInsn>,
}

/// A method with an instruction that is not converted, by its class's number among the package's and its own among the
/// class's, with the offset of the first such instruction.
#[derive(Drop)]
pub(crate) struct UnsupportedInsn {
    pub(crate) class: u32,
    pub(crate) method: u32,
    pub(crate) offset: u32,
}

// Decodes a method: its instructions, or its place by rule 303, are put behind those that there are. A refusal by rule
// 103 is an error.
fn decode_method(
    alloc: Global,
    file: &[u8],
    number: u32,
    class: &ClassTree<'_>,
    method: u32,
    codes: &mut Codes,
    unsupported_insns: &mut Row<UnsupportedInsn>,
) -> Result<(), Fault>
    requires { HasCode class.now method }
    ensures { DecodesMethod file.now number class.now method codes.old codes.new unsupported_insns.old
        unsupported_insns.new result }
{
    match cjc_vtable::bytecode::decode_method(alloc, class, method) {
        Ok(insns) => {
            codes.push(MethodCode {
                class: number,
                method,
                insns,
            })?;
            Ok(())
        }
        Err(DecodeError::Broken(broken)) => {
            if broken.rule == 303 {
                unsupported_insns.push(UnsupportedInsn {
                    class: number,
                    method,
                    offset: broken.offset,
                })?;
                Ok(())
            } else {
                Err(Fault::Refused(refusal_of(alloc, file, class, method, broken)?))
            }
        }
        Err(DecodeError::NoMemory) => Err(Fault::NoMemory),
    }
}

// Decodes the methods of a class, whose number among the package's this is. The first refusal by rule 103 is an error.
fn decode_class(
    alloc: Global,
    file: &[u8],
    number: u32,
    class: &ClassTree<'_>,
    codes: &mut Codes,
    unsupported_insns: &mut Row<UnsupportedInsn>,
) -> Result<(), Fault>
    requires { ClassFits class.now }
    ensures { DecodesClass file.now number class.now codes.old codes.new unsupported_insns.old unsupported_insns.new
        result }
{
    for (method, tree) in class.methods.items().iter().enumerate() {
        if tree.code.is_some() {
            decode_method(
                alloc,
                file,
                number,
                class,
                method as u32,
                codes,
                unsupported_insns,
            )?;
        }
    }
    Ok(())
}

// Reads a class file onto what was read before.
fn read_class<'a>(
    alloc: Global,
    name: &[u8],
    bytes: &'a [u8],
    trees: &mut Trees<'a>,
) -> Result<(), Fault>
    requires length { length bytes.now < 4294967296 }
    requires room { length trees.old.classes < 4294967296 }
    ensures { ReadsFile (record { class_file = true; name = name.now }) bytes.now trees.old trees.new result }
{
    let class = cjc_world::classfile::read(alloc, name, bytes)?;
    let number = trees.classes.items().len() as u32;
    decode_class(
        alloc,
        name,
        number,
        &class,
        &mut trees.codes,
        &mut trees.unsupported_insns,
    )?;
    trees.classes.push(class)?;
    Ok(())
}

// Reads the file of a line onto what was read before, or answers the first rule that the file breaks.
fn read_file<'a>(
    alloc: Global,
    line: &FileLine,
    bytes: &'a [u8],
    trees: &mut Trees<'a>,
) -> Result<(), Fault>
    requires length { length bytes.now < 4294967296 }
    requires room { length trees.old.classes < 4294967296 }
    ensures { ReadsFile line.now bytes.now trees.old trees.new result }
{
    if line.class_file {
        read_class(alloc, line.name.items(), bytes, trees)
    } else {
        trees.exports.push(cjc_world::export_file::read(alloc, line.name.items(), bytes)?)?;
        Ok(())
    }
}

/// What the files of a list spell, or the first rule that one of them breaks.
pub(crate) fn read_files<'a>(
    alloc: Global,
    lines: &[FileLine],
    files: &'a [Bytes],
) -> Result<Trees<'a>, Fault>
    requires few { length lines.now < 4294967296 }
    requires count { length files.now ≡ length lines.now }
    requires files { AreFiles files.now }
    ensures { ReadsFiles lines.now files.now result }
{
    let mut trees = Trees {
        classes: Row::new(alloc),
        exports: Row::new(alloc),
        codes: Row::new(alloc),
        unsupported_insns: Row::new(alloc),
    };
    for (at, line) in lines.iter().enumerate() {
        read_file(alloc, line, files[at].items(), &mut trees)?;
    }
    Ok(trees)
}
