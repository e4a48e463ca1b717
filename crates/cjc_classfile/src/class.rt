//! A class file from its magic number to its last attribute, in the order of the ClassFile structure (Java
//! Virtual Machine Specification, section 4.1). What the crate is called for.

ghost use Rattle.std.specs.Prelude.{◌≡◌, ◌<◌, ◌^◌, ◌⊎◌, ℕ, List, length, IfOk, IfErr};
ghost use Rattle.cjc_bytes.specs.Format.{repeated, FileSpells, FileBreaks};
ghost use Rattle.cjc_bytes.specs.Found.{Finds};
ghost use Rattle.cjc_bytes.specs.Reading.{Reads, IsReading, read_file};
ghost use Rattle.cjc_bytes.specs.Refused.{IsUnlessNoMemory, IsBreak};
ghost use Rattle.cjc_bytes.specs.declared.fault.Fault.TheVariants as faults;
ghost use Rattle.cjc_classfile.specs.declared.tree.ClassTree.{ClassTree as Tree};
ghost use Rattle.std.specs.List.{AllByRecursion};
ghost use Rattle.cjc_classfile.specs.Fits.{ClassFits};
ghost use Rattle.cjc_classfile.specs.Members.{class_field};
ghost use Rattle.cjc_classfile.specs.ClassFile.{front_part, back_part, class_file, refusal_at};

use crate::code::skip_attributes;
use crate::fields::{read_class, read_fields};
use crate::items::pool_items;
use crate::methods::read_methods;
use crate::pool::{Entry, read_pool};
use crate::tree::{ClassTree, PoolItem};
use cjc_bytes::{Bytes, Cursor, Fault, Row, Stop, refused};
use std::alloc::Global;

#[tactic(auto, unfolding(crate::specs::ClassFile::front_part, cjc_bytes::specs::Format::u2))]
fn read_front<'a>(alloc: Global, cursor: &mut Cursor<'a>) -> Result<(u16, Row<Entry<'a>>), Stop>
    ensures { Reads (λ x. x) front_part cursor.old cursor.new result }
{
    let at = cursor.at();
    if cursor.u4()? != 0xCAFE_BABE {
        return Err(Stop::Broken(at));
    }
    let _minor = cursor.u2()?;
    let at = cursor.at();
    let major = cursor.u2()?;
    if major < 45 || major > 52 {
        return Err(Stop::Broken(at));
    }
    let at = cursor.at();
    let count = cursor.u2()?;
    if count == 0 {
        return Err(Stop::Broken(at));
    }
    let pool = read_pool(alloc, count - 1, cursor)?;
    Ok((major, pool))
}

#[tactic(auto, using(cjc_bytes::proofs::Loops::repeated_more, cjc_bytes::proofs::Loops::repeated_stops, cjc_bytes::proofs::Loops::repeated_all, cjc_bytes::proofs::Loops::with_none))]
fn read_interfaces(
    alloc: Global,
    pool: &[Entry<'_>],
    count: u16,
    cursor: &mut Cursor<'_>,
) -> Result<Row<Bytes>, Stop>
    ensures { Reads (λ names. names) (repeated count (class_field pool.now)) cursor.old cursor.new result }
{
    let mut names = Row::new(alloc);
    for _ in 0..count {
        let name = read_class(pool, cursor)?;
        names.push(Bytes::copy_of(alloc, name)?)?;
    }
    Ok(names)
}

#[tactic(auto, unfolding(crate::specs::ClassFile::back_part, cjc_bytes::specs::Format::u2))]
fn read_back<'a>(
    alloc: Global,
    major: u16,
    pool: &[Entry<'a>],
    items: Row<PoolItem<'a>>,
    cursor: &mut Cursor<'a>,
) -> Result<ClassTree<'a>, Stop>
    ensures { Reads (λ t. t) (back_part major pool.now items.entry) cursor.old cursor.new result }
{
    let flags = cursor.u2()?;
    let name = read_class(pool, cursor)?;
    let superclass = read_class(pool, cursor)?;
    let count = cursor.u2()?;
    let interfaces = read_interfaces(alloc, pool, count, cursor)?;
    let count = cursor.u2()?;
    let fields = read_fields(alloc, pool, count, cursor)?;
    let count = cursor.u2()?;
    let methods = read_methods(alloc, pool, count, cursor)?;
    let count = cursor.u2()?;
    skip_attributes(pool, count, cursor)?;
    Ok(ClassTree {
        major,
        flags,
        name: Bytes::copy_of(alloc, name)?,
        superclass: Bytes::copy_of(alloc, superclass)?,
        interfaces,
        pool: items,
        fields,
        methods,
    })
}

#[tactic(auto, unfolding(crate::specs::ClassFile::class_file))]
fn read_class_file<'a>(alloc: Global, cursor: &mut Cursor<'a>) -> Result<ClassTree<'a>, Stop>
    ensures { Reads (λ t. t) class_file cursor.old cursor.new result }
{
    let (major, pool) = read_front(alloc, cursor)?;
    let items = pool_items(alloc, pool.items())?;
    read_back(alloc, major, pool.items(), items, cursor)
}

#[tactic(auto, unfolding(cjc_bytes::specs::Reading::read_file))]
fn read_whole<'a>(alloc: Global, bytes: &'a [u8]) -> Result<ClassTree<'a>, Stop>
    requires { length bytes.now < 2 ^ 32 }
    ensures { Finds (λ t. t) (read_file class_file bytes.now) result }
{
    let mut cursor = Cursor::new(bytes);
    let tree = read_class_file(alloc, &mut cursor)?;
    if !cursor.is_at_end() {
        return Err(Stop::Broken(cursor.at()));
    }
    Ok(tree)
}

/// The refusal of a class file that breaks at this place.
fn refusal_at(alloc: Global, file: &[u8], bytes: &[u8], at: u32) -> Fault
    ensures { (result ≡ faults.Refused (refusal_at file.now bytes.now at)) ⊎ (result ≡ faults.NoMemory) }
{
    let rule = if at == 6 && bytes.len() >= 8 {
        102
    } else {
        101
    };
    refused(alloc, file, rule, at)
}

/// The class that the bytes of a class file spell.
pub fn read<'a>(alloc: Global, file: &[u8], bytes: &'a [u8]) -> Result<ClassTree<'a>, Fault>
    requires { length bytes.now < 2 ^ 32 }

    // What is read is spelt by the bytes, and what they spell is read.
    ensures found { IfOk result (λ t. FileSpells class_file t bytes.now) }
    ensures only { (t : Tree) → FileSpells class_file t bytes.now → IsUnlessNoMemory result (Ok t) }

    // A refusal is where they break, and where they break is refused.
    ensures refused { IfErr result (IsBreak class_file bytes.now (refusal_at file.now bytes.now)) }
    ensures breaks { (k : ℕ) → FileBreaks class_file bytes.now k
        → IsUnlessNoMemory result (Err (faults.Refused (refusal_at file.now bytes.now k))) }
{
    match read_whole(alloc, bytes) {
        Ok(tree) => Ok(tree),
        Err(Stop::Broken(at)) => Err(refusal_at(alloc, file, bytes, at)),
        Err(Stop::NoMemory) => Err(Fault::NoMemory),
    }
}

/// The bytes of a file spell one class at most, or break at one place, and not both; and reading as a function of the
/// bytes gives that class or place.
pub fn readings()
    ensures class { (s t : Tree) (bytes : List ℕ) → FileSpells class_file s bytes → FileSpells class_file t bytes
        → s ≡ t }
    ensures place { (j k : ℕ) (bytes : List ℕ) → FileBreaks class_file bytes j → FileBreaks class_file bytes k → j ≡ k }
    ensures both { (t : Tree) (k : ℕ) (bytes : List ℕ) → FileSpells class_file t bytes → FileBreaks class_file bytes k
        → ⊥ }
    ensures either { (bytes : List ℕ) → ((t : Tree) × FileSpells class_file t bytes)
        ⊎ ((k : ℕ) × FileBreaks class_file bytes k) }
    ensures reading { (bytes : List ℕ) → IsReading class_file bytes }
{}

/// A class that the bytes of a file spell keeps to the widths of the file's fields: its texts have at most 65,535
/// bytes, and so has each code, which is not empty.
#[tactic(auto, using(crate::proofs::Fitting::spelt_fits))]
pub fn spelt_classes_fit()
    ensures { (t : Tree) (bytes : List ℕ) → AllByRecursion (λ b. b < 256) bytes → FileSpells class_file t bytes
        → ClassFits t }
{}
