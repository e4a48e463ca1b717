//! An export file read from its magic number to its last class: header, pool, package, classes. What the crate
//! is called for; the rules of members and of pool entries are in `members` and `pool`.

ghost use Rattle.std.specs.Prelude.{◌≡◌, ◌<◌, ◌≤◌, ◌^◌, ◌⊎◌, ℕ, List, [], length, IfOk, IfErr};
ghost use Rattle.std.specs.Option.{option_copied};
ghost use Rattle.cjc_bytes.specs.Format.{repeated, iterated, FileSpells, FileBreaks};
ghost use Rattle.cjc_bytes.specs.Found.{Finds};
ghost use Rattle.cjc_bytes.specs.Reading.{Reads, IsReading, read_file};
ghost use Rattle.cjc_bytes.specs.Refused.{IsUnlessNoMemory, IsBreak, refusal};
ghost use Rattle.cjc_bytes.specs.declared.fault.Fault.TheVariants as faults;
ghost use Rattle.cjc_export.specs.declared.tree.ExportTree.{ExportTree as Tree};
ghost use Rattle.cjc_export.specs.Members.{grown, class_field};
ghost use Rattle.cjc_export.specs.Package.{package_field};
ghost use Rattle.cjc_export.specs.Writable.{AreBytes, IsWritable};
ghost use Rattle.cjc_export.specs.Written.{written};
ghost use Rattle.cjc_export.specs.ExportFile.{token_taken, class_token, name_taken, new_name_at, class_tree};
ghost use Rattle.cjc_export.specs.ExportFile.{front_part, export_file};

use crate::members::{read_class, read_fields, read_methods};
use crate::pool::{Entry, Kind, class_name_at, read_pool, test_entries, text_at};
use crate::root::with_root;
use crate::tree::{ExportClass, ExportTree};
use cjc_bytes::{Bytes, Cursor, Fault, Row, Stop, is_interface, refused};
use std::alloc::Global;

/// What the pool says of the package.
#[derive(Drop)]
pub(crate) struct Package {
    pub(crate) name: Bytes,
    pub(crate) aid: Bytes,
    pub(crate) major: u8,
    pub(crate) minor: u8,
    pub(crate) library: bool,
}

#[tactic(auto, unfolding(crate::specs::ExportFile::front_part, cjc_bytes::specs::Format::u2))]
fn read_front<'a>(alloc: Global, cursor: &mut Cursor<'a>) -> Result<Row<Entry<'a>>, Stop>
    ensures { Reads (λ x. x) front_part cursor.old cursor.new result }
{
    let at = cursor.at();
    if cursor.u4()? != 0x00FA_CADE {
        return Err(Stop::Broken(at));
    }
    let at = cursor.at();
    let minor = cursor.u1()?;
    if minor != 1 && minor != 2 {
        return Err(Stop::Broken(at));
    }
    let at = cursor.at();
    if cursor.u1()? != 2 {
        return Err(Stop::Broken(at));
    }
    let count = cursor.u2()?;
    read_pool(alloc, count, cursor)
}

#[tactic(auto, unfolding(crate::specs::Package::package_field, crate::specs::Package::package_at))]
fn read_package(alloc: Global, pool: &[Entry<'_>], cursor: &mut Cursor<'_>) -> Result<Package, Stop>
    ensures { Reads (λ p. p) (package_field pool.now) cursor.old cursor.new result }
{
    let at = cursor.at();
    let index = cursor.u2()?;
    let entry = pool.get(usize::from(index)).ok_or(Stop::Broken(at))?;
    match entry.kind {
        Kind::Package(library, name, minor, major, aid) => {
            let name = text_at(pool, name.to).ok_or(Stop::Broken(at))?;
            Ok(Package {
                name: Bytes::copy_of(alloc, name)?,
                aid: Bytes::copy_of(alloc, aid)?,
                major,
                minor,
                library,
            })
        }
        _ => Err(Stop::Broken(at)),
    }
}

#[tactic(auto, using(cjc_bytes::proofs::Loops::repeated_more, cjc_bytes::proofs::Loops::repeated_stops, cjc_bytes::proofs::Loops::repeated_all, cjc_bytes::proofs::Loops::with_none))]
fn read_classes(
    alloc: Global,
    pool: &[Entry<'_>],
    count: u16,
    cursor: &mut Cursor<'_>,
) -> Result<Row<Bytes>, Stop>
    ensures { Reads (λ names. names) (repeated count (class_field pool.now)) cursor.old cursor.new result }
{
    let mut names = Row::new(alloc);
    for _ in 0..count {
        let name = read_class(pool, cursor)?;
        names.push(Bytes::copy_of(alloc, name)?)?;
    }
    Ok(names)
}

/// Whether an earlier class has this token.
fn token_taken(so_far: &[ExportClass], token: u8) -> bool
    ensures { result ≡ token_taken so_far.now token }
{
    so_far.iter().any(|c| c.token == token)
}

/// A token that no earlier class has.
fn class_token(so_far: &[ExportClass], token: u8) -> Option<u8>
    ensures { result ≡ class_token so_far.now token }
{
    if token_taken(so_far, token) {
        None
    } else {
        Some(token)
    }
}

/// Whether an earlier class has this name.
fn name_taken(so_far: &[ExportClass], name: &[u8]) -> bool
    ensures { result ≡ name_taken so_far.now name.now }
{
    so_far.iter().any(|c| c.name.items() == name)
}

/// The name of the class at an index, where no earlier class has it.
#[tactic(auto, unfolding(crate::specs::ExportFile::new_name_at))]
fn new_name_at<'a>(pool: &[Entry<'a>], so_far: &[ExportClass], index: u16) -> Option<&'a [u8]>
    ensures { option_copied result ≡ new_name_at pool.now so_far.now index }
{
    let name = class_name_at(pool, index)?;
    if name_taken(so_far, name) {
        None
    } else {
        Some(name)
    }
}

#[tactic(auto, unfolding(crate::specs::ExportFile::class_tree, cjc_bytes::specs::Format::u1, cjc_bytes::specs::Format::u2))]
fn read_class_tree(
    alloc: Global,
    pool: &[Entry<'_>],
    so_far: &Row<ExportClass>,
    cursor: &mut Cursor<'_>,
) -> Result<ExportClass, Stop>
    ensures { Reads (λ c. c) (class_tree pool.now so_far.now) cursor.old cursor.new result }
{
    let at = cursor.at();
    let token = cursor.u1()?;
    let token = class_token(so_far.items(), token).ok_or(Stop::Broken(at))?;
    let flags = cursor.u2()?;
    let at = cursor.at();
    let index = cursor.u2()?;
    let name = new_name_at(pool, so_far.items(), index).ok_or(Stop::Broken(at))?;
    let mut class = ExportClass {
        token,
        flags,
        name: Bytes::copy_of(alloc, name)?,
        listed: Row::new(alloc),
        supers: Row::new(alloc),
        interfaces: Row::new(alloc),
        fields: Row::new(alloc),
        methods: Row::new(alloc),
    };
    let count = cursor.u2()?;
    let listed = read_classes(alloc, pool, count, cursor)?;
    class.supers = with_root(alloc, name, listed.items())?;
    class.listed = listed;
    let count = cursor.u1()?;
    class.interfaces = read_classes(alloc, pool, u16::from(count), cursor)?;
    let count = cursor.u2()?;
    class.fields = read_fields(alloc, pool, count, cursor)?;
    let at = cursor.at();
    let count = cursor.u2()?;
    if is_interface(flags) && count > 255 {
        return Err(Stop::Broken(at));
    }
    class.methods = read_methods(alloc, pool, is_interface(flags), count, cursor)?;
    Ok(class)
}

#[tactic(auto, using(crate::proofs::Grown::grown_more, cjc_bytes::proofs::Loops::iterated_all))]
fn read_class_trees(
    alloc: Global,
    pool: &[Entry<'_>],
    count: u8,
    cursor: &mut Cursor<'_>,
) -> Result<Row<ExportClass>, Stop>
    ensures { Reads (λ cs. cs) (iterated count (grown (class_tree pool.now)) []) cursor.old cursor.new result }
{
    let mut classes = Row::new(alloc);
    for _behind in (0..count).rev() {
        classes.push(read_class_tree(alloc, pool, &classes, cursor)?)?;
    }
    Ok(classes)
}

#[tactic(auto, unfolding(crate::specs::ExportFile::export_file, cjc_bytes::specs::Format::u1))]
fn read_export_file(alloc: Global, cursor: &mut Cursor<'_>) -> Result<ExportTree, Stop>
    ensures { Reads (λ t. t) export_file cursor.old cursor.new result }
{
    let pool = read_front(alloc, cursor)?;
    let pool = pool.items();
    test_entries(pool)?;
    let package = read_package(alloc, pool, cursor)?;
    let count = cursor.u1()?;
    let classes = read_class_trees(alloc, pool, count, cursor)?;
    Ok(ExportTree {
        name: package.name,
        aid: package.aid,
        major: package.major,
        minor: package.minor,
        library: package.library,
        classes,
    })
}

#[tactic(auto, unfolding(cjc_bytes::specs::Reading::read_file))]
fn read_whole(alloc: Global, bytes: &[u8]) -> Result<ExportTree, Stop>
    requires { length bytes.now < 2 ^ 32 }
    ensures { Finds (λ t. t) (read_file export_file bytes.now) result }
{
    let mut cursor = Cursor::new(bytes);
    let tree = read_export_file(alloc, &mut cursor)?;
    if !cursor.is_at_end() {
        return Err(Stop::Broken(cursor.at()));
    }
    Ok(tree)
}

/// What an export file says. Bytes that spell no export file are refused by rule 104, at the offset of the
/// first field that breaks its table.
pub fn read(alloc: Global, file: &[u8], bytes: &[u8]) -> Result<ExportTree, Fault>
    requires { length bytes.now < 2 ^ 32 }

    // What is read is spelt by the bytes, and what they spell is read.
    ensures found { IfOk result (λ t. FileSpells export_file t bytes.now) }
    ensures only { (t : Tree) → FileSpells export_file t bytes.now → IsUnlessNoMemory result (Ok t) }

    // What is read can be written again, in no more bytes.
    ensures writable { IfOk result IsWritable }
    ensures no_longer { IfOk result (λ t. length (written t) ≤ length bytes.now) }

    // A refusal is where they break, and where they break is refused.
    ensures refused { IfErr result (IsBreak export_file bytes.now (refusal file.now 104)) }
    ensures breaks { (k : ℕ) → FileBreaks export_file bytes.now k
        → IsUnlessNoMemory result (Err (faults.Refused (refusal file.now 104 k))) }
{
    match read_whole(alloc, bytes) {
        Ok(tree) => Ok(tree),
        Err(Stop::Broken(at)) => Err(refused(alloc, file, 104, at)),
        Err(Stop::NoMemory) => Err(Fault::NoMemory),
    }
}

/// The bytes of a file spell one tree at most, or break at one place, and not both; and reading as a function
/// of the bytes gives that tree or place. The trees that bytes spell are those that can be written, and no
/// bytes that spell a tree are fewer than the written ones.
pub fn readings()
    ensures tree { (s t : Tree) (bytes : List ℕ) → FileSpells export_file s bytes → FileSpells export_file t bytes
        → s ≡ t }
    ensures place { (j k : ℕ) (bytes : List ℕ) → FileBreaks export_file bytes j → FileBreaks export_file bytes k
        → j ≡ k }
    ensures both { (t : Tree) (k : ℕ) (bytes : List ℕ) → FileSpells export_file t bytes → FileBreaks export_file bytes k
        → ⊥ }
    ensures either { (bytes : List ℕ) → ((t : Tree) × FileSpells export_file t bytes)
        ⊎ ((k : ℕ) × FileBreaks export_file bytes k) }
    ensures reading { (bytes : List ℕ) → IsReading export_file bytes }
    ensures writable { (t : Tree) (bytes : List ℕ) → AreBytes bytes → FileSpells export_file t bytes → IsWritable t }
    ensures written { (t : Tree) → IsWritable t → FileSpells export_file t (written t) }
    ensures shortest { (t : Tree) (bytes : List ℕ) → AreBytes bytes → FileSpells export_file t bytes
        → length (written t) ≤ length bytes }
{}
