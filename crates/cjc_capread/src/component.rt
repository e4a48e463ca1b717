//! Whole component files: tag, size and info (6.2). What the crates above call to read one; it knows how each info is
//! read, and nothing of what one component says of another.

ghost use Rattle.std.specs.Prelude.{◌≡◌, ◌<◌, ◌≤◌, ◌^◌, ℕ, List, length, IfOk, IfErr, ◌⊎◌};
ghost use Rattle.cjc_bytes.specs.Format.{FileSpells, FileBreaks};
ghost use Rattle.cjc_bytes.specs.Found.{Finds};
ghost use Rattle.cjc_bytes.specs.Reading.{Reads, IsReading, read_file};
ghost use Rattle.cjc_bytes.specs.Refused.{refusal, IsUnlessNoMemory, IsBreak};
ghost use Rattle.cjc_bytes.specs.declared.fault.Fault.TheVariants as faults;
ghost use Rattle.cjc_capread.specs.declared.tree.Component.{Component as Tree};
ghost use Rattle.cjc_capread.specs.Component.{info, component};

use crate::class::read_class_info;
use crate::descriptor::read_descriptor;
use crate::export::read_export;
use crate::method::read_method;
use crate::package::{read_applet, read_directory, read_header, read_import};
use crate::pool::read_constant_pool;
use crate::statics::{read_reference_location, read_static_field};
use crate::tree::Component;
use cjc_bytes::{Cursor, Fault, Stop, refused};
use std::alloc::Global;

/// The info of a tag in a file of so many bytes.
#[tactic(auto, unfolding(crate::specs::Component::info))]
fn read_info(alloc: Global, tag: u8, end: u32, cursor: &mut Cursor<'_>) -> Result<Component, Stop>
    requires { (1 ≤ tag) × (tag ≤ 11) }
    ensures { Reads (λ x. x) (info tag end) cursor.old cursor.new result }
{
    Ok(match tag {
        1 => Component::Header(read_header(alloc, cursor)?),
        2 => Component::Directory(read_directory(alloc, cursor)?),
        3 => Component::Applet(read_applet(alloc, cursor)?),
        4 => Component::Import(read_import(alloc, cursor)?),
        5 => Component::Pool(read_constant_pool(alloc, cursor)?),
        6 => Component::Class(read_class_info(alloc, end, cursor)?),
        7 => Component::Method(read_method(alloc, end, cursor)?),
        8 => Component::Statics(read_static_field(alloc, cursor)?),
        9 => Component::Locations(read_reference_location(alloc, cursor)?),
        10 => Component::Export(read_export(alloc, cursor)?),
        _ => Component::Descriptor(read_descriptor(alloc, end, cursor)?),
    })
}

#[tactic(auto, unfolding(crate::specs::Component::component))]
fn read_component(
    alloc: Global,
    tag: u8,
    end: u32,
    cursor: &mut Cursor<'_>,
) -> Result<Component, Stop>
    requires { (1 ≤ tag) × (tag ≤ 11) }
    ensures { Reads (λ x. x) (component tag end) cursor.old cursor.new result }
{
    let at = cursor.at();
    if cursor.u1()? != tag {
        return Err(Stop::Broken(at));
    }
    let at = cursor.at();
    let size = cursor.u2()?;
    if u32::from(size) + 3 != end {
        return Err(Stop::Broken(at));
    }
    read_info(alloc, tag, end, cursor)
}

#[tactic(auto, unfolding(cjc_bytes::specs::Reading::read_file))]
fn read_whole(alloc: Global, tag: u8, bytes: &[u8]) -> Result<Component, Stop>
    requires one { (1 ≤ tag) × (tag ≤ 11) }
    requires short { length bytes.now < 2 ^ 32 }
    ensures { Finds (λ x. x) (read_file (component tag (length bytes.now)) bytes.now) result }
{
    let mut cursor = Cursor::new(bytes);
    let end = bytes.len() as u32;
    let tree = read_component(alloc, tag, end, &mut cursor)?;
    if !cursor.is_at_end() {
        return Err(Stop::Broken(cursor.at()));
    }
    Ok(tree)
}

/// What the bytes of a component file say. The tag is the one that the file is to have. Refused as 106, at
/// the first field that keeps no table.
pub fn read(alloc: Global, file: &[u8], tag: u8, bytes: &[u8]) -> Result<Component, Fault>
    requires one { (1 ≤ tag) × (tag ≤ 11) }
    requires short { length bytes.now < 2 ^ 32 }

    // What is read is spelt by the bytes, and what they spell is read.
    ensures found { IfOk result (λ t. FileSpells (component tag (length bytes.now)) t bytes.now) }
    ensures only { (t : Tree) → FileSpells (component tag (length bytes.now)) t bytes.now
        → IsUnlessNoMemory result (Ok t) }

    // A refusal is where they break, and where they break is refused.
    ensures refused { IfErr result (IsBreak (component tag (length bytes.now)) bytes.now (refusal file.now 106)) }
    ensures breaks { (k : ℕ) → FileBreaks (component tag (length bytes.now)) bytes.now k
        → IsUnlessNoMemory result (Err (faults.Refused (refusal file.now 106 k))) }
{
    match read_whole(alloc, tag, bytes) {
        Ok(tree) => Ok(tree),
        Err(Stop::Broken(at)) => Err(refused(alloc, file, 106, at)),
        Err(Stop::NoMemory) => Err(Fault::NoMemory),
    }
}

/// The bytes of a file spell one component of a tag at most, or break at one place, and not both; which of them is a
/// function of the bytes.
pub fn readings()
    ensures one_tree { (tag : ℕ) (s t : Tree) (bytes : List ℕ) → FileSpells (component tag (length bytes)) s bytes
        → FileSpells (component tag (length bytes)) t bytes → s ≡ t }
    ensures one_place { (tag : ℕ) (j k : ℕ) (bytes : List ℕ) → FileBreaks (component tag (length bytes)) bytes j
        → FileBreaks (component tag (length bytes)) bytes k → j ≡ k }
    ensures not_both { (tag : ℕ) (t : Tree) (k : ℕ) (bytes : List ℕ) → FileSpells (component tag (length bytes)) t bytes
        → FileBreaks (component tag (length bytes)) bytes k → ⊥ }
    ensures one_of_them { (tag : ℕ) (bytes : List ℕ) → ((t : Tree) × FileSpells (component tag (length bytes)) t bytes)
        ⊎ ((k : ℕ) × FileBreaks (component tag (length bytes)) bytes k) }
    ensures reading { (tag : ℕ) (bytes : List ℕ) → IsReading (component tag (length bytes)) bytes }
{}
