//! What the files that were read spell, or the first of them that breaks its format. It knows no shelf.

ghost use Rattle.std.specs.Prelude.{◌≡◌, ℕ, ◌≤◌, List as Items, [], map, All, length, IfOk, IfErr, OnOk, Ok, Some};
ghost use Rattle.cjc_bytes.specs.Breaks.{IsFirstRefusal};
ghost use Rattle.cjc_bytes.specs.Order.{FilePlace};
ghost use Rattle.cjc_capread.specs.declared.tree.Component.TheVariants as components;
ghost use Rattle.cjc_cmd_check.specs.Folder.Breaks.{ArePartsRead, AreRead, AreShort, ArePartsShort, AreTrees, IsShort};
ghost use Rattle.cjc_cmd_check.specs.Folder.Breaks.{break_in, cap_in, component_breaks, component_place, export_breaks};
ghost use Rattle.cjc_cmd_check.specs.Folder.Breaks.{export_trees, file_breaks, front, part_breaks, with_component};
ghost use Rattle.cjc_cmd_check.specs.Folder.Breaks.{with_components};
ghost use Rattle.cjc_cmd_check.specs.Folder.Reads.{read_component};
ghost use Rattle.cjc_cmd_check.specs.Folder.Working.Heads.{IsForemost};

use crate::folder::folder::{Folder, Parts};
use crate::folder::names::{export_names, file_name};
use cjc_bytes::{Bytes, Fault, Row};
use cjc_capread::{CapTree, Component, Directory, Header, read};
use cjc_check::export_file::ExportTree;
use std::alloc::Global;

/// What the export files of a list and the components of a folder say.
#[derive(Drop)]
pub struct FolderTrees {
    /// In the order of the list's lines.
    pub exports: Row<ExportTree>,
    pub cap: CapTree,
}

/// What these export files say, which have these names.
fn export_files(alloc: Global, names: &[Bytes], files: &[Bytes]) -> Result<Row<ExportTree>, Fault>
    requires count { length files.now ≡ length names.now }
    requires short { All IsShort files.now }
    ensures trees { IfOk result (λ trees. trees ≡ export_trees files.now) }
    ensures unbroken { OnOk result ((places : Items FilePlace) → map (λ (f : FilePlace). f.name) places ≡ names.now
        → export_breaks places files.now ≡ []) }
    ensures refused { IfErr result (λ e. (places : Items FilePlace) → map (λ (f : FilePlace). f.name) places ≡ names.now
        → IsForemost (export_breaks places files.now) e) }
{
    let mut trees = Row::new(alloc);
    for (at, bytes) in files.iter().enumerate() {
        trees.push(cjc_check::export_file::read(alloc, names[at].items(), bytes.items())?)?;
    }
    Ok(trees)
}

/// The component of a tag that the bytes of its file say.
fn component_in(alloc: Global, tag: u8, bytes: &[u8]) -> Result<Component, Fault>
    requires one { (1 ≤ tag) × (tag ≤ 11) }
    requires short { IsShort bytes.now }
    ensures found { IfOk result (λ x. read_component tag bytes.now ≡ Ok x) }
    ensures refused { IfErr result (IsForemost (break_in 106 (component_place tag) (read_component tag bytes.now))) }
{
    read(alloc, file_name(tag), tag, bytes)
}

fn header_in(alloc: Global, bytes: &[u8]) -> Result<Header, Fault>
    requires { IsShort bytes.now }
    ensures found { IfOk result (λ h. read_component 1 bytes.now ≡ Ok (components.Header h)) }
    ensures refused { IfErr result (IsForemost (break_in 106 (component_place 1) (read_component 1 bytes.now))) }
{
    match component_in(alloc, 1, bytes)?.into_header() {
        Some(header) => Ok(header),
        None => unreachable!(),
    }
}

fn directory_in(alloc: Global, bytes: &[u8]) -> Result<Directory, Fault>
    requires { IsShort bytes.now }
    ensures found { IfOk result (λ d. read_component 2 bytes.now ≡ Ok (components.Directory d)) }
    ensures refused { IfErr result (IsForemost (break_in 106 (component_place 2) (read_component 2 bytes.now))) }
{
    match component_in(alloc, 2, bytes)?.into_directory() {
        Some(directory) => Ok(directory),
        None => unreachable!(),
    }
}

/// The components of a package of which no other is there yet.
fn front(header: Header, directory: Directory) -> CapTree
    ensures { result ≡ front header directory }
{
    CapTree {
        header,
        directory,
        applet: None,
        import: None,
        pool: None,
        class: None,
        method: None,
        statics: None,
        locations: None,
        export: None,
        descriptor: None,
    }
}

/// Puts a component of a tag into its place.
fn put(cap: &mut CapTree, tag: u8, component: Component)
    ensures { cap.new ≡ with_component cap.old tag component }
{
    match tag {
        3 => cap.applet = component.into_applet(),
        4 => cap.import = component.into_import(),
        5 => cap.pool = component.into_pool(),
        6 => cap.class = component.into_class(),
        7 => cap.method = component.into_method(),
        8 => cap.statics = component.into_statics(),
        9 => cap.locations = component.into_locations(),
        10 => cap.export = component.into_export(),
        _ => cap.descriptor = component.into_descriptor(),
    }
}

/// Puts what these files say into its places, each of its tag.
fn put_others(alloc: Global, cap: &mut CapTree, tags: &[u8], files: &[Bytes]) -> Result<(), Fault>
    requires count { length files.now ≡ length tags.now }
    requires one { All (λ (tag : ℕ). (1 ≤ tag) × (tag ≤ 11)) tags.now }
    requires short { All IsShort files.now }
    ensures put { OnOk result (cap.new ≡ with_components cap.old tags.now files.now) }
    ensures unbroken { OnOk result (component_breaks tags.now files.now ≡ []) }
    ensures refused { IfErr result (IsForemost (component_breaks tags.now files.now)) }
{
    for (at, bytes) in files.iter().enumerate() {
        let component = component_in(alloc, tags[at], bytes.items())?;
        put(cap, tags[at], component);
    }
    Ok(())
}

/// What the components of a folder say, where each keeps its format.
///
/// # Errors
///
/// The first of them that breaks its format, by their tags: rule 106.
pub fn cap_of(alloc: Global, parts: &Parts) -> Result<CapTree, Fault>
    requires short { ArePartsShort parts.now }
    requires read { ArePartsRead parts.now }
    ensures found { IfOk result (λ cap. cap_in parts.now ≡ Some cap) }
    ensures unbroken { OnOk result (part_breaks parts.now ≡ []) }
    ensures refused { IfErr result (IsFirstRefusal (part_breaks parts.now)) }
{
    let header = header_in(alloc, parts.header.items())?;
    let directory = directory_in(alloc, parts.directory.items())?;
    let mut cap = front(header, directory);
    put_others(alloc, &mut cap, parts.tags.items(), parts.others.items())?;
    Ok(cap)
}

/// What the files that were read say, where each keeps its format.
///
/// # Errors
///
/// The first of the files that breaks its format, in the order of refusals: an export file by rule 104, a
/// component by 106.
pub fn folder_trees(alloc: Global, folder: &Folder) -> Result<FolderTrees, Fault>
    requires short { AreShort folder.now }
    requires read { AreRead folder.now }
    ensures read { IfOk result (AreTrees folder.now) }
    ensures refused { IfErr result (IsFirstRefusal (file_breaks folder.now)) }
{
    let names = export_names(alloc, folder.list.lines.items())?;
    let exports = export_files(alloc, names.items(), folder.exports.items())?;
    let cap = cap_of(alloc, &folder.parts)?;
    Ok(FolderTrees { exports, cap })
}
