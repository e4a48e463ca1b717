//! Whole component files. Called by whoever converts a package; it knows the tree alone, and no class file.

ghost use Rattle.std.specs.Prelude.{◌≡◌, ◌≤◌, ◌++◌, length, Some, None, is_some, IfOk, IfErr, OnOk, ◌⊎◌, ℕ};
ghost use Rattle.cjc_capread.specs.Bytes.Refused.{refusal};
ghost use Rattle.cjc_capread.specs.Bytes.declared.fault.Fault.TheVariants as faults;
ghost use Rattle.cjc_capwrite.specs.Package.{header_bytes, directory_bytes, applet_bytes, import_bytes};
ghost use Rattle.cjc_capwrite.specs.Pool.{pool_bytes};
ghost use Rattle.cjc_capwrite.specs.Class.{class_info_bytes};
ghost use Rattle.cjc_capwrite.specs.Method.{method_bytes};
ghost use Rattle.cjc_capwrite.specs.Statics.{static_field_bytes, reference_location_bytes};
ghost use Rattle.cjc_capwrite.specs.Export.{export_bytes};
ghost use Rattle.cjc_capwrite.specs.Descriptor.{descriptor_bytes};
ghost use Rattle.cjc_capwrite.specs.Writable.{IsWritable, IsSpelt};
ghost use Rattle.cjc_capwrite.specs.Files.{part, file, file_where, files_of, limit_of};

use crate::class::put_class_info;
use crate::descriptor::put_descriptor;
use crate::export::put_export;
use crate::limits::broken_limit;
use crate::method::put_method;
use crate::package::{put_applet, put_directory, put_header, put_import};
use crate::parts::put_count2;
use crate::pool::put_pool;
use crate::statics::{put_reference_location, put_static_field};
use cjc_capread::bytes::{Bytes, Fault, NoMemory, Out, Row, refused};
use cjc_capread::{
    Applet, CapTree, ClassInfo, ConstantPool, Descriptor, Directory, Export, Header, Import,
    Method, ReferenceLocation, StaticField,
};
use std::alloc::Global;

/// The component files of a package. Applet and Export may be absent.
pub struct CapFiles {
    pub header: Bytes,
    pub directory: Bytes,
    pub applet: Option<Bytes>,
    pub import: Bytes,
    pub pool: Bytes,
    pub class: Bytes,
    pub method: Bytes,
    pub statics: Bytes,
    pub locations: Bytes,
    pub export: Option<Bytes>,
    pub descriptor: Bytes,
}

impl Drop for CapFiles {
    fn drop(self) {
        let CapFiles {
            header: _header,
            directory: _directory,
            applet: _applet,
            import: _import,
            pool: _pool,
            class: _class,
            method: _method,
            statics: _statics,
            locations: _locations,
            export: _export,
            descriptor: _descriptor,
        } = self;
    }
}

impl CapFiles {
    /// No bytes in any file.
    fn empty(alloc: Global) -> CapFiles {
        CapFiles {
            header: Row::new(alloc),
            directory: Row::new(alloc),
            applet: None,
            import: Row::new(alloc),
            pool: Row::new(alloc),
            class: Row::new(alloc),
            method: Row::new(alloc),
            statics: Row::new(alloc),
            locations: Row::new(alloc),
            export: None,
            descriptor: Row::new(alloc),
        }
    }
}

fn header_info(alloc: Global, header: &Header) -> Result<Bytes, NoMemory>
    ensures { IfOk result (λ info. info ≡ header_bytes header.now) }
{
    let mut out = Out::new(alloc);
    put_header(&mut out, header)?;
    Ok(out.finish())
}

fn directory_info(alloc: Global, directory: &Directory) -> Result<Bytes, NoMemory>
    ensures { IfOk result (λ info. info ≡ directory_bytes directory.now) }
{
    let mut out = Out::new(alloc);
    put_directory(&mut out, directory)?;
    Ok(out.finish())
}

fn applet_info(alloc: Global, applet: &Option<Applet>) -> Result<Bytes, NoMemory>
    ensures { IfOk result (λ info. info ≡ part applet_bytes applet.now) }
{
    let mut out = Out::new(alloc);
    if let Some(applet) = applet {
        put_applet(&mut out, applet)?;
    }
    Ok(out.finish())
}

fn import_info(alloc: Global, import: &Option<Import>) -> Result<Bytes, NoMemory>
    ensures { IfOk result (λ info. info ≡ part import_bytes import.now) }
{
    let mut out = Out::new(alloc);
    if let Some(import) = import {
        put_import(&mut out, import)?;
    }
    Ok(out.finish())
}

fn pool_info(alloc: Global, pool: &Option<ConstantPool>) -> Result<Bytes, NoMemory>
    ensures { IfOk result (λ info. info ≡ part pool_bytes pool.now) }
{
    let mut out = Out::new(alloc);
    if let Some(pool) = pool {
        put_pool(&mut out, pool)?;
    }
    Ok(out.finish())
}

fn class_info(alloc: Global, class: &Option<ClassInfo>) -> Result<Bytes, NoMemory>
    ensures { IfOk result (λ info. info ≡ part class_info_bytes class.now) }
{
    let mut out = Out::new(alloc);
    if let Some(class) = class {
        put_class_info(&mut out, class)?;
    }
    Ok(out.finish())
}

fn method_info(alloc: Global, method: &Option<Method>) -> Result<Bytes, NoMemory>
    ensures { IfOk result (λ info. info ≡ part method_bytes method.now) }
{
    let mut out = Out::new(alloc);
    if let Some(method) = method {
        put_method(&mut out, method)?;
    }
    Ok(out.finish())
}

fn statics_info(alloc: Global, image: &Option<StaticField>) -> Result<Bytes, NoMemory>
    ensures { IfOk result (λ info. info ≡ part static_field_bytes image.now) }
{
    let mut out = Out::new(alloc);
    if let Some(image) = image {
        put_static_field(&mut out, image)?;
    }
    Ok(out.finish())
}

fn locations_info(alloc: Global, locations: &Option<ReferenceLocation>) -> Result<Bytes, NoMemory>
    ensures { IfOk result (λ info. info ≡ part reference_location_bytes locations.now) }
{
    let mut out = Out::new(alloc);
    if let Some(locations) = locations {
        put_reference_location(&mut out, locations)?;
    }
    Ok(out.finish())
}

fn export_info(alloc: Global, export: &Option<Export>) -> Result<Bytes, NoMemory>
    ensures { IfOk result (λ info. info ≡ part export_bytes export.now) }
{
    let mut out = Out::new(alloc);
    if let Some(export) = export {
        put_export(&mut out, export)?;
    }
    Ok(out.finish())
}

fn descriptor_info(alloc: Global, descriptor: &Option<Descriptor>) -> Result<Bytes, NoMemory>
    ensures { IfOk result (λ info. info ≡ part descriptor_bytes descriptor.now) }
{
    let mut out = Out::new(alloc);
    if let Some(descriptor) = descriptor {
        put_descriptor(&mut out, descriptor)?;
    }
    Ok(out.finish())
}

#[tactic(auto, unfolding(crate::specs::Files::file))]
fn file(alloc: Global, tag: u8, info: &Bytes) -> Result<Bytes, NoMemory>
    ensures { IfOk result (λ bytes. bytes ≡ file tag info.now) }
{
    let mut out = Out::new(alloc);
    out.put1(tag)?;
    put_count2(&mut out, info.items())?;
    out.put_slice(info.items())?;
    Ok(out.finish())
}

/// The file of a component that may be absent.
fn file_where(
    alloc: Global,
    is_there: bool,
    tag: u8,
    info: &Bytes,
) -> Result<Option<Bytes>, NoMemory>
    ensures { IfOk result (λ bytes. bytes ≡ file_where is_there tag info.now) }
{
    if is_there {
        Ok(Some(file(alloc, tag, info)?))
    } else {
        Ok(None)
    }
}

/// Tags 1 to 4.
fn fill_package(alloc: Global, tree: &CapTree, files: &mut CapFiles) -> Result<(), NoMemory>
    ensures { OnOk result (files.new ≡ record files.old {
      header = file 1 (header_bytes tree.now.header);
      directory = file 2 (directory_bytes tree.now.directory);
      applet = file_where (is_some tree.now.applet) 3
          (part applet_bytes tree.now.applet);
      import = file 4 (part import_bytes tree.now.import);
    }) }
{
    files.header = file(alloc, 1, &header_info(alloc, &tree.header)?)?;
    files.directory = file(alloc, 2, &directory_info(alloc, &tree.directory)?)?;
    files.applet = file_where(
        alloc,
        tree.applet.is_some(),
        3,
        &applet_info(alloc, &tree.applet)?,
    )?;
    files.import = file(alloc, 4, &import_info(alloc, &tree.import)?)?;
    Ok(())
}

/// Tags 5 to 8.
fn fill_code(alloc: Global, tree: &CapTree, files: &mut CapFiles) -> Result<(), NoMemory>
    ensures { OnOk result (files.new ≡ record files.old {
      pool = file 5 (part pool_bytes tree.now.pool);
      class = file 6 (part class_info_bytes tree.now.class);
      method = file 7 (part method_bytes tree.now.method);
      statics = file 8 (part static_field_bytes tree.now.statics);
    }) }
{
    files.pool = file(alloc, 5, &pool_info(alloc, &tree.pool)?)?;
    files.class = file(alloc, 6, &class_info(alloc, &tree.class)?)?;
    files.method = file(alloc, 7, &method_info(alloc, &tree.method)?)?;
    files.statics = file(alloc, 8, &statics_info(alloc, &tree.statics)?)?;
    Ok(())
}

/// Tags 9 to 11.
fn fill_tables(alloc: Global, tree: &CapTree, files: &mut CapFiles) -> Result<(), NoMemory>
    ensures { OnOk result (files.new ≡ record files.old {
      locations = file 9 (part reference_location_bytes
          tree.now.locations);
      export = file_where (is_some tree.now.export) 10 (part export_bytes tree.now.export);
      descriptor = file 11 (part descriptor_bytes tree.now.descriptor);
    }) }
{
    files.locations = file(alloc, 9, &locations_info(alloc, &tree.locations)?)?;
    files.export = file_where(
        alloc,
        tree.export.is_some(),
        10,
        &export_info(alloc, &tree.export)?,
    )?;
    files.descriptor = file(alloc, 11, &descriptor_info(alloc, &tree.descriptor)?)?;
    Ok(())
}

/// The component files of a tree, whatever limits it keeps: a number that has no room is cut to its low bytes.
pub fn files_of(alloc: Global, tree: &CapTree) -> Result<CapFiles, NoMemory>
    ensures { IfOk result (λ files. files ≡ files_of tree.now) }
{
    let mut files = CapFiles::empty(alloc);
    fill_package(alloc, tree, &mut files)?;
    fill_code(alloc, tree, &mut files)?;
    fill_tables(alloc, tree, &mut files)?;
    Ok(files)
}

/// The component files of a tree, each of which spells its part. Refused are, at the list, as 411 the tree
/// whose types end beyond 32,767 or have one of more than 255 nibbles, and as 416 the tree with a component that
/// is too large: Class beyond 32,767 bytes of info, another beyond 65,535.
pub fn write(alloc: Global, list: &[u8], tree: &CapTree) -> Result<CapFiles, Fault>
    requires writable { limit_of tree.now ≡ None → IsWritable tree.now }
    requires methods { length (part method_bytes tree.now.method) ≤ 65535 }

    // What is written are the files of the tree, which keeps the limits, and each spells its part.
    ensures limits { IfOk result (λ _. limit_of tree.now ≡ None) }
    ensures files { IfOk result (λ files. files ≡ files_of tree.now) }
    ensures spelt { IfOk result (IsSpelt tree.now) }

    // A refusal is by the limit that is broken.
    ensures refused { IfErr result (λ e. (e ≡ faults.NoMemory) ⊎ ((rule : ℕ) × (limit_of tree.now ≡ Some rule)
        × (e ≡ faults.Refused (refusal list.now rule 0)))) }
{
    match broken_limit(tree) {
        Some(rule) => Err(refused(alloc, list, rule, 0)),
        None => Ok(files_of(alloc, tree)?),
    }
}
