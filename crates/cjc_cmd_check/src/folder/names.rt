//! The names of the files that are read, and which components there are. It knows no shelf.

ghost use Rattle.std.specs.Prelude.{◌≡◌, ◌+◌, ◌-◌, ◌<◌, ◌≤◌, ◌^◌, ◌==◌, not, get_or, map, length, IfOk};
ghost use Rattle.cjc_check.specs.LowerCheckRules.Consistent.{file_name};
ghost use Rattle.cjc_cmd_check.specs.Folder.Reads.{component_name, export_names, has_size, tags_of, tags_with_size};

use cjc_bytes::{Bytes, Fault, FileLine, NoMemory, Out, Row};
use cjc_capread::read;
use std::alloc::Global;

/// The name of a component's file by its tag, the folder aside.
pub fn file_name(tag: u8) -> &'static [u8]
    ensures { result.now ≡ file_name tag }
{
    match tag {
        1 => b"Header.cap",
        2 => b"Directory.cap",
        3 => b"Applet.cap",
        4 => b"Import.cap",
        5 => b"ConstantPool.cap",
        6 => b"Class.cap",
        7 => b"Method.cap",
        8 => b"StaticField.cap",
        9 => b"RefLocation.cap",
        10 => b"Export.cap",
        _ => b"Descriptor.cap",
    }
}

/// The name of a component's file in the folder.
pub fn component_name(alloc: Global, dir: &[u8], tag: u8) -> Result<Bytes, NoMemory>
    ensures { IfOk result (λ name. name ≡ component_name dir.now tag) }
{
    let mut name = Out::new(alloc);
    name.put_slice(dir)?;
    name.put_slice(b"/")?;
    name.put_slice(file_name(tag))?;
    Ok(name.finish())
}

/// The names of the files of components of these tags in the folder.
pub(crate) fn component_names(
    alloc: Global,
    dir: &[u8],
    tags: &[u8],
) -> Result<Row<Bytes>, NoMemory>
    ensures { IfOk result (λ names. names ≡ map (component_name dir.now) tags.now) }
{
    let mut names = Row::new(alloc);
    for tag in tags {
        names.push(component_name(alloc, dir, *tag)?)?;
    }
    Ok(names)
}

/// The names of the export files among the lines of a list, in their order.
pub fn export_names(alloc: Global, lines: &[FileLine]) -> Result<Row<Bytes>, NoMemory>
    ensures { IfOk result (λ names. names ≡ export_names lines.now) }
{
    let mut names = Row::new(alloc);
    for line in lines {
        if !line.class_file {
            names.push(Bytes::copy_of(alloc, line.name.items())?)?;
        }
    }
    Ok(names)
}

/// Whether a size of a component is not 0.
fn has_size(sizes: &[u64], tag: u8) -> bool
    requires { 1 ≤ tag }
    ensures { result ≡ has_size sizes.now tag }
{
    match sizes.get(usize::from(tag) - 1) {
        Some(size) => *size != 0,
        None => false,
    }
}

/// The tags from Applet to Descriptor whose size is not 0.
fn tags_with_size(alloc: Global, sizes: &[u64]) -> Result<Row<u8>, NoMemory>
    ensures { IfOk result (λ tags. tags ≡ tags_with_size sizes.now) }
{
    let mut tags = Row::new(alloc);
    for tag in 3..12u8 {
        if has_size(sizes, tag) {
            tags.push(tag)?;
        }
    }
    Ok(tags)
}

/// The tags of the components other than Header and Directory that the bytes of a Directory say are there; none
/// where they spell no Directory.
pub(crate) fn tags_of(alloc: Global, bytes: &[u8]) -> Result<Row<u8>, NoMemory>
    requires { length bytes.now < 2 ^ 32 }
    ensures { IfOk result (λ tags. tags ≡ tags_of bytes.now) }
{
    match read(alloc, b"Directory.cap", 2, bytes) {
        Ok(component) => match component.into_directory() {
            Some(directory) => tags_with_size(alloc, directory.component_sizes.items()),
            None => Ok(Row::new(alloc)),
        },
        Err(Fault::Refused(_)) => Ok(Row::new(alloc)),
        Err(Fault::NoMemory) => Err(NoMemory),
    }
}
