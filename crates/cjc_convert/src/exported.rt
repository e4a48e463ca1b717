//! What the export file of a package of the form says.

ghost use Rattle.std.specs.Prelude.{◌≡◌, IfOk};
ghost use Rattle.cjc_convert.specs.Conversion.{exported as exported_lem, line_of};

use cjc_bytes::{Bytes, NoMemory, Row};
use cjc_classfile::{ClassTree, MethodTree};
use cjc_export::{ExportClass, ExportMethod, ExportTree};
use cjc_list::List;
use std::alloc::Global;

fn export_method(
    alloc: Global,
    flags: u16,
    name: &[u8],
    desc: &[u8],
) -> Result<ExportMethod, NoMemory>
    ensures { IfOk result (λ method. method ≡ record { token = 0; flags = flags; name = name.now; desc = desc.now }) }
{
    Ok(ExportMethod {
        token: 0,
        flags,
        name: Bytes::copy_of(alloc, name)?,
        desc: Bytes::copy_of(alloc, desc)?,
    })
}

/// The class with its method, and the method that it has from java/lang/Object.
pub(crate) fn exported(
    alloc: Global,
    list: &List,
    tree: &ClassTree<'_>,
    method: &MethodTree<'_>,
) -> Result<ExportTree, NoMemory>
    ensures { IfOk result (λ export. export ≡ exported_lem (line_of list.now) tree.now method.now) }
{
    let mut supers = Row::new(alloc);
    supers.push(Bytes::copy_of(alloc, b"java/lang/Object")?)?;
    let mut methods = Row::new(alloc);
    let (name, desc) = (method.name.items(), method.desc.items());
    methods.push(export_method(alloc, 0x0009, name, desc)?)?;
    let equals = export_method(alloc, 0x0001, b"equals", b"(Ljava/lang/Object;)Z")?;
    methods.push(equals)?;
    let mut classes = Row::new(alloc);
    classes.push(ExportClass {
        token: 0,
        flags: 0x0001,
        name: Bytes::copy_of(alloc, tree.name.items())?,
        supers,
        interfaces: Row::new(alloc),
        fields: Row::new(alloc),
        methods,
    })?;
    Ok(ExportTree {
        name: Bytes::copy_of(alloc, list.package.items())?,
        aid: Bytes::copy_of(alloc, list.aid.items())?,
        major: list.major,
        minor: list.minor,
        library: true,
        classes,
    })
}
