//! What the export file of a package of the form says.

ghost use Rattle.std.specs.Prelude.{◌≡◌, IfOk};
ghost use Rattle.cjc_first.specs.Exported.{exported as exported_lem};
ghost use Rattle.cjc_first.specs.FirstForm.{line_of};

use crate::above::put_inherited;
use cjc_bytes::{Bytes, NoMemory, Row};
use cjc_classfile::{ClassTree, MethodTree};
use cjc_export::{ExportClass, ExportMethod, ExportTree};
use cjc_list::List;
use std::alloc::Global;

// The static method, which has the first token.
fn export_method(alloc: Global, method: &MethodTree<'_>) -> Result<ExportMethod, NoMemory>
    ensures { IfOk result (λ exported. exported ≡ record { token = 0; flags = 0x0009; name = method.now.name; desc = method.now.desc }) }
{
    Ok(ExportMethod {
        token: 0,
        flags: 0x0009,
        name: Bytes::copy_of(alloc, method.name.items())?,
        desc: Bytes::copy_of(alloc, method.desc.items())?,
    })
}

/// The class with its method, and the methods that it inherits from java/lang/Object.
pub fn exported(
    alloc: Global,
    list: &List,
    root: &ExportClass,
    tree: &ClassTree<'_>,
    method: &MethodTree<'_>,
) -> Result<ExportTree, NoMemory>
    ensures { IfOk result (λ export. export ≡ exported_lem (line_of list.now) root.now tree.now method.now) }
{
    let mut supers = Row::new(alloc);
    supers.push(Bytes::copy_of(alloc, b"java/lang/Object")?)?;
    let mut methods = Row::new(alloc);
    methods.push(export_method(alloc, method)?)?;
    put_inherited(alloc, root, &mut methods)?;
    let mut classes = Row::new(alloc);
    classes.push(ExportClass {
        token: 0,
        flags: 0x0001,
        name: Bytes::copy_of(alloc, tree.name.items())?,
        supers,
        interfaces: Row::new(alloc),
        fields: Row::new(alloc),
        methods,
    })?;
    Ok(ExportTree {
        name: Bytes::copy_of(alloc, list.package.items())?,
        aid: Bytes::copy_of(alloc, list.aid.items())?,
        major: list.major,
        minor: list.minor,
        library: true,
        classes,
    })
}
