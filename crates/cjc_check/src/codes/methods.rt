//! What Descriptor says of the methods of classes, one behind the other (Java Card Virtual Machine
//! Specification 2.2.2, section 6.13). Called by `cutting`.

ghost use Rattle.std.specs.Prelude.{◌≡◌, ◌++◌, IfOk, OnOk};
ghost use Rattle.cjc_check.specs.Codes.Working.Steps.{methods_of, methods_of_all};
ghost use Rattle.cjc_check_tables.specs.CheckIndex.Lookup.Indexed.{IsIndexed};

use cjc_capread::bytes::{NoMemory, Row};
use cjc_capread::{ClassDescriptor, MethodDescriptor};
use cjc_check_tables::check_index::lookup::{Names, is_own_class};
use std::alloc::Global;

/// Puts methods at the end.
fn put_methods(
    all: &mut Row<MethodDescriptor>,
    methods: &[MethodDescriptor],
) -> Result<(), NoMemory>
    ensures { OnOk result (all.new ≡ all.old ++ methods.now) }
{
    for method in methods {
        all.push(*method)?;
    }
    Ok(())
}

/// Puts the methods of a class at the end, unless it is an interface.
fn put_class(
    all: &mut Row<MethodDescriptor>,
    names: &Names<'_>,
    class: &ClassDescriptor,
) -> Result<(), NoMemory>
    requires { IsIndexed names.now }
    ensures { OnOk result (all.new ≡ all.old ++ methods_of names.now.parts.now.class.now class.now) }
{
    if is_own_class(names, class.this_class) {
        put_methods(all, class.methods.items())
    } else {
        Ok(())
    }
}

/// The methods of classes.
pub(crate) fn methods_of_all(
    alloc: Global,
    names: &Names<'_>,
    classes: &[ClassDescriptor],
) -> Result<Row<MethodDescriptor>, NoMemory>
    requires { IsIndexed names.now }
    ensures { IfOk result (λ r. r ≡ methods_of_all names.now.parts.now.class.now classes.now) }
{
    let mut all = Row::new(alloc);
    for class in classes {
        put_class(&mut all, names, class)?;
    }
    Ok(all)
}
