//! The public and protected fields of a class as its export file lists them, with the values of constants.
//! Called by `class`.

ghost use Rattle.std.specs.Prelude.{◌≡◌, ◌++◌, ◌∷◌, [], if◌then◌else◌, IfOk, None, OnOk};
ghost use Rattle.cjc_world.specs.Working.Known.{class_of};
ghost use Rattle.cjc_components.specs.LowerTokens.Fields.{is_constant};
ghost use Rattle.cjc_components.specs.LowerTokens.Members.{is_exposed};
ghost use Rattle.cjc_components.specs.Class.{fields_of};
ghost use Rattle.cjc_components.specs.ExportFile.{field_entry, fields_from};
ghost use Rattle.cjc_exported.specs.ExportFile.Working.Sources.{AreSources, package_in};

use crate::export_file::method::is_exposed;
use crate::export_file::source::{Source, place_after};
use cjc_world::Known;
use cjc_world::bytes::{Bytes, NoMemory, Row};
use cjc_world::classfile::FieldTree;
use cjc_world::export_file::{ExportField, may_be_constant};
use std::alloc::Global;

/// The value of a constant.
fn constant_of(field: &FieldTree) -> Option<i32>
    ensures { result ≡ (if is_constant field.now then field.now.constant else None) }
{
    if may_be_constant(field.flags, field.desc.items()) {
        field.constant
    } else {
        None
    }
}

fn entry(alloc: Global, token: u8, field: &FieldTree) -> Result<ExportField, NoMemory>
    ensures { IfOk result (λ f. f ≡ record {
      token = token;
      flags = field.now.flags;
      name = field.now.name;
      desc = field.now.desc;
      constant = if is_constant field.now then field.now.constant else None;
    }) }
{
    let name = Bytes::copy_of(alloc, field.name.items())?;
    let desc = Bytes::copy_of(alloc, field.desc.items())?;
    Ok(ExportField {
        token,
        flags: field.flags,
        name,
        desc,
        constant: constant_of(field),
    })
}

/// Puts a field at the end where it is public or protected.
fn put_field(
    alloc: Global,
    source: &Source<'_, '_>,
    class: Known<'_, '_>,
    place: usize,
    field: &FieldTree,
    fields: &mut Row<ExportField>,
) -> Result<(), NoMemory>
    requires { AreSources source.now }
    ensures { OnOk result (fields.new ≡ fields.old ++ (if is_exposed field.now.flags
        then field_entry (package_in source.now) (class_of class.entry) place field.now ∷ [] else [])) }
{
    if is_exposed(field.flags) {
        let token = source.member_token(class, place_after(0, place)?);
        fields.push(entry(alloc, token, field)?)?;
    }
    Ok(())
}

fn put_fields(
    alloc: Global,
    source: &Source<'_, '_>,
    class: Known<'_, '_>,
    trees: &[FieldTree],
    fields: &mut Row<ExportField>,
) -> Result<(), NoMemory>
    requires { AreSources source.now }
    ensures { OnOk result (fields.new ≡ fields.old ++ fields_from (package_in source.now) (class_of class.entry) 0
        trees.now) }
{
    for place in 0..trees.len() {
        put_field(alloc, source, class, place, &trees[place], fields)?;
    }
    Ok(())
}

/// The public and protected fields of a class of the package, in the order of its file.
pub(crate) fn fields(
    alloc: Global,
    source: &Source<'_, '_>,
    class: Known<'_, '_>,
) -> Result<Row<ExportField>, NoMemory>
    requires { AreSources source.now }
    ensures { IfOk result (λ fields. fields ≡ fields_from (package_in source.now) (class_of class.entry) 0
        (fields_of source.now.world.now (class_of class.entry))) }
{
    let mut fields = Row::new(alloc);
    if let Some(tree) = source.world.classes().items().get(class.number() as usize) {
        put_fields(alloc, source, class, tree.fields.items(), &mut fields)?;
    }
    Ok(fields)
}
