//! The tokens of members of imported classes, as their export files list them; none is assigned here.

ghost use Rattle.std.specs.Prelude.{◌≡◌, ◌++◌, map, IfOk, OnOk};
ghost use Rattle.cjc_tokens.specs.Tokens.{imports_of, listed_field_token, listed_method_token, of_import};

use crate::slot::is_initialiser;
use cjc_bytes::{NoMemory, Row};
use cjc_world::export_file::{ExportClass, ExportField, ExportMethod, ExportTree};
use std::alloc::Global;

fn field_token(field: &ExportField) -> Option<u8>
    ensures { result ≡ listed_field_token field.now }
{
    if field.constant.is_some() {
        None
    } else {
        Some(field.token)
    }
}

fn method_token(method: &ExportMethod) -> Option<u8>
    ensures { result ≡ listed_method_token method.now }
{
    if is_initialiser(method.name.items()) {
        None
    } else {
        Some(method.token)
    }
}

fn put_fields(tokens: &mut Row<Option<u8>>, fields: &[ExportField]) -> Result<(), NoMemory>
    ensures { OnOk result (tokens.new ≡ tokens.old ++ map listed_field_token fields.now) }
{
    for field in fields {
        tokens.push(field_token(field))?;
    }
    Ok(())
}

fn put_methods(tokens: &mut Row<Option<u8>>, methods: &[ExportMethod]) -> Result<(), NoMemory>
    ensures { OnOk result (tokens.new ≡ tokens.old ++ map listed_method_token methods.now) }
{
    for method in methods {
        tokens.push(method_token(method))?;
    }
    Ok(())
}

/// The tokens of the members of an imported class, as they stand in its file.
fn class_tokens(alloc: Global, class: &ExportClass) -> Result<Row<Option<u8>>, NoMemory>
    ensures { IfOk result (λ tokens. tokens ≡ of_import class.now) }
{
    let mut tokens = Row::new(alloc);
    put_fields(&mut tokens, class.fields.items())?;
    put_methods(&mut tokens, class.methods.items())?;
    Ok(tokens)
}

fn put_classes(
    alloc: Global,
    rows: &mut Row<Row<Option<u8>>>,
    classes: &[ExportClass],
) -> Result<(), NoMemory>
    ensures { OnOk result (rows.new ≡ rows.old ++ map of_import classes.now) }
{
    for class in classes {
        rows.push(class_tokens(alloc, class)?)?;
    }
    Ok(())
}

/// The tokens of the members of all imported classes, in list order.
pub(crate) fn import_tokens(
    alloc: Global,
    exports: &[ExportTree],
) -> Result<Row<Row<Option<u8>>>, NoMemory>
    ensures { IfOk result (λ rows. rows ≡ imports_of exports.now) }
{
    let mut rows = Row::new(alloc);
    for tree in exports {
        put_classes(alloc, &mut rows, tree.classes.items())?;
    }
    Ok(rows)
}
