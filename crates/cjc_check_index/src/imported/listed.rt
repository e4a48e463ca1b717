//! What each class lists itself, by token (Java Card Virtual Machine Specification 2.2.2, sections 5.8 and 5.9).
//! Called by `tokens`. It knows no other class.

ghost use Rattle.std.specs.Prelude.{◌≡◌, ◌==◌, ◌&&◌, IfOk, length, map};
ghost use Rattle.std.specs.List.{list_any};
ghost use Rattle.cjc_check_rules.specs.ExportFile.Supers.{is_virtual};
ghost use Rattle.cjc_check_rules.specs.Members.{is_unbound};
ghost use Rattle.cjc_check_index.specs.Imported.Tokens.{all_tokens, each_class};
ghost use Rattle.cjc_check_index.specs.Imported.Working.Rows.{is_asked, is_wanted, lists_field, lists_method};
ghost use Rattle.cjc_check_index.specs.Imported.Working.Rows.{with_answer};

use crate::imported::classes::ImportedClass;
use cjc_check_rules::bytes::{NoMemory, Row, is_private, is_static};
use cjc_check_rules::export_file::{ExportField, ExportMethod};
use std::alloc::Global;

/// Whether a method is static or a constructor.
fn is_unbound(method: &ExportMethod) -> bool
    ensures { result ≡ is_unbound method.now }
{
    is_static(method.flags) || method.name.items() == b"<init>".as_slice()
}

/// Whether a method is neither static nor private, and no constructor.
fn is_virtual(method: &ExportMethod) -> bool
    ensures { result ≡ is_virtual method.now }
{
    !(is_static(method.flags)
        || is_private(method.flags)
        || method.name.items() == b"<init>".as_slice())
}

/// Whether a method is asked for.
fn is_asked(unbound: bool, method: &ExportMethod) -> bool
    ensures { result ≡ is_asked unbound method.now }
{
    if unbound {
        is_unbound(method)
    } else {
        is_virtual(method)
    }
}

/// Whether a field is asked for.
fn is_wanted(statics: bool, field: &ExportField) -> bool
    ensures { result ≡ is_wanted statics field.now }
{
    field.constant.is_none() && is_static(field.flags) == statics
}

/// Puts an answer down at a token.
fn with_answer(asked: bool, answers: Vec<bool>, token: u8) -> Vec<bool>
    requires { length answers.items ≡ 256 }
    ensures { result.items ≡ with_answer asked answers.items token }
{
    let mut answers = answers;
    if asked {
        answers[usize::from(token)] = true;
    }
    answers
}

/// The tokens of the methods that are asked for.
fn methods_of(alloc: Global, unbound: bool, methods: &[ExportMethod]) -> Result<Row<bool>, NoMemory>
    ensures { IfOk result (λ row. row ≡ map (λ token. list_any (λ m. is_asked unbound m && m.token == token)
        methods.now) all_tokens) }
{
    let mut answers = vec![in alloc; false; 256]?;
    for method in methods {
        answers = with_answer(is_asked(unbound, method), answers, method.token);
    }
    Ok(Row::of(answers))
}

/// The tokens of the fields that are asked for.
fn fields_of(alloc: Global, statics: bool, fields: &[ExportField]) -> Result<Row<bool>, NoMemory>
    ensures { IfOk result (λ row. row ≡ map (λ token. list_any (λ f. is_wanted statics f && f.token == token)
        fields.now) all_tokens) }
{
    let mut answers = vec![in alloc; false; 256]?;
    for field in fields {
        answers = with_answer(is_wanted(statics, field), answers, field.token);
    }
    Ok(Row::of(answers))
}

/// Of each class the tokens of its methods that are asked for.
pub(crate) fn method_tables(
    alloc: Global,
    unbound: bool,
    classes: &[ImportedClass<'_>],
) -> Result<Row<Row<bool>>, NoMemory>
    ensures { IfOk result (λ tables. tables ≡ each_class (lists_method unbound) classes.now) }
{
    let mut tables = Row::new(alloc);
    for listed in classes {
        tables.push(methods_of(alloc, unbound, listed.class.methods.items())?)?;
    }
    Ok(tables)
}

/// Of each class the tokens of its fields that are asked for.
pub(crate) fn field_tables(
    alloc: Global,
    statics: bool,
    classes: &[ImportedClass<'_>],
) -> Result<Row<Row<bool>>, NoMemory>
    ensures { IfOk result (λ tables. tables ≡ each_class (lists_field statics) classes.now) }
{
    let mut tables = Row::new(alloc);
    for listed in classes {
        tables.push(fields_of(alloc, statics, listed.class.fields.items())?)?;
    }
    Ok(tables)
}
