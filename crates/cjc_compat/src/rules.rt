//! Rules 741 to 745, each as a test of the old and the new. `compat` asks them. Nothing here knows a place.

ghost use Rattle.std.specs.Prelude.{◌≡◌, ◌+◌, max, option_map, if◌then◌else◌, IfOk};
ghost use Rattle.std.specs.List.{find, list_any};
ghost use Rattle.cjc_compat.specs.Rules.{is_constant, is_field, is_less, is_lost_field, is_lost_method, is_method};
ghost use Rattle.cjc_compat.specs.Rules.{is_of_kind, is_other_class, is_other_package, is_other_table, is_shareable};
ghost use Rattle.cjc_compat.specs.Rules.{same, virtual_end, with_token};
ghost use Rattle.cjc_export.specs.Supers.{is_virtual};

use crate::names::lacks_one;
use cjc_export::bytes::{
    ACC_SHAREABLE, NoMemory, is_abstract, is_final, is_interface, is_private, is_static,
};
use cjc_export::{ExportClass, ExportField, ExportMethod, ExportTree};
use std::alloc::Global;

/// Whether both are so, or neither is.
fn same(left: bool, right: bool) -> bool
    ensures { result ≡ same left right }
{
    if left { right } else { !right }
}

/// 741: another package, another major version, or a lower minor version.
pub(crate) fn is_other_package(old: &ExportTree, new: &ExportTree) -> bool
    ensures { result ≡ is_other_package old.now new.now }
{
    new.name.items() != old.name.items()
        || new.aid.items() != old.aid.items()
        || new.major != old.major
        || new.minor < old.minor
}

/// The class of a token.
pub(crate) fn with_token(classes: &[ExportClass], token: u8) -> Option<&ExportClass>
    ensures { option_map (λ c. c.now) result ≡ with_token token classes.now }
{
    classes.iter().find(|c| c.token == token)
}

fn is_shareable(flags: u16) -> bool
    ensures { result ≡ is_shareable flags }
{
    0 < flags & ACC_SHAREABLE
}

fn is_of_kind(old: u16, new: u16) -> bool
    ensures { result ≡ is_of_kind old new }
{
    same(is_interface(new), is_interface(old))
        && same(is_abstract(new), is_abstract(old))
        && same(is_final(new), is_final(old))
        && same(is_shareable(new), is_shareable(old))
}

/// 742 of a class whose token is there: another name, or another kind.
pub(crate) fn is_other_class(old: &ExportClass, new: &ExportClass) -> bool
    ensures { result ≡ is_other_class old.now new.now }
{
    new.name.items() != old.name.items() || !is_of_kind(old.flags, new.flags)
}

fn is_constant(field: &ExportField) -> bool
    ensures { result ≡ is_constant field.now }
{
    field.constant.is_some()
}

fn is_field(old: &ExportField, new: &ExportField) -> bool
    ensures { result ≡ is_field old.now new.now }
{
    !is_constant(new)
        && new.token == old.token
        && new.name.items() == old.name.items()
        && new.desc.items() == old.desc.items()
        && same(is_static(new.flags), is_static(old.flags))
}

fn has_field(fields: &[ExportField], old: &ExportField) -> bool
    ensures { result ≡ list_any (λ f. is_field old.now f) fields.now }
{
    fields.iter().any(|f| is_field(old, f))
}

/// 743 of a field: it is no constant, and none of the new ones is it.
pub(crate) fn is_lost_field(fields: &[ExportField], old: &ExportField) -> bool
    ensures { result ≡ is_lost_field fields.now old.now }
{
    !is_constant(old) && !has_field(fields, old)
}

fn is_method(old: &ExportMethod, new: &ExportMethod) -> bool
    ensures { result ≡ is_method old.now new.now }
{
    new.token == old.token
        && new.name.items() == old.name.items()
        && new.desc.items() == old.desc.items()
        && same(is_static(new.flags), is_static(old.flags))
}

fn has_method(methods: &[ExportMethod], old: &ExportMethod) -> bool
    ensures { result ≡ list_any (λ m. is_method old.now m) methods.now }
{
    methods.iter().any(|m| is_method(old, m))
}

/// 743 of a method: none of the new ones is it.
pub(crate) fn is_lost_method(methods: &[ExportMethod], old: &ExportMethod) -> bool
    ensures { result ≡ is_lost_method methods.now old.now }
{
    !has_method(methods, old)
}

fn is_virtual(method: &ExportMethod) -> bool
    ensures { result ≡ is_virtual method.now }
{
    !(is_static(method.flags)
        || is_private(method.flags)
        || method.name.items() == b"<init>".as_slice())
}

/// The least number above a token, or the end so far where that is greater; a method that is not virtual counts for
/// nothing.
fn end_after(end: u16, method: &ExportMethod) -> u16
    ensures { result ≡ (if is_virtual method.now then max end (method.now.token + 1) else end) }
{
    let next = u16::from(method.token) + 1;
    if is_virtual(method) && end < next {
        next
    } else {
        end
    }
}

/// The least number above all tokens of virtual methods.
fn virtual_end(methods: &[ExportMethod]) -> u16
    ensures { result ≡ virtual_end methods.now }
{
    let mut end = 0;
    for method in methods {
        end = end_after(end, method);
    }
    end
}

/// 744: another number of an interface's methods, or another greatest virtual token of a class that is not final.
pub(crate) fn is_other_table(old: &ExportClass, new: &ExportClass) -> bool
    ensures { result ≡ is_other_table old.now new.now }
{
    let was = old.methods.items();
    let is = new.methods.items();
    if is_interface(old.flags) {
        is.len() != was.len()
    } else {
        !is_final(old.flags) && virtual_end(is) != virtual_end(was)
    }
}

/// 745: a super or an interface is not listed any more.
pub(crate) fn is_less(alloc: Global, old: &ExportClass, new: &ExportClass) -> Result<bool, NoMemory>
    ensures { IfOk result (λ less. less ≡ is_less old.now new.now) }
{
    let supers = lacks_one(alloc, new.listed.items(), old.listed.items())?;
    let interfaces = lacks_one(alloc, new.interfaces.items(), old.interfaces.items())?;
    Ok(supers || interfaces)
}
