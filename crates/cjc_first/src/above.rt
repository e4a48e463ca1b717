//! What a class gets from java/lang/Object of an export file.

ghost use Rattle.std.specs.Prelude.{◌≡◌, ◌++◌, ℕ, OnOk, IfOk, IfSome, IfNone, option_to_list};
ghost use Rattle.std.specs.Option.{option_copied};
ghost use Rattle.cjc_export.specs.declared.tree.ExportClass.{ExportClass as Root};
ghost use Rattle.cjc_first.specs.Above.{root_of as root_of_lem, is_virtual as is_virtual_lem, takes_token as takes_token_lem, free_token as free_token_lem, is_inherited as is_inherited_lem, inherited, with_token as with_token_lem};
ghost use Rattle.cjc_first.specs.Above.{IsRoot};

use cjc_bytes::{
    Bytes, NoMemory, Row, is_interface, is_private, is_protected, is_public, is_static,
};
use cjc_export::{ExportClass, ExportMethod, ExportTree};
use std::alloc::Global;

// The class java/lang/Object.
fn object_in(lang: &ExportTree) -> Option<&ExportClass>
    ensures { option_copied result ≡ root_of_lem lang.now }
{
    let mut left = lang.classes.items();
    while let [first, more @ ..] = left {
        if first.name.items() == b"java/lang/Object".as_slice() {
            return Some(first);
        }
        left = more;
    }
    None
}

/// The class java/lang/Object, where it is no interface and nothing stands above it.
pub fn root_of(lang: &ExportTree) -> Option<&ExportClass>
    ensures found { IfSome result (λ root. IsRoot lang.now root.now) }
    ensures none { IfNone result ((root : Root) → IsRoot lang.now root → ⊥) }
{
    let root = object_in(lang)?;
    if is_interface(root.flags)
        || !root.supers.items().is_empty()
        || !root.interfaces.items().is_empty()
    {
        return None;
    }
    Some(root)
}

// Whether the method is neither static nor a constructor.
fn is_virtual(method: &ExportMethod) -> bool
    ensures { result ≡ is_virtual_lem method.now }
{
    !is_static(method.flags) && method.name.items() != b"<init>".as_slice()
}

// Whether no new method of a subclass has the method's token.
fn takes_token(method: &ExportMethod) -> bool
    ensures { result ≡ takes_token_lem method.now }
{
    is_virtual(method) && !is_private(method.flags)
}

/// The token next to the greatest that is taken, or 0.
pub(crate) fn free_token(methods: &[ExportMethod]) -> u16
    ensures { result ≡ free_token_lem methods.now }
{
    let mut free = 0;
    let mut left = methods;
    while let [first, more @ ..] = left {
        if takes_token(first) {
            free = free.max(u16::from(first.token) + 1);
        }
        left = more;
    }
    free
}

// Whether a class of another package inherits the method.
fn is_inherited(method: &ExportMethod) -> bool
    ensures { result ≡ is_inherited_lem method.now }
{
    is_virtual(method) && (is_public(method.flags) || is_protected(method.flags))
}

// The inherited method of a token.
fn with_token(token: u8, methods: &[ExportMethod]) -> Option<&ExportMethod>
    ensures { option_to_list (option_copied result) ≡ with_token_lem token methods.now }
{
    let mut left = methods;
    while let [first, more @ ..] = left {
        if is_inherited(first) && first.token == token {
            return Some(first);
        }
        left = more;
    }
    None
}

fn copy_of(alloc: Global, method: &ExportMethod) -> Result<ExportMethod, NoMemory>
    ensures { IfOk result (λ copy. copy ≡ method.now) }
{
    Ok(ExportMethod {
        token: method.token,
        flags: method.flags,
        name: Bytes::copy_of(alloc, method.name.items())?,
        desc: Bytes::copy_of(alloc, method.desc.items())?,
    })
}

/// Puts the inherited methods of a class behind these, by token.
pub(crate) fn put_inherited(
    alloc: Global,
    root: &ExportClass,
    methods: &mut Row<ExportMethod>,
) -> Result<(), NoMemory>
    ensures { OnOk result (methods.new ≡ methods.old ++ inherited root.now) }
{
    for token in 0..128 {
        if let Some(method) = with_token(token, root.methods.items()) {
            methods.push(copy_of(alloc, method)?)?;
        }
    }
    Ok(())
}
