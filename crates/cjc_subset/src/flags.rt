//! Rule 304: flags that a class, a field or a method may not have.

ghost use Rattle.std.specs.Prelude.{◌≡◌};
ghost use Rattle.cjc_subset.specs.Flags.{has_two_accesses, is_unfit_class, is_unfit_field, is_unfit_method};
ghost use Rattle.cjc_subset.specs.Flags.{is_unfit_method_kind};

use crate::members::{is_constructor, is_initialiser};
use cjc_bytes::{
    ACC_ANNOTATION, ACC_ENUM, ACC_NATIVE, ACC_STRICT, ACC_SYNCHRONIZED, ACC_TRANSIENT,
    ACC_VOLATILE, has, is_abstract, is_private, is_protected, is_public, is_static,
};

/// More than one of public, private and protected.
fn has_two_accesses(flags: u16) -> bool
    ensures { result ≡ has_two_accesses flags }
{
    is_public(flags) && is_private(flags)
        || is_public(flags) && is_protected(flags)
        || is_private(flags) && is_protected(flags)
}

/// An enum or an annotation.
pub(crate) fn is_unfit_class(flags: u16) -> bool
    ensures { result ≡ is_unfit_class flags }
{
    has(flags, ACC_ENUM) || has(flags, ACC_ANNOTATION)
}

/// Flags that a field of a class or of an interface may not have.
pub(crate) fn is_unfit_field(interface: bool, flags: u16) -> bool
    ensures { result ≡ is_unfit_field interface flags }
{
    has_two_accesses(flags)
        || interface && !is_static(flags)
        || has(flags, ACC_VOLATILE)
        || has(flags, ACC_TRANSIENT)
}

/// Flags that no method may have, whatever its name.
fn is_unfit_method_kind(flags: u16) -> bool
    ensures { result ≡ is_unfit_method_kind flags }
{
    has(flags, ACC_NATIVE)
        || has(flags, ACC_SYNCHRONIZED)
        || has(flags, ACC_STRICT)
        || has_two_accesses(flags)
        || is_abstract(flags) && (is_static(flags) || is_private(flags))
}

/// Flags that a method of this name in a class or interface may not have, with or without code.
pub(crate) fn is_unfit_method(interface: bool, flags: u16, name: &[u8], has_code: bool) -> bool
    ensures { result ≡ is_unfit_method interface flags name.now has_code }
{
    is_unfit_method_kind(flags)
        || is_abstract(flags) && (is_constructor(name) || is_initialiser(name))
        || is_initialiser(name) && !is_static(flags)
        || interface && has_code && !is_initialiser(name)
}
