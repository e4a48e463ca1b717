//! What instructions need of the constant pool (Java Virtual Machine Specification, 4.9.1 and 6.5).

ghost use Rattle.std.specs.Prelude.{◌≡◌, slice_get};
ghost use Rattle.cjc_code.specs.Items.{needed, is_class, is_field, is_method, is_interface_method, meets};

use crate::table::Family;
use cjc_classfile::{ItemKind, PoolItem};

/// What the index of an instruction has to name.
#[derive(Clone, Copy)]
pub(crate) enum Need {
    /// The instruction has no index.
    Nothing,
    /// Any entry.
    Any,
    Class,
    Field,
    Method,
    /// A method of a class or of an interface.
    AnyMethod,
    InterfaceMethod,
}

/// What the index of an instruction has to name, in a class file of this major version.
pub(crate) fn needed(major: u16, family: Family) -> Need
    ensures { result ≡ needed major family }
{
    match family {
        Family::Constant | Family::UnsupportedConstant => Need::Any,
        Family::Static(_) | Family::Field(_) => Need::Field,
        Family::CallVirtual => Need::Method,
        Family::CallDirect if major >= 52 => Need::AnyMethod,
        Family::CallDirect => Need::Method,
        Family::CallInterface => Need::InterfaceMethod,
        Family::New
        | Family::ANewArray
        | Family::CheckCast
        | Family::InstanceOf
        | Family::UnsupportedClass => Need::Class,
        _ => Need::Nothing,
    }
}

/// Whether a class is at an index.
fn is_class(pool: &[PoolItem<'_>], index: u16) -> bool
    ensures { result ≡ is_class (slice_get pool.now index) }
{
    match pool.get(usize::from(index)) {
        Some(item) => matches!(item.kind, ItemKind::Class(_)),
        None => false,
    }
}

/// Whether a field is at an index.
fn is_field(pool: &[PoolItem<'_>], index: u16) -> bool
    ensures { result ≡ is_field (slice_get pool.now index) }
{
    match pool.get(usize::from(index)) {
        Some(item) => matches!(item.kind, ItemKind::Field(_)),
        None => false,
    }
}

/// Whether a method of a class is at an index.
fn is_method(pool: &[PoolItem<'_>], index: u16) -> bool
    ensures { result ≡ is_method (slice_get pool.now index) }
{
    match pool.get(usize::from(index)) {
        Some(item) => matches!(item.kind, ItemKind::Method(_)),
        None => false,
    }
}

/// Whether a method of an interface is at an index.
fn is_interface_method(pool: &[PoolItem<'_>], index: u16) -> bool
    ensures { result ≡ is_interface_method (slice_get pool.now index) }
{
    match pool.get(usize::from(index)) {
        Some(item) => matches!(item.kind, ItemKind::InterfaceMethod(_)),
        None => false,
    }
}

/// Whether the index names what is needed.
pub(crate) fn meets(pool: &[PoolItem<'_>], index: u16, need: Need) -> bool
    ensures { result ≡ meets pool.now index need }
{
    match need {
        Need::Nothing => true,
        Need::Any => index > 0 && usize::from(index) < pool.len(),
        Need::Class => is_class(pool, index),
        Need::Field => is_field(pool, index),
        Need::Method => is_method(pool, index),
        Need::AnyMethod => is_method(pool, index) || is_interface_method(pool, index),
        Need::InterfaceMethod => is_interface_method(pool, index),
    }
}
