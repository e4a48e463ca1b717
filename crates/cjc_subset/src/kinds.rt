//! Which kinds of methods a class of the package has, told by flags alone. Called by checking.rt, once for all
//! classes, and by overriding.rt, which passes by the pairs of classes whose kinds can't break anything. Knows
//! no rule.

ghost use Rattle.std.specs.Prelude.{◌≡◌, map, IfOk};
ghost use Rattle.cjc_subset.specs.Overriding.{is_open, is_package_visible};
ghost use Rattle.cjc_subset.specs.Working.Kinds.{asks, has_kind, is_closed, is_instance, is_shared, kinds_of};
ghost use Rattle.cjc_subset.specs.Working.Kinds.{may_break};

use crate::overriding::{is_open, is_package_visible, is_special};
use cjc_bytes::{NoMemory, Row, is_abstract, is_interface, is_private, is_static};
use cjc_code::classfile::{ClassTree, MethodTree};
use std::alloc::Global;

/// The kinds of methods that a class has. All but the last leave out constructors and `<clinit>`.
#[derive(Clone, Copy)]
pub(crate) struct Kinds {
    /// Public or protected.
    pub has_open: bool,
    /// Neither public nor protected nor private.
    pub has_package_visible: bool,
    /// Private or static.
    pub has_closed: bool,
    /// Neither private nor static.
    pub has_instance: bool,
    /// Static and not private.
    pub has_shared: bool,
    /// Abstract or an interface's.
    pub has_asking: bool,
}

fn is_closed(flags: u16) -> bool
    ensures { result ≡ is_closed flags }
{
    is_private(flags) || is_static(flags)
}

fn is_instance(flags: u16) -> bool
    ensures { result ≡ is_instance flags }
{
    !is_closed(flags)
}

fn is_shared(flags: u16) -> bool
    ensures { result ≡ is_shared flags }
{
    !is_private(flags) && is_static(flags)
}

fn has_open(methods: &[MethodTree<'_>]) -> bool
    ensures { result ≡ has_kind is_open methods.now }
{
    methods
        .iter()
        .any(|m| !is_special(m.name.items()) && is_open(m.flags))
}

fn has_package_visible(methods: &[MethodTree<'_>]) -> bool
    ensures { result ≡ has_kind is_package_visible methods.now }
{
    methods.iter().any(|m| !is_special(m.name.items()) && is_package_visible(m.flags))
}

fn has_closed(methods: &[MethodTree<'_>]) -> bool
    ensures { result ≡ has_kind is_closed methods.now }
{
    methods
        .iter()
        .any(|m| !is_special(m.name.items()) && is_closed(m.flags))
}

fn has_instance(methods: &[MethodTree<'_>]) -> bool
    ensures { result ≡ has_kind is_instance methods.now }
{
    methods
        .iter()
        .any(|m| !is_special(m.name.items()) && is_instance(m.flags))
}

fn has_shared(methods: &[MethodTree<'_>]) -> bool
    ensures { result ≡ has_kind is_shared methods.now }
{
    methods
        .iter()
        .any(|m| !is_special(m.name.items()) && is_shared(m.flags))
}

/// Whether a class has a method that asks for code in the classes below: an abstract one or an interface's.
fn asks(class: &ClassTree<'_>) -> bool
    ensures { result ≡ asks class.now }
{
    let flags = class.flags;
    class
        .methods
        .items()
        .iter()
        .any(|m| is_abstract(m.flags) || is_interface(flags))
}

/// The kinds that a class has.
pub(crate) fn kinds_of(class: &ClassTree<'_>) -> Kinds
    ensures { result ≡ kinds_of class.now }
{
    let methods = class.methods.items();
    Kinds {
        has_open: has_open(methods),
        has_package_visible: has_package_visible(methods),
        has_closed: has_closed(methods),
        has_instance: has_instance(methods),
        has_shared: has_shared(methods),
        has_asking: asks(class),
    }
}

/// The kinds of each class.
pub(crate) fn all_kinds(alloc: Global, classes: &[ClassTree<'_>]) -> Result<Row<Kinds>, NoMemory>
    ensures { IfOk result (λ kinds. kinds ≡ map kinds_of classes.now) }
{
    let mut kinds = Row::new(alloc);
    for class in classes {
        kinds.push(kinds_of(class))?;
    }
    Ok(kinds)
}

/// Whether a class of the first kinds may break 305, 306 or 307 against one of the second.
pub(crate) fn may_break(own: Kinds, other: Kinds) -> bool
    ensures { result ≡ may_break own other }
{
    other.has_asking
        || own.has_package_visible && other.has_open
        || own.has_open && other.has_package_visible
        || own.has_closed && other.has_instance
        || own.has_instance && other.has_shared
}
