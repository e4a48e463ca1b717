//! How many indices the map of an interface of the package has to have: more than each token that Descriptor gives a
//! method of it (Java Card Virtual Machine Specification 2.2.2, sections 6.8 and 6.13). Called by `members` and
//! `spots`.

ghost use Rattle.std.specs.Prelude.{◌≡◌, IfOk, OnOk};
ghost use Rattle.cjc_check_tables.specs.Members.Working.Needs.{AreNeeds, HasClass, HasNeed, greater, need_in};
ghost use Rattle.cjc_check_tables.specs.Members.Working.Needs.{need_of_method, need_of_methods};

use cjc_capread::bytes::NoMemory;
use cjc_capread::{ClassDescriptor, ClassRef, MethodDescriptor};
use indexmap::IndexMap;
use std::alloc::Global;

/// How many indices are needed, by the offset of an interface.
pub(crate) type Needs = IndexMap<u64, u64>;

/// The greater of two numbers.
fn greater(one: u64, other: u64) -> u64
    ensures { result ≡ greater one other }
{
    if one < other { other } else { one }
}

/// How many indices a method asks for.
fn need_of_method(method: MethodDescriptor) -> u64
    ensures { result ≡ need_of_method method }
{
    if method.token == 0xFF {
        0
    } else {
        u64::from(method.token) + 1
    }
}

/// How many indices methods ask for.
fn need_of_methods(methods: &[MethodDescriptor]) -> u64
    ensures { result ≡ need_of_methods methods.now }
{
    let mut need = 0;
    for method in methods {
        need = greater(need, need_of_method(*method));
    }
    need
}

/// How many indices are needed at an offset.
pub(crate) fn need_in(needs: &Needs, offset: u64) -> u64
    ensures { result ≡ need_in needs.now offset }
{
    match needs.get(&offset) {
        Some(need) => *need,
        None => 0,
    }
}

/// Notes that so many indices are needed at an offset.
fn put_need(needs: &mut Needs, offset: u64, need: u64) -> Result<(), NoMemory>
    ensures { OnOk result (HasNeed needs.old needs.new offset need) }
{
    let most = greater(need_in(needs, offset), need);
    needs.insert(offset, most)?;
    Ok(())
}

/// Notes what a class of Descriptor needs.
fn put_class(needs: &mut Needs, class: &ClassDescriptor) -> Result<(), NoMemory>
    ensures { OnOk result (HasClass needs.old needs.new class.now) }
{
    match class.this_class {
        ClassRef::Inside(offset) => {
            put_need(needs, offset, need_of_methods(class.methods.items()))
        }
        ClassRef::Outside { .. } => Ok(()),
    }
}

/// How many indices are needed, by the offset of an interface.
pub(crate) fn needs_of(alloc: Global, classes: &[ClassDescriptor]) -> Result<Needs, NoMemory>
    ensures { IfOk result (λ needs. AreNeeds needs classes.now) }
{
    let mut needs = IndexMap::new(alloc);
    for class in classes {
        put_class(&mut needs, class)?;
    }
    Ok(needs)
}
