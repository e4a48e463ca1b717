//! Where the methods of classes stand by Descriptor, each found at once (Java Card Virtual Machine
//! Specification 2.2.2, section 6.13). The tests of offsets of methods use it. It knows no sentence.

ghost use Rattle.std.specs.Prelude.{◌≡◌, ℕ, ◌==◌, ◌&&◌, ◌++◌, IfOk, OnOk};
ghost use Rattle.std.specs.List.{list_any};
ghost use Rattle.std.specs.List.Sorted.{IsNonDecreasing};
ghost use Rattle.cjc_check_rules.specs.LowerBytes.AccessFlags.{is_static};
ghost use Rattle.cjc_check_rules.specs.Members.{class_methods, is_method_start, is_static_start};
ghost use Rattle.cjc_check_index.specs.Lookup.Indexed.{IsIndexed};
ghost use Rattle.cjc_check_index.specs.Lookup.MethodStarts.{HasMethods, all_offsets, class_offsets, offset_of};
ghost use Rattle.cjc_check_index.specs.Lookup.MethodStarts.{offsets_of};
ghost use Rattle.cjc_check_index.specs.Lookup.Parts.{complete_of};

use crate::lookup::along::is_among;
use crate::lookup::names::{Names, is_own_class};
use cjc_check_rules::bytes::{NoMemory, Row, is_static};
use cjc_check_rules::capread::{ClassDescriptor, MethodDescriptor};
use std::alloc::Global;

/// The offsets that Descriptor gives methods of classes, in order.
#[derive(Drop)]
pub struct Methods<'a> {
    pub names: &'a Names<'a>,
    pub all: &'a [u64],
    /// Those of static methods.
    pub statics: &'a [u64],
}

impl Methods<'_> {
    /// Whether a method of a class begins at an offset.
    pub fn is_method_start(&self, offset: u64) -> bool
        requires { HasMethods self.now }
        ensures { result ≡ is_method_start (complete_of self.now.names.now.parts.now) offset }
    {
        offset != 0 && is_among(self.all, offset)
    }

    /// Whether a static method begins at an offset.
    pub fn is_static_start(&self, offset: u64) -> bool
        requires { HasMethods self.now }
        ensures { result ≡ is_static_start (complete_of self.now.names.now.parts.now) offset }
    {
        offset != 0 && is_among(self.statics, offset)
    }
}

/// Puts the offset of a method at the end, where it is asked for.
fn put_method(
    offsets: &mut Row<u64>,
    only_static: bool,
    method: MethodDescriptor,
) -> Result<(), NoMemory>
    ensures { OnOk result (offsets.new ≡ offsets.old ++ offset_of only_static method) }
{
    let is_asked = !only_static || is_static(u16::from(method.flags));
    if is_asked {
        offsets.push(method.offset)
    } else {
        Ok(())
    }
}

/// Puts the offsets of methods at the end, as far as they are asked for.
fn put_methods(
    offsets: &mut Row<u64>,
    only_static: bool,
    methods: &[MethodDescriptor],
) -> Result<(), NoMemory>
    ensures { OnOk result (offsets.new ≡ offsets.old ++ offsets_of only_static methods.now) }
{
    for method in methods {
        put_method(offsets, only_static, *method)?;
    }
    Ok(())
}

/// Puts the offsets of a class's methods at the end, unless it is an interface.
fn put_class(
    offsets: &mut Row<u64>,
    only_static: bool,
    names: &Names<'_>,
    class: &ClassDescriptor,
) -> Result<(), NoMemory>
    requires { IsIndexed names.now }
    ensures { OnOk result (offsets.new ≡ offsets.old ++ class_offsets only_static names.now.parts.now.class.now
        class.now) }
{
    if is_own_class(names, class.this_class) {
        put_methods(offsets, only_static, class.methods.items())
    } else {
        Ok(())
    }
}

/// The offsets of methods of classes.
fn all_offsets(
    alloc: Global,
    only_static: bool,
    names: &Names<'_>,
    classes: &[ClassDescriptor],
) -> Result<Row<u64>, NoMemory>
    requires { IsIndexed names.now }
    ensures { IfOk result (λ s. s ≡ all_offsets only_static names.now.parts.now.class.now classes.now) }
{
    let mut offsets = Row::new(alloc);
    for class in classes {
        put_class(&mut offsets, only_static, names, class)?;
    }
    Ok(offsets)
}

/// Numbers in order.
fn in_order(numbers: Row<u64>) -> Row<u64>
    ensures rise { IsNonDecreasing result }
    ensures same { (number : ℕ) → list_any (λ n. n == number) result ≡ list_any (λ n. n == number) numbers }
{
    let mut items = numbers.into_vec();
    items.sort_unstable();
    Row::of(items)
}

/// The offsets of methods of classes, in order.
pub fn method_starts(alloc: Global, names: &Names<'_>) -> Result<Row<u64>, NoMemory>
    requires { IsIndexed names.now }
    ensures rise { IfOk result (λ s. IsNonDecreasing s) }
    ensures same { IfOk result (λ s. (offset : ℕ) → list_any (λ n. n == offset) s ≡ list_any (λ m. m.offset == offset)
        (class_methods (complete_of names.now.parts.now))) }
{
    let classes = names.parts.descriptor.classes.items();
    let offsets = all_offsets(alloc, false, names, classes)?;
    Ok(in_order(offsets))
}

/// The offsets of static methods of classes, in order.
pub fn static_starts(alloc: Global, names: &Names<'_>) -> Result<Row<u64>, NoMemory>
    requires { IsIndexed names.now }
    ensures rise { IfOk result (λ s. IsNonDecreasing s) }
    ensures same { IfOk result (λ s. (offset : ℕ) → list_any (λ n. n == offset) s ≡ list_any (λ m. m.offset == offset
        && is_static m.flags) (class_methods (complete_of names.now.parts.now))) }
{
    let classes = names.parts.descriptor.classes.items();
    let offsets = all_offsets(alloc, true, names, classes)?;
    Ok(in_order(offsets))
}
