//! Descriptor describes what is there: classes, methods and types (Java Card Virtual Machine Specification
//! 2.2.2, section 6.13). It knows the classes by `names`.

ghost use Rattle.std.specs.Prelude.{◌≡◌, ◌+◌, ◌*◌, ◌<◌, ◌^◌, ◌++◌, IfOk, None, length, nat_le, slice_get, Some, sum_by};
ghost use Rattle.std.specs.Prelude.{◌==◌};
ghost use Rattle.cjc_check_rules.specs.ClassRefs.{fields_begin, pool_count_at};
ghost use Rattle.cjc_check_rules.specs.Complete.{AreSmall, descriptor_size, described_size, type_size};
ghost use Rattle.cjc_check_rules.specs.Described.{all_ascend, all_starts, class_spots, classes_in_order};
ghost use Rattle.cjc_check_rules.specs.Described.{descriptor_spots, has_type, is_after, is_start_of, is_type};
ghost use Rattle.cjc_check_rules.specs.Described.{last_offset, methods_ascend, methods_begin, methods_in_class};
ghost use Rattle.cjc_check_rules.specs.Described.{offset_after, type_is_there, type_of_entry, type_of_field};
ghost use Rattle.cjc_check_rules.specs.Described.{type_of_method, types_in_class, types_in_pool};
ghost use Rattle.cjc_check_rules.specs.Spots.{along, first, in_info, starts, unless};
ghost use Rattle.cjc_check_index.specs.Lookup.Indexed.{IsIndexed};
ghost use Rattle.cjc_check_index.specs.Lookup.Parts.{complete_of};

use cjc_capread::bytes::{NoMemory, Row};
use cjc_capread::{
    ClassDescriptor, ClassRef, Descriptor, FieldDescriptor, FieldType, MethodDescriptor, PoolEntry,
};
use cjc_check_index::lookup::{
    Comparison, Item, Names, Numbered, Test, earlier, first_along, first_beside, first_numbered,
    is_among, is_own_class, pool_count_at, starts, unless,
};
use cjc_check_rules::ComponentPlace;
use std::alloc::Global;

/// The tag of Descriptor.
const DESCRIPTOR: u8 = 11;

/// Whether a class_ref names what begins at an offset, if anything does.
fn is_start_of(start: Option<u64>, class: ClassRef) -> bool
    ensures { result ≡ is_start_of start class }
{
    match (start, class) {
        (Some(start), ClassRef::Inside(offset)) => offset == start,
        _ => false,
    }
}

/// Where the class or interface of a number begins, interfaces first.
fn start_at(names: &Names<'_>, number: usize) -> Option<u64>
    requires { IsIndexed names.now }
    ensures { result ≡ slice_get (all_starts names.now.parts.now.class.now) number }
{
    let before = names.interfaces.len();
    if number < before {
        Some(names.interfaces[number])
    } else if number - before < names.classes.len() {
        Some(names.classes[number - before])
    } else {
        None
    }
}

/// Whether classes of Descriptor are those of Class.
#[derive(Drop)]
struct InOrder<'a> {
    names: &'a Names<'a>,
}

impl Numbered<ClassDescriptor> for InOrder<'_> {
    ghost broken = { λ s. class_spots (all_starts s.names.now.parts.now.class.now) };

    ghost fits = { λ s. IsIndexed s.names.now };

    fn first_at_number(
        &self,
        number: usize,
        at: u32,
        item: &ClassDescriptor,
    ) -> Option<ComponentPlace> {
        let start = start_at(self.names, number);
        unless(is_start_of(start, item.this_class), DESCRIPTOR, at + 2)
    }
}

/// Whether Descriptor has no fewer classes than Class.
fn has_all_classes(names: &Names<'_>) -> bool
    requires { IsIndexed names.now }
    ensures { result ≡ nat_le (length (all_starts names.now.parts.now.class.now))
        (length names.now.parts.now.descriptor.now.classes) }
{
    let count = names.interfaces.len() + names.classes.len();
    count <= names.parts.descriptor.classes.items().len()
}

/// The first class_ref of another class than that of its place in Class, or the number of classes where one is missing.
fn classes_in_order(names: &Names<'_>) -> Option<ComponentPlace>
    requires ready { IsIndexed names.now }
    requires small { AreSmall (complete_of names.now.parts.now) }
    ensures { result ≡ first (classes_in_order names.now.parts.now.descriptor.now.classes
        (all_starts names.now.parts.now.class.now)) }
{
    let classes = names.parts.descriptor.classes.items();
    let refs = first_numbered(&InOrder { names }, 1, classes);
    earlier(refs, unless(has_all_classes(names), DESCRIPTOR, 0))
}

/// Whether an offset stands after that of the method before, if there is one.
fn is_after(before: Option<u64>, offset: u64) -> bool
    ensures { result ≡ is_after before offset }
{
    match before {
        Some(before) => before < offset,
        None => true,
    }
}

/// The first method whose offset is not after the one before; the methods begin at an offset of Descriptor.
fn methods_ascend(
    before: Option<u64>,
    from: u32,
    methods: &[MethodDescriptor],
) -> Option<ComponentPlace>
    requires { 3 + from + 12 * length methods.now < 2 ^ 32 }
    ensures { result ≡ first (methods_ascend before from methods.now) }
{
    let mut least = None;
    let mut last = before;
    let mut at = from;
    for method in methods {
        least = earlier(
            least,
            unless(is_after(last, method.offset), DESCRIPTOR, at + 2),
        );
        last = Some(method.offset);
        at += 12;
    }
    least
}

/// The offset of the last method, or what it was before.
fn last_offset(before: Option<u64>, methods: &[MethodDescriptor]) -> Option<u64>
    ensures { result ≡ last_offset before methods.now }
{
    let mut last = before;
    for method in methods {
        last = Some(method.offset);
    }
    last
}

/// The first method of a class, which begins at an offset, whose offset is not after the one before; interfaces
/// are left out.
#[tactic(auto, unfolding(cjc_check_rules::specs::Spots::first))]
fn methods_in_class(
    names: &Names<'_>,
    before: Option<u64>,
    at: u32,
    class: &ClassDescriptor,
) -> Option<ComponentPlace>
    requires ready { IsIndexed names.now }
    requires small { 3 + at + described_size class.now < 2 ^ 32 }
    ensures { result ≡ first (methods_in_class names.now.parts.now.class.now before at class.now) }
{
    if is_own_class(names, class.this_class) {
        methods_ascend(before, methods_begin(at, class), class.methods.items())
    } else {
        None
    }
}

/// Where the methods of a class begin, which begins at an offset.
fn methods_begin(at: u32, class: &ClassDescriptor) -> u32
    requires { at + described_size class.now < 2 ^ 32 }
    ensures { result ≡ methods_begin at class.now }
{
    fields_begin(at, class) + 7 * class.fields.items().len() as u32
}

/// Where the fields of a class begin, which begins at an offset.
fn fields_begin(at: u32, class: &ClassDescriptor) -> u32
    requires { at + described_size class.now < 2 ^ 32 }
    ensures { result ≡ fields_begin at class.now }
{
    at + 9 + 2 * class.interfaces.items().len() as u32
}

/// The offset of the last method of a class and those before it, interfaces left out.
fn offset_after(names: &Names<'_>, before: Option<u64>, class: &ClassDescriptor) -> Option<u64>
    requires { IsIndexed names.now }
    ensures { result ≡ offset_after names.now.parts.now.class.now before class.now }
{
    if is_own_class(names, class.this_class) {
        last_offset(before, class.methods.items())
    } else {
        before
    }
}

/// The first method of a class whose offset is not after the one before.
fn all_ascend(names: &Names<'_>, classes: &[ClassDescriptor]) -> Option<ComponentPlace>
    requires ready { IsIndexed names.now }
    requires small { 4 + sum_by described_size classes.now < 2 ^ 32 }
    ensures { result ≡ first (all_ascend names.now.parts.now.class.now None 1 classes.now) }
{
    let mut least = None;
    let mut last = None;
    let mut at: u32 = 1;
    for class in classes {
        least = earlier(least, methods_in_class(names, last, at, class));
        last = offset_after(names, last, class);
        at += class.size();
    }
    least
}

/// The types of Descriptor, and where they begin.
#[derive(Drop)]
struct Types<'a> {
    descriptor: &'a Descriptor,
    starts: &'a [u64],
}

impl Types<'_> {
    /// Whether a type begins at an offset.
    fn is_type(&self, offset: u64) -> bool
        requires { self.now.starts.now ≡ starts type_size (2 + 2 * length self.now.descriptor.now.pool_types)
            self.now.descriptor.now.types }
        ensures { result ≡ is_type self.now.descriptor.now offset }
    {
        is_among(self.starts, offset)
    }
}

impl Test<FieldDescriptor> for Types<'_> {
    ghost broken = { λ s. type_of_field s.descriptor.now };

    ghost fits = { λ s. s.starts.now ≡ starts type_size (2 + 2 * length s.descriptor.now.pool_types)
        s.descriptor.now.types };

    fn first_in(&self, at: u32, item: &FieldDescriptor) -> Option<ComponentPlace> {
        let is_there = match item.type_ {
            FieldType::Described(offset) => self.is_type(offset),
            _ => true,
        };
        unless(is_there, DESCRIPTOR, at + 5)
    }
}

impl Test<MethodDescriptor> for Types<'_> {
    ghost broken = { λ s. type_of_method s.descriptor.now };

    ghost fits = { λ s. s.starts.now ≡ starts type_size (2 + 2 * length s.descriptor.now.pool_types)
        s.descriptor.now.types };

    fn first_in(&self, at: u32, item: &MethodDescriptor) -> Option<ComponentPlace> {
        unless(self.is_type(item.type_offset), DESCRIPTOR, at + 4)
    }
}

impl Test<ClassDescriptor> for Types<'_> {
    ghost broken = { λ s. types_in_class s.descriptor.now };

    ghost fits = { λ s. s.starts.now ≡ starts type_size (2 + 2 * length s.descriptor.now.pool_types)
        s.descriptor.now.types };

    #[tactic(auto, using(cjc_check_rules::proofs::Firsts::first_append, cjc_check_rules::proofs::Arrays::seven_each, cjc_check_rules::proofs::Arrays::twelve_each))]
    fn first_in(&self, at: u32, item: &ClassDescriptor) -> Option<ComponentPlace> {
        let fields = first_along(self, fields_begin(at, item), item.fields.items());
        let methods = first_along(self, methods_begin(at, item), item.methods.items());
        earlier(fields, methods)
    }
}

impl Comparison<u64, PoolEntry> for Types<'_> {
    ghost broken = { λ s. type_of_entry s.descriptor.now };

    ghost fits = { λ s. s.starts.now ≡ starts type_size (2 + 2 * length s.descriptor.now.pool_types)
        s.descriptor.now.types };

    fn first_between(&self, at: u32, item: &u64, other: &PoolEntry) -> Option<ComponentPlace> {
        let has_type = match *other {
            PoolEntry::Classref(_) => *item == 0xFFFF,
            _ => *item != 0xFFFF && self.is_type(*item),
        };
        unless(has_type, DESCRIPTOR, at)
    }
}

/// The first type of a field or method that is not there.
fn types_in_classes(types: &Types<'_>) -> Option<ComponentPlace>
    requires ready { types.now.starts.now ≡ starts type_size (2 + 2 * length types.now.descriptor.now.pool_types)
        types.now.descriptor.now.types }
    requires small { 3 + descriptor_size types.now.descriptor.now < 2 ^ 32 }
    ensures { result ≡ first (along described_size (types_in_class types.now.descriptor.now) 1
        types.now.descriptor.now.classes) }
{
    first_along(types, 1, types.descriptor.classes.items())
}

/// The first type of an entry of the constant pool that is not there.
#[tactic(auto, using(cjc_check_rules::proofs::Arrays::two_each))]
fn types_in_pool(types: &Types<'_>, entries: &[PoolEntry]) -> Option<ComponentPlace>
    requires ready { types.now.starts.now ≡ starts type_size (2 + 2 * length types.now.descriptor.now.pool_types)
        types.now.descriptor.now.types }
    requires small { 3 + descriptor_size types.now.descriptor.now < 2 ^ 32 }
    ensures { result ≡ first (types_in_pool types.now.descriptor.now (pool_count_at types.now.descriptor.now + 2)
        types.now.descriptor.now.pool_types entries.now) }
{
    let begin = pool_count_at(types.descriptor) + 2;
    first_beside(types, begin, types.descriptor.pool_types.items(), entries)
}

/// Whether Descriptor has a type for each entry of the constant pool.
fn count_spot(descriptor: &Descriptor, entries: &[PoolEntry]) -> Option<ComponentPlace>
    requires { 3 + descriptor_size descriptor.now < 2 ^ 32 }
    ensures { result ≡ first (unless (length descriptor.now.pool_types == length entries.now)
        (in_info 11 (pool_count_at descriptor.now))) }
{
    let is_each = descriptor.pool_types.items().len() == entries.len();
    unless(is_each, DESCRIPTOR, pool_count_at(descriptor))
}

/// Where the types of Descriptor begin, from the number of pool entries on.
fn type_starts(alloc: Global, descriptor: &Descriptor) -> Result<Row<u64>, NoMemory>
    requires { 3 + descriptor_size descriptor.now < 2 ^ 32 }
    ensures { IfOk result (λ s. s ≡ starts type_size (2 + 2 * length descriptor.now.pool_types) descriptor.now.types) }
{
    let from = 2 + 2 * descriptor.pool_types.items().len() as u32;
    starts(alloc, from, descriptor.types.items())
}

/// The first place where 718 is broken, where types begin at these offsets.
fn described_spot(names: &Names<'_>, offsets: &[u64]) -> Option<ComponentPlace>
    requires ready { IsIndexed names.now }
    requires small { AreSmall (complete_of names.now.parts.now) }
    requires typed { offsets.now ≡ starts type_size (2 + 2 * length names.now.parts.now.descriptor.now.pool_types)
        names.now.parts.now.descriptor.now.types }
    ensures { result ≡ first (descriptor_spots (complete_of names.now.parts.now)) }
{
    let descriptor = names.parts.descriptor;
    let entries = names.parts.pool.entries.items();
    let types = Types {
        descriptor,
        starts: offsets,
    };
    let classes = classes_in_order(names);
    let methods = all_ascend(names, descriptor.classes.items());
    let members = types_in_classes(&types);
    let count = count_spot(descriptor, entries);
    let pool = types_in_pool(&types, entries);
    earlier(
        earlier(earlier(earlier(classes, methods), members), count),
        pool,
    )
}

/// Where 718 is broken first: a class_ref, the number of classes, the offset of a method, the offset of a type,
/// or the number of pool entries.
pub fn descriptor_spot(alloc: Global, names: &Names<'_>) -> Result<Option<ComponentPlace>, NoMemory>
    requires ready { IsIndexed names.now }
    requires small { AreSmall (complete_of names.now.parts.now) }
    ensures { IfOk result (λ s. s ≡ first (descriptor_spots (complete_of names.now.parts.now))) }
{
    let types = type_starts(alloc, names.parts.descriptor)?;
    Ok(described_spot(names, types.items()))
}
