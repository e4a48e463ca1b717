//! Export names what Descriptor gives its tokens (Java Card Virtual Machine Specification 2.2.2, section 6.12):
//! what is exported is not sought in Descriptor, but each class, field and method of Descriptor goes to the
//! place of its token. It knows classes and methods by `cjc_check_index`.

ghost use Rattle.std.specs.Prelude.{◌≡◌, ℕ, ◌+◌, ◌*◌, ◌<◌, ◌^◌, ◌==◌, ◌&&◌, ◌||◌, Bool, IfOk, None, Some, false};
ghost use Rattle.std.specs.Prelude.{get_or, length, sum_by};
ghost use Rattle.std.specs.List.{list_any};
ghost use Rattle.cjc_capread.specs.ClassRefs.{is_inside};
ghost use Rattle.cjc_capread.specs.declared.tree.ExportedClass.{ExportedClass as Exported};
ghost use Rattle.cjc_check_tables.specs.Exported.{class_in, exported_spot, first_place, has_cell, has_start, or_if};
ghost use Rattle.cjc_check_index.specs.Lookup.Indexed.{IsIndexed};
ghost use Rattle.cjc_check_index.specs.Lookup.MethodStarts.{HasMethods};
ghost use Rattle.cjc_check_index.specs.Lookup.Parts.{complete_of};
ghost use Rattle.cjc_check_rules.specs.Classes.{is_start};
ghost use Rattle.cjc_check_rules.specs.Complete.{AreSmall, exported_size};
ghost use Rattle.cjc_check_rules.specs.Exports.{export_spots, in_exported};
ghost use Rattle.cjc_check_rules.specs.Members.{is_cell_at, is_constructor, is_method_start};
ghost use Rattle.cjc_check_rules.specs.Spots.{first, in_info, numbered, unless};
ghost use Rattle.cjc_capread.specs.Bytes.AccessFlags.{is_static};

use cjc_capread::bytes::{NoMemory, Row, has, is_static};
use cjc_capread::{
    ClassDescriptor, ClassRef, ExportedClass, FieldDescriptor, FieldPlace, MethodDescriptor,
};
use cjc_check_index::lookup::{Item, Methods, Names, earlier, unless};
use cjc_check_rules::ComponentPlace;
use std::alloc::Global;

/// The tag of Export.
const EXPORT: u8 = 10;

const ACC_CONSTRUCTOR: u16 = 0x80;

/// Whether a method with these flags is static or a constructor.
fn is_unbound(flags: u8) -> bool
    ensures { result ≡ (is_static flags || is_constructor flags) }
{
    let flags = u16::from(flags);
    is_static(flags) || has(flags, ACC_CONSTRUCTOR)
}

/// Whether a class_ref is that of an offset.
fn is_inside(class: ClassRef, offset: u64) -> bool
    ensures { result ≡ is_inside class offset }
{
    match class {
        ClassRef::Inside(at) => at == offset,
        ClassRef::Outside { .. } => false,
    }
}

/// Whether a class or interface of the package begins at an offset.
fn is_start(names: &Names<'_>, offset: u64) -> bool
    requires { IsIndexed names.now }
    ensures { result ≡ is_start names.now.parts.now.class.now offset }
{
    names.is_own_interface(offset) || names.is_own_class(offset)
}

// ---- fields and methods

/// Marks the place of a token where the offset there is this one.
fn with_mark(marks: Vec<bool>, offsets: &[u64], token: u8, offset: u64) -> Vec<bool>
    requires { length marks.items ≡ length offsets.now }
    ensures length { length result.items ≡ length offsets.now }
    ensures each { (n : ℕ) → n < length offsets.now → get_or result.items n false ≡ (get_or marks.items n false
        || (token == n && offset == get_or offsets.now n 0)) }
{
    let mut marks = marks;
    let place = usize::from(token);
    if place < offsets.len() && offset == offsets[place] {
        marks[place] = true;
    }
    marks
}

/// Marks what a field is, where it is static.
fn with_field(marks: Vec<bool>, offsets: &[u64], field: FieldDescriptor) -> Vec<bool>
    requires { length marks.items ≡ length offsets.now }
    ensures length { length result.items ≡ length offsets.now }
    ensures each { (n : ℕ) → n < length offsets.now → get_or result.items n false ≡ (get_or marks.items n false
        || (field.token == n && is_cell_at field.place (get_or offsets.now n 0))) }
{
    match field.place {
        FieldPlace::Static(at) => with_mark(marks, offsets, field.token, at),
        FieldPlace::Instance { .. } => marks,
    }
}

/// Of each offset by its number, whether a static field with that token has that cell.
fn field_marks(
    alloc: Global,
    offsets: &[u64],
    fields: &[FieldDescriptor],
) -> Result<Row<bool>, NoMemory>
    ensures length { IfOk result (λ r. length r ≡ length offsets.now) }
    ensures each { IfOk result (λ r. (n : ℕ) → n < length offsets.now
        → get_or r n false ≡ has_cell fields.now n (get_or offsets.now n 0)) }
{
    let mut marks = vec![in alloc; false; offsets.len()]?;
    for field in fields {
        marks = with_field(marks, offsets, *field);
    }
    Ok(Row::of(marks))
}

/// Marks what a method is, where it is static or a constructor and begins where a method of a class does.
fn with_method(
    marks: Vec<bool>,
    methods: &Methods<'_>,
    offsets: &[u64],
    method: MethodDescriptor,
) -> Vec<bool>
    requires ready { HasMethods methods.now }
    requires each { length marks.items ≡ length offsets.now }
    ensures length { length result.items ≡ length offsets.now }
    ensures each { (n : ℕ) → n < length offsets.now → get_or result.items n false ≡ (get_or marks.items n false
        || (method.token == n && (is_static method.flags || is_constructor method.flags)
        && method.offset == get_or offsets.now n 0 && is_method_start (complete_of methods.now.names.now.parts.now)
        (get_or offsets.now n 0))) }
{
    let is_asked = is_unbound(method.flags) && methods.is_method_start(method.offset);
    if is_asked {
        with_mark(marks, offsets, method.token, method.offset)
    } else {
        marks
    }
}

/// Of each offset by its number, whether a static method or a constructor with that token begins there.
fn method_marks(
    alloc: Global,
    methods: &Methods<'_>,
    offsets: &[u64],
    described: &[MethodDescriptor],
) -> Result<Row<bool>, NoMemory>
    requires { HasMethods methods.now }
    ensures length { IfOk result (λ r. length r ≡ length offsets.now) }
    ensures each { IfOk result (λ r. (n : ℕ) → n < length offsets.now
        → get_or r n false ≡ (is_method_start (complete_of methods.now.names.now.parts.now) (get_or offsets.now n 0)
        && has_start described.now n (get_or offsets.now n 0))) }
{
    let mut marks = vec![in alloc; false; offsets.len()]?;
    for method in described {
        marks = with_method(marks, methods, offsets, *method);
    }
    Ok(Row::of(marks))
}

/// The first of offsets that is not marked, where they stand one behind the other from a place on.
fn first_unmarked(from: u32, offsets: &[u64], marks: &[bool]) -> Option<ComponentPlace>
    requires each { length marks.now ≡ length offsets.now }
    requires small { 3 + from + 2 * length offsets.now < 2 ^ 32 }
    ensures { (is : ℕ → ℕ → Bool) → ((n : ℕ) → n < length offsets.now → get_or marks.now n false
        ≡ is n (get_or offsets.now n 0)) → result ≡ first (numbered (λ o. 2) (λ n at o. unless (is n o) (in_info 10 at))
        0 from offsets.now) }
{
    let mut least = None;
    let mut at = from;
    for (i, _) in offsets.iter().enumerate() {
        least = earlier(least, unless(marks[i], EXPORT, at));
        at += 2;
    }
    least
}

/// The first field offset of a class that is not what Descriptor says.
fn field_spot(
    alloc: Global,
    at: u32,
    offsets: &[u64],
    fields: &[FieldDescriptor],
) -> Result<Option<ComponentPlace>, NoMemory>
    requires { 3 + at + 2 * length offsets.now < 2 ^ 32 }
    ensures { IfOk result (λ r. r ≡ first (numbered (λ o. 2) (λ token at o. unless (has_cell fields.now token o)
        (in_info 10 at)) 0 at offsets.now)) }
{
    let marks = field_marks(alloc, offsets, fields)?;
    Ok(first_unmarked(at, offsets, marks.items()))
}

/// The first method offset of a class that is not what Descriptor says.
fn method_spot(
    alloc: Global,
    at: u32,
    methods: &Methods<'_>,
    offsets: &[u64],
    described: &[MethodDescriptor],
) -> Result<Option<ComponentPlace>, NoMemory>
    requires ready { HasMethods methods.now }
    requires small { 3 + at + 2 * length offsets.now < 2 ^ 32 }
    ensures { IfOk result (λ r. r
        ≡ first (numbered (λ o. 2) (λ token at o. unless (is_method_start (complete_of methods.now.names.now.parts.now)
        o && has_start described.now token o) (in_info 10 at)) 0 at offsets.now)) }
{
    let marks = method_marks(alloc, methods, offsets, described)?;
    Ok(first_unmarked(at, offsets, marks.items()))
}

// ---- classes

/// A place, or another where there is none and it is this one.
fn or_if(place: Option<usize>, is_it: bool, at: usize) -> Option<usize>
    ensures { result ≡ or_if place is_it at }
{
    match place {
        Some(place) => Some(place),
        None => { if is_it { Some(at) } else { None } }
    }
}

/// Puts the place of a class down at its token, where the exported class there begins with it and has none yet.
fn with_place(
    places: Vec<Option<usize>>,
    exported: &[ExportedClass],
    class: &ClassDescriptor,
    at: usize,
) -> Vec<Option<usize>>
    requires { length places.items ≡ length exported.now }
    ensures length { length result.items ≡ length exported.now }
    ensures each { (n : ℕ) (e : Exported) → n < length exported.now → get_or result.items n None
        ≡ or_if (get_or places.items n None) (class.now.token == n
        && is_inside class.now.this_class (get_or exported.now n e).class_offset) at }
{
    let mut places = places;
    let token = usize::from(class.token);
    if token < exported.len() {
        let is_it = is_inside(class.this_class, exported[token].class_offset);
        places[token] = or_if(places[token], is_it, at);
    }
    places
}

/// Of each exported class by its number, the place of the first class of Descriptor with that token and that start.
fn class_places(
    alloc: Global,
    exported: &[ExportedClass],
    classes: &[ClassDescriptor],
) -> Result<Row<Option<usize>>, NoMemory>
    ensures length { IfOk result (λ r. length r ≡ length exported.now) }
    ensures each { IfOk result (λ r. (n : ℕ) (e : Exported) → n < length exported.now
        → get_or r n None ≡ first_place classes.now n (get_or exported.now n e).class_offset) }
{
    let mut places = vec![in alloc; None; exported.len()]?;
    for (i, class) in classes.iter().enumerate() {
        places = with_place(places, exported, class, i);
    }
    Ok(Row::of(places))
}

/// The first offset of an exported class, which begins at an offset, that is not what a class of Descriptor has.
#[tactic(auto, using(cjc_check_rules::proofs::Firsts::first_append, cjc_check_rules::proofs::Arrays::two_each))]
fn in_class(
    alloc: Global,
    methods: &Methods<'_>,
    at: u32,
    exported: &ExportedClass,
    class: &ClassDescriptor,
) -> Result<Option<ComponentPlace>, NoMemory>
    requires ready { HasMethods methods.now }
    requires small { 3 + at + exported_size exported.now < 2 ^ 32 }
    ensures { IfOk result (λ r. r ≡ first (in_exported (complete_of methods.now.names.now.parts.now) at exported.now
        (Some class.now))) }
{
    let own = unless(is_start(methods.names, exported.class_offset), EXPORT, at);
    let fields = exported.fields.items();
    let one = field_spot(alloc, at + 4, fields, class.fields.items())?;
    let begin = at + 4 + 2 * fields.len() as u32;
    let offsets = exported.methods.items();
    let two = method_spot(alloc, begin, methods, offsets, class.methods.items())?;
    Ok(earlier(earlier(own, one), two))
}

/// The same of the class of Descriptor at a place, if there is one.
#[tactic(auto, unfolding(cjc_check_rules::specs::Spots::first))]
fn at_place(
    alloc: Global,
    methods: &Methods<'_>,
    at: u32,
    exported: &ExportedClass,
    place: Option<usize>,
) -> Result<Option<ComponentPlace>, NoMemory>
    requires ready { HasMethods methods.now }
    requires small { 3 + at + exported_size exported.now < 2 ^ 32 }
    ensures { IfOk result (λ r. r ≡ first (in_exported (complete_of methods.now.names.now.parts.now) at exported.now
        (class_in methods.now.names.now.parts.now.descriptor.now.classes place))) }
{
    let classes = methods.names.parts.descriptor.classes.items();
    let Some(place) = place else {
        return Ok(unless(false, EXPORT, at));
    };
    match classes.get(place) {
        Some(class) => in_class(alloc, methods, at, exported, class),
        None => Ok(unless(false, EXPORT, at)),
    }
}

/// The first offset of exported classes that is not that of what Descriptor gives its token.
fn class_spot(
    alloc: Global,
    methods: &Methods<'_>,
    exported: &[ExportedClass],
) -> Result<Option<ComponentPlace>, NoMemory>
    requires ready { HasMethods methods.now }
    requires small { 3 + 1 + sum_by exported_size exported.now < 2 ^ 32 }
    ensures { IfOk result (λ r. r
        ≡ first (numbered exported_size (exported_spot (complete_of methods.now.names.now.parts.now)) 0 1
        exported.now)) }
{
    let classes = methods.names.parts.descriptor.classes.items();
    let places = class_places(alloc, exported, classes)?;
    let places = places.items();
    let mut least = None;
    let mut at = 1;
    for (i, item) in exported.iter().enumerate() {
        least = earlier(least, at_place(alloc, methods, at, item, places[i])?);
        at += item.size();
    }
    Ok(least)
}

/// Where 717 is broken first: an offset that is not that of what Descriptor gives its token.
#[tactic(auto, unfolding(cjc_check_rules::specs::Spots::numbered, cjc_check_rules::specs::Spots::first))]
pub fn export_spot(alloc: Global, methods: &Methods<'_>) -> Result<Option<ComponentPlace>, NoMemory>
    requires ready { HasMethods methods.now }
    requires small { AreSmall (complete_of methods.now.names.now.parts.now) }
    ensures { IfOk result (λ r. r ≡ first (export_spots (complete_of methods.now.names.now.parts.now))) }
{
    match methods.names.parts.export {
        Some(export) => class_spot(alloc, methods, export.classes.items()),
        None => Ok(None),
    }
}
