//! Export names what Descriptor gives its tokens (Java Card Virtual Machine Specification 2.2.2, section 6.12). It
//! knows classes and methods by `cjc_lookup`.

ghost use Rattle.std.specs.Prelude.{◌≡◌, ◌+◌, ◌<◌, ◌^◌, ◌==◌, ◌&&◌, ◌||◌, Some};
ghost use Rattle.std.specs.List.{find, list_any};
ghost use Rattle.std.specs.Option.{option_copied};
ghost use Rattle.cjc_capread.specs.ClassRefs.{is_inside};
ghost use Rattle.cjc_exported.specs.Exported.{exported_spot, field_spot, method_spot};
ghost use Rattle.cjc_lookup.specs.Indexed.{IsIndexed};
ghost use Rattle.cjc_lookup.specs.MethodStarts.{HasMethods};
ghost use Rattle.cjc_lookup.specs.Parts.{complete_of};
ghost use Rattle.cjc_sentences.specs.Classes.{is_start};
ghost use Rattle.cjc_sentences.specs.Complete.{AreSmall, exported_size};
ghost use Rattle.cjc_sentences.specs.Exports.{export_spots, in_exported};
ghost use Rattle.cjc_sentences.specs.Members.{is_cell_at, is_constructor};
ghost use Rattle.cjc_sentences.specs.Spots.{first};
ghost use Rattle.cjc_bytes.specs.AccessFlags.{is_static};

use cjc_bytes::{has, is_static};
use cjc_capread::{
    ClassDescriptor, ClassRef, ExportedClass, FieldDescriptor, FieldPlace, MethodDescriptor,
};
use cjc_lookup::{Methods, Names, Numbered, earlier, first_numbered, unless};
use cjc_sentences::Spot;

/// The tag of Export.
const EXPORT: u8 = 10;

const ACC_CONSTRUCTOR: u16 = 0x80;

/// Whether a field is static and has this cell.
fn is_cell_at(place: FieldPlace, offset: u64) -> bool
    ensures { result ≡ is_cell_at place offset }
{
    match place {
        FieldPlace::Static(at) => at == offset,
        FieldPlace::Instance { .. } => false,
    }
}

/// Whether a static field of a class with this token has this cell.
fn has_field(fields: &[FieldDescriptor], token: usize, offset: u64) -> bool
    ensures { result ≡ list_any (λ f. f.token == token && is_cell_at f.place offset) fields.now }
{
    for field in fields {
        if usize::from(field.token) == token && is_cell_at(field.place, offset) {
            return true;
        }
    }
    false
}

/// Whether a method with these flags is static or a constructor.
fn is_unbound(flags: u8) -> bool
    ensures { result ≡ (is_static flags || is_constructor flags) }
{
    let flags = u16::from(flags);
    is_static(flags) || has(flags, ACC_CONSTRUCTOR)
}

/// Whether a static method or a constructor of a class with this token begins at an offset.
fn has_method(methods: &[MethodDescriptor], token: usize, offset: u64) -> bool
    ensures { result ≡ list_any (λ m. m.token == token && (is_static m.flags || is_constructor m.flags) && m.offset == offset) methods.now }
{
    for method in methods {
        let is_it = usize::from(method.token) == token && is_unbound(method.flags);
        if is_it && method.offset == offset {
            return true;
        }
    }
    false
}

/// The class of Descriptor with a token that begins at an offset.
fn class_for(classes: &[ClassDescriptor], token: usize, offset: u64) -> Option<&ClassDescriptor>
    ensures { option_copied result ≡ find (λ d. d.token == token && is_inside d.this_class offset) classes.now }
{
    for class in classes {
        if usize::from(class.token) == token && is_inside(class.this_class, offset) {
            return Some(class);
        }
    }
    None
}

/// Whether a class_ref is that of an offset.
fn is_inside(class: ClassRef, offset: u64) -> bool
    ensures { result ≡ is_inside class offset }
{
    match class {
        ClassRef::Inside(at) => at == offset,
        ClassRef::Outside { .. } => false,
    }
}

/// Whether a class or interface of the package begins at an offset.
fn is_start(names: &Names<'_>, offset: u64) -> bool
    requires { IsIndexed names.now }
    ensures { result ≡ is_start names.now.parts.now.class.now offset }
{
    names.is_own_interface(offset) || names.is_own_class(offset)
}

/// The static fields of a class by token.
#[derive(Drop)]
struct FieldsOf<'a> {
    class: &'a ClassDescriptor,
}

impl Numbered<u64> for FieldsOf<'_> {
    ghost broken = { λ s. field_spot s.class.now };

    ghost fits = { λ s. Unit {0} };

    fn first_at_number(&self, number: usize, at: u32, item: &u64) -> Option<Spot> {
        let is_there = has_field(self.class.fields.items(), number, *item);
        unless(is_there, EXPORT, at)
    }
}

/// The static methods and constructors of a class by token.
#[derive(Drop)]
struct MethodsOf<'a> {
    methods: &'a Methods<'a>,
    class: &'a ClassDescriptor,
}

impl Numbered<u64> for MethodsOf<'_> {
    ghost broken = { λ s. method_spot (complete_of s.methods.now.names.now.parts.now) s.class.now };

    ghost fits = { λ s. HasMethods s.methods.now };

    fn first_at_number(&self, number: usize, at: u32, item: &u64) -> Option<Spot> {
        let methods = self.class.methods.items();
        let is_there = self.methods.is_method_start(*item) && has_method(methods, number, *item);
        unless(is_there, EXPORT, at)
    }
}

/// Exported classes by token.
#[derive(Drop)]
struct Exported<'a> {
    methods: &'a Methods<'a>,
}

/// The first offset of an exported class, which begins at an offset, that is not what a class of Descriptor has.
#[tactic(auto, using(cjc_sentences::proofs::Firsts::first_append, cjc_sentences::proofs::Arrays::two_each))]
fn in_class(
    methods: &Methods<'_>,
    at: u32,
    exported: &ExportedClass,
    class: &ClassDescriptor,
) -> Option<Spot>
    requires ready { HasMethods methods.now }
    requires small { 3 + at + exported_size exported.now < 2 ^ 32 }
    ensures { result ≡ first (in_exported (complete_of methods.now.names.now.parts.now) at exported.now (Some class.now)) }
{
    let own = unless(is_start(methods.names, exported.class_offset), EXPORT, at);
    let fields = exported.fields.items();
    let first = first_numbered(&FieldsOf { class }, at + 4, fields);
    let begin = at + 4 + 2 * fields.len() as u32;
    let second = first_numbered(
        &MethodsOf { methods, class },
        begin,
        exported.methods.items(),
    );
    earlier(earlier(own, first), second)
}

impl Numbered<ExportedClass> for Exported<'_> {
    ghost broken = { λ s. exported_spot (complete_of s.methods.now.names.now.parts.now) };

    ghost fits = { λ s. HasMethods s.methods.now };

    fn first_at_number(&self, number: usize, at: u32, item: &ExportedClass) -> Option<Spot> {
        let classes = self.methods.names.parts.descriptor.classes.items();
        match class_for(classes, number, item.class_offset) {
            Some(class) => in_class(self.methods, at, item, class),
            None => unless(false, EXPORT, at),
        }
    }
}

/// Where 717 is broken first: an offset that is not that of what Descriptor gives its token.
#[tactic(auto, unfolding(cjc_sentences::specs::Spots::numbered, cjc_sentences::specs::Spots::first))]
pub fn export_spot(methods: &Methods<'_>) -> Option<Spot>
    requires ready { HasMethods methods.now }
    requires small { AreSmall (complete_of methods.now.names.now.parts.now) }
    ensures { result ≡ first (export_spots (complete_of methods.now.names.now.parts.now)) }
{
    match methods.names.parts.export {
        Some(export) => first_numbered(&Exported { methods }, 1, export.classes.items()),
        None => None,
    }
}
