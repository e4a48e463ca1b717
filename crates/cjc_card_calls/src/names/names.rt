//! A method found by name and descriptor in a list of names or among the methods of an export file; the first
//! that is there counts.

ghost use Rattle.std.specs.Prelude.{◌≡◌, ◌&&◌, map, position, slice_get, if◌then◌else◌, Some, None};
ghost use Rattle.std.specs.Str.{bytes_eq};
ghost use Rattle.cjc_card_semantics.specs.ExportFile.Supers.{is_virtual};
ghost use Rattle.cjc_card_semantics.specs.Machine.Calls.{is_named, listed_token, named_among, place_named};
ghost use Rattle.cjc_card_semantics.specs.Machine.Calls.{token_in_files};
ghost use Rattle.cjc_card_link.specs.Names.{method_name_of};

use cjc_card_link::MethodName;
use cjc_card_semantics::bytes::{MemberId, is_private, is_static};
use cjc_card_semantics::capread::MethodDescriptor;
use cjc_card_semantics::export_file::{ExportClass, ExportMethod};

// Whether a method has a name and descriptor.
fn is_named(name: &MethodName, id: &MemberId) -> bool
    ensures { result ≡ is_named (method_name_of name.now) id.now }
{
    name.name.items() == id.name.items() && name.desc.items() == id.desc.items()
}

// The first place where a method has a name and descriptor.
fn first_named(names: &[MethodName], id: &MemberId) -> Option<usize>
    ensures { result ≡ position (λ n. is_named (method_name_of n) id.now) names.now }
{
    names.iter().position(|name| is_named(name, id))
}

/// The place of the method of a name.
pub(crate) fn place_named(names: &[MethodName], id: &MemberId) -> Option<usize>
    ensures { result ≡ place_named (map method_name_of names.now) id.now }
{
    first_named(names, id)
}

// The descriptor in a place.
fn method_at(methods: &[MethodDescriptor], place: usize) -> Option<MethodDescriptor>
    ensures { result ≡ slice_get methods.now place }
{
    methods.get(place).copied()
}

/// The descriptor of the method of a name, where names and descriptors stand side by side.
pub(crate) fn named_among(
    names: &[MethodName],
    methods: &[MethodDescriptor],
    id: &MemberId,
) -> Option<MethodDescriptor>
    ensures { result ≡ named_among (map method_name_of names.now) methods.now id.now }
{
    match place_named(names, id) {
        Some(place) => method_at(methods, place),
        None => None,
    }
}

// Whether a method is neither static nor private, and no constructor.
fn is_virtual(method: &ExportMethod) -> bool
    ensures { result ≡ is_virtual method.now }
{
    !(is_static(method.flags)
        || is_private(method.flags)
        || method.name.items() == b"<init>".as_slice())
}

// Whether an exported method has a name and descriptor.
fn is_listed(method: &ExportMethod, id: &MemberId) -> bool
    ensures { result ≡ (bytes_eq method.now.name id.now.name && bytes_eq method.now.desc id.now.desc) }
{
    method.name.items() == id.name.items() && method.desc.items() == id.desc.items()
}

// The token of a virtual method.
fn token_of(method: &ExportMethod) -> Option<u8>
    ensures { result ≡ (if is_virtual method.now then Some method.now.token else None) }
{
    if is_virtual(method) {
        Some(method.token)
    } else {
        None
    }
}

/// The token of the first method of a name, or that it has none.
pub(crate) fn listed_token(methods: &[ExportMethod], id: &MemberId) -> Option<Option<u8>>
    ensures { result ≡ listed_token methods.now id.now }
{
    for method in methods {
        if is_listed(method, id) {
            return Some(token_of(method));
        }
    }
    None
}

/// The token of the method of a name in the first of some classes that lists it, or that it has none.
pub(crate) fn token_in_files(classes: &[&ExportClass], id: &MemberId) -> Option<Option<u8>>
    ensures { result ≡ token_in_files (map (λ c. c.now) classes.now) id.now }
{
    for k in 0..classes.len() {
        let found = listed_token(classes[k].methods.items(), id);
        if found.is_some() {
            return found;
        }
    }
    None
}
