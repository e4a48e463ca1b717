//! A method by its flags, name and descriptor, lent by a world: what an export file says of it beside its token.

ghost use Rattle.std.specs.Prelude.{◌≡◌, ◌<◌, ◌∷◌, ◌++◌, [], get_or, length, option_map, slice_get, unwrap_or, IfOk};
ghost use Rattle.std.specs.Prelude.{OnOk};
ghost use Rattle.cjc_world.specs.Classes.{Member};
ghost use Rattle.cjc_world.specs.Working.Known.{class_of};
ghost use Rattle.cjc_components.specs.LowerTokens.Members.{is_exposed, is_initialiser};
ghost use Rattle.cjc_components.specs.Descriptor.{no_member};
ghost use Rattle.cjc_components.specs.ExportFile.{is_listed, method_entry};
ghost use Rattle.cjc_exported.specs.ExportFile.Working.Sources.{bare, given, method_of};

use cjc_world::Known;
use cjc_world::bytes::{Bytes, MemberId, NoMemory, Row, is_protected, is_public};
use cjc_world::export_file::ExportMethod;
use std::alloc::Global;

/// Of a method that is added to a class: public and abstract.
const ADDED_FLAGS: u16 = 0x0401;

const INITIALISER: &[u8] = b"<clinit>";

/// A method of a class, or one that is added to it.
#[derive(Clone, Copy)]
pub(crate) struct Method<'w> {
    pub flags: u16,
    pub name: &'w [u8],
    pub desc: &'w [u8],
}

/// Whether a member is public or protected.
pub(crate) fn is_exposed(flags: u16) -> bool
    ensures { result ≡ is_exposed flags }
{
    is_public(flags) || is_protected(flags)
}

/// Whether a method of this name is a class initialiser.
pub(crate) fn is_initialiser(name: &[u8]) -> bool
    ensures { result ≡ is_initialiser name.now }
{
    name == INITIALISER
}

/// Whether others may name a method that a class declares.
pub(crate) fn is_listed(class: Known<'_, '_>, method: Method<'_>) -> bool
    ensures { result ≡ is_listed (class_of class.entry) (method_of method.entry) }
{
    (class.is_interface() || is_exposed(method.flags)) && !is_initialiser(method.name)
}

/// The method at a place among a class's own.
pub(crate) fn own_method<'w>(class: Known<'w, '_>, place: usize) -> Method<'w>
    requires { place < length (class_of class).methods }
    ensures { (d : Member) → method_of result ≡ bare (get_or (class_of class.entry).methods place d) }
{
    let (name, desc) = class.member_at(false, place);
    Method {
        flags: class.member_flags(false, place),
        name,
        desc,
    }
}

/// A method that is added to a class.
pub(crate) fn given(id: &MemberId) -> Method<'_>
    ensures { method_of result ≡ given id.now }
{
    Method {
        flags: ADDED_FLAGS,
        name: id.name.items(),
        desc: id.desc.items(),
    }
}

/// The method at a place among those that are added to a class; one without flags, name and descriptor where
/// there is none.
pub(crate) fn given_at(ids: &[MemberId], place: usize) -> Method<'_>
    ensures { method_of result ≡ unwrap_or (option_map given (slice_get ids.now place)) no_member }
{
    match ids.get(place) {
        Some(id) => given(id),
        None => Method {
            flags: 0,
            name: &[],
            desc: &[],
        },
    }
}

fn entry(alloc: Global, token: u8, method: Method<'_>) -> Result<ExportMethod, NoMemory>
    ensures { IfOk result (λ m. m ≡ method_entry token (method_of method.entry)) }
{
    let name = Bytes::copy_of(alloc, method.name)?;
    let desc = Bytes::copy_of(alloc, method.desc)?;
    Ok(ExportMethod {
        token,
        flags: method.flags,
        name,
        desc,
    })
}

/// Puts a method at the end by its token.
pub(crate) fn put_method(
    alloc: Global,
    token: u8,
    method: Method<'_>,
    methods: &mut Row<ExportMethod>,
) -> Result<(), NoMemory>
    ensures { OnOk result (methods.new ≡ methods.old ++ method_entry token (method_of method.entry) ∷ []) }
{
    let method = entry(alloc, token, method)?;
    methods.push(method)
}
