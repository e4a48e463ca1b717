//! The methods of a class that others may name: its own, and those that are added to it.

ghost use Rattle.std.specs.Prelude.{◌≡◌, ◌+◌, ◌<◌, ◌++◌, ◌∷◌, [], get_or, if◌then◌else◌, length, OnOk, Some};
ghost use Rattle.cjc_world.specs.Classes.{Member};
ghost use Rattle.cjc_world.specs.Lookup.{member_at};
ghost use Rattle.cjc_world.specs.Working.Known.{class_of};
ghost use Rattle.cjc_components.specs.ExportFile.{is_listed, method_entry, methods_from};
ghost use Rattle.cjc_components.specs.Names.{member_token};
ghost use Rattle.cjc_exported.specs.ExportFile.Working.Sources.{AreSources, given_from, package_in};

use crate::export_file::method::{given, is_listed, own_method, put_method};
use crate::export_file::source::{Source, place_after};
use cjc_world::Known;
use cjc_world::bytes::{MemberId, NoMemory, Row};
use cjc_world::export_file::ExportMethod;
use std::alloc::Global;

/// Puts the method at a place among a class's own at the end where others may name it.
fn put_listed(
    alloc: Global,
    source: &Source<'_, '_>,
    class: Known<'_, '_>,
    place: usize,
    methods: &mut Row<ExportMethod>,
) -> Result<(), NoMemory>
    requires sources { AreSources source.now }
    requires place { place < length (class_of class).methods }
    ensures { (d : Member) → OnOk result (methods.new ≡ methods.old
        ++ (if is_listed (class_of class.entry) (get_or (class_of class.entry).methods place d)
        then method_entry (member_token (package_in source.now)
        (Some (member_at (class_of class.entry) (length (class_of class.entry).fields + place))))
        (get_or (class_of class.entry).methods place d) ∷ [] else [])) }
{
    let method = own_method(class, place);
    if is_listed(class, method) {
        let member = place_after(class.field_count(), place)?;
        put_method(alloc, source.member_token(class, member), method, methods)?;
    }
    Ok(())
}

/// Puts those of a class's own methods at the end that others may name.
pub(crate) fn put_own(
    alloc: Global,
    source: &Source<'_, '_>,
    class: Known<'_, '_>,
    methods: &mut Row<ExportMethod>,
) -> Result<(), NoMemory>
    requires { AreSources source.now }
    ensures { OnOk result (methods.new ≡ methods.old ++ methods_from (package_in source.now) (class_of class.entry)
        (length (class_of class.entry).fields) (class_of class.entry).methods) }
{
    for place in 0..class.member_count(false) {
        put_listed(alloc, source, class, place, methods)?;
    }
    Ok(())
}

/// Puts a method that is added to a class at the end, the first of which has this place among the members.
fn put_one_given(
    alloc: Global,
    source: &Source<'_, '_>,
    class: Known<'_, '_>,
    first: usize,
    place: usize,
    id: &MemberId,
    methods: &mut Row<ExportMethod>,
) -> Result<(), NoMemory>
    requires { AreSources source.now }
    ensures { OnOk result (methods.new ≡ methods.old ++ given_from (package_in source.now) (class_of class.entry)
        (first + place) (id.now ∷ [])) }
{
    let member = place_after(first, place)?;
    put_method(
        alloc,
        source.member_token(class, member),
        given(id),
        methods,
    )
}

/// Puts the methods that are added to a class at the end.
pub(crate) fn put_given(
    alloc: Global,
    source: &Source<'_, '_>,
    class: Known<'_, '_>,
    ids: &[MemberId],
    methods: &mut Row<ExportMethod>,
) -> Result<(), NoMemory>
    requires { AreSources source.now }
    ensures { OnOk result (methods.new ≡ methods.old ++ given_from (package_in source.now) (class_of class.entry)
        (length (class_of class.entry).fields + length (class_of class.entry).methods) ids.now) }
{
    let first = place_after(class.field_count(), class.member_count(false))? as usize;
    for place in 0..ids.len() {
        put_one_given(alloc, source, class, first, place, &ids[place], methods)?;
    }
    Ok(())
}
