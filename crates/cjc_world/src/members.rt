//! From the name and the descriptor of a member to its place in its class. An index has the places of a class's
//! fields, and those of its methods, in the order of names and descriptors. Only `ClassIndex` keeps one.

ghost use Rattle.std.specs.Prelude.{◌≡◌, ◌<◌, ◌≤◌, ◌^◌, ◌&&◌, All, IfOk, length, position, true, false};
ghost use Rattle.std.specs.List.Sorted.{IsPartitionPoint};
ghost use Rattle.std.specs.Ordering.{is_lt};
ghost use Rattle.cjc_world.specs.Lookup.{is_called, is_wanted};
ghost use Rattle.cjc_world.specs.Rules.{members};
ghost use Rattle.cjc_world.specs.Working.Known.{class_of};
ghost use Rattle.cjc_world.specs.Working.Members.{AreIndices, id_at, id_cmp, IsIndexOf, IsMemberIndex, places_in};
ghost use Rattle.cjc_world.specs.Working.Spots.{IsCounted, stood};

use crate::class::{Known, is_wanted};
use crate::spot::{ClassPlace, known};
use cjc_bytes::{NoMemory, Row};
use cjc_classfile::ClassTree;
use cjc_export::ExportTree;
use std::alloc::Global;
use std::cmp::Ordering;

/// Of a class the places of its fields and of its methods, in the order of names, and of descriptors where names
/// are equal. Of members with one name and descriptor the first stands first.
#[derive(Drop)]
pub(crate) struct MemberIndex {
    pub fields: Row<u32>,
    pub methods: Row<u32>,
}

impl MemberIndex {
    /// The places of the fields, or of the methods.
    pub(crate) fn places(&self, field: bool) -> &[u32]
        ensures { result.now ≡ places_in field self.now }
    {
        if field {
            self.fields.items()
        } else {
            self.methods.items()
        }
    }
}

/// How the field or method at a place stands to a name and descriptor in the order of an index.
fn compare(class: Known<'_, '_>, field: bool, place: u32, name: &[u8], desc: &[u8]) -> Ordering
    ensures { result ≡ id_cmp (id_at (members field (class_of class.entry)) place) (name.now, desc.now) }
{
    let (own_name, own_desc) = class.id_at(field, place);
    match own_name.cmp(name) {
        Ordering::Equal => own_desc.cmp(desc),
        unequal => unequal,
    }
}

/// How the field or method at a place stands to that at another in the order of an index.
fn compare_places(class: Known<'_, '_>, field: bool, place: u32, other: u32) -> Ordering
    ensures { result ≡ id_cmp (id_at (members field (class_of class.entry)) place)
        (id_at (members field (class_of class.entry)) other) }
{
    let (name, desc) = class.id_at(field, other);
    compare(class, field, place, name, desc)
}

/// The places of the fields, or of the methods, of a class in the order of an index.
fn sorted_places(alloc: Global, class: Known<'_, '_>, field: bool) -> Result<Row<u32>, NoMemory>
    requires { length (members field (class_of class)) < 2 ^ 32 }
    ensures { IfOk result (λ places. IsMemberIndex (members field (class_of class.entry)) places) }
{
    let mut places = Vec::with_capacity(alloc, class.member_count(field))?;
    for place in 0..class.member_count(field) {
        places.push(place as u32)?;
    }
    places.sort_by(|place, other| compare_places(class, field, *place, *other))?;
    Ok(Row::of(places))
}

/// The index of a class.
fn index_of(alloc: Global, class: Known<'_, '_>) -> Result<MemberIndex, NoMemory>
    requires { IsCounted (class_of class) }
    ensures { IfOk result (λ index. IsIndexOf (class_of class.entry) index) }
{
    let fields = sorted_places(alloc, class, true)?;
    let methods = sorted_places(alloc, class, false)?;
    Ok(MemberIndex { fields, methods })
}

/// The indices of the classes that these spots mean.
pub(crate) fn indices_of<'w>(
    alloc: Global,
    spots: &[ClassPlace],
    classes: &'w [ClassTree<'w>],
    exports: &'w [ExportTree],
) -> Result<Row<MemberIndex>, NoMemory>
    requires { All IsCounted (stood classes.now exports.now spots.now) }
    ensures { IfOk result (λ rows. AreIndices (stood classes.now exports.now spots.now) rows) }
{
    let mut rows = Vec::with_capacity(alloc, spots.len())?;
    for spot in spots {
        if let Some(class) = known(classes, exports, spot) {
            rows.push(index_of(alloc, class)?)?;
        }
    }
    Ok(Row::of(rows))
}

/// How many of these places stand before those of the members of a name and descriptor.
fn count_before(
    class: Known<'_, '_>,
    field: bool,
    places: &[u32],
    name: &[u8],
    desc: &[u8],
) -> usize
    requires { IsMemberIndex (members field (class_of class)) places.now }
    ensures within { result ≤ length places.now }
    ensures point { IsPartitionPoint
        (λ p. is_lt (id_cmp (id_at (members field (class_of class.entry)) p) (name.now, desc.now)) ≡ true)
        (λ p. is_lt (id_cmp (id_at (members field (class_of class.entry)) p) (name.now, desc.now)) ≡ false)
        places.now result }
{
    places.partition_point(|place| compare(class, field, *place, name, desc).is_lt())
}

/// The place of the first field, or method, of this name and descriptor, found in the class's index; in selecting
/// of the first that is neither private nor static.
pub(crate) fn first_called(
    class: Known<'_, '_>,
    field: bool,
    places: &[u32],
    selecting: bool,
    name: &[u8],
    desc: &[u8],
) -> Option<u32>
    requires { IsMemberIndex (members field (class_of class)) places.now }
    ensures { result ≡ position (λ m. is_wanted selecting m.flags && is_called name.now desc.now m)
        (members field (class_of class.entry)) }
{
    let before = count_before(class, field, places, name, desc);
    for position in before..places.len() {
        let place = places[position];
        if !compare(class, field, place, name, desc).is_eq() {
            return None;
        }
        if is_wanted(selecting, class.flags_at(field, place)) {
            return Some(place);
        }
    }
    None
}
