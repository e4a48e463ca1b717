//! The fields of Descriptor, each found at once (Java Card Virtual Machine Specification 2.2.2, section 6.13). Called
//! by `members` and `spots`.

ghost use Rattle.std.specs.Prelude.{◌≡◌, IfOk, OnOk, flat_map};
ghost use Rattle.std.specs.Cmp.{partial_equiv_from_equiv};
ghost use Rattle.cjc_capread.specs.ClassRefs.{same_class};
ghost use Rattle.cjc_check_tables.specs.Members.Working.Fields.{AreFields, HasFields, fed, places-equivalence};
ghost use Rattle.cjc_check_tables.specs.Members.Working.Fields.{same-fed, same_place};
ghost use Rattle.cjc_check_rules.specs.Members.{all_fields};
ghost use Rattle.cjc_check_index.specs.Lookup.Parts.{complete_of};

use cjc_capread::bytes::NoMemory;
use cjc_capread::{ClassDescriptor, ClassRef, FieldDescriptor, FieldPlace};
use cjc_check_index::lookup::Parts;
use indexmap::IndexSet;
use std::alloc::Global;
use std::hash::{Hash, Hasher};
use std::marker::Model;

/// The place of a field in a set.
#[derive(Drop)]
pub(crate) struct Place {
    pub(crate) place: FieldPlace,
}

impl Model for Place {
    ghost use Rattle.cjc_capread.specs.declared.tree.FieldPlace.{FieldPlace as Value_};

    ghost Value = { Value_ };

    ghost view = { λ p. p.place };
}

/// The places of the fields of Descriptor.
pub(crate) type Fields = IndexSet<Place>;

/// Whether two class_refs are the same.
fn same_class(one: ClassRef, other: ClassRef) -> bool
    ensures { result ≡ same_class one other }
{
    match (one, other) {
        (ClassRef::Inside(a), ClassRef::Inside(b)) => a == b,
        (
            ClassRef::Outside {
                package: p,
                class: a,
            },
            ClassRef::Outside {
                package: q,
                class: b,
            },
        ) => p == q && a == b,
        _ => false,
    }
}

/// Whether two fields have the same place.
fn same_place(one: FieldPlace, other: FieldPlace) -> bool
    ensures { result ≡ same_place one other }
{
    match (one, other) {
        (FieldPlace::Static(a), FieldPlace::Static(b)) => a == b,
        (
            FieldPlace::Instance { class: c, token: t },
            FieldPlace::Instance { class: d, token: u },
        ) => same_class(c, d) && t == u,
        _ => false,
    }
}

impl PartialEq for Place {
    ghost eq = { same_place };

    ghost laws = { partial_equiv_from_equiv places-equivalence };

    fn eq(&self, other: &Place) -> bool {
        same_place(self.place, other.place)
    }
}

impl Eq for Place {
    ghost laws = { places-equivalence };
}

impl Hash for Place {
    ghost hash_input = { fed };

    ghost respects_eq = { same-fed };

    fn hash<H: Hasher>(&self, state: &mut H) {
        match self.place {
            FieldPlace::Static(at) => at.hash(state),
            FieldPlace::Instance {
                class: ClassRef::Inside(offset),
                token,
            } => {
                offset.hash(state);
                0u8.hash(state);
                token.hash(state);
            }
            FieldPlace::Instance {
                class: ClassRef::Outside { package, class },
                token,
            } => {
                u64::from(package).hash(state);
                class.hash(state);
                token.hash(state);
            }
        }
    }
}

/// Puts the places of fields into a set.
fn put_fields(set: &mut Fields, fields: &[FieldDescriptor]) -> Result<(), NoMemory>
    ensures { OnOk result (HasFields set.old set.new fields.now) }
{
    for field in fields {
        let place = field.place;
        set.insert_full(Place { place })?;
    }
    Ok(())
}

/// The places of the fields of classes.
fn fields_of_classes(alloc: Global, classes: &[ClassDescriptor]) -> Result<Fields, NoMemory>
    ensures { IfOk result (λ set. AreFields set (flat_map (λ d. d.fields) classes.now)) }
{
    let mut set = IndexSet::new(alloc);
    for class in classes {
        put_fields(&mut set, class.fields.items())?;
    }
    Ok(set)
}

/// The places of the fields of Descriptor.
pub(crate) fn fields_of(alloc: Global, parts: &Parts<'_>) -> Result<Fields, NoMemory>
    ensures { IfOk result (λ set. AreFields set (all_fields (complete_of parts.now))) }
{
    fields_of_classes(alloc, parts.descriptor.classes.items())
}
