//! What the fields of a new object hold at first, those of superclasses before its own, made once for each
//! class before the first instruction.

ghost use Rattle.std.specs.Prelude.{◌≡◌, ◌++◌, ◌∷◌, [], ℕ, List, map, slice_get, option_map, OnOk, IfOk, cond, Some};
ghost use Rattle.std.specs.Prelude.{None, if◌then◌else◌};
ghost use Rattle.std.specs.Str.{bytes_eq};
ghost use Rattle.cjc_jvm_step.specs.Script.declared.report.FieldValue.{FieldValue as FieldCell};
ghost use Rattle.cjc_world.specs.Classes.{Class, all_classes, class_named};
ghost use Rattle.cjc_world.specs.Working.Known.{class_of};
ghost use Rattle.cjc_world.specs.Bytes.AccessFlags.{is_static};
ghost use Rattle.cjc_jvm_semantics.specs.Effects.{fresh_field};
ghost use Rattle.cjc_jvm_semantics.specs.OnePackage.{declared_fields};
ghost use Rattle.cjc_jvm_link.specs.Fresh.{fresh_in, fresh_fields, own_fields, AreFresh, HasAll, HasClass, HasEach};
ghost use Rattle.cjc_jvm_link.specs.Fresh.{Keeps};

use crate::zeros::{field_id, fresh_field};
use cjc_jvm_semantics::script::FieldValue;
use cjc_world::bytes::{Bytes, NoMemory, Row, is_static};
use cjc_world::classfile::{ClassTree, FieldTree};
use cjc_world::{Known, World};
use std::alloc::Global;
use std::collections::HashMap;
use std::slice;

/// Of the name of each class the fields of its objects, a superclass's before its own, with what they hold at first.
#[derive(Drop)]
pub(crate) struct Fresh {
    fields: HashMap<Vec<u8>, Row<FieldValue>>,
}

// A field of a class is put at the end, where objects have it.
fn put_field(
    alloc: Global,
    class: &[u8],
    field: &FieldTree,
    fields: &mut Row<FieldValue>,
) -> Result<(), NoMemory>
    ensures { OnOk result (fields.new ≡ fields.old ++ (if is_static field.now.flags then []
        else fresh_field (record { class = class.now; name = field.now.name; desc = field.now.desc }) ∷ [])) }
{
    if is_static(field.flags) {
        return Ok(());
    }
    fields.push(fresh_field(alloc, class, field.name.items(), field.desc.items())?)?;
    Ok(())
}

// The fields of objects that a class of the package declares are put at the end.
fn put_own(
    alloc: Global,
    class: &ClassTree<'_>,
    fields: &mut Row<FieldValue>,
) -> Result<(), NoMemory>
    ensures { OnOk result (fields.new ≡ fields.old ++ own_fields class.now) }
{
    for field in class.fields.items() {
        put_field(alloc, class.name.items(), field, fields)?;
    }
    Ok(())
}

// Those of a class of either kind.
fn put_declared(
    alloc: Global,
    class: Known<'_, '_>,
    fields: &mut Row<FieldValue>,
) -> Result<(), NoMemory>
    ensures { OnOk result (fields.new ≡ fields.old ++ map fresh_field (declared_fields (class_of class.entry))) }
{
    match class {
        Known::Declared(_, class) => put_own(alloc, class, fields),
        Known::Imported(..) => Ok(()),
    }
}

// Fields are put at the end, in memory of their own.
fn put_copies(
    alloc: Global,
    more: &[FieldValue],
    fields: &mut Row<FieldValue>,
) -> Result<(), NoMemory>
    ensures { OnOk result (fields.new ≡ fields.old ++ more.now) }
{
    for field in more {
        let id = &field.field;
        fields.push(FieldValue {
            field: field_id(alloc, id.class.items(), id.name.items(), id.desc.items())?,
            value: field.value,
        })?;
    }
    Ok(())
}

impl Fresh {
    // Nothing yet.
    fn new(alloc: Global) -> Fresh
        ensures { (name : List ℕ) → fresh_in result name ≡ None }
    {
        Fresh {
            fields: HashMap::new(alloc),
        }
    }

    /// The fields that are kept for the name of a class.
    pub(crate) fn get(&self, name: &[u8]) -> Option<&[FieldValue]>
        ensures { option_map (λ f. f.now) result ≡ fresh_in self.now name.now }
    {
        match self.fields.get(name) {
            Some(fields) => Some(fields.items()),
            None => None,
        }
    }

    // Keeps the fields of the class of a name.
    fn keep(&mut self, alloc: Global, name: &[u8], fields: Row<FieldValue>) -> Result<(), NoMemory>
        ensures { OnOk result ((x : List ℕ) → fresh_in self.new x ≡ cond (bytes_eq name.now x) (Some fields)
            (fresh_in self.old x)) }
    {
        let name = Vec::from_slice(alloc, name)?;
        self.fields.insert(name, fields)?;
        Ok(())
    }
}

impl Fresh {
    // The fields of the classes of some names and of what is above them are put at the end.
    fn put_above(
        &self,
        alloc: Global,
        world: &World<'_>,
        names: &[Bytes],
        fields: &mut Row<FieldValue>,
    ) -> Result<(), NoMemory>
        requires fresh { AreFresh (all_classes world.now) self.now }
        requires has { HasEach (all_classes world.now) self.now names.now }
        ensures { OnOk result (fields.new ≡ fields.old ++ fresh_fields (all_classes world.now) names.now) }
    {
        world.acyclic();
        match names {
            [] => Ok(()),
            [name, rest @ ..] => {
                self.put_above(alloc, world, rest, fields)?;
                match self.get(name.items()) {
                    Some(more) => put_copies(alloc, more, fields),
                    None => Ok(()),
                }
            }
        }
    }

    // Keeps the fields of a class, where those of its superclasses are kept.
    fn put_class(
        &mut self,
        alloc: Global,
        world: &World<'_>,
        name: &[u8],
        class: Known<'_, '_>,
    ) -> Result<(), NoMemory>
        requires fresh { AreFresh (all_classes world.now) self.old }
        requires named { class_named (all_classes world.now) name.now ≡ Some (class_of class) }
        requires has { HasEach (all_classes world.now) self.old (class_of class).supers }
        ensures fresh { OnOk result (AreFresh (all_classes world.now) self.new) }
        ensures keeps { OnOk result (Keeps self.old self.new) }
        ensures has { OnOk result (HasClass (all_classes world.now) self.new name.now) }
    {
        world.acyclic();
        let mut fields = Row::new(alloc);
        self.put_above(alloc, world, class.supers(), &mut fields)?;
        put_declared(alloc, class, &mut fields)?;
        self.keep(alloc, name, fields)
    }

    // Keeps the fields of the classes of some names, and of what is above them.
    fn put_classes(
        &mut self,
        alloc: Global,
        world: &World<'_>,
        names: &[Bytes],
    ) -> Result<(), NoMemory>
        requires fresh { AreFresh (all_classes world.now) self.old }
        ensures fresh { OnOk result (AreFresh (all_classes world.now) self.new) }
        ensures keeps { OnOk result (Keeps self.old self.new) }
        ensures has { OnOk result (HasEach (all_classes world.now) self.new names.now) }
    {
        world.acyclic();
        match names {
            [] => Ok(()),
            [name, rest @ ..] => {
                self.put_classes(alloc, world, rest)?;
                if self.get(name.items()).is_some() {
                    return Ok(());
                }
                let Some(class) = world.class_named(name.items()) else {
                    return Ok(());
                };
                self.put_classes(alloc, world, class.supers())?;
                self.put_class(alloc, world, name.items(), class)
            }
        }
    }

    /// Those of all classes of a world.
    pub(crate) fn of_world(alloc: Global, world: &World<'_>) -> Result<Fresh, NoMemory>
        ensures fresh { IfOk result (AreFresh (all_classes world.now)) }
        ensures all { IfOk result (HasAll (all_classes world.now)) }
    {
        let mut fresh = Fresh::new(alloc);
        let mut place: u32 = 0;
        while let Some(class) = world.class_in(place) {
            fresh.put_classes(alloc, world, name_of(class))?;
            let Some(next) = place.checked_add(1) else {
                return Err(NoMemory);
            };
            place = next;
        }
        Ok(fresh)
    }
}

// The name of a class, in a list of its own.
fn name_of<'w>(class: Known<'w, '_>) -> &'w [Bytes]
    ensures { result.now ≡ (class_of class.entry).name ∷ [] }
{
    match class {
        Known::Declared(_, class) => slice::from_ref(&class.name),
        Known::Imported(_, class) => slice::from_ref(&class.name),
    }
}
