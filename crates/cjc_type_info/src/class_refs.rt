//! The class_refs of names (Java Card Virtual Machine Specification 2.2.2, section 6.1), made once and then looked up. Called
//! by whoever writes a name of a class. A name that no file has stands for the class at the offset 0, and names nothing.

ghost use Rattle.std.specs.Prelude.{◌≡◌, ◌≤◌, ℕ, List, length, map, option_map, slice_get, IfOk, OnOk};
ghost use Rattle.std.specs.Str.{bytes_eq};
ghost use Rattle.std.specs.Cmp.{partial_equiv_from_equiv};
ghost use Rattle.indexmap.specs.IndexMap.{get};
ghost use Rattle.cjc_card.specs.Classes.{foreign_from};
ghost use Rattle.cjc_world.specs.Classes.{all_classes};
ghost use Rattle.cjc_components.specs.Package.{Package};
ghost use Rattle.cjc_components.specs.Names.{class_ref, ref_to};
ghost use Rattle.cjc_supers.specs.Working.Walk.{fed, names-equivalence, same-fed};
ghost use Rattle.cjc_type_info.specs.TypeTable.{ref_of};
ghost use Rattle.cjc_type_info.specs.Working.Refs.{HasRef, HasRefs, exported_ref, listed_ref, ref_at};

use cjc_bytes::NoMemory;
use cjc_capread::ClassRef;
use cjc_export::{ExportClass, ExportTree};
use cjc_world::World;
use indexmap::IndexMap;
use std::alloc::Global;
use std::hash::{Hash, Hasher};
use std::marker::Model;

/// The name of a class.
#[derive(Drop)]
pub(crate) struct Name<'a> {
    bytes: &'a [u8],
}

impl<'a> Model for Name<'a> {
    ghost use Rattle.std.specs.Prelude.{ℕ, List};

    ghost Value = { List ℕ };

    ghost view = { λ n. n.bytes.now };
}

impl<'a> PartialEq for Name<'a> {
    ghost eq = { bytes_eq };

    ghost laws = { partial_equiv_from_equiv names-equivalence };

    fn eq(&self, other: &Name<'a>) -> bool {
        self.bytes == other.bytes
    }
}

impl<'a> Eq for Name<'a> {
    ghost laws = { names-equivalence };
}

impl<'a> Hash for Name<'a> {
    ghost hash_input = { fed };

    ghost respects_eq = { same-fed };

    fn hash<H: Hasher>(&self, state: &mut H) {
        self.bytes.hash(state)
    }
}

type Refs<'a> = IndexMap<Name<'a>, ClassRef>;

/// Puts a class_ref down at a name, unless the name has one.
fn put_ref<'a>(refs: &mut Refs<'a>, name: &'a [u8], class: ClassRef) -> Result<(), NoMemory>
    ensures { OnOk result (HasRef refs.old refs.new name.now class) }
{
    if refs.get(&Name { bytes: name }).is_none() {
        refs.insert(Name { bytes: name }, class)?;
    }
    Ok(())
}

/// Puts the class_ref of the class at a place down, where one is there.
fn put_at<'w>(
    refs: &mut Refs<'w>,
    world: &'w World<'_>,
    place: u32,
    class: ClassRef,
) -> Result<(), NoMemory>
    ensures { OnOk result (HasRefs (ref_at (slice_get (all_classes world.now) place) class) refs.old refs.new) }
{
    match world.class_in(place) {
        Some(known) => put_ref(refs, known.name(), class),
        None => Ok(()),
    }
}

/// Puts down the class_refs of classes in the order of the list.
fn put_listed<'w>(
    refs: &mut Refs<'w>,
    world: &'w World<'_>,
    classes: &[ClassRef],
) -> Result<(), NoMemory>
    ensures { OnOk result (HasRefs (listed_ref (all_classes world.now) classes.now) refs.old refs.new) }
{
    if classes.len() > 0xFFFF_FFFF {
        return Err(NoMemory);
    }
    for (place, class) in classes.iter().enumerate() {
        put_at(refs, world, place as u32, *class)?;
    }
    Ok(())
}

/// Puts down the class_refs of the classes of an export file.
fn put_exported<'w>(
    refs: &mut Refs<'w>,
    file: u8,
    classes: &'w [ExportClass],
) -> Result<(), NoMemory>
    ensures { OnOk result (HasRefs (exported_ref file classes.now) refs.old refs.new) }
{
    for class in classes {
        let outside = ClassRef::Outside {
            package: file,
            class: class.token,
        };
        put_ref(refs, class.name.items(), outside)?;
    }
    Ok(())
}

/// Puts down those of all export files.
fn put_exports<'w>(refs: &mut Refs<'w>, exports: &'w [ExportTree]) -> Result<(), NoMemory>
    requires { length exports.now ≤ 128 }
    ensures { OnOk result (HasRefs (λ name. option_map ref_to (foreign_from 0 exports.now name)) refs.old refs.new) }
{
    for (file, tree) in exports.iter().enumerate() {
        put_exported(refs, file as u8, tree.classes.items())?;
    }
    Ok(())
}

/// The class_ref of each name. Contracts see the names with theirs.
#[derive(Drop)]
pub struct ClassRefs<'a> {
    refs: Refs<'a>,
}

impl<'a> Model for ClassRefs<'a> {
    ghost use Rattle.std.specs.Prelude.{ℕ, List};
    ghost use Rattle.cjc_capread.specs.declared.tree.ClassRef.{ClassRef as Ref};

    ghost Value = { List ((List ℕ) × Ref) };

    ghost view = { λ r. r.refs.entries };
}

impl<'a> ClassRefs<'a> {
    /// Those of a package: of the classes of all files in the order of the list, and of what export files describe.
    pub fn of(
        alloc: Global,
        world: &'a World<'_>,
        classes: &[ClassRef],
    ) -> Result<ClassRefs<'a>, NoMemory>
        requires { (let w = world.now in length w.exports ≤ 128) }
        ensures { (p : Package) → p.files ≡ world.now → classes.now ≡ map (λ c. class_ref p c.name) (all_classes world.now) → IfOk result (λ refs. ref_of refs ≡ class_ref p) }
    {
        let mut refs = IndexMap::new(alloc);
        put_listed(&mut refs, world, classes)?;
        put_exports(&mut refs, world.exports().items())?;
        Ok(ClassRefs { refs })
    }

    /// The class_ref of a name.
    pub fn class_ref(&self, name: &'a [u8]) -> ClassRef
        ensures { result ≡ ref_of self.now name.now }
    {
        match self.refs.get(&Name { bytes: name }) {
            Some(class) => *class,
            None => ClassRef::Inside(0),
        }
    }
}
