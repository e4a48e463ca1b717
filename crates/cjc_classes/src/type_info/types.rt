//! The type descriptors of a package, each once, and where they begin (Java Card Virtual Machine Specification
//! 2.2.2, section 6.13.4). Whoever writes Descriptor calls it. It knows no token and no code.

ghost use Rattle.std.specs.Prelude.{◌≡◌, ◌+◌, ◌*◌, ◌/◌, ◌<◌, suc, length, map, option_and_then, position, slice_get};
ghost use Rattle.std.specs.Prelude.{unwrap_or, Some, IfOk, OnOk};
ghost use Rattle.std.specs.List.{flat_map};
ghost use Rattle.std.specs.Str.{bytes_eq};
ghost use Rattle.std.specs.Cmp.{partial_equiv_from_equiv};
ghost use Rattle.indexmap.specs.IndexSet.{insert_key};
ghost use Rattle.cjc_components.specs.LowerCheckRules.Spots.{starts};
ghost use Rattle.cjc_components.specs.LowerCheckRules.Complete.{type_size};
ghost use Rattle.cjc_components.specs.LowerClinit.Fields.{is_reference};
ghost use Rattle.cjc_components.specs.Package.{Package};
ghost use Rattle.cjc_components.specs.Types.{desc_of_field, desc_of_key, type_descriptor};
ghost use Rattle.cjc_components.specs.LowerClassOrder.Supers.Working.Walk.{fed, names-equivalence, same-fed, with_all};
ghost use Rattle.cjc_classes.specs.ClassInfo.Refs.{ref_of};
ghost use Rattle.cjc_classes.specs.TypeInfo.TypeTable.{AreOf, offset_in, type_table};
ghost use Rattle.cjc_classes.specs.TypeInfo.Working.Nibbles.{nibbles_in};
ghost use Rattle.cjc_classes.specs.TypeInfo.Working.Descs.{desc_of_added, desc_of_method, descs_at, descs_in};
ghost use Rattle.cjc_classes.specs.TypeInfo.Working.Descs.{nibbles_of_each};

use crate::class_info::ClassRefs;
use crate::type_info::nibbles::nibbles_in;
use cjc_bytes::{Bytes, MemberId, NoMemory, Row};
use cjc_components::capread::TypeDescriptor;
use cjc_components::ncode::PoolKey;
use cjc_world::World;
use cjc_world::classfile::{ClassTree, FieldTree, MethodTree};
use indexmap::IndexSet;
use std::alloc::Global;
use std::hash::{Hash, Hasher};
use std::marker::Model;

const INITIALISER: &[u8] = b"<clinit>";

/// A type descriptor in a set.
#[derive(Drop)]
struct Nibbles {
    bytes: Bytes,
}

impl Model for Nibbles {
    ghost use Rattle.std.specs.Prelude.{ℕ, List};

    ghost Value = { List ℕ };

    ghost view = { λ n. n.bytes };
}

impl PartialEq for Nibbles {
    ghost eq = { bytes_eq };

    ghost laws = { partial_equiv_from_equiv names-equivalence };

    fn eq(&self, other: &Nibbles) -> bool {
        self.bytes.items() == other.bytes.items()
    }
}

impl Eq for Nibbles {
    ghost laws = { names-equivalence };
}

impl Hash for Nibbles {
    ghost hash_input = { fed };

    ghost respects_eq = { same-fed };

    fn hash<H: Hasher>(&self, state: &mut H) {
        self.bytes.items().hash(state)
    }
}

/// Type descriptors, each once, as they were first met.
#[derive(Drop)]
struct Met {
    set: IndexSet<Nibbles>,
}

impl Model for Met {
    ghost use Rattle.std.specs.Prelude.{ℕ, List};

    ghost Value = { List (List ℕ) };

    ghost view = { λ m. m.set.keys };
}

/// Whether a descriptor is of a class or an array.
fn is_reference(desc: &[u8]) -> bool
    ensures { result ≡ is_reference desc.now }
{
    match desc {
        [] => false,
        [byte, ..] => *byte == b'L' || *byte == b'[',
    }
}

impl Met {
    fn put<'a>(&mut self, alloc: Global, refs: &ClassRefs, desc: &'a [u8]) -> Result<(), NoMemory>
        ensures { OnOk result (self.new ≡ insert_key bytes_eq self.old (nibbles_in (ref_of refs.now) desc.now)) }
    {
        let bytes = nibbles_in(alloc, refs, desc)?;
        self.set.insert_full(Nibbles { bytes })?;
        Ok(())
    }

    /// The type of what a key names.
    fn put_key<'a>(
        &mut self,
        alloc: Global,
        refs: &ClassRefs,
        key: &'a PoolKey,
    ) -> Result<(), NoMemory>
        ensures { OnOk result (self.new ≡ with_all self.old (nibbles_of_each (ref_of refs.now) desc_of_key key.now)) }
    {
        match key {
            PoolKey::Class(_) => Ok(()),
            PoolKey::Field(id)
            | PoolKey::Virtual(id)
            | PoolKey::Super(id)
            | PoolKey::StaticField(id)
            | PoolKey::StaticMethod(id) => self.put(alloc, refs, id.desc.items()),
        }
    }

    #[tactic(auto, using(crate::proofs::TypeInfo::Walks::walk_next, crate::proofs::TypeInfo::Walks::walk_end))]
    fn put_keys<'a>(
        &mut self,
        alloc: Global,
        refs: &ClassRefs,
        keys: &'a [PoolKey],
    ) -> Result<(), NoMemory>
        ensures { OnOk result (self.new ≡ with_all self.old (flat_map (nibbles_of_each (ref_of refs.now) desc_of_key)
            keys.now)) }
    {
        for key in keys {
            self.put_key(alloc, refs, key)?;
        }
        Ok(())
    }

    /// The type of a field, where it is one of references.
    fn put_field<'a>(
        &mut self,
        alloc: Global,
        refs: &ClassRefs,
        field: &'a FieldTree,
    ) -> Result<(), NoMemory>
        ensures { OnOk result (self.new ≡ with_all self.old (nibbles_of_each (ref_of refs.now) desc_of_field
            field.now)) }
    {
        if is_reference(field.desc.items()) {
            self.put(alloc, refs, field.desc.items())
        } else {
            Ok(())
        }
    }

    #[tactic(auto, using(crate::proofs::TypeInfo::Walks::walk_next, crate::proofs::TypeInfo::Walks::walk_end))]
    fn put_fields<'a>(
        &mut self,
        alloc: Global,
        refs: &ClassRefs,
        fields: &'a [FieldTree],
    ) -> Result<(), NoMemory>
        ensures { OnOk result (self.new ≡ with_all self.old (flat_map (nibbles_of_each (ref_of refs.now) desc_of_field)
            fields.now)) }
    {
        for field in fields {
            self.put_field(alloc, refs, field)?;
        }
        Ok(())
    }

    fn put_method<'a>(
        &mut self,
        alloc: Global,
        refs: &ClassRefs,
        method: &'a MethodTree<'_>,
    ) -> Result<(), NoMemory>
        ensures { OnOk result (self.new ≡ with_all self.old (nibbles_of_each (ref_of refs.now) desc_of_method
            method.now)) }
    {
        if method.name.items() == INITIALISER {
            Ok(())
        } else {
            self.put(alloc, refs, method.desc.items())
        }
    }

    #[tactic(auto, using(crate::proofs::TypeInfo::Walks::walk_next, crate::proofs::TypeInfo::Walks::walk_end))]
    fn put_methods<'a>(
        &mut self,
        alloc: Global,
        refs: &ClassRefs,
        methods: &'a [MethodTree<'_>],
    ) -> Result<(), NoMemory>
        ensures { OnOk result (self.new ≡ with_all self.old (flat_map (nibbles_of_each (ref_of refs.now) desc_of_method)
            methods.now)) }
    {
        for method in methods {
            self.put_method(alloc, refs, method)?;
        }
        Ok(())
    }

    /// The types of methods that a class got.
    #[tactic(auto, using(crate::proofs::TypeInfo::Walks::walk_next, crate::proofs::TypeInfo::Walks::walk_end))]
    fn put_added<'a>(
        &mut self,
        alloc: Global,
        refs: &ClassRefs,
        added: &'a [MemberId],
    ) -> Result<(), NoMemory>
        ensures { OnOk result (self.new ≡ with_all self.old (flat_map (nibbles_of_each (ref_of refs.now) desc_of_added)
            added.now)) }
    {
        for method in added {
            self.put(alloc, refs, method.desc.items())?;
        }
        Ok(())
    }

    /// The types of a class and of what it got.
    #[tactic(auto, using(crate::proofs::TypeInfo::Walks::in_class))]
    fn put_class<'a>(
        &mut self,
        alloc: Global,
        refs: &ClassRefs,
        class: &'a ClassTree<'_>,
        added: &'a [MemberId],
    ) -> Result<(), NoMemory>
        ensures { OnOk result (self.new ≡ with_all self.old (nibbles_of_each (ref_of refs.now) (descs_in added.now)
            class.now)) }
    {
        self.put_fields(alloc, refs, class.fields.items())?;
        self.put_methods(alloc, refs, class.methods.items())?;
        self.put_added(alloc, refs, added)
    }

    /// The types of the class of a number.
    fn put_number<'a>(
        &mut self,
        alloc: Global,
        refs: &ClassRefs,
        world: &'a World<'_>,
        number: u32,
    ) -> Result<(), NoMemory>
        ensures { OnOk result (self.new ≡ with_all self.old (nibbles_of_each (ref_of refs.now) (descs_at world.now)
            number)) }
    {
        match world.classes().items().get(number as usize) {
            Some(class) => self.put_class(alloc, refs, class, world.added(number).items()),
            None => Ok(()),
        }
    }

    #[tactic(auto, using(crate::proofs::TypeInfo::Walks::walk_next, crate::proofs::TypeInfo::Walks::walk_end))]
    fn put_classes<'a>(
        &mut self,
        alloc: Global,
        refs: &ClassRefs,
        world: &'a World<'_>,
        order: &[u32],
    ) -> Result<(), NoMemory>
        ensures { OnOk result (self.new
            ≡ with_all self.old (flat_map (nibbles_of_each (ref_of refs.now) (descs_at world.now)) order.now)) }
    {
        for number in order {
            self.put_number(alloc, refs, world, *number)?;
        }
        Ok(())
    }

    fn len(&self) -> usize
        ensures { result ≡ length self.now }
    {
        self.set.len()
    }

    fn at(&self, place: usize) -> &[u8]
        requires { place < length self.now }
        ensures { slice_get self.now place ≡ Some result.now }
    {
        self.set[place].bytes.items()
    }

    fn place_of(&self, nibbles: Bytes) -> Option<usize>
        ensures { result ≡ position (bytes_eq nibbles) self.now }
    {
        self.set.get_index_of(&Nibbles { bytes: nibbles })
    }
}

/// Where the next item begins; no memory has as many bytes as 64 bits don't count.
fn behind(at: u64, nibbles: usize) -> Result<u64, NoMemory>
    ensures { IfOk result (λ n. n ≡ at + (1 + suc nibbles / 2)) }
{
    if nibbles > 0xFFFF_FFFF {
        return Err(NoMemory);
    }
    let size = 1 + (nibbles as u64 + 1) / 2;
    match at.checked_add(size) {
        Some(n) => Ok(n),
        None => Err(NoMemory),
    }
}

/// Where each begins, behind so many bytes.
#[tactic(auto, using(crate::proofs::TypeInfo::Starts::starts_next, crate::proofs::TypeInfo::Starts::starts_end))]
fn starts_of(alloc: Global, from: u64, met: &Met) -> Result<Row<u64>, NoMemory>
    ensures { IfOk result (λ row. row ≡ starts type_size from (map type_descriptor met.now)) }
{
    let mut row = Row::new(alloc);
    let mut at = from;
    for place in 0..met.len() {
        row.push(at)?;
        at = behind(at, met.at(place).len())?;
    }
    Ok(row)
}

/// The bytes before the first: the number of the pool's entries and two bytes for each.
fn first_start(keys: &[PoolKey]) -> Result<u64, NoMemory>
    ensures { IfOk result (λ n. n ≡ 2 + 2 * length keys.now) }
{
    let count = keys.len() as u64;
    if count > 0xFFFF_FFFF {
        return Err(NoMemory);
    }
    Ok(2 + 2 * count)
}

/// The type descriptors of a package and the offset of each, in bytes from the number of pool entries on.
/// Contracts see the lists of both.
#[derive(Drop)]
pub struct Types {
    met: Met,
    starts: Row<u64>,
}

impl Model for Types {
    ghost use Rattle.cjc_classes.specs.TypeInfo.TypeTable.{TypeTable};

    ghost Value = { TypeTable };

    ghost view = { λ t. record { types = t.met; starts = t.starts } };
}

impl Types {
    /// Those of a package, by the numbers of its classes in their order and by the keys of its pool.
    pub fn of<'a>(
        alloc: Global,
        refs: &ClassRefs,
        world: &'a World<'_>,
        order: &[u32],
        keys: &'a [PoolKey],
    ) -> Result<Types, NoMemory>
        ensures { (p : Package) → AreOf p world.now order.now keys.now (ref_of refs.now)
            → IfOk result (λ t. t ≡ type_table p) }
    {
        let mut met = Met {
            set: IndexSet::new(alloc),
        };
        met.put_keys(alloc, refs, keys)?;
        met.put_classes(alloc, refs, world, order)?;
        let starts = starts_of(alloc, first_start(keys)?, &met)?;
        Ok(Types { met, starts })
    }

    /// The offset of the type that a descriptor says; 0 where it is not among them.
    pub fn offset<'a>(
        &self,
        alloc: Global,
        refs: &ClassRefs,
        desc: &'a [u8],
    ) -> Result<u64, NoMemory>
        ensures { IfOk result (λ n. n ≡ offset_in self.now (ref_of refs.now) desc.now) }
    {
        let nibbles = nibbles_in(alloc, refs, desc)?;
        Ok(self.offset_at(self.met.place_of(nibbles)))
    }

    fn offset_at(&self, place: Option<usize>) -> u64
        ensures { result ≡ unwrap_or (option_and_then (slice_get self.now.starts) place) 0 }
    {
        match place {
            Some(place) => match self.starts.items().get(place) {
                Some(start) => *start,
                None => 0,
            },
            None => 0,
        }
    }

    /// The type descriptors.
    #[tactic(auto, using(crate::proofs::TypeInfo::Starts::types_next))]
    pub fn descriptors(&self, alloc: Global) -> Result<Row<TypeDescriptor>, NoMemory>
        ensures { IfOk result (λ row. row ≡ map type_descriptor self.now.types) }
    {
        let mut row = Row::new(alloc);
        for place in 0..self.met.len() {
            let nibbles = Bytes::copy_of(alloc, self.met.at(place))?;
            row.push(TypeDescriptor { nibbles })?;
        }
        Ok(row)
    }
}
