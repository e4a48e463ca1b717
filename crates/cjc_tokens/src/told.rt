//! The tokens that export files list for public and protected virtual methods, by name and descriptor, and the
//! token of a slot where they contradict one another. Called by `taking`, `methods` and whoever asks for the token
//! of a method in a class.

ghost use Rattle.std.specs.Prelude.{◌≡◌, Option, map, slice_get, true, IfOk, OnOk, None, Some};
ghost use Rattle.cjc_world.specs.Classes.{all_classes, method_of_export};
ghost use Rattle.cjc_world.specs.Working.Known.{class_of};
ghost use Rattle.cjc_tokens.specs.Lines.{line_at};
ghost use Rattle.cjc_tokens.specs.Members.{Signature};
ghost use Rattle.cjc_tokens.specs.Slots.{first_answer, is_of_package, is_slot_of, nearer, or_next, shown_token};
ghost use Rattle.cjc_tokens.specs.Slots.{told_by};
ghost use Rattle.cjc_tokens.specs.Slots.{told_in};
ghost use Rattle.cjc_tokens.specs.Working.{IsToldOf, signs, slot_token, token_meant, told_among, token_under};

use crate::indexed::IndexedRow;
use crate::listed::{listed, nearest_virtual, with_supers};
use crate::method_name::MethodName;
use crate::slot::{Slot, holds, is_of_kind, token};
use cjc_bytes::NoMemory;
use cjc_world::export_file::ExportMethod;
use cjc_world::{Found, Known, World, lookup_laws};
use std::alloc::Global;
use std::collections::HashMap;

/// Tokens by the names and descriptors of methods.
#[derive(Drop)]
pub struct Told<'w> {
    tokens: HashMap<MethodName<'w>, u8>,
}

impl<'w> Told<'w> {
    /// No token is noted for any method.
    fn new(alloc: Global) -> Told<'w>
        ensures { (s : Signature) → token_under result s ≡ None }
    {
        Told {
            tokens: HashMap::new(alloc),
        }
    }

    /// The token that is noted for a name and descriptor.
    pub fn token(&self, name: &[u8], desc: &[u8]) -> Option<u8>
        ensures { result ≡ token_under self.now (record { name = name.now; desc = desc.now }) }
    {
        self.tokens.get(&MethodName { name, desc }).copied()
    }

    /// Notes the token of a public or protected virtual method, where none is noted for its name and descriptor.
    fn note(&mut self, method: &'w ExportMethod) -> Result<(), NoMemory>
        ensures { OnOk result ((s : Signature) → token_under self.new s ≡ or_next (token_under self.old s)
            (told_by s (method_of_export method.now))) }
    {
        let name = method.name.items();
        let desc = method.desc.items();
        if is_of_kind(false, method.flags, name) && self.token(name, desc).is_none() {
            self.tokens.insert(MethodName { name, desc }, method.token)?;
        }
        Ok(())
    }

    /// Notes the tokens of the methods of an imported class.
    fn note_methods(&mut self, methods: &'w [ExportMethod]) -> Result<(), NoMemory>
        ensures { OnOk result ((s : Signature) → token_under self.new s ≡ or_next (token_under self.old s)
            (first_answer (told_by s) (map method_of_export methods.now))) }
    {
        for method in methods {
            self.note(method)?;
        }
        Ok(())
    }

    /// Notes the tokens that a class lists; a class of the package lists none.
    fn note_class(&mut self, class: Known<'w, '_>) -> Result<(), NoMemory>
        ensures { OnOk result ((s : Signature) → token_under self.new s ≡ or_next (token_under self.old s)
            (told_in s (class_of class.entry))) }
    {
        match class {
            Known::Declared(..) => Ok(()),
            Known::Imported(_, class) => self.note_methods(class.methods.items()),
        }
    }
}

/// The tokens that some classes list, the nearest first.
fn told_of<'w>(alloc: Global, classes: &[Known<'w, '_>]) -> Result<Told<'w>, NoMemory>
    ensures { IfOk result (λ told. (s : Signature) → token_under told s ≡ told_among (map class_of classes.now) s) }
{
    let mut told = Told::new(alloc);
    for class in classes {
        told.note_class(*class)?;
    }
    Ok(told)
}

/// The tokens that a class and its superclasses list, the nearest first.
pub fn told_at<'w, 'a>(
    alloc: Global,
    world: &'w World<'a>,
    class: Known<'w, 'a>,
) -> Result<Told<'w>, NoMemory>
    ensures { IfOk result (IsToldOf (line_at (all_classes world.now) (class_of class.entry))) }
{
    lookup_laws();
    world.acyclic();
    let classes = with_supers(alloc, world, class)?;
    told_of(alloc, &classes)
}

/// The slots of public and protected methods of a class by token, the methods there, and the tokens that it and its
/// superclasses list.
#[derive(Drop)]
pub struct Shown<'r, 'w> {
    pub row: IndexedRow<'r, 'w>,
    pub methods: &'r [Option<Found>],
    pub told: &'r Told<'w>,
}

/// Whether a class of the package has the method of a token.
fn is_of_package(methods: &[Option<Found>], token: usize) -> bool
    ensures { result ≡ is_of_package (slice_get methods.now token) }
{
    match methods.get(token) {
        Some(Some(found)) => !found.imported,
        _ => false,
    }
}

/// Whether the slot of a token is of a name and descriptor.
fn is_slot_of(row: &[Option<Slot<'_>>], token: u8, name: &[u8], desc: &[u8]) -> bool
    ensures { result ≡ is_slot_of (slice_get (signs row.now) token) (record { name = name.now; desc = desc.now }) }
{
    match row.get(token as usize) {
        Some(slot) => holds(slot, name, desc),
        None => false,
    }
}

/// The listed token where its slot is of the name and descriptor, else this place.
fn nearer(
    listed: Option<u8>,
    row: &[Option<Slot<'_>>],
    name: &[u8],
    desc: &[u8],
    place: usize,
) -> usize
    ensures { result ≡ nearer listed (signs row.now) (record { name = name.now; desc = desc.now }) place }
{
    match listed {
        Some(token) if is_slot_of(row, token, name, desc) => token as usize,
        _ => place,
    }
}

impl Shown<'_, '_> {
    /// The token of a public or protected virtual method: where a class of the package has the method, the place of
    /// its slot, and of several that which the nearest export file lists; else the token that is listed.
    #[tactic(auto, unfolding(crate::specs::Slots::token_among))]
    pub fn token(&self, name: &[u8], desc: &[u8]) -> Option<usize>
        ensures { result ≡ slot_token self.now (record { name = name.now; desc = desc.now }) }
    {
        let listed = self.told.token(name, desc);
        match self.row.token(name, desc) {
            Some(place) if is_of_package(self.methods, place) => {
                Some(nearer(listed, self.row.slots(), name, desc, place))
            }
            _ => listed.map(usize::from),
        }
    }
}

/// Whether a method is there and a class of the package has it.
fn is_declared(method: Option<Found>) -> bool
    ensures { result ≡ is_of_package (Some method) }
{
    match method {
        Some(found) => !found.imported,
        None => false,
    }
}

/// The token of a name and descriptor among slots of which this is the method.
fn token_meant(
    listed: Option<u8>,
    row: &[Option<Slot<'_>>],
    method: Option<Found>,
    name: &[u8],
    desc: &[u8],
) -> Option<usize>
    ensures { result ≡ token_meant listed (signs row.now) method (record { name = name.now; desc = desc.now }) }
{
    match token(row, name, desc) {
        Some(place) if is_declared(method) => Some(nearer(listed, row, name, desc, place)),
        _ => listed.map(usize::from),
    }
}

/// The token of a public or protected virtual method in an imported class: the one that it or the nearest of its supers
/// lists.
pub fn imported_token<'w, 'a>(
    alloc: Global,
    world: &'w World<'a>,
    class: Known<'w, 'a>,
    name: &[u8],
    desc: &[u8],
) -> Result<Option<usize>, NoMemory>
    requires { (class_of class).is_imported ≡ true }
    ensures { IfOk result (λ t. t ≡ shown_token (line_at (all_classes world.now) (class_of class.entry)) (record {
      name = name.now;
      desc = desc.now;
    })) }
{
    lookup_laws();
    world.acyclic();
    let classes = with_supers(alloc, world, class)?;
    let row = listed(alloc, &classes)?;
    let told = told_of(alloc, &classes)?;
    let method = nearest_virtual(&classes, name, desc)?;
    Ok(token_meant(told.token(name, desc), &row, method, name, desc))
}
