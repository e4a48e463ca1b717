//! Slots, the virtual methods of a class by token: a name, a descriptor and the method of the nearest class. It
//! says how a method gets an old slot or a new one, and what is package-visible.

ghost use Rattle.std.specs.Prelude.{◌≡◌, ◌++◌, ◌∷◌, [], ◌+◌, ◌<◌, ◌^◌, ℕ, List, Option, true, false, map, length};
ghost use Rattle.std.specs.Prelude.{position, IfOk, IfSome, OnOk, option_map, ◌&&◌, ◌||◌};
ghost use Rattle.std.specs.Str.{bytes_eq};
ghost use Rattle.cjc_world.specs.declared.found.Found.{Found as Method};
ghost use Rattle.cjc_world.specs.Classes.{Member, declared, method_of_class};
ghost use Rattle.cjc_world.specs.Lookup.{is_called, or_else};
ghost use Rattle.cjc_tokens.specs.Members.{Signature, is_exposed, is_virtual_by, signature_of, signatures};
ghost use Rattle.cjc_tokens.specs.Slots.{got, holds, own, token};
ghost use Rattle.cjc_tokens.specs.declared.slot.Slot.{Slot as RowSlot};
ghost use Rattle.cjc_tokens.specs.Working.{AreOwn, is_kind, is_of_kind, member_of, nearest, Offered, Renewed};
ghost use Rattle.cjc_tokens.specs.Working.{signature_in};
ghost use Rattle.cjc_tokens.specs.Working.{signs};

use crate::growing::GrowingRow;
use crate::indexed::Places;
use cjc_bytes::{MemberId, NoMemory, is_private, is_protected, is_public, is_static};
use cjc_world::Found;
use cjc_world::classfile::{ClassTree, MethodTree};
use std::alloc::Global;

const CONSTRUCTOR: &[u8] = b"<init>";

const INITIALISER: &[u8] = b"<clinit>";

/// A slot: a name and a descriptor, and the method of the nearest class that has one.
#[derive(Clone, Copy)]
pub struct Slot<'w> {
    pub name: &'w [u8],
    pub desc: &'w [u8],
    pub method: Option<Found>,
}

/// The slots of a class by their tokens: of public and protected methods, and of package-visible ones.
#[derive(Drop)]
pub(crate) struct Rows<'w> {
    pub shown: Vec<Option<Slot<'w>>>,
    pub hidden: Vec<Option<Slot<'w>>>,
}

/// Whether a member is public or protected.
pub fn is_exposed(flags: u16) -> bool
    ensures { result ≡ is_exposed flags }
{
    is_public(flags) || is_protected(flags)
}

/// Whether a method of this name is a constructor.
pub(crate) fn is_constructor(name: &[u8]) -> bool
    ensures { result ≡ bytes_eq name.now CONSTRUCTOR.now }
{
    name == CONSTRUCTOR
}

/// Whether a method of this name is the initialiser of a class or interface.
pub(crate) fn is_initialiser(name: &[u8]) -> bool
    ensures { result ≡ bytes_eq name.now INITIALISER.now }
{
    name == INITIALISER
}

/// Whether a method is neither static nor private nor a constructor.
pub fn is_virtual(flags: u16, name: &[u8]) -> bool
    ensures { result ≡ is_virtual_by flags name.now }
{
    !is_private(flags) && !is_static(flags) && !(is_constructor(name) || is_initialiser(name))
}

/// Whether a virtual method is package-visible, or is public or protected.
pub(crate) fn is_of_kind(hidden: bool, flags: u16, name: &[u8]) -> bool
    ensures { result ≡ is_kind hidden flags name.now }
{
    if hidden {
        !is_exposed(flags) && is_virtual(flags, name)
    } else {
        is_exposed(flags) && is_virtual(flags, name)
    }
}

/// Whether a slot is of a name and descriptor.
pub(crate) fn holds(slot: &Option<Slot<'_>>, name: &[u8], desc: &[u8]) -> bool
    ensures { result ≡ holds (option_map signature_in slot.now) (record { name = name.now; desc = desc.now }) }
{
    match slot {
        None => false,
        Some(slot) => slot.name == name && slot.desc == desc,
    }
}

fn slot_place(row: &[Option<Slot<'_>>], name: &[u8], desc: &[u8]) -> Option<usize>
    ensures { result ≡ position (λ slot. holds (option_map signature_in slot) (record {
      name = name.now;
      desc = desc.now;
    })) row.now }
{
    row.iter().position(|slot| holds(slot, name, desc))
}

/// The place of the slot of a name and descriptor.
pub fn token(row: &[Option<Slot<'_>>], name: &[u8], desc: &[u8]) -> Option<usize>
    ensures { result ≡ token (signs row.now) (record { name = name.now; desc = desc.now }) }
{
    slot_place(row, name, desc)
}

/// The places of a class's own virtual methods of a kind, of two with a name and descriptor that of the first.
pub(crate) fn own_places<'w>(
    alloc: Global,
    methods: &'w [MethodTree<'_>],
    hidden: bool,
) -> Result<Places<'w>, NoMemory>
    ensures { IfOk result (λ places. AreOwn hidden places (map method_of_class methods.now)) }
{
    let mut places = Places::new(alloc);
    for (place, method) in methods.iter().enumerate() {
        let name = method.name.items();
        if is_of_kind(hidden, method.flags, name) {
            places.note(name, method.desc.items(), place)?;
        }
    }
    Ok(places)
}

/// A class's own virtual method, by the places of such methods.
#[tactic(auto, unfolding(crate::specs::Slots::own))]
pub(crate) fn own(
    class: &ClassTree<'_>,
    places: &Places<'_>,
    number: u32,
    hidden: bool,
    name: &[u8],
    desc: &[u8],
) -> Option<Found>
    requires few { length class.now.fields + length class.now.methods < 2 ^ 32 }
    requires places { AreOwn hidden places.now (map method_of_class class.now.methods) }
    ensures { result ≡ own (is_of_kind hidden) (record { name = name.now; desc = desc.now })
        (declared number class.now) }
{
    let _hidden = hidden;
    let place = places.get(name, desc)?;
    Some(Found {
        imported: false,
        class: number,
        member: (class.fields.items().len() + place) as u32,
    })
}

fn id_place(added: &[MemberId], name: &[u8], desc: &[u8]) -> Option<usize>
    ensures { result ≡ position (λ m. bytes_eq m.name name.now && bytes_eq m.desc desc.now) added.now }
{
    added
        .iter()
        .position(|m| m.name.items() == name && m.desc.items() == desc)
}

/// The place of an added method.
#[tactic(auto, using(cjc_world::proofs::Places::position_of_map, cjc_world::proofs::Places::position_within))]
fn added_place(added: &[MemberId], name: &[u8], desc: &[u8]) -> Option<usize>
    ensures place { result ≡ position (λ m. is_called name.now desc.now m) (map member_of added.now) }
    ensures within { IfSome result (λ i. i < length added.now) }
{
    id_place(added, name, desc)
}

/// A method that is added to a class.
#[tactic(auto, using(crate::proofs::Places::length_of_methods), unfolding(crate::specs::Slots::got))]
fn got(
    class: &ClassTree<'_>,
    number: u32,
    added: &[MemberId],
    name: &[u8],
    desc: &[u8],
) -> Option<Found>
    requires { length class.now.fields + length class.now.methods + length added.now < 2 ^ 32 }
    ensures { result ≡ got (map member_of added.now) (record { name = name.now; desc = desc.now })
        (declared number class.now) }
{
    let place = added_place(added, name, desc)?;
    Some(Found {
        imported: false,
        class: number,
        member: (class.fields.items().len() + class.methods.items().len() + place) as u32,
    })
}

/// The method of the nearest class, with the one that the superclass has.
fn nearest(
    class: &ClassTree<'_>,
    places: &Places<'_>,
    number: u32,
    added: &[MemberId],
    hidden: bool,
    name: &[u8],
    desc: &[u8],
    above: Option<Found>,
) -> Option<Found>
    requires few { length class.now.fields + length class.now.methods + length added.now < 2 ^ 32 }
    requires places { AreOwn hidden places.now (map method_of_class class.now.methods) }
    ensures { result ≡ nearest (declared number class.now) (map member_of added.now) hidden (record {
      name = name.now;
      desc = desc.now;
    }) above }
{
    if let Some(method) = own(class, places, number, hidden, name, desc) {
        return Some(method);
    }
    if !hidden {
        if let Some(method) = got(class, number, added, name, desc) {
            return Some(method);
        }
    }
    above
}

/// The slots of the superclass, each with the method of the nearest class.
pub(crate) fn renewed<'w>(
    alloc: Global,
    class: &ClassTree<'_>,
    places: &Places<'_>,
    number: u32,
    added: &[MemberId],
    hidden: bool,
    above: &[Option<Slot<'w>>],
) -> Result<Vec<Option<Slot<'w>>>, NoMemory>
    requires few { length class.now.fields + length class.now.methods + length added.now < 2 ^ 32 }
    requires places { AreOwn hidden places.now (map method_of_class class.now.methods) }
    ensures { IfOk result (λ row. Renewed (declared number class.now) (map member_of added.now) hidden above.now
        row.items) }
{
    let mut row = Vec::new(alloc);
    for slot in above {
        match slot {
            None => row.push(None)?,
            Some(slot) => {
                let method = nearest(
                    class,
                    places,
                    number,
                    added,
                    hidden,
                    slot.name,
                    slot.desc,
                    slot.method,
                );
                row.push(Some(Slot {
                    name: slot.name,
                    desc: slot.desc,
                    method,
                }))?;
            }
        }
    }
    Ok(row)
}

/// Puts a slot at the end for each method of the class that has none yet.
pub(crate) fn offer_methods<'w>(
    row: &mut GrowingRow<'w>,
    class: &'w ClassTree<'_>,
    places: &Places<'_>,
    number: u32,
    hidden: bool,
) -> Result<(), NoMemory>
    requires few { length class.now.fields + length class.now.methods < 2 ^ 32 }
    requires places { AreOwn hidden places.now (map method_of_class class.now.methods) }
    ensures { OnOk result (Offered (signatures (is_of_kind hidden) (declared number class.now).methods)
        (λ s. own (is_of_kind hidden) s (declared number class.now)) row.old.items row.new.items) }
{
    for method in class.methods.items() {
        let name = method.name.items();
        let desc = method.desc.items();
        if is_of_kind(hidden, method.flags, name) {
            let found = own(class, places, number, hidden, name, desc);
            row.put_new(name, desc, found)?;
        }
    }
    Ok(())
}

/// Puts a slot at the end for each added method that has none yet.
pub(crate) fn offer_added<'w>(
    row: &mut GrowingRow<'w>,
    class: &ClassTree<'_>,
    number: u32,
    added: &'w [MemberId],
) -> Result<(), NoMemory>
    requires { length class.now.fields + length class.now.methods + length added.now < 2 ^ 32 }
    ensures { OnOk result (Offered (map signature_of (map member_of added.now)) (λ s. got (map member_of added.now) s
        (declared number class.now)) row.old.items row.new.items) }
{
    for id in added {
        let name = id.name.items();
        let desc = id.desc.items();
        let found = got(class, number, added, name, desc);
        row.put_new(name, desc, found)?;
    }
    Ok(())
}
