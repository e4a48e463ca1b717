//! `Links`, the look-ups that the machine by name asks, over a world and what is kept for them. What the crate
//! is called for.

ghost use Rattle.std.specs.Prelude.{◌≡◌, ◌&&◌, option_map, option_and_then, map, IfOk};
ghost use Rattle.cjc_jvm_step.specs.Bytecode.PackageCodes.{all_codes};
ghost use Rattle.cjc_world.specs.Classes.{all_classes};
ghost use Rattle.cjc_jvm_semantics.specs.Effects.{fresh_field};
ghost use Rattle.cjc_world.specs.Classes.{class_named};
ghost use Rattle.cjc_world.specs.Subtype.{is_subtype};
ghost use Rattle.cjc_world.specs.Working.Known.{class_of};
ghost use Rattle.cjc_world.specs.Working.Spots.{IsCounted};
ghost use Rattle.cjc_jvm_semantics.specs.OnePackage.{ResolvedMember, method_at, made_of, is_made, is_plain_import};
ghost use Rattle.cjc_jvm_semantics.specs.OnePackage.{is_sendable, entry_in, entry_named, sent_named};
ghost use Rattle.cjc_jvm_link.specs.Linkage.{linked_of};
ghost use Rattle.cjc_jvm_link.specs.Methods.{AreIndices};
ghost use Rattle.cjc_jvm_link.specs.Wanted.{selection_by};

use crate::calls::{is_constructor, is_initialiser, is_selectable};
use crate::cells::{cells, heap_of};
use crate::fresh::Fresh;
use crate::hits::field_named;
use crate::methods::all_methods;
use crate::wanted::Wanted;
use cjc_jvm_semantics::bytecode::MethodCode;
use cjc_jvm_semantics::script::FieldValue;
use cjc_jvm_step::frame::Method;
use cjc_jvm_step::heap::Heap;
use cjc_jvm_step::step::{Call, Callee, LookUps, ResolvedField};
use cjc_world::bytes::{MemberId, NoMemory, Row, is_abstract, is_interface, is_static};
use cjc_world::{Found, Known, StaticImage, World};
use std::alloc::Global;
use std::marker::Model;

/// The look-ups of a package over its world and its static image.
#[derive(Drop)]
pub struct Links<'w, 'a> {
    pub(crate) world: &'w World<'a>,
    pub(crate) image: &'w StaticImage,
    methods: Row<Row<Method<'w>>>,
    fresh: Fresh,
    pub(crate) statics: Row<FieldValue>,
}

impl<'w, 'a> Model for Links<'w, 'a> {
    ghost use Rattle.cjc_jvm_link.specs.Linkage.{Linkage};
    ghost use Rattle.cjc_jvm_link.specs.Working.{AreKept};

    ghost Value = { Linkage };

    ghost view = { λ k. record { files = k.world.now; image = k.image.now } };

    ghost invariant = { λ k. AreKept k.world.now k.image.now k.methods k.fresh k.statics };
}

impl<'w, 'a> Links<'w, 'a> {
    /// The look-ups over a world, whose instructions and their indices these are, and over a static image.
    pub fn new(
        alloc: Global,
        world: &'w World<'a>,
        codes: &'w [MethodCode],
        indices: &'w [Row<u32>],
        image: &'w StaticImage,
    ) -> Result<Links<'w, 'a>, NoMemory>
        requires codes { codes.now ≡ all_codes world.now.classes }
        requires indices { AreIndices codes.now indices.now }
        ensures { IfOk result (λ links. links ≡ record { files = world.now; image = image.now }) }
    {
        let methods = all_methods(alloc, world.classes().items(), codes, indices)?;
        let fresh = Fresh::of_world(alloc, world)?;
        let statics = cells(alloc, image, world.classes().items())?;
        Ok(Links {
            world,
            image,
            methods,
            fresh,
            statics,
        })
    }

    /// The method of the package that a look-up found.
    pub(crate) fn method_at(&self, found: Found) -> Option<&Method<'w>>
        ensures { option_map (λ m. m.now) result ≡ method_at self.now.files found }
    {
        if found.imported {
            return None;
        }
        let classes = self.world.classes().items();
        let Some(class) = classes.get(found.class as usize) else {
            return None;
        };
        let Some(methods) = self.methods.items().get(found.class as usize) else {
            return None;
        };
        let first = class.fields.items().len();
        methods
            .items()
            .get((found.member as usize).saturating_sub(first))
    }

    // The static method that a class of the package declares.
    fn entry_in(&self, class: Known<'_, '_>, id: &MemberId) -> Option<&Method<'w>>
        requires { IsCounted (class_of class) }
        ensures { option_map (λ m. m.now) result ≡ entry_in self.now.files id.now (class_of class.entry) }
    {
        let Some(place) = class.place(false, id.name.items(), id.desc.items()) else {
            return None;
        };
        if !is_static(class.member_flags(false, place)) {
            return None;
        }
        self.method_at(Found {
            imported: class.is_imported(),
            class: class.number(),
            member: (class.field_count() + place) as u32,
        })
    }

    /// The static method that a script calls.
    pub(crate) fn entry_named(&self, id: &MemberId) -> Option<&Method<'w>>
        ensures { option_map (λ m. m.now) result ≡ entry_named self.now.files (all_classes self.now.files) id.now }
    {
        if is_initialiser(id.name.items()) {
            return None;
        }
        match self.world.class_named(id.class.items()) {
            Some(class) => self.entry_in(class, id),
            None => None,
        }
    }

    /// Whether a method may be sent to an object of a type.
    pub(crate) fn is_sent(&self, type_name: &[u8], id: &MemberId, flags: u16) -> bool
        ensures { (hit : ResolvedMember) → hit.flags ≡ flags → result ≡ (is_sendable id.now hit
            && is_subtype (all_classes self.now.files) type_name.now id.now.class) }
    {
        is_selectable(flags)
            && !is_constructor(id.name.items())
            && !is_initialiser(id.name.items())
            && self.world.subtype(type_name, id.class.items())
    }

    /// The method that is selected on an object of a type.
    pub(crate) fn selected_method(
        &self,
        wanted: Wanted<'_>,
        type_name: &[u8],
        id: &MemberId,
    ) -> Option<&Method<'w>>
        ensures { option_map (λ m. m.now) result ≡ option_and_then (method_at self.now.files)
            (selection_by (all_classes self.now.files) wanted.entry type_name.now id.now) }
    {
        match self.select(wanted, type_name, id) {
            Some(found) => self.method_at(found),
            None => None,
        }
    }

    // The method that a script sends to an object of a type.
    fn sent_named(&self, type_name: &[u8], id: &MemberId) -> Option<&Method<'w>>
        ensures { option_map (λ m. m.now) result ≡ sent_named self.now.files (all_classes self.now.files) type_name.now
            id.now }
    {
        let Some(method) = self.method_named(id) else {
            return None;
        };
        if !self.is_sent(type_name, id, method.owner.flags) {
            return None;
        }
        self.selected_method(Wanted::Any, type_name, id)
    }

    /// The fields of a new object of a class, with what they hold at first.
    pub(crate) fn made_of(&self, name: &[u8]) -> Option<&[FieldValue]>
        ensures { option_map (λ fields. fields.now) result ≡ option_map (λ ids. map fresh_field ids)
            (made_of (all_classes self.now.files) name.now) }
    {
        match self.world.class_named(name) {
            Some(class) if is_made(class) => self.fresh.get(name),
            Some(_) => None,
            None => None,
        }
    }

    /// Whether this is an imported class that is no interface.
    pub(crate) fn is_plain_import(&self, name: &[u8]) -> bool
        ensures { result ≡ is_plain_import (class_named (all_classes self.now.files) name.now) }
    {
        match self.world.class_named(name) {
            Some(class) => class.is_imported() && !class.is_interface(),
            None => false,
        }
    }
}

// Whether objects are made of a class: not of an interface, nor of an abstract one.
fn is_made(class: Known<'_, '_>) -> bool
    ensures { result ≡ is_made (class_of class.entry) }
{
    !is_interface(class.flags()) && !is_abstract(class.flags())
}

#[tactic(auto, unfolding(cjc_jvm_semantics::specs::ByName::linked))]
impl<'w, 'a> LookUps for Links<'w, 'a> {
    ghost linked = { linked_of };

    fn is_there(&self, _asker: Option<&[u8]>, class: &[u8]) -> bool {
        self.world.class_named(class).is_some()
    }

    fn is_subtype(&self, _asker: Option<&[u8]>, sub: &[u8], sup: &[u8]) -> bool {
        self.world.subtype(sub, sup)
    }

    fn field(&self, _holder: &[u8], id: &MemberId) -> Option<ResolvedField<'_>> {
        field_named(self.world, id)
    }

    fn call(&self, _holder: &[u8], op: u8, id: &MemberId) -> Option<Call<'_>> {
        self.call_named(op, id)
    }

    fn selected(
        &self,
        holder: &[u8],
        op: u8,
        id: &MemberId,
        receiver: &[u8],
    ) -> Option<Callee<'_>> {
        self.callee_named(holder, op, id, receiver)
    }

    fn made(&self, _holder: &[u8], class: &[u8]) -> Option<&[FieldValue]> {
        self.made_of(class)
    }

    fn entry(&self, id: &MemberId) -> Option<&Method<'_>> {
        self.entry_named(id)
    }

    fn sent(&self, receiver: &[u8], id: &MemberId) -> Option<&Method<'_>> {
        self.sent_named(receiver, id)
    }

    fn is_imported(&self, class: &[u8]) -> bool {
        self.is_plain_import(class)
    }

    fn statics(&self) -> &[FieldValue] {
        self.statics.items()
    }

    fn heap(&self, alloc: Global) -> Result<Heap<'_>, NoMemory> {
        heap_of(alloc, self.image)
    }
}
