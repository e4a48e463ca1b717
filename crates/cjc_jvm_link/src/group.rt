//! `GroupLinks`, the look-ups that the machine by name asks of several packages that run together: a name of a
//! package's code is looked up in that package's world, and what is found there is looked up in the world of all.

ghost use Rattle.std.specs.Prelude.{◌≡◌, ℕ, List, Some, None, option_map, option_and_then, map, IfOk, MatchOption};
ghost use Rattle.std.specs.List.{find};
ghost use Rattle.std.specs.Str.{bytes_eq};
ghost use Rattle.cjc_world.specs.Classes.{all_classes};
ghost use Rattle.cjc_jvm_step.specs.Bytecode.PackageCodes.{all_codes};
ghost use Rattle.cjc_jvm_semantics.specs.OnePackage.{call_by};
ghost use Rattle.cjc_jvm_semantics.specs.Effects.{fresh_field};
ghost use Rattle.cjc_jvm_semantics.specs.Group.{call_from, field_from, files_of_class, group_call, group_sent};
ghost use Rattle.cjc_jvm_semantics.specs.Group.{joint, joint_field, have_class};
ghost use Rattle.cjc_jvm_step.specs.Step.Names.{field_of, callee_of, selection_of, IsCall};
ghost use Rattle.cjc_jvm_link.specs.Found.{hit_of};
ghost use Rattle.cjc_jvm_link.specs.Group.{linked_of_group};
ghost use Rattle.cjc_jvm_link.specs.Methods.{AreIndices};
ghost use Rattle.cjc_jvm_link.specs.Wanted.{selection_by};

use crate::calls::{FoundMethod, is_initialiser};
use crate::cells::heap_of;
use crate::hits::{constant_at, field_at, owner_of};
use crate::links::Links;
use crate::wanted::{package_of, wanted_for};
use cjc_jvm_semantics::bytecode::MethodCode;
use cjc_jvm_semantics::script::FieldValue;
use cjc_jvm_step::frame::Method;
use cjc_jvm_step::heap::Heap;
use cjc_jvm_step::step::{Call, Callee, LookUps, ResolvedField};
use cjc_world::bytes::{MemberId, NoMemory, Row};
use cjc_world::{StaticImage, World};
use std::alloc::Global;
use std::marker::Model;

/// A package that runs together with others, by its world.
#[derive(Drop)]
pub struct Package<'w, 'a> {
    pub world: &'w World<'a>,
}

impl<'w, 'a> Model for Package<'w, 'a> {
    ghost use Rattle.cjc_world.specs.Files.{Files};

    ghost Value = { Files };

    ghost view = { λ p. p.world.now };
}

/// The look-ups of several packages.
#[derive(Drop)]
pub struct GroupLinks<'w, 'a> {
    packages: &'w [Package<'w, 'a>],
    /// Those over the world of all.
    links: Links<'w, 'a>,
}

impl<'w, 'a> Model for GroupLinks<'w, 'a> {
    ghost use Rattle.std.specs.Prelude.{◌≡◌};
    ghost use Rattle.cjc_jvm_semantics.specs.Group.{joint};
    ghost use Rattle.cjc_jvm_link.specs.Group.{Grouped};

    ghost Value = { Grouped };

    ghost view = { λ g. record { group = g.packages.now; image = g.links.image } };

    ghost invariant = { λ g. g.links.files ≡ joint g.packages.now };
}

impl<'w, 'a> GroupLinks<'w, 'a> {
    /// The look-ups of these packages, over the world of all, whose instructions and their indices these are, and over
    /// what all static cells hold at first.
    pub fn new(
        alloc: Global,
        packages: &'w [Package<'w, 'a>],
        world: &'w World<'a>,
        codes: &'w [MethodCode],
        indices: &'w [Row<u32>],
        image: &'w StaticImage,
    ) -> Result<GroupLinks<'w, 'a>, NoMemory>
        requires world { world.now ≡ joint packages.now }
        requires codes { codes.now ≡ all_codes world.now.classes }
        requires indices { AreIndices codes.now indices.now }
        ensures { IfOk result (λ links. links ≡ record { group = packages.now; image = image.now }) }
    {
        let links = Links::new(alloc, world, codes, indices, image)?;
        Ok(GroupLinks { packages, links })
    }

    /// The package of a name.
    fn package_named(&self, name: &[u8]) -> Option<&'w Package<'w, 'a>>
        ensures { option_map (λ p. p.now) result ≡ find (λ p. bytes_eq p.package_name name.now) self.now.group }
    {
        self.packages.iter().find(|p| p.world.package() == name)
    }

    /// The world of the package of a class.
    fn world_of(&self, class: &[u8]) -> Option<&'w World<'a>>
        ensures { option_map (λ w. w.now) result ≡ files_of_class self.now.group class.now }
    {
        match self.package_named(package_of(class)) {
            Some(package) => Some(package.world),
            None => None,
        }
    }

    /// Whether the files of the package that asks have a class.
    fn have_class(&self, holder: &[u8], class: &[u8]) -> bool
        ensures { result ≡ have_class (files_of_class self.now.group holder.now) class.now }
    {
        match self.world_of(holder) {
            Some(world) => world.class_named(class).is_some(),
            None => false,
        }
    }

    /// The field that the world of all has for one that was found in a class of this name.
    fn joint_field(&self, owner: &[u8], id: &MemberId) -> Option<ResolvedField<'_>>
        ensures { option_map (λ f. field_of f id.now) result ≡ joint_field (joint self.now.group)
            (all_classes (joint self.now.group)) id.now owner.now }
    {
        match self.links.world.find_field_from(owner, id) {
            Some(found) => field_at(self.links.world, found),
            None => None,
        }
    }

    /// A field that code of a package names.
    fn field_from(&self, asker: &World<'_>, id: &MemberId) -> Option<ResolvedField<'_>>
        ensures { option_map (λ f. field_of f id.now) result ≡ field_from (joint self.now.group)
            (all_classes (joint self.now.group)) id.now asker.now }
    {
        let Some(found) = asker.find_field(id) else {
            return None;
        };
        if let Some(value) = constant_at(asker, found) {
            return Some(ResolvedField::Constant(value));
        }
        match owner_of(asker, true, found) {
            Some(owner) => self.joint_field(owner.class.name(), id),
            None => None,
        }
    }

    /// The method that the world of all has for one that a package found.
    fn method_from(&self, asker: &World<'_>, id: &MemberId) -> Option<FoundMethod<'_, 'a>>
        ensures { MatchOption result
            ((holder : List ℕ) (op : ℕ) → call_from (joint self.now.group) (all_classes (joint self.now.group)) holder
            op id.now
            asker.now ≡ None)
            (λ m. (holder : List ℕ) (op : ℕ) → call_from (joint self.now.group) (all_classes (joint self.now.group))
            holder op id.now
            asker.now ≡ call_by (joint self.now.group) (all_classes (joint self.now.group)) (selection_by
            (all_classes (joint self.now.group)) m.wanted) holder op id.now m.found (hit_of m.owner)) }
    {
        let Some(found) = asker.find_method(id) else {
            return None;
        };
        let Some(owner) = owner_of(asker, false, found) else {
            return None;
        };
        let Some(found) = self.links.joint_method(owner.class, id) else {
            return None;
        };
        let Some(owner) = owner_of(self.links.world, false, found) else {
            return None;
        };
        Some(FoundMethod {
            found,
            owner,
            wanted: wanted_for(owner),
        })
    }

    /// The same where the code of a class asks; none of an initialiser.
    fn method_for(&self, holder: &[u8], id: &MemberId) -> Option<FoundMethod<'_, 'a>>
        ensures { MatchOption result
            ((op : ℕ) → group_call (joint self.now.group) (all_classes (joint self.now.group)) holder.now op id.now
            (files_of_class self.now.group holder.now) ≡ None)
            (λ m. (op : ℕ) → group_call (joint self.now.group) (all_classes (joint self.now.group)) holder.now op id.now
            (files_of_class self.now.group holder.now) ≡ call_by (joint self.now.group) (all_classes (joint
            self.now.group))
            (selection_by (all_classes (joint self.now.group)) m.wanted) holder.now op id.now m.found (hit_of
            m.owner)) }
    {
        if is_initialiser(id.name.items()) {
            return None;
        }
        match self.world_of(holder) {
            Some(asker) => self.method_from(asker, id),
            None => None,
        }
    }

    /// The method that a script sends to an object of a type.
    fn sent_named(&self, type_name: &[u8], id: &MemberId) -> Option<&Method<'w>>
        ensures { option_map (λ m. m.now) result ≡ group_sent (joint self.now.group) (all_classes (joint
            self.now.group))
            type_name.now id.now }
    {
        let Some(method) = self.links.method_named(id) else {
            return None;
        };
        if !self.links.is_sent(type_name, id, method.owner.flags) {
            return None;
        }
        self.links
            .selected_method(wanted_for(method.owner), type_name, id)
    }
}

#[tactic(auto, unfolding(cjc_jvm_semantics::specs::Group::group_linked))]
impl<'w, 'a> LookUps for GroupLinks<'w, 'a> {
    ghost linked = { linked_of_group };

    fn is_there(&self, asker: Option<&[u8]>, class: &[u8]) -> bool {
        match asker {
            Some(holder) => self.have_class(holder, class),
            None => self.links.world.class_named(class).is_some(),
        }
    }

    fn is_subtype(&self, _asker: Option<&[u8]>, sub: &[u8], sup: &[u8]) -> bool {
        self.links.world.subtype(sub, sup)
    }

    fn field(&self, holder: &[u8], id: &MemberId) -> Option<ResolvedField<'_>> {
        match self.world_of(holder) {
            Some(asker) => self.field_from(asker, id),
            None => None,
        }
    }

    fn call(&self, holder: &[u8], op: u8, id: &MemberId) -> Option<Call<'_>> {
        match self.method_for(holder, id) {
            Some(method) => self.links.call_by(op, id.name.items(), method),
            None => None,
        }
    }

    fn selected(
        &self,
        holder: &[u8],
        op: u8,
        id: &MemberId,
        receiver: &[u8],
    ) -> Option<Callee<'_>> {
        match self.method_for(holder, id) {
            Some(method) => self.links.callee_by(holder, op, id, method, receiver),
            None => None,
        }
    }

    fn made(&self, holder: &[u8], class: &[u8]) -> Option<&[FieldValue]> {
        if !self.have_class(holder, class) {
            return None;
        }
        self.links.made_of(class)
    }

    fn entry(&self, id: &MemberId) -> Option<&Method<'_>> {
        self.links.entry_named(id)
    }

    fn sent(&self, receiver: &[u8], id: &MemberId) -> Option<&Method<'_>> {
        self.sent_named(receiver, id)
    }

    fn is_imported(&self, class: &[u8]) -> bool {
        self.links.is_plain_import(class)
    }

    fn statics(&self) -> &[FieldValue] {
        self.links.statics.items()
    }

    fn heap(&self, alloc: Global) -> Result<Heap<'_>, NoMemory> {
        heap_of(alloc, self.links.image)
    }
}
