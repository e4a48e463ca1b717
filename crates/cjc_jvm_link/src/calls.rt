//! What calls reach, by the class files and export files of a package (Java Virtual Machine Specification, 6.5:
//! invokestatic, invokespecial, invokevirtual, invokeinterface).

ghost use Rattle.std.specs.Prelude.{◌≡◌, ◌&&◌, ℕ, List, Option, Some, None, not, option_map, option_and_then};
ghost use Rattle.std.specs.Prelude.{MatchOption, if◌then◌else◌};
ghost use Rattle.cjc_world.specs.Bytes.declared.fault.MemberId.{MemberId as Id};
ghost use Rattle.cjc_world.specs.Classes.{all_classes, class_named};
ghost use Rattle.cjc_world.specs.Supertypes.{line};
ghost use Rattle.cjc_world.specs.Lookup.{is_selectable, receiver, find_method};
ghost use Rattle.cjc_world.specs.Working.Known.{class_of};
ghost use Rattle.cjc_jvm_semantics.specs.OnePackage.{callee_at, first_imported, first_super, selected_from};
ghost use Rattle.cjc_jvm_semantics.specs.OnePackage.{on_class, interface_callee, direct_call, super_call, special_call};
ghost use Rattle.cjc_jvm_semantics.specs.OnePackage.{static_call, virtual_call, interface_call, call_by, call_named};
ghost use Rattle.cjc_jvm_semantics.specs.OnePackage.{method_hit, method_at, is_constructor, is_initialiser};
ghost use Rattle.cjc_jvm_step.specs.Step.Names.{callee_of, selection_of, IsCall};
ghost use Rattle.cjc_jvm_link.specs.Found.{hit_of};
ghost use Rattle.cjc_jvm_link.specs.Wanted.{selection_by};
ghost use Rattle.cjc_jvm_link.specs.declared.wanted.Wanted.TheVariants as Wants;

use crate::hits::{Owner, owner_of};
use crate::links::Links;
use crate::wanted::Wanted;
use cjc_jvm_semantics::bytecode::jvm;
use cjc_jvm_step::step::{Call, Callee};
use cjc_world::bytes::{MemberId, is_interface, is_private, is_static};
use cjc_world::{Found, Known};

const OBJECT: &[u8] = b"java/lang/Object";

/// An array counts as java/lang/Object.
pub(crate) fn receiver(class: &[u8]) -> &[u8]
    ensures { result.now ≡ receiver class.now }
{
    match class {
        [b'[', ..] => OBJECT,
        _ => class,
    }
}

/// Whether a method is neither private nor static.
pub(crate) fn is_selectable(flags: u16) -> bool
    ensures { result ≡ is_selectable flags }
{
    !is_private(flags) && !is_static(flags)
}

/// `<init>`.
pub(crate) fn is_constructor(name: &[u8]) -> bool
    ensures { result ≡ is_constructor name.now }
{
    name == b"<init>".as_slice()
}

/// `<clinit>`.
pub(crate) fn is_initialiser(name: &[u8]) -> bool
    ensures { result ≡ is_initialiser name.now }
{
    name == b"<clinit>".as_slice()
}

/// A method that a look-up found, with its class and its flags, and how one is selected for it.
#[derive(Clone, Copy)]
pub(crate) struct FoundMethod<'w, 'a> {
    pub(crate) found: Found,
    pub(crate) owner: Owner<'w, 'a>,
    pub(crate) wanted: Wanted<'w>,
}

impl<'w, 'a> Links<'w, 'a> {
    /// The method that is found from the class that a member names.
    pub(crate) fn method_named(&self, id: &MemberId) -> Option<FoundMethod<'w, 'a>>
        ensures { MatchOption result
            (option_and_then (λ f. method_hit (all_classes self.now.files) f) (find_method (all_classes self.now.files)
            id.now.class id.now.name id.now.desc) ≡ None)
            (λ m. (find_method (all_classes self.now.files) id.now.class id.now.name id.now.desc ≡ Some m.found)
            × (method_hit (all_classes self.now.files) m.found ≡ Some (hit_of m.owner)) × (m.wanted ≡ Wants.Any)) }
    {
        let Some(found) = self.world.find_method(id) else {
            return None;
        };
        let Some(owner) = owner_of(self.world, false, found) else {
            return None;
        };
        Some(FoundMethod {
            found,
            owner,
            wanted: Wanted::Any,
        })
    }

    // A method of the package, or the event of an imported one, which names this class.
    fn callee_at<'s>(&'s self, event: &'s [u8], found: Found) -> Option<Callee<'s>>
        ensures { (id : Id) → option_map (λ c. callee_of c id) result ≡ callee_at self.now.files event.now id found }
    {
        if found.imported {
            return Some(Callee::Abroad(event));
        }
        match self.method_at(found) {
            Some(method) => Some(Callee::Inside(method)),
            None => None,
        }
    }

    // The name of the first imported class at or above the class of a name.
    fn first_imported(&self, name: &[u8]) -> &'w [u8]
        ensures { result.now ≡ first_imported (line (all_classes self.now.files) name.now) }
    {
        self.world.acyclic();
        let Some(found) = self.world.class_named(name) else {
            return &[];
        };
        match found {
            Known::Imported(_, class) => class.name.items(),
            Known::Declared(_, class) => self.first_imported(class.superclass.items()),
        }
    }

    // What is selected from a class upwards.
    fn selected_from(&self, wanted: Wanted<'_>, class: &[u8], id: &MemberId) -> Option<Callee<'_>>
        ensures { option_map (λ c. callee_of c id.now) result ≡ selected_from self.now.files
            (all_classes self.now.files) (selection_by (all_classes self.now.files) wanted.entry) class.now id.now }
    {
        match self.select(wanted, class, id) {
            Some(found) if found.imported => {
                Some(Callee::Abroad(self.first_imported(receiver(class))))
            }
            Some(found) => match self.method_at(found) {
                Some(method) => Some(Callee::Inside(method)),
                None => None,
            },
            None => None,
        }
    }

    // What invokespecial selects from the superclass of the class that holds the code.
    fn selected_above(&self, wanted: Wanted<'_>, holder: &[u8], id: &MemberId) -> Option<Callee<'_>>
        ensures { option_map (λ c. callee_of c id.now) result ≡ option_and_then (λ super. selected_from self.now.files
            (all_classes self.now.files) (selection_by (all_classes self.now.files) wanted.entry) super id.now)
            (first_super (class_named (all_classes self.now.files) holder.now)) }
    {
        match self.world.class_named(holder) {
            Some(class) => match class.supers() {
                [] => None,
                [above, ..] => self.selected_from(wanted, above.items(), id),
            },
            None => None,
        }
    }

    // What invokeinterface reaches on a receiver of a type.
    fn interface_callee<'s>(
        &'s self,
        wanted: Wanted<'_>,
        interface: &'s [u8],
        type_name: &[u8],
        id: &MemberId,
    ) -> Option<Callee<'s>>
        ensures { option_map (λ c. callee_of c id.now) result ≡ interface_callee self.now.files
            (all_classes self.now.files) (selection_by (all_classes self.now.files) wanted.entry) interface.now
            type_name.now id.now
            (class_named (all_classes self.now.files) (receiver type_name.now)) }
    {
        match self.world.class_named(receiver(type_name)) {
            Some(class) if class.is_imported() => Some(Callee::Abroad(interface)),
            Some(_) => self.selected_from(wanted, type_name, id),
            None => None,
        }
    }

    // invokespecial.
    fn special_call(&self, name: &[u8], method: FoundMethod<'w, 'a>) -> Option<Call<'_>>
        ensures { (holder : List ℕ) (id : Id) → id.name ≡ name.now
            → IsCall id result (special_call self.now.files (all_classes self.now.files)
            (selection_by (all_classes self.now.files) method.entry.wanted) holder id method.entry.found (hit_of
            method.entry.owner)) }
    {
        if is_static(method.owner.flags) {
            None
        } else {
            Some(Call::OnObject)
        }
    }

    // invokestatic.
    fn static_call(&self, method: FoundMethod<'w, 'a>) -> Option<Call<'_>>
        ensures { (id : Id) → IsCall id result (static_call self.now.files (all_classes self.now.files) id
            method.entry.found (hit_of method.entry.owner)) }
    {
        if !is_static(method.owner.flags) {
            return None;
        }
        match self.callee_at(method.owner.class.name(), method.found) {
            Some(callee) => Some(Call::OnClass(callee)),
            None => None,
        }
    }

    /// By the opcode.
    pub(crate) fn call_by(
        &self,
        op: u8,
        name: &[u8],
        method: FoundMethod<'w, 'a>,
    ) -> Option<Call<'_>>
        ensures { (holder : List ℕ) (id : Id) → id.name ≡ name.now
            → IsCall id result (call_by self.now.files (all_classes self.now.files)
            (selection_by (all_classes self.now.files) method.entry.wanted) holder op id method.entry.found (hit_of
            method.entry.owner)) }
    {
        if op == jvm::INVOKESPECIAL {
            return self.special_call(name, method);
        }
        if is_constructor(name) {
            return None;
        }
        match op {
            jvm::INVOKEVIRTUAL if is_selectable(method.owner.flags) => Some(Call::OnObject),
            jvm::INVOKESTATIC => self.static_call(method),
            jvm::INVOKEINTERFACE
                if is_interface(method.owner.class.flags()) && is_selectable(method.owner.flags) =>
                { Some(Call::OnObject) }
            _ => None,
        }
    }

    /// A member that an instruction of an opcode calls.
    pub(crate) fn call_named(&self, op: u8, id: &MemberId) -> Option<Call<'_>>
        ensures { (holder : List ℕ) → IsCall id.now result (call_named self.now.files (all_classes self.now.files)
            holder op id.now) }
    {
        if is_initialiser(id.name.items()) {
            return None;
        }
        match self.method_named(id) {
            Some(method) => self.call_by(op, id.name.items(), method),
            None => None,
        }
    }
}

impl<'w, 'a> Links<'w, 'a> {
    // A constructor or a private method itself, on a receiver that is of the class that its name says.
    fn direct_callee<'s>(
        &'s self,
        id: &MemberId,
        method: FoundMethod<'s, 'a>,
        type_name: &[u8],
    ) -> Option<Callee<'s>>
        ensures { option_map (λ c. callee_of c id.now) result
            ≡ selection_of (Some (direct_call self.now.files (all_classes self.now.files) id.now method.entry.found
            (hit_of method.entry.owner))) type_name.now }
    {
        if !self.world.subtype(type_name, id.class.items()) {
            return None;
        }
        self.callee_at(method.owner.class.name(), method.found)
    }

    // What invokespecial selects, on a receiver that is of the class that holds the code.
    fn super_callee(
        &self,
        wanted: Wanted<'_>,
        holder: &[u8],
        id: &MemberId,
        type_name: &[u8],
    ) -> Option<Callee<'_>>
        ensures { option_map (λ c. callee_of c id.now) result
            ≡ selection_of (Some (super_call self.now.files (all_classes self.now.files)
            (selection_by (all_classes self.now.files) wanted.entry) holder.now id.now)) type_name.now }
    {
        if !self.world.subtype(type_name, holder) {
            return None;
        }
        self.selected_above(wanted, holder, id)
    }

    // invokespecial on a receiver of a type.
    fn special_callee<'s>(
        &'s self,
        holder: &[u8],
        id: &MemberId,
        method: FoundMethod<'s, 'a>,
        type_name: &[u8],
    ) -> Option<Callee<'s>>
        ensures { option_map (λ c. callee_of c id.now) result
            ≡ selection_of (special_call self.now.files (all_classes self.now.files)
            (selection_by (all_classes self.now.files) method.entry.wanted) holder.now id.now method.entry.found
            (hit_of method.entry.owner))
            type_name.now }
    {
        if is_static(method.owner.flags) {
            return None;
        }
        if is_constructor(id.name.items()) || is_private(method.owner.flags) {
            return self.direct_callee(id, method, type_name);
        }
        self.super_callee(method.wanted, holder, id, type_name)
    }

    // invokevirtual on a receiver of a type.
    fn virtual_callee<'s>(
        &'s self,
        id: &MemberId,
        method: FoundMethod<'s, 'a>,
        type_name: &[u8],
    ) -> Option<Callee<'s>>
        ensures { option_map (λ c. callee_of c id.now) result
            ≡ selection_of (virtual_call self.now.files (all_classes self.now.files)
            (selection_by (all_classes self.now.files) method.entry.wanted) id.now (hit_of method.entry.owner))
            type_name.now }
    {
        if !is_selectable(method.owner.flags) || !self.world.subtype(type_name, id.class.items()) {
            return None;
        }
        self.selected_from(method.wanted, type_name, id)
    }

    // invokeinterface on a receiver of a type.
    fn called_of_interface<'s>(
        &'s self,
        id: &MemberId,
        method: FoundMethod<'s, 'a>,
        type_name: &[u8],
    ) -> Option<Callee<'s>>
        ensures { option_map (λ c. callee_of c id.now) result
            ≡ selection_of (interface_call self.now.files (all_classes self.now.files)
            (selection_by (all_classes self.now.files) method.entry.wanted) id.now (hit_of method.entry.owner))
            type_name.now }
    {
        let class = method.owner.class;
        if !is_interface(class.flags()) || !is_selectable(method.owner.flags) {
            return None;
        }
        if !self.world.subtype(type_name, id.class.items()) {
            return None;
        }
        self.interface_callee(method.wanted, class.name(), type_name, id)
    }

    /// By the opcode.
    pub(crate) fn callee_by<'s>(
        &'s self,
        holder: &[u8],
        op: u8,
        id: &MemberId,
        method: FoundMethod<'s, 'a>,
        type_name: &[u8],
    ) -> Option<Callee<'s>>
        ensures { option_map (λ c. callee_of c id.now) result
            ≡ selection_of (call_by self.now.files (all_classes self.now.files) (selection_by (all_classes
            self.now.files) method.entry.wanted)
            holder.now op id.now method.entry.found (hit_of method.entry.owner)) type_name.now }
    {
        if op == jvm::INVOKESPECIAL {
            return self.special_callee(holder, id, method, type_name);
        }
        if is_constructor(id.name.items()) {
            return None;
        }
        match op {
            jvm::INVOKEVIRTUAL => self.virtual_callee(id, method, type_name),
            jvm::INVOKEINTERFACE => self.called_of_interface(id, method, type_name),
            _ => None,
        }
    }

    /// What the call of a member reaches on a receiver of a type.
    pub(crate) fn callee_named(
        &self,
        holder: &[u8],
        op: u8,
        id: &MemberId,
        type_name: &[u8],
    ) -> Option<Callee<'_>>
        ensures { option_map (λ c. callee_of c id.now) result
            ≡ selection_of (call_named self.now.files (all_classes self.now.files) holder.now op id.now) type_name.now }
    {
        if is_initialiser(id.name.items()) {
            return None;
        }
        match self.method_named(id) {
            Some(method) => self.callee_by(holder, op, id, method, type_name),
            None => None,
        }
    }
}
