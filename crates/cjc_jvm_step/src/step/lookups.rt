//! What code and scripts name, as the machine asks it: look-ups by name, whatever keeps the classes.

ghost use Rattle.std.specs.Prelude.{◌≡◌, option_map, map, IfOk};
ghost use Rattle.cjc_jvm_semantics.specs.Effects.{fresh_field};
ghost use Rattle.cjc_jvm_semantics.specs.Linked.{Linked};
ghost use Rattle.cjc_jvm_step.specs.Step.Names.{field_of, callee_of, selection_of, IsCall};

use crate::frame::Method;
use crate::heap::Heap;
use cjc_script::FieldValue;
use cjc_script::bytes::{MemberId, NoMemory};
use std::alloc::Global;

/// A field that code names, by the class that declares it.
#[derive(Clone, Copy)]
pub enum ResolvedField<'a> {
    Constant(i32),
    Static(&'a [u8]),
    Instance(&'a [u8]),
}

/// What a call reaches: a method of a class file, or an imported one by the class that its event names.
#[derive(Clone, Copy)]
pub enum Callee<'a> {
    Inside(&'a Method<'a>),
    Abroad(&'a [u8]),
}

/// A call whose member is found.
#[derive(Clone, Copy)]
pub enum Call<'a> {
    /// Without receiver.
    OnClass(Callee<'a>),
    /// By the type of its receiver.
    OnObject,
}

/// The look-ups. Types are named by a class's name or an array's descriptor. `holder` is the class whose code asks; a
/// script asks for none.
pub trait LookUps {
    ghost linked: { Self → Linked };

    /// Whether some file has a class.
    fn is_there(&self, asker: Option<&[u8]>, class: &[u8]) -> bool
        ensures { result ≡ (linked self.now).is_there (option_map (λ a. a.now) asker.entry) class.now };

    /// Whether a type is of another.
    fn is_subtype(&self, asker: Option<&[u8]>, sub: &[u8], sup: &[u8]) -> bool
        ensures { result ≡ (linked self.now).subtype (option_map (λ a. a.now) asker.entry) sub.now sup.now };

    /// A field that code names.
    fn field(&self, holder: &[u8], id: &MemberId) -> Option<ResolvedField<'_>>
        ensures { option_map (λ f. field_of f id.now) result ≡ (linked self.now).field holder.now id.now };

    /// A member that an instruction of this opcode calls.
    fn call(&self, holder: &[u8], op: u8, id: &MemberId) -> Option<Call<'_>>
        ensures { IsCall id.now result ((linked self.now).call holder.now op id.now) };

    /// What the same reaches on a receiver of this type.
    fn selected(&self, holder: &[u8], op: u8, id: &MemberId, receiver: &[u8]) -> Option<Callee<'_>>
        ensures { option_map (λ c. callee_of c id.now) result ≡ selection_of ((linked self.now).call holder.now op
            id.now) receiver.now };

    /// The fields of a new object of a class, with what they hold at first.
    fn made(&self, holder: &[u8], class: &[u8]) -> Option<&[FieldValue]>
        ensures { option_map (λ fields. fields.now) result ≡ option_map (λ ids. map fresh_field ids)
            ((linked self.now).made holder.now class.now) };

    /// The static method that a script calls.
    fn entry(&self, id: &MemberId) -> Option<&Method<'_>>
        ensures { option_map (λ m. m.now) result ≡ (linked self.now).entry id.now };

    /// The method that a script sends to an object of this type.
    fn sent(&self, receiver: &[u8], id: &MemberId) -> Option<&Method<'_>>
        ensures { option_map (λ m. m.now) result ≡ (linked self.now).sent receiver.now id.now };

    /// Whether this is an imported class that is no interface.
    fn is_imported(&self, class: &[u8]) -> bool
        ensures { result ≡ (linked self.now).is_imported class.now };

    /// The static cells before the first entry.
    fn statics(&self) -> &[FieldValue]
        ensures { result.now ≡ (linked self.now).statics };

    /// The heap before the first entry.
    fn heap(&self, alloc: Global) -> Result<Heap<'_>, NoMemory>
        ensures { IfOk result (λ heap. heap ≡ (linked self.now).heap) };
}
