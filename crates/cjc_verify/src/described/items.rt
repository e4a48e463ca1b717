//! The items of Descriptor beside those that are wanted: the first place where one differs.

ghost use Rattle.std.specs.Prelude.{◌≡◌, ◌+◌, ◌*◌, ◌<◌, ◌^◌, ◌==◌, length};
ghost use Rattle.cjc_capread.specs.ClassRefs.{same_class};
ghost use Rattle.cjc_check_rules.specs.ClassRefs.{fields_begin};
ghost use Rattle.cjc_check_rules.specs.Complete.{described_size};
ghost use Rattle.cjc_check_rules.specs.Described.{methods_begin};
ghost use Rattle.cjc_check_rules.specs.Spots.{beside, first, in_info, unless};
ghost use Rattle.cjc_verify.specs.Types.{AreTypes};
ghost use Rattle.cjc_verify.specs.WantedDescriptor.{class_differs, entry_differs, field_differs, head_differs};
ghost use Rattle.cjc_verify.specs.WantedDescriptor.{is_place, method_differs};

use crate::described::types::Types;
use crate::described::wanted::{WantedClass, WantedEntry, WantedField, WantedMethod};
use crate::infos::same_class;
use cjc_capread::{ClassDescriptor, FieldDescriptor, FieldPlace, MethodDescriptor};
use cjc_card_calls::check_index::lookup::{Comparison, earlier, first_beside, unless};
use cjc_check_rules::ComponentPlace;

/// The tag of Descriptor.
const DESCRIPTOR: u8 = 11;

/// Whether a field is where it is wanted.
fn is_place(own: FieldPlace, wanted: FieldPlace) -> bool
    ensures { result ≡ is_place own wanted }
{
    match (own, wanted) {
        (FieldPlace::Static(a), FieldPlace::Static(b)) => a == b,
        (
            FieldPlace::Instance { class, token },
            FieldPlace::Instance {
                class: wanted_class,
                token: wanted_token,
            },
        ) => same_class(class, wanted_class) && token == wanted_token,
        _ => false,
    }
}

impl Comparison<FieldDescriptor, WantedField> for Types<'_> {
    ghost broken = { λ s. field_differs s.descriptor.now };

    ghost fits = { λ s. AreTypes s };

    #[tactic(auto, using(cjc_check_rules::proofs::Firsts::first_append))]
    fn first_between(
        &self,
        at: u32,
        item: &FieldDescriptor,
        other: &WantedField,
    ) -> Option<ComponentPlace> {
        let token = unless(item.token == other.token, DESCRIPTOR, at);
        let flags = unless(item.flags == other.flags, DESCRIPTOR, at + 1);
        let place = unless(is_place(item.place, other.place), DESCRIPTOR, at + 2);
        let type_ = unless(self.is_type(item.type_, &other.type_), DESCRIPTOR, at + 5);
        earlier(earlier(earlier(token, flags), place), type_)
    }
}

impl Comparison<MethodDescriptor, WantedMethod> for Types<'_> {
    ghost broken = { λ s. method_differs s.descriptor.now };

    ghost fits = { λ s. AreTypes s };

    #[tactic(auto, using(cjc_check_rules::proofs::Firsts::first_append))]
    fn first_between(
        &self,
        at: u32,
        item: &MethodDescriptor,
        other: &WantedMethod,
    ) -> Option<ComponentPlace> {
        let token = unless(item.token == other.token, DESCRIPTOR, at);
        let flags = unless(item.flags == other.flags, DESCRIPTOR, at + 1);
        let says = self.says(item.type_offset, &other.nibbles);
        earlier(earlier(token, flags), unless(says, DESCRIPTOR, at + 4))
    }
}

impl Comparison<u64, WantedEntry> for Types<'_> {
    ghost broken = { λ s. entry_differs s.descriptor.now };

    ghost fits = { λ s. AreTypes s };

    #[tactic(auto, unfolding(cjc_check_rules::specs::Spots::first))]
    fn first_between(&self, at: u32, item: &u64, other: &WantedEntry) -> Option<ComponentPlace> {
        match other {
            WantedEntry::Class => None,
            WantedEntry::Member(nibbles) => unless(self.says(*item, nibbles), DESCRIPTOR, at),
        }
    }
}

/// Where a class differs first in its token, its flags or the number of its fields.
#[tactic(auto, using(cjc_check_rules::proofs::Firsts::first_append))]
fn head_differs(at: u32, own: &ClassDescriptor, wanted: &WantedClass) -> Option<ComponentPlace>
    requires { 3 + at + described_size own.now < 2 ^ 32 }
    ensures { result ≡ first (head_differs at own.now wanted.now) }
{
    let count = own.fields.items().len() == wanted.fields.items().len();
    let token = unless(own.token == wanted.token, DESCRIPTOR, at);
    let flags = unless(own.flags == wanted.flags, DESCRIPTOR, at + 1);
    earlier(earlier(token, flags), unless(count, DESCRIPTOR, at + 5))
}

/// The first field of a class that differs.
#[tactic(auto, using(cjc_check_rules::proofs::Arrays::seven_each))]
fn fields_differ(
    types: &Types<'_>,
    at: u32,
    own: &ClassDescriptor,
    wanted: &WantedClass,
) -> Option<ComponentPlace>
    requires ready { AreTypes types.now }
    requires small { 3 + at + described_size own.now < 2 ^ 32 }
    ensures { result ≡ first (beside (λ x. 7) (field_differs types.now.descriptor.now) (fields_begin at own.now)
        own.now.fields wanted.now.fields) }
{
    let begin = at + 9 + 2 * own.interfaces.items().len() as u32;
    first_beside(types, begin, own.fields.items(), wanted.fields.items())
}

/// The first method of a class that differs.
#[tactic(auto, using(cjc_check_rules::proofs::Arrays::twelve_each))]
fn methods_differ(
    types: &Types<'_>,
    at: u32,
    own: &ClassDescriptor,
    wanted: &WantedClass,
) -> Option<ComponentPlace>
    requires ready { AreTypes types.now }
    requires small { 3 + at + described_size own.now < 2 ^ 32 }
    ensures { result ≡ first (beside (λ x. 12) (method_differs types.now.descriptor.now) (methods_begin at own.now)
        own.now.methods wanted.now.methods) }
{
    let fields = 7 * own.fields.items().len() as u32;
    let begin = at + 9 + 2 * own.interfaces.items().len() as u32 + fields;
    first_beside(types, begin, own.methods.items(), wanted.methods.items())
}

impl Comparison<ClassDescriptor, WantedClass> for Types<'_> {
    ghost broken = { λ s. class_differs s.descriptor.now };

    ghost fits = { λ s. AreTypes s };

    #[tactic(auto, using(cjc_check_rules::proofs::Firsts::first_append))]
    fn first_between(
        &self,
        at: u32,
        item: &ClassDescriptor,
        other: &WantedClass,
    ) -> Option<ComponentPlace> {
        let head = head_differs(at, item, other);
        let fields = fields_differ(self, at, item, other);
        earlier(earlier(head, fields), methods_differ(self, at, item, other))
    }
}
