//! The types that Descriptor gives by their offsets (Java Card Virtual Machine Specification 2.2.2, section 6.13).

ghost use Rattle.std.specs.Prelude.{◌≡◌, ◌<◌, ◌+◌, ◌^◌, get_or, length, IfOk};
ghost use Rattle.std.specs.Option.{option_copied};
ghost use Rattle.cjc_card_acts.specs.CardTypes.{type_at, type_of};
ghost use Rattle.cjc_check_rules.specs.Complete.{descriptor_size, type_size};
ghost use Rattle.cjc_check_rules.specs.Described.{types_at};
ghost use Rattle.cjc_check_rules.specs.Spots.{item_at};

use crate::types::{MemberType, member_type, untyped};
use cjc_check_rules::bytes::NoMemory;
use cjc_check_rules::capread::{Descriptor, TypeDescriptor};
use std::alloc::Global;

/// The offset that no type has.
const NO_TYPE: u64 = 0xFFFF;

/// The bytes of a type descriptor: the number of its nibbles, and these in pairs.
fn type_size(type_: &TypeDescriptor) -> u64
    requires { length type_.now.nibbles < 2 ^ 33 }
    ensures { result ≡ type_size type_.now }
{
    1 + (type_.nibbles.items().len() as u64 + 1) / 2
}

/// The type descriptor at an offset, which counts from Descriptor's number of pool entries on.
#[tactic(auto, using(crate::proofs::Descriptors::starts_here, crate::proofs::Descriptors::starts_later, crate::proofs::Descriptors::nothing_left, crate::proofs::Descriptors::few_nibbles))]
pub fn type_descriptor_at(descriptor: &Descriptor, offset: u64) -> Option<&TypeDescriptor>
    requires { 3 + descriptor_size descriptor.now < 2 ^ 32 }
    ensures { option_copied result ≡ item_at (types_at descriptor.now) offset }
{
    let mut at = 2 + 2 * descriptor.pool_types.items().len() as u64;
    let mut left = descriptor.types.items();
    while let [first, rest @ ..] = left {
        if at == offset {
            return Some(first);
        }
        at += type_size(first);
        left = rest;
    }
    None
}

/// What a type descriptor says; where there is none, there are no parameters and no result.
fn type_of(alloc: Global, descriptor: Option<&TypeDescriptor>) -> Result<MemberType<'_>, NoMemory>
    ensures { IfOk result (λ type. type ≡ type_of (option_copied descriptor.entry)) }
{
    match descriptor {
        Some(descriptor) => member_type(alloc, descriptor.nibbles.items()),
        None => Ok(untyped(alloc)),
    }
}

/// The type at an offset, which counts from Descriptor's number of pool entries on.
pub fn type_at(
    alloc: Global,
    descriptor: &Descriptor,
    offset: u64,
) -> Result<MemberType<'_>, NoMemory>
    requires { 3 + descriptor_size descriptor.now < 2 ^ 32 }
    ensures { IfOk result (λ type. type ≡ type_at descriptor.now offset) }
{
    type_of(alloc, type_descriptor_at(descriptor, offset))
}

/// The type that Descriptor gives the member of an entry of the constant pool; a class has none.
pub fn entry_type(
    alloc: Global,
    descriptor: &Descriptor,
    index: usize,
) -> Result<MemberType<'_>, NoMemory>
    requires { 3 + descriptor_size descriptor.now < 2 ^ 32 }
    ensures { IfOk result (λ type. type ≡ type_at descriptor.now (get_or descriptor.now.pool_types index 0xFFFF)) }
{
    let offsets = descriptor.pool_types.items();
    if index < offsets.len() {
        type_at(alloc, descriptor, offsets[index])
    } else {
        type_at(alloc, descriptor, NO_TYPE)
    }
}
