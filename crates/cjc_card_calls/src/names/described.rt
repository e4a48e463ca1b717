//! What Descriptor says of the methods that classes of a package declare (Java Card Virtual Machine
//! Specification 2.2.2, section 6.13).

ghost use Rattle.std.specs.Prelude.{◌≡◌, map, option_map};
ghost use Rattle.std.specs.Option.{option_copied};
ghost use Rattle.cjc_card_semantics.specs.CapRead.ClassRefs.{is_inside};
ghost use Rattle.cjc_card_semantics.specs.Machine.Calls.{class_among, declared, described_token, has_no_token};
ghost use Rattle.cjc_card_semantics.specs.Machine.Classes.{Own};
ghost use Rattle.cjc_card_frame.specs.Objects.{class_of};
ghost use Rattle.cjc_card_frame.specs.Kinds.{token_of};
ghost use Rattle.cjc_card_link.specs.Names.{method_name_of};
ghost use Rattle.cjc_card_link.specs.Tables.{AreKept, loaded_of};
ghost use Rattle.cjc_card_calls.specs.Names.Described.{described_among, described_of};

use crate::names::names::named_among;
use cjc_card_frame::heap::Class;
use cjc_card_frame::parts::Token;
use cjc_card_link::{MethodName, Tables};
use cjc_card_semantics::bytes::{MemberId, has, is_private, is_static};
use cjc_card_semantics::capread::{ClassDescriptor, ClassRef, MethodDescriptor};

// The flag of a constructor in Descriptor.
const ACC_CONSTRUCTOR: u16 = 0x80;

// Tokens of package-visible methods begin here.
const FIRST_HIDDEN: u8 = 0x80;

/// What Descriptor says of a method, with its package.
#[derive(Clone, Copy)]
pub(crate) struct Described {
    pub(crate) part: u32,
    pub(crate) method: MethodDescriptor,
}

// Whether a class_ref is to the class of the package at an offset.
fn is_inside(class: ClassRef, offset: u64) -> bool
    ensures { result ≡ is_inside class offset }
{
    match class {
        ClassRef::Inside(at) => at == offset,
        ClassRef::Outside { .. } => false,
    }
}

// The descriptor of the class at an offset.
fn class_among(classes: &[ClassDescriptor], offset: u64) -> Option<&ClassDescriptor>
    ensures { option_copied result ≡ class_among classes.now offset }
{
    for class in classes {
        if is_inside(class.this_class, offset) {
            return Some(class);
        }
    }
    None
}

// What the class at an offset says of the method of a name.
fn described_among(
    part: u32,
    offset: u32,
    id: &MemberId,
    names: &[MethodName],
    classes: &[ClassDescriptor],
) -> Option<Described>
    ensures { option_map described_of result ≡ described_among part offset id.now (map method_name_of names.now)
        classes.now }
{
    match class_among(classes, u64::from(offset)) {
        Some(class) => match named_among(names, class.methods.items(), id) {
            Some(method) => Some(Described { part, method }),
            None => None,
        },
        None => None,
    }
}

// The method of a name that a class of a package declares.
fn declared_in(tables: &Tables<'_>, part: u32, offset: u32, id: &MemberId) -> Option<Described>
    requires { AreKept tables.now }
    ensures { option_map described_of result ≡ declared (loaded_of tables.now) (Own part offset) id.now }
{
    match tables.class_names(part, offset) {
        Some(names) => match tables.part(part) {
            Some(components) => described_among(
                part,
                offset,
                id,
                names.methods.items(),
                components.descriptor,
            ),
            None => None,
        },
        None => None,
    }
}

/// The method of a name that a class declares.
pub(crate) fn declared(tables: &Tables<'_>, class: Class, id: &MemberId) -> Option<Described>
    requires { AreKept tables.now }
    ensures { option_map described_of result ≡ declared (loaded_of tables.now) (class_of class) id.now }
{
    match class {
        Class::Own(part, offset) => declared_in(tables, part, offset, id),
        Class::External(_, _) => None,
    }
}

// Whether a method is static or private, or a constructor.
fn has_no_token(method: MethodDescriptor) -> bool
    ensures { result ≡ has_no_token method }
{
    let flags = u16::from(method.flags);
    is_static(flags) || is_private(flags) || has(flags, ACC_CONSTRUCTOR)
}

/// The token of a method, where it has one.
pub(crate) fn described_token(described: Described) -> Option<Token>
    ensures { option_map token_of result ≡ described_token (described_of described) }
{
    let method = described.method;
    if has_no_token(method) {
        return None;
    }
    if method.token < FIRST_HIDDEN {
        Some(Token::Open(method.token))
    } else {
        Some(Token::Hidden(described.part, method.token - FIRST_HIDDEN))
    }
}
