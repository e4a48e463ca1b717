//! Rules 301 and 302: the types that a package may not use, and int, which its list has to allow.

ghost use Rattle.std.specs.Prelude.{◌≡◌, ◌∷◌, ◌++◌, []};
ghost use Rattle.std.specs.List.{list_any};
ghost use Rattle.cjc_subset.specs.Types.{is_unsupported_desc, is_unsupported_element, is_unsupported_member};
ghost use Rattle.cjc_subset.specs.Types.{is_unsupported_name, is_unsupported_number, is_unsupported_part, is_int};
ghost use Rattle.cjc_subset.specs.Types.{is_int_desc, is_int_element, is_int_member, is_int_name, is_int_part};
ghost use Rattle.cjc_subset.specs.Types.{is_other, names_unsupported, names_int};

use crate::members::is_array;
use cjc_bytes::{Desc, Kind, MemberId};
use cjc_code::{JOp, jvm};

/// The type number of int in a newarray.
pub(crate) const T_INT: u8 = 10;

// ---- 301

fn is_unsupported_element(bytes: &[u8]) -> bool
    ensures { result ≡ is_unsupported_element bytes.now }
{
    match bytes {
        [] => false,
        [byte, ..] => {
            *byte == b'[' || *byte == b'C' || *byte == b'D' || *byte == b'F' || *byte == b'J'
        }
    }
}

/// Whether a name is that of an array of chars, longs, floats, doubles or arrays.
fn is_unsupported_name(name: &[u8]) -> bool
    ensures { result ≡ is_unsupported_name name.now }
{
    match name {
        [] => false,
        [byte, rest @ ..] => *byte == b'[' && is_unsupported_element(rest),
    }
}

fn is_other(kind: Kind) -> bool
    ensures { result ≡ is_other kind }
{
    match kind {
        Kind::Other => true,
        _ => false,
    }
}

fn is_any_unsupported(desc: &Desc<'_>) -> bool
    ensures { result ≡ list_any (λ p. is_unsupported_part p) (desc.now.params ++ desc.now.result ∷ []) }
{
    desc.types().any(|(kind, class)| is_other(kind) || is_unsupported_name(class))
}

/// Whether char, long, float, double or an array of more than one dimension stands in a descriptor.
#[tactic(auto, unfolding(crate::specs::Types::is_unsupported_desc))]
pub(crate) fn is_unsupported_desc(desc: &[u8]) -> bool
    ensures { result ≡ is_unsupported_desc desc.now }
{
    if desc.len() >= 0x1_0000_0000 {
        return false;
    }
    match Desc::parse(desc) {
        Ok(desc) => is_any_unsupported(&desc),
        Err(_) => false,
    }
}

fn is_unsupported_member(id: &MemberId) -> bool
    ensures { result ≡ is_unsupported_member id.now }
{
    is_unsupported_name(id.class.items()) || is_unsupported_desc(id.desc.items())
}

fn is_unsupported_number(number: u8) -> bool
    ensures { result ≡ is_unsupported_number number }
{
    number == 5 || number == 6 || number == 7 || number == 11
}

/// Whether an instruction names such a type, or its anewarray names an array.
#[tactic(auto, unfolding(crate::specs::Types::names_unsupported))]
pub(crate) fn names_unsupported(op: &JOp) -> bool
    ensures { result ≡ names_unsupported op.now }
{
    match op {
        JOp::Static { field, .. } => is_unsupported_member(field),
        JOp::Field { field, .. } => is_unsupported_member(field),
        JOp::Call { method, .. } => is_unsupported_member(method),
        JOp::New(name) => is_unsupported_name(name.items()),
        JOp::NewArray(number) => is_unsupported_number(*number),
        JOp::ANewArray(name) => is_array(name.items()),
        JOp::CheckCast(name) => is_unsupported_name(name.items()),
        JOp::InstanceOf(name) => is_unsupported_name(name.items()),
        _ => false,
    }
}

// ---- 302

#[tactic(auto, unfolding(crate::specs::Types::is_int_element))]
fn is_int_element(bytes: &[u8]) -> bool
    ensures { result ≡ is_int_element bytes.now }
{
    match bytes {
        [] => false,
        [b'[', rest @ ..] => is_int_element(rest),
        [byte, ..] => *byte == b'I',
    }
}

/// Whether a name is that of an array of ints, in whatever dimension.
fn is_int_name(name: &[u8]) -> bool
    ensures { result ≡ is_int_name name.now }
{
    match name {
        [] => false,
        [byte, rest @ ..] => *byte == b'[' && is_int_element(rest),
    }
}

fn is_int(kind: Kind) -> bool
    ensures { result ≡ is_int kind }
{
    match kind {
        Kind::Int => true,
        _ => false,
    }
}

fn is_any_int(desc: &Desc<'_>) -> bool
    ensures { result ≡ list_any (λ p. is_int_part p) (desc.now.params ++ desc.now.result ∷ []) }
{
    desc.types()
        .any(|(kind, class)| is_int(kind) || is_int_name(class))
}

/// Whether int stands in a descriptor.
#[tactic(auto, unfolding(crate::specs::Types::is_int_desc))]
pub fn is_int_desc(desc: &[u8]) -> bool
    ensures { result ≡ is_int_desc desc.now }
{
    if desc.len() >= 0x1_0000_0000 {
        return false;
    }
    match Desc::parse(desc) {
        Ok(desc) => is_any_int(&desc),
        Err(_) => false,
    }
}

fn is_int_member(id: &MemberId) -> bool
    ensures { result ≡ is_int_member id.now }
{
    is_int_name(id.class.items()) || is_int_desc(id.desc.items())
}

/// Whether an instruction names int, or works on arrays of ints.
#[tactic(auto, unfolding(crate::specs::Types::names_int))]
pub(crate) fn names_int(op: &JOp) -> bool
    ensures { result ≡ names_int op.now }
{
    match op {
        JOp::ArrayLoad(op) => *op == jvm::IALOAD,
        JOp::ArrayStore(op) => *op == jvm::IASTORE,
        JOp::Static { field, .. } => is_int_member(field),
        JOp::Field { field, .. } => is_int_member(field),
        JOp::Call { method, .. } => is_int_member(method),
        JOp::New(name) => is_int_name(name.items()),
        JOp::NewArray(number) => *number == T_INT,
        JOp::ANewArray(name) => is_int_name(name.items()),
        JOp::CheckCast(name) => is_int_name(name.items()),
        JOp::InstanceOf(name) => is_int_name(name.items()),
        _ => false,
    }
}
