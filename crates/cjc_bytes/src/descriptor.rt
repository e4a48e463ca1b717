//! Descriptors of fields and methods (Java Virtual Machine Specification, sections 4.3.2 and 4.3.3): which
//! bytes are one, and what its types are. Nothing here takes memory.

ghost use Rattle.std.specs.Prelude.{◌≡◌, ◌<◌, ◌≤◌, ◌^◌, ◌∷◌, ◌++◌, false, List, [], length, get_or, ℕ, MatchResult};
ghost use Rattle.std.specs.Prelude.{IfOk, IfErr};
ghost use Rattle.cjc_bytes.specs.declared.descriptor.ParseState.TheVariants as spots;
ghost use Rattle.cjc_bytes.specs.Descriptor.{Parts, part_at, base_kind, is_name_byte, IsDescriptor, IsLongestStart};
ghost use Rattle.cjc_bytes.specs.Spots.{behind_type, type_begun, after, end_at, bad_at, role_of, types, part_of};
ghost use Rattle.cjc_bytes.specs.Spots.{begins_method, desc_of};

use std::marker::Model;
use thiserror::Error;

/// The kind of a type.
#[derive(Clone, Copy, Debug, PartialEq, Eq)]
pub enum Kind {
    Bool,
    Byte,
    Short,
    Int,
    /// char, long, float or double.
    Other,
    /// A class, an interface or an array type.
    Ref,
    /// No value; the result of a method alone.
    Void,
}

/// The bytes are no descriptor.
#[derive(Clone, Copy, Debug, Drop, Error)]
#[error("no descriptor: byte {at} may not stand there, or more bytes have to follow")]
pub struct BadDesc {
    /// The length in bytes of the longest prefix that some descriptor has.
    pub at: u32,
}

/// A descriptor. Of a field, which has no parameters, the type counts as the result.
#[derive(Drop)]
pub struct Desc<'a> {
    bytes: &'a [u8],
}

impl<'a> Model for Desc<'a> {
    ghost use Rattle.std.specs.Prelude.{◌≡◌, ◌<◌, ◌^◌, None, length};
    ghost use Rattle.cjc_bytes.specs.declared.descriptor.ParseState.TheVariants as spots;
    ghost use Rattle.cjc_bytes.specs.Descriptor.{Parts};
    ghost use Rattle.cjc_bytes.specs.Spots.{bad_at, parts_of};

    ghost Value = { Parts };

    ghost view = { λ d. parts_of d.bytes.now };

    ghost invariant = { λ d. (length d.bytes.now < 2 ^ 32) × (bad_at spots.Start d.bytes.now ≡ None) };
}

impl<'a> Desc<'a> {
    /// The descriptor that these bytes are.
    pub fn parse(bytes: &'a [u8]) -> Result<Desc<'a>, BadDesc>
        requires { length bytes.now < 2 ^ 32 }
        // What is read is a descriptor with these parts, and every descriptor is read.
        ensures found { IfOk result (λ d. IsDescriptor d bytes.now) }
        ensures only { (d : Parts) → IsDescriptor d bytes.now → result ≡ Ok d }
        // The error names the longest prefix that some descriptor has.
        ensures bad { IfErr result (λ e. IsLongestStart bytes.now e.at) }
        ensures parts { MatchResult result (λ d. desc_of bytes.now ≡ Some d) (λ e. desc_of bytes.now ≡ None) }
    {
        match first_bad(bytes) {
            None => Ok(Desc { bytes }),
            Some(at) => Err(BadDesc { at }),
        }
    }

    /// Whether this is the descriptor of a method.
    #[tactic(auto, using(crate::proofs::DescriptorTypes::parts_method))]
    pub fn is_method(&self) -> bool
        ensures { result ≡ self.now.is_method }
    {
        is_of_method(self.bytes)
    }

    /// How many parameters there are.
    #[tactic(auto, using(crate::proofs::DescriptorTypes::types_count))]
    pub fn params(&self) -> u32
        ensures { result ≡ length self.now.params }
    {
        count_types(self.bytes) - 1
    }

    /// The kind of the parameter at this place; behind them, of the result.
    #[tactic(auto, using(crate::proofs::DescriptorTypes::part_is_at, crate::proofs::DescriptorTypes::types_count))]
    pub fn kind(&self, i: u32) -> Kind
        requires { i ≤ length self.now.params }
        ensures { result ≡ (part_at self.now i).kind }
    {
        kind_of(type_at(self.bytes, i))
    }

    /// The name of a class type, the whole descriptor of an array type, or no bytes; of the parameter at
    /// this place, or behind them of the result.
    #[tactic(auto, using(crate::proofs::DescriptorTypes::part_is_at, crate::proofs::DescriptorTypes::types_count))]
    pub fn class(&self, i: u32) -> &'a [u8]
        requires { i ≤ length self.now.params }
        ensures { result.now ≡ (part_at self.now i).class }
    {
        class_of(type_at(self.bytes, i))
    }

    /// The types of the parameters, in order.
    #[tactic(auto, using(crate::proofs::DescriptorTypes::parts_before, crate::proofs::DescriptorTypes::types_count))]
    pub fn parameters(&self) -> Types<'a>
        ensures parameters { result ≡ self.now.params }
        ensures few { length self.now.params < 2 ^ 32 }
    {
        Types {
            rest: self.bytes,
            left: count_types(self.bytes) - 1,
        }
    }

    /// The types of the parameters, and then of the result.
    #[tactic(auto, using(crate::proofs::DescriptorTypes::parts_all))]
    pub fn types(&self) -> Types<'a>
        ensures { result ≡ self.now.params ++ self.now.result ∷ [] }
    {
        Types {
            rest: self.bytes,
            left: count_types(self.bytes),
        }
    }

    /// The kind and the class of the result; of a field's descriptor, of its type.
    #[tactic(auto, using(crate::proofs::DescriptorTypes::part_last, crate::proofs::DescriptorTypes::types_count))]
    pub fn result_type(&self) -> (Kind, &'a [u8])
        ensures kind { result.0 ≡ self.now.result.kind }
        ensures class { result.1.now ≡ self.now.result.class }
    {
        let last = type_at(self.bytes, count_types(self.bytes) - 1);
        (kind_of(last), class_of(last))
    }
}

/// The types of a descriptor that are still to come: of each its kind, and its class, which is the name of a class
/// type, the whole descriptor of an array type, or no bytes.
#[derive(Drop)]
pub struct Types<'a> {
    rest: &'a [u8],
    left: u32,
}

impl<'a> Model for Types<'a> {
    ghost use Rattle.std.specs.Prelude.{◌≤◌, List, length, map, take};
    ghost use Rattle.cjc_bytes.specs.Descriptor.{Part};
    ghost use Rattle.cjc_bytes.specs.Spots.{part_of, types};

    ghost Value = { List Part };

    ghost view = { λ t. take t.left (map part_of (types t.rest.now)) };

    ghost invariant = { λ t. t.left ≤ length (types t.rest.now) };
}

impl<'a> Iterator for Types<'a> {
    ghost use Rattle.std.specs.Iterator.{YieldsFirstBy, item_count};
    ghost use Rattle.cjc_bytes.specs.Spots.{part_by};

    type Item = (Kind, &'a [u8]);

    ghost next_gives = { YieldsFirstBy (λ one. part_by one.0 one.1.now) (λ rest. rest) };

    ghost remaining = { item_count (λ rest. rest) };

    #[tactic(auto, using(crate::proofs::DescriptorTypes::part_first, crate::proofs::DescriptorTypes::types_left))]
    fn next(&mut self) -> Option<(Kind, &'a [u8])> {
        if self.left == 0 {
            return None;
        }
        let (first, rest) = first_type(self.rest);
        self.rest = rest;
        self.left -= 1;
        Some((kind_of(first), class_of(first)))
    }
}

/// The parts of a descriptor are a function of its bytes.
pub fn descriptors()
    ensures spelt { (d : Parts) (bytes : List ℕ) → desc_of bytes ≡ Some d → IsDescriptor d bytes }
    ensures read { (d : Parts) (bytes : List ℕ) → IsDescriptor d bytes → desc_of bytes ≡ Some d }
{}

/// What a byte is to the type that is being cut out of a descriptor.
#[derive(Clone, Copy)]
enum Role {
    /// It stands between types.
    Between,
    /// The type goes on behind it, in a name or not.
    Inside(bool),
    /// It is the type's last.
    Last,
}

/// What may stand next in a descriptor. A `true` says that the type is a parameter's.
#[derive(Clone, Copy)]
enum ParseState {
    /// A type or `(`.
    Start,
    /// A type or `)`.
    Param,
    /// A type or `V`.
    Result,
    /// A type, behind `[`.
    Element(bool),
    /// The first byte of a name, behind `L` or `/`.
    NameStart(bool),
    /// Another byte of a name, `/` or `;`.
    Name(bool),
    /// Nothing.
    End,
}

fn kind_of_base(byte: u8) -> Option<Kind>
    ensures { result ≡ base_kind byte }
{
    match byte {
        b'B' => Some(Kind::Byte),
        b'C' | b'D' | b'F' | b'J' => Some(Kind::Other),
        b'I' => Some(Kind::Int),
        b'S' => Some(Kind::Short),
        b'Z' => Some(Kind::Bool),
        _ => None,
    }
}

fn is_of_name(byte: u8) -> bool
    ensures { result ≡ is_name_byte byte }
{
    !matches!(byte, b'.' | b';' | b'[' | b'/')
}

fn spot_behind_type(is_param: bool) -> ParseState
    ensures { result ≡ behind_type is_param }
{
    if is_param {
        ParseState::Param
    } else {
        ParseState::End
    }
}

fn spot_in_type(is_param: bool, byte: u8) -> Option<ParseState>
    ensures { result ≡ type_begun is_param byte }
{
    match byte {
        b'[' => Some(ParseState::Element(is_param)),
        b'L' => Some(ParseState::NameStart(is_param)),
        _ => {
            kind_of_base(byte)?;
            Some(spot_behind_type(is_param))
        }
    }
}

#[tactic(auto, unfolding(crate::specs::Spots::after))]
fn spot_in_name(is_param: bool, byte: u8) -> Option<ParseState>
    ensures { result ≡ after (spots.Name is_param) byte }
{
    match byte {
        b';' => Some(spot_behind_type(is_param)),
        b'/' => Some(ParseState::NameStart(is_param)),
        _ if is_of_name(byte) => Some(ParseState::Name(is_param)),
        _ => None,
    }
}

#[tactic(auto, unfolding(crate::specs::Spots::after))]
fn spot_after(spot: ParseState, byte: u8) -> Option<ParseState>
    ensures { result ≡ after spot byte }
{
    match spot {
        ParseState::Start if byte == b'(' => Some(ParseState::Param),
        ParseState::Param if byte == b')' => Some(ParseState::Result),
        ParseState::Result if byte == b'V' => Some(ParseState::End),
        ParseState::Start | ParseState::Result => spot_in_type(false, byte),
        ParseState::Param => spot_in_type(true, byte),
        ParseState::Element(is_param) => spot_in_type(is_param, byte),
        ParseState::NameStart(is_param) if is_of_name(byte) => Some(ParseState::Name(is_param)),
        ParseState::Name(is_param) => spot_in_name(is_param, byte),
        ParseState::NameStart(_) | ParseState::End => None,
    }
}

/// Where so many bytes stop being a descriptor, if more have to follow.
fn bad_end(spot: ParseState, length: u32) -> Option<u32>
    ensures { result ≡ end_at spot length }
{
    match spot {
        ParseState::End => None,
        _ => Some(length),
    }
}

/// Where bytes stop being the beginning of a descriptor; none where they are one.
#[tactic(auto, using(crate::proofs::DescriptorRead::reads_on, crate::proofs::DescriptorRead::reads_stop, crate::proofs::DescriptorRead::reads_end))]
fn first_bad(bytes: &[u8]) -> Option<u32>
    requires { length bytes.now < 2 ^ 32 }
    ensures { result ≡ bad_at spots.Start bytes.now }
{
    let mut spot = ParseState::Start;
    for (at, &byte) in bytes.iter().enumerate() {
        match spot_after(spot, byte) {
            Some(next) => spot = next,
            None => return Some(at as u32),
        }
    }
    bad_end(spot, bytes.len() as u32)
}

fn role_in_type(in_name: bool, byte: u8) -> Role
    ensures { result ≡ role_of in_name byte }
{
    match byte {
        b';' if in_name => Role::Last,
        _ if in_name => Role::Inside(true),
        b'[' => Role::Inside(false),
        b'L' => Role::Inside(true),
        b'(' | b')' => Role::Between,
        _ => Role::Last,
    }
}

/// The bytes of the first type, and those behind it.
#[tactic(auto, using(crate::proofs::DescriptorTypes::ends))]
fn first_type(bytes: &[u8]) -> (&[u8], &[u8])
    requires { 0 < length (types bytes.now) }
    ensures { types bytes.now ≡ result.0.now ∷ types result.1.now }
{
    let mut start = 0;
    let mut in_name = false;
    for (at, &byte) in bytes.iter().enumerate() {
        match role_in_type(in_name, byte) {
            Role::Between => {
                start = at + 1;
                in_name = false;
            }
            Role::Inside(is_open) => in_name = is_open,
            Role::Last => return (&bytes[start..at + 1], &bytes[at + 1..]),
        }
    }
    (bytes, bytes)
}

/// The bytes of the type at this place.
#[tactic(auto, using(crate::proofs::DescriptorTypes::later, crate::proofs::DescriptorTypes::here))]
fn type_at(bytes: &[u8], index: u32) -> &[u8]
    requires { index < length (types bytes.now) }
    ensures { result.now ≡ get_or (types bytes.now) index [] }
{
    let mut rest = bytes;
    for _ in 0..index {
        let (_, behind) = first_type(rest);
        rest = behind;
    }
    let (first, _) = first_type(rest);
    first
}

/// How many types these bytes have.
fn count_types(bytes: &[u8]) -> u32
    requires { length bytes.now < 2 ^ 32 }
    ensures { result ≡ length (types bytes.now) }
{
    let mut count = 0;
    let mut in_name = false;
    for &byte in bytes {
        match role_in_type(in_name, byte) {
            Role::Between => in_name = false,
            Role::Inside(is_open) => in_name = is_open,
            Role::Last => {
                count += 1;
                in_name = false;
            }
        }
    }
    count
}

fn is_of_method(bytes: &[u8]) -> bool
    ensures { result ≡ begins_method bytes.now }
{
    match bytes {
        [] => false,
        [first, ..] => *first == b'(',
    }
}

fn kind_of(bytes: &[u8]) -> Kind
    ensures { result ≡ (part_of bytes.now).kind }
{
    match bytes {
        [] => Kind::Void,
        [b'[' | b'L', ..] => Kind::Ref,
        [byte, ..] => kind_of_base(*byte).unwrap_or(Kind::Void),
    }
}

fn class_of(bytes: &[u8]) -> &[u8]
    ensures { result.now ≡ (part_of bytes.now).class }
{
    match bytes {
        [b'[', ..] => bytes,
        [b'L', name @ ..] => &name[..name.len().saturating_sub(1)],
        _ => &[],
    }
}
