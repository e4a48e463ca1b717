//! Methods, calls and static cells by token (Java Card Virtual Machine Specification 2.2.2, sections 6.7, 6.9
//! and 6.10).

ghost use Rattle.std.specs.Prelude.{◌≡◌};
ghost use Rattle.cjc_card_semantics.specs.Machine.Calls.{on_object};
ghost use Rattle.cjc_card_frame.specs.Kinds.{callee_of};

use crate::heap::Class;
use cjc_card_semantics::bytes::MemberId;

/// A method's code: its package, the greatest height of its stack, and the offsets where it begins and ends, in bytes
/// from the start of Method's info.
#[derive(Clone, Copy)]
pub struct Code {
    pub part: u32,
    pub room: u8,
    pub first: u32,
    pub end: u32,
}

/// A method that begins.
#[derive(Clone, Copy)]
pub struct Start {
    pub code: Code,
    /// The offset of its first instruction.
    pub at: u32,
    /// The words of its arguments, the receiver counted.
    pub nargs: u8,
    /// The further cells of locals.
    pub max_locals: u8,
    pub is_abstract: bool,
}

/// The token of a virtual method: of a public or protected one, or of a package-visible one with its package and
/// without the high bit.
#[derive(Clone, Copy)]
pub enum Token {
    Open(u8),
    Hidden(u32, u8),
}

/// An imported method, by the class that its event names.
#[derive(Clone, Copy)]
pub struct ImportedMethod<'a> {
    pub class: &'a [u8],
    pub name: &'a [u8],
    pub desc: &'a [u8],
}

/// What a call names.
#[derive(Clone, Copy)]
pub enum Callee<'a> {
    /// A static method, a constructor or a private method: whether it has a receiver, its package, and the offset of
    /// its header.
    Fixed(bool, u32, u64),
    /// An imported one.
    Outer(bool, ImportedMethod<'a>),
    /// A virtual method of a class, selected on the receiver, or from the superclass of that class.
    OnObject(Class, Token),
    OnSuper(Class, Token),
    /// The words of the arguments with the receiver, an interface and the token of its method.
    OnInterface(u32, Class, u32),
}

/// What a call reaches.
#[derive(Clone, Copy)]
pub enum Reached<'a> {
    Nowhere,
    Within(Start),
    Abroad(ImportedMethod<'a>),
}

/// A static cell: its package, and its offset in that package's image in bytes.
#[derive(Clone, Copy)]
pub struct StaticCell {
    pub part: u32,
    pub offset: u64,
}

/// A static cell by its offset in the image, and its name.
#[derive(Drop)]
pub struct CellName {
    pub offset: u64,
    pub id: MemberId,
}

impl Callee<'_> {
    /// Whether the call has a receiver.
    pub fn is_on_object(self) -> bool
        ensures { result ≡ on_object (callee_of self.entry) }
    {
        match self {
            Callee::Fixed(on_object, _, _) => on_object,
            Callee::Outer(on_object, _) => on_object,
            Callee::OnObject(_, _) => true,
            Callee::OnSuper(_, _) => true,
            Callee::OnInterface(_, _, _) => true,
        }
    }
}
