//! The methods that entries of the constant pool name, by how they are called (Java Card Virtual Machine Specification
//! 2.2.2, section 6.7.2).

ghost use Rattle.std.specs.Prelude.{◌≡◌, option_map, option_and_then, slice_get};
ghost use Rattle.std.specs.Option.{option_copied};
ghost use Rattle.cjc_card_semantics.specs.ExportFile.Members.{is_unbound};
ghost use Rattle.cjc_card_frame.specs.Meanings.{mode_of};
ghost use Rattle.cjc_card_semantics.specs.Machine.Classes.{class_of as class_by_ref};
ghost use Rattle.cjc_card_semantics.specs.Machine.Operations.{Fixed, OnObject, OnSuper, calling, entry, outer};
ghost use Rattle.cjc_card_semantics.specs.Machine.Operations.{static_method};
ghost use Rattle.cjc_card_semantics.specs.Machine.Operations.{method_through};
ghost use Rattle.cjc_card_semantics.specs.Machine.Loaded.{OfFile, OfGroup};
ghost use Rattle.cjc_card_link.specs.Group.{import_of};
ghost use Rattle.cjc_card_semantics.specs.Machine.Operations.{token_of as token_by, unbound_of};
ghost use Rattle.cjc_card_frame.specs.Objects.{class_of};
ghost use Rattle.cjc_card_frame.specs.Kinds.{callee_of, pool_of, token_of};
ghost use Rattle.cjc_card_link.specs.Tables.{AreKept, loaded_of};

use crate::part::Import;
use crate::tables::Tables;
use cjc_card_frame::heap::Class;
use cjc_card_frame::opcodes::Mode;
use cjc_card_frame::parts::{Callee, ImportedMethod, Token};
use cjc_card_semantics::capread::{ClassRef, PoolEntry, StaticRef};
use cjc_card_semantics::export_file::{ExportClass, ExportMethod};
use cjc_check_index::bytes::is_static;

// Tokens of package-visible methods begin here.
const FIRST_HIDDEN: u8 = 0x80;

// The token of a virtual method of a class as an entry writes it.
fn token_of(class: Class, token: u8) -> Option<Token>
    ensures { option_map token_of result ≡ token_by (class_of class) token }
{
    match class {
        Class::Own(part, _) => {
            if token < FIRST_HIDDEN {
                Some(Token::Open(token))
            } else {
                Some(Token::Hidden(part, token - FIRST_HIDDEN))
            }
        }
        Class::External(_, _) => {
            if token < FIRST_HIDDEN {
                Some(Token::Open(token))
            } else {
                None
            }
        }
    }
}

// Whether a method is static or a constructor.
fn is_unbound(method: &ExportMethod) -> bool
    ensures { result ≡ is_unbound method.now.flags method.now.name }
{
    is_static(method.flags) || method.name.items() == b"<init>".as_slice()
}

// The static method or constructor of a token.
fn unbound_of<'a>(methods: &'a [ExportMethod], token: u8) -> Option<&'a ExportMethod>
    ensures { option_copied result ≡ unbound_of methods.now token }
{
    for method in methods {
        if is_unbound(method) && method.token == token {
            return Some(method);
        }
    }
    None
}

// An imported method.
fn outer<'a>(on_object: bool, class: &'a ExportClass, method: &'a ExportMethod) -> Callee<'a>
    ensures { callee_of result ≡ outer on_object class.now.name method.now }
{
    let method = ImportedMethod {
        class: class.name.items(),
        name: method.name.items(),
        desc: method.desc.items(),
    };
    Callee::Outer(on_object, method)
}

// The static method or constructor of a class of an export file.
fn outer_of<'a>(on_object: bool, class: &'a ExportClass, token: u8) -> Option<Callee<'a>>
    ensures { option_map callee_of result ≡ option_map (outer on_object class.now.name) (unbound_of class.now.methods
        token) }
{
    match unbound_of(class.methods.items(), token) {
        Some(method) => Some(outer(on_object, class, method)),
        None => None,
    }
}

// The method of a token among the offsets of a class's static methods.
fn fixed_at<'a>(on_object: bool, part: u32, offsets: &[u64], token: u8) -> Option<Callee<'a>>
    ensures { option_map callee_of result ≡ option_map (Fixed on_object part) (slice_get offsets.now token) }
{
    match offsets.get(usize::from(token)) {
        Some(offset) => Some(Callee::Fixed(on_object, part, *offset)),
        None => None,
    }
}

impl<'a> Tables<'a> {
    // The static method that a package of the group exports by the tokens of a class and of a method.
    fn exported_method(
        &self,
        on_object: bool,
        part: u32,
        class: u8,
        token: u8,
    ) -> Option<Callee<'a>>
        ensures { option_map callee_of result ≡ method_through (loaded_of self.now) on_object class token
            (OfGroup part) }
    {
        match self.package(part) {
            Some(package) => match package.exported(class) {
                Some(class) => fixed_at(on_object, part, class.methods.items(), token),
                None => None,
            },
            None => None,
        }
    }

    // The static method or constructor of an export file by the tokens of its class and of itself.
    fn file_method(&self, on_object: bool, tree: u32, class: u8, token: u8) -> Option<Callee<'a>>
        ensures { option_map callee_of result ≡ method_through (loaded_of self.now) on_object class token
            (OfFile tree) }
    {
        match self.external(tree, class) {
            Some(class) => outer_of(on_object, class, token),
            None => None,
        }
    }

    // The method of a static reference through an import.
    fn method_through(
        &self,
        on_object: bool,
        class: u8,
        token: u8,
        import: Import,
    ) -> Option<Callee<'a>>
        ensures { option_map callee_of result ≡ method_through (loaded_of self.now) on_object class token
            (import_of import) }
    {
        match import {
            Import::OfFile(tree) => self.file_method(on_object, tree, class, token),
            Import::OfGroup(part) => self.exported_method(on_object, part, class, token),
        }
    }

    // The method of a static reference.
    fn static_method(&self, part: u32, on_object: bool, method: StaticRef) -> Option<Callee<'a>>
        ensures { option_map callee_of result ≡ static_method (loaded_of self.now) part on_object method }
    {
        match method {
            StaticRef::Inside(offset) => Some(Callee::Fixed(on_object, part, offset)),
            StaticRef::Outside {
                package,
                class,
                token,
            } => match self.import(part, u32::from(package)) {
                Some(import) => self.method_through(on_object, class, token, import),
                None => None,
            },
        }
    }

    // A virtual method of a class_ref, selected on the receiver.
    fn object_method(&self, part: u32, class: ClassRef, token: u8) -> Option<Callee<'a>>
        requires { AreKept self.now }
        ensures { option_map callee_of result ≡ option_and_then (λ c. option_map (OnObject c) (token_by c token))
            (class_by_ref (loaded_of self.now) part class) }
    {
        match self.class_in(part, class) {
            Some(class) => match token_of(class, token) {
                Some(token) => Some(Callee::OnObject(class, token)),
                None => None,
            },
            None => None,
        }
    }

    // A virtual method, selected from the superclass of a class_ref.
    fn super_method(&self, part: u32, class: ClassRef, token: u8) -> Option<Callee<'a>>
        requires { AreKept self.now }
        ensures { option_map callee_of result ≡ option_and_then (λ c. option_map (OnSuper c) (token_by c token))
            (class_by_ref (loaded_of self.now) part class) }
    {
        match self.class_in(part, class) {
            Some(class) => match token_of(class, token) {
                Some(token) => Some(Callee::OnSuper(class, token)),
                None => None,
            },
            None => None,
        }
    }

    // The method that an entry names, by how it is called.
    fn calling(&self, part: u32, mode: Mode, item: PoolEntry) -> Option<Callee<'a>>
        requires { AreKept self.now }
        ensures { option_map callee_of result ≡ calling (loaded_of self.now) part (mode_of mode) item }
    {
        match item {
            PoolEntry::VirtualMethodref { class, token } => match mode {
                Mode::Virtual => self.object_method(part, class, token),
                Mode::Special => None,
                Mode::Static => None,
            },
            PoolEntry::SuperMethodref { class, token } => match mode {
                Mode::Virtual => None,
                Mode::Special => self.super_method(part, class, token),
                Mode::Static => None,
            },
            PoolEntry::StaticMethodref(method) => match mode {
                Mode::Virtual => None,
                Mode::Special => self.static_method(part, true, method),
                Mode::Static => self.static_method(part, false, method),
            },
            PoolEntry::Classref(_) => None,
            PoolEntry::InstanceFieldref { .. } => None,
            PoolEntry::StaticFieldref(_) => None,
        }
    }

    /// The method that the entry of an index names, by how it is called.
    pub fn callee_entry(&self, part: u32, mode: Mode, index: i32) -> Option<Callee<'a>>
        requires { AreKept self.now }
        ensures { option_map callee_of result ≡ option_and_then (calling (loaded_of self.now) part (mode_of mode))
            (entry (pool_of (loaded_of self.now) part) index) }
    {
        match self.pool_entry(part, index) {
            Some(item) => self.calling(part, mode, item),
            None => None,
        }
    }
}
