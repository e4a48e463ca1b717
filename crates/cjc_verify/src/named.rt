//! What entries of the constant pool name, as rules on code ask: whether a method is static or abstract, which class
//! holds it, of which classes no objects are made, and the types of methods of interfaces (Java Card Virtual Machine
//! Specification 2.2.2, sections 6.7 and 6.13). Called by `acts` and by the rules on classes.

ghost use Rattle.std.specs.Prelude.{◌≡◌, ◌==◌, ◌&&◌, option_and_then, option_map, IfOk, Some};
ghost use Rattle.std.specs.Option.{option_copied};
ghost use Rattle.std.specs.Str.{bytes_eq};
ghost use Rattle.cjc_card_calls.specs.Files.Files.{classes_at};
ghost use Rattle.cjc_card_calls.specs.Found.{found_of};
ghost use Rattle.cjc_card_acts.specs.CardFrame.Kinds.{method_id, token_of};
ghost use Rattle.cjc_card_acts.specs.CardFrame.Objects.{class_of};
ghost use Rattle.cjc_card_acts.specs.CardSemantics.Machine.Classes.{class_of as class_by_ref};
ghost use Rattle.cjc_card_acts.specs.CardSemantics.Machine.Dispatch.{interface_method};
ghost use Rattle.cjc_card_acts.specs.CardSemantics.Machine.Operations.{token_of as token_by};
ghost use Rattle.cjc_world.specs.ExportFile.Members.{is_unbound};
ghost use Rattle.cjc_world.specs.ExportFile.Supers.{is_virtual};
ghost use Rattle.cjc_verify.specs.Instructions.{throwable};
ghost use Rattle.cjc_verify.specs.Named.{exported, first_of, holder_of, interface_desc, is_abstract_at};
ghost use Rattle.cjc_verify.specs.Named.{is_abstract_listed, is_abstract_selection, is_static_listed, is_unmade};
ghost use Rattle.cjc_verify.specs.Named.{line_named, listed_as, names_abstract, names_abstract_above, names_static};
ghost use Rattle.cjc_verify.specs.Named.{names_unmade, static_method};
ghost use Rattle.cjc_verify.specs.Pairs.{nibbles_of};

use crate::class_types::{class_type, type_of_class};
use crate::package::Package;
use cjc_bytes::{ACC_ABSTRACT, Bytes, NoMemory, Row, has, is_interface, is_private, is_static};
use cjc_capread::{ClassRef, StaticRef};
use cjc_card_calls::calls::{Found, dispatched_above, interface_method as method_of_interface};
use cjc_card_calls::card_frame::heap::Class;
use cjc_card_calls::card_frame::parts::{ImportedMethod, Token};
use cjc_world::export_file::{ExportClass, ExportMethod};
use std::alloc::Global;

const CONSTRUCTOR: &[u8] = b"<init>";

/// Whether a method is static or a constructor, and has a token.
fn is_unbound_of(method: &ExportMethod, token: u8) -> bool
    ensures { result ≡ ((method.now.token == token) && is_unbound method.now.flags method.now.name) }
{
    method.token == token && (is_static(method.flags) || method.name.items() == CONSTRUCTOR)
}

/// The static method or constructor of a token.
fn static_method(class: &ExportClass, token: u8) -> Option<&ExportMethod>
    ensures { option_copied result ≡ static_method token class.now }
{
    class
        .methods
        .items()
        .iter()
        .find(|method| is_unbound_of(method, token))
}

/// Whether an export file says that a method is static.
fn is_static_listed(method: Option<&ExportMethod>) -> bool
    ensures { result ≡ is_static_listed (option_copied method.entry) }
{
    match method {
        Some(method) => is_static(method.flags),
        None => false,
    }
}

/// Whether an export file says that a method is abstract.
fn is_abstract_listed(method: Option<&ExportMethod>) -> bool
    ensures { result ≡ is_abstract_listed (option_copied method.entry) }
{
    match method {
        Some(method) => has(method.flags, ACC_ABSTRACT),
        None => false,
    }
}

/// The static method or constructor of an imported class.
pub(crate) fn imported_method<'a>(
    pair: &Package<'a>,
    import: u8,
    class: u8,
    token: u8,
) -> Option<&'a ExportMethod>
    ensures { option_copied result ≡ option_and_then (static_method token) (exported pair.now import class) }
{
    match pair.exported(import, class) {
        Some(class) => static_method(class, token),
        None => None,
    }
}

/// Whether a static reference names a static method.
pub(crate) fn names_static(pair: &Package<'_>, method: StaticRef) -> bool
    ensures { result ≡ names_static pair.now method }
{
    match method {
        StaticRef::Inside(offset) => match pair.method_at(offset) {
            Some(known) => is_static(u16::from(known.method.flags)),
            None => false,
        },
        StaticRef::Outside {
            package: import,
            class,
            token,
        } => is_static_listed(imported_method(pair, import, class, token)),
    }
}

/// Whether a method of Method has an abstract header.
fn is_abstract_at(pair: &Package<'_>, offset: u64) -> bool
    ensures { result ≡ is_abstract_at pair.now offset }
{
    match pair.tables.start(0, offset) {
        Some(start) => start.is_abstract,
        None => false,
    }
}

/// Whether a static reference names an abstract method.
pub(crate) fn names_abstract(pair: &Package<'_>, method: StaticRef) -> bool
    ensures { result ≡ names_abstract pair.now method }
{
    match method {
        StaticRef::Inside(offset) => is_abstract_at(pair, offset),
        StaticRef::Outside {
            package: import,
            class,
            token,
        } => is_abstract_listed(imported_method(pair, import, class, token)),
    }
}

/// The type of the class that holds a method.
pub(crate) fn holder_of(
    alloc: Global,
    pair: &Package<'_>,
    method: StaticRef,
) -> Result<Bytes, NoMemory>
    ensures { IfOk result (λ nibbles. nibbles ≡ holder_of pair.now method) }
{
    match method {
        StaticRef::Inside(offset) => match pair.method_at(offset) {
            Some(method) => class_type(alloc, method.holder),
            None => Ok(Row::new(alloc)),
        },
        StaticRef::Outside {
            package: import,
            class,
            ..
        } => class_type(
            alloc,
            ClassRef::Outside {
                package: import,
                class,
            },
        ),
    }
}

/// Whether no object is made of a class of these flags.
fn is_unmade(flags: u16) -> bool
    ensures { result ≡ is_unmade flags }
{
    is_interface(flags) || has(flags, ACC_ABSTRACT)
}

/// Whether a class_ref names an abstract class or an interface.
pub(crate) fn names_unmade(pair: &Package<'_>, class: ClassRef) -> bool
    ensures { result ≡ names_unmade pair.now class }
{
    match class {
        ClassRef::Inside(offset) => match pair.flags_at(offset) {
            Some(flags) => is_unmade(flags),
            None => true,
        },
        ClassRef::Outside {
            package: import,
            class,
        } => match pair.exported(import, class) {
            Some(class) => is_unmade(class.flags),
            None => true,
        },
    }
}

/// The method of a token that an interface itself has.
fn interface_method<'a>(pair: &Package<'a>, interface: Class, token: u32) -> Found<'a>
    ensures { found_of result ≡ interface_method pair.now.loaded (class_of interface) token }
{
    method_of_interface(pair.tables, interface, u64::from(token))
}

/// The descriptor of the method of a token in an interface.
fn interface_desc<'a>(pair: &Package<'a>, class: Class, token: u32) -> Option<&'a [u8]>
    ensures { option_map (λ desc. desc.now) result ≡ interface_desc pair.now.loaded token (Some (class_of class)) }
{
    if !pair.tables.is_interface(class) {
        return None;
    }
    match interface_method(pair, class, token) {
        Found::Outward(method) => Some(method.desc),
        Found::NotFound => None,
        Found::At(_, _) => None,
    }
}

/// The nibbles of the type of the method of a token in an interface; none where the class is no interface, has no such
/// token, or the card has no values of one of the method's types.
pub(crate) fn interface_nibbles(
    alloc: Global,
    pair: &Package<'_>,
    class: ClassRef,
    token: u32,
) -> Result<Option<Bytes>, NoMemory>
    ensures { IfOk result (λ nibbles. nibbles ≡ option_and_then (nibbles_of pair.now) (interface_desc pair.now.loaded
        token (class_by_ref pair.now.loaded 0 class))) }
{
    let Some(class) = pair.class(class) else {
        return Ok(None);
    };
    match interface_desc(pair, class, token) {
        Some(desc) => pair.nibbles(alloc, desc),
        None => Ok(None),
    }
}

// ---- what calls select

/// Whether a method is neither static nor private, and no constructor.
pub(crate) fn is_virtual(method: &ExportMethod) -> bool
    ensures { result ≡ is_virtual method.now }
{
    !(is_static(method.flags) || is_private(method.flags) || method.name.items() == CONSTRUCTOR)
}

/// Whether a method is virtual and of a name and descriptor.
fn is_listed_as(method: &ExportMethod, id: ImportedMethod<'_>) -> bool
    ensures { result ≡ (is_virtual method.now && bytes_eq method.now.name id.entry.name.now
        && bytes_eq method.now.desc id.entry.desc.now) }
{
    is_virtual(method) && method.name.items() == id.name && method.desc.items() == id.desc
}

/// The virtual method of a name and descriptor that a class lists.
fn listed_as<'a>(class: &'a ExportClass, id: ImportedMethod<'_>) -> Option<&'a ExportMethod>
    ensures { option_copied result ≡ listed_as (method_id id.entry) class.now }
{
    class
        .methods
        .items()
        .iter()
        .find(|method| is_listed_as(method, id))
}

/// The first that one of these classes lists.
fn first_listed<'a>(line: &[&'a ExportClass], id: ImportedMethod<'_>) -> Option<&'a ExportMethod>
    ensures { option_copied result ≡ first_of (listed_as (method_id id.entry)) (classes_at line.now) }
{
    for class in line {
        if let Some(method) = listed_as(*class, id) {
            return Some(method);
        }
    }
    None
}

/// An imported class by its name, and what stands above it.
pub(crate) fn line_named<'a>(pair: &Package<'a>, name: &[u8]) -> &'a [&'a ExportClass]
    ensures { classes_at result.now ≡ line_named pair.now.loaded name.now }
{
    match pair.tables.external_named(name) {
        Some(Class::External(tree, token)) => pair.files.line(tree, token),
        Some(Class::Own(_, _)) => &[],
        None => &[],
    }
}

/// Whether what a call selects is abstract.
pub(crate) fn is_abstract_selection(pair: &Package<'_>, found: Found<'_>) -> bool
    ensures { result ≡ is_abstract_selection pair.now (found_of found.entry) }
{
    match found {
        Found::NotFound => false,
        Found::At(_, offset) => is_abstract_at(pair, offset),
        Found::Outward(method) => {
            is_abstract_listed(first_listed(line_named(pair, method.class), method))
        }
    }
}

/// The token of a virtual method as an entry writes it: the high bit marks a package-visible one, which no imported
/// class has.
fn token_of(class: Class, token: u8) -> Option<Token>
    ensures { option_map token_of result ≡ token_by (class_of class) token }
{
    match class {
        Class::Own(part, _) => {
            if token < 0x80 {
                Some(Token::Open(token))
            } else {
                Some(Token::Hidden(part, token - 0x80))
            }
        }
        Class::External(_, _) => {
            if token < 0x80 {
                Some(Token::Open(token))
            } else {
                None
            }
        }
    }
}

/// Whether a token means an abstract method from the superclass of a class on.
pub(crate) fn names_abstract_above(pair: &Package<'_>, class: ClassRef, token: u8) -> bool
    ensures { result ≡ names_abstract_above pair.now class token }
{
    let Some(class) = pair.class(class) else {
        return false;
    };
    match token_of(class, token) {
        Some(token) => {
            let found = dispatched_above(pair.tables, pair.files, class, token);
            is_abstract_selection(pair, found)
        }
        None => false,
    }
}

/// The type of all exceptions, where an imported class is it.
pub(crate) fn throwable(alloc: Global, pair: &Package<'_>) -> Result<Option<Bytes>, NoMemory>
    ensures { IfOk result (λ type. type ≡ throwable pair.now) }
{
    match pair.tables.external_named(b"java/lang/Throwable") {
        Some(class) => Ok(Some(type_of_class(alloc, class)?)),
        None => Ok(None),
    }
}
