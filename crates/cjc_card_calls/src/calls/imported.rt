//! Calls that reach imported classes: the method of a token that the nearest class upwards lists in its export
//! file. Its code is not there, so a script answers for it.

ghost use Rattle.std.specs.Prelude.{◌≡◌, ◌==◌, ◌&&◌};
ghost use Rattle.std.specs.Option.{option_copied};
ghost use Rattle.cjc_card_semantics.specs.ExportFile.Supers.{is_virtual, virtual_method};
ghost use Rattle.cjc_card_semantics.specs.Machine.Dispatch.{dispatched_outward, in_files, of_file, outward};
ghost use Rattle.cjc_card_semantics.specs.Machine.Dispatch as dispatch;
ghost use Rattle.cjc_card_semantics.specs.Machine.Loaded.{Loaded};
ghost use Rattle.cjc_card_calls.specs.Files.Files.{AreFiles, classes_at};
ghost use Rattle.cjc_card_link.specs.Walks.{walk_gives, walk_hides};
ghost use Rattle.cjc_card_calls.specs.Found.{found_of};

use crate::calls::found::Found;
use crate::files::Files;
use cjc_card_frame::parts::ImportedMethod;
use cjc_card_link::Walk;
use cjc_card_semantics::bytes::{is_private, is_static};
use cjc_card_semantics::export_file::{ExportClass, ExportMethod};

// Whether a method is virtual.
fn is_virtual(method: &ExportMethod) -> bool
    ensures { result ≡ is_virtual method.now }
{
    !(is_static(method.flags)
        || is_private(method.flags)
        || method.name.items() == b"<init>".as_slice())
}

// Whether a method is virtual and has a token.
fn is_of_token(method: &ExportMethod, token: u64) -> bool
    ensures { result ≡ (is_virtual method.now && (method.now.token == token)) }
{
    is_virtual(method) && u64::from(method.token) == token
}

// The virtual method of a class with a token.
#[tactic(auto, using(crate::proofs::CallsLaws::Finding::find_past))]
fn virtual_method<'a>(class: &'a ExportClass, token: u64) -> Option<&'a ExportMethod>
    ensures { option_copied result ≡ virtual_method token class.now }
{
    for method in class.methods.items() {
        if is_of_token(method, token) {
            return Some(method);
        }
    }
    None
}

// A method of an imported class, which its event names.
fn outward<'a>(class: &'a ExportClass, method: &'a ExportMethod) -> Found<'a>
    ensures { found_of result ≡ dispatch.Outward (record {
      class = class.now.name;
      name = method.now.name;
      desc = method.now.desc;
    }) }
{
    Found::Outward(ImportedMethod {
        class: class.name.items(),
        name: method.name.items(),
        desc: method.desc.items(),
    })
}

// The method of the first of these classes that lists one of a token; the event names another.
fn dispatched_outward<'a>(named: &'a ExportClass, line: &[&'a ExportClass], token: u8) -> Found<'a>
    ensures { found_of result ≡ dispatched_outward named.now.name (classes_at line.now) token }
{
    for class in line {
        if let Some(method) = virtual_method(*class, u64::from(token)) {
            return outward(named, method);
        }
    }
    Found::NotFound
}

// The method of a token in a class and what stands above it.
fn in_files<'a>(line: &[&'a ExportClass], token: u8) -> Found<'a>
    ensures { found_of result ≡ in_files (classes_at line.now) token }
{
    if line.is_empty() {
        Found::NotFound
    } else {
        dispatched_outward(line[0], line, token)
    }
}

/// What is found upwards of a public or protected method.
pub(crate) fn found_by<'a>(files: &Files<'a>, walk: Walk, token: u8) -> Found<'a>
    ensures { (l : Loaded) → AreFiles l files.now → found_of result ≡ walk_gives l token walk }
{
    match walk {
        Walk::Nothing => Found::NotFound,
        Walk::At(part, offset) => Found::At(part, offset),
        Walk::Abroad(tree, class) => in_files(files.line(tree, class), token),
    }
}

/// What is found upwards of a package-visible method.
pub(crate) fn hidden_by<'a>(walk: Walk) -> Found<'a>
    ensures { found_of result ≡ walk_hides walk }
{
    match walk {
        Walk::Nothing => Found::NotFound,
        Walk::At(part, offset) => Found::At(part, offset),
        Walk::Abroad(_, _) => Found::NotFound,
    }
}

/// The method of a token that an interface of an export file lists.
pub(crate) fn of_file<'a>(class: &'a ExportClass, token: u64) -> Found<'a>
    ensures { found_of result ≡ outward class.now.name (virtual_method token class.now) dispatch.NotFound }
{
    match virtual_method(class, token) {
        Some(method) => outward(class, method),
        None => Found::NotFound,
    }
}
