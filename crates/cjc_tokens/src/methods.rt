//! Tokens of methods: static ones and constructors are counted as they stand, virtual ones have the place of
//! their slot, with the high bit set where they are package-visible. Called by `class`.

ghost use Rattle.std.specs.Prelude.{◌≡◌, ◌≤◌, ◌<◌, ◌+◌, ◌++◌, map, take, true, false, count_by, option_map, OnOk};
ghost use Rattle.std.specs.List.{list_any};
ghost use Rattle.cjc_world.specs.Classes.{method_of_class};
ghost use Rattle.cjc_tokens.specs.Members.{signature_of};
ghost use Rattle.cjc_tokens.specs.Methods.{class_method_token, class_method_tokens, is_open_bound, virtual_token};
ghost use Rattle.cjc_tokens.specs.Rules.{is_above};
ghost use Rattle.cjc_tokens.specs.Working.{member_of, signs, slot_token};

use crate::indexed::IndexedRow;
use crate::slot::{is_constructor, is_exposed, is_initialiser, is_of_kind};
use crate::told::Shown;
use cjc_bytes::{MemberId, NoMemory, Row, is_static};
use cjc_world::classfile::MethodTree;
use std::alloc::Global;

/// Whether a static method or a constructor has a token, where its class is exported.
fn is_open_bound(method: &MethodTree<'_>) -> bool
    ensures { result ≡ is_open_bound (method_of_class method.now) }
{
    let name = method.name.items();
    is_exposed(method.flags)
        && (is_static(method.flags) || is_constructor(name))
        && !is_initialiser(name)
}

/// How many static methods and constructors have a token, where their class is exported.
#[tactic(auto, using(crate::proofs::Counts::count_of_map))]
pub(crate) fn open_bounds(methods: &[MethodTree<'_>]) -> usize
    ensures { result ≡ count_by is_open_bound (map method_of_class methods.now) }
{
    bounds(methods)
}

fn bounds(methods: &[MethodTree<'_>]) -> usize
    ensures { result ≡ count_by (λ m. is_open_bound (method_of_class m)) methods.now }
{
    methods
        .iter()
        .filter(|method| is_open_bound(method))
        .count()
}

/// The token of a virtual method, without the high bit of a package-visible one.
fn virtual_token(
    shown: &Shown<'_, '_>,
    hidden: &IndexedRow<'_, '_>,
    method: &MethodTree<'_>,
) -> Option<usize>
    ensures { result ≡ virtual_token (slot_token shown.now) (signs hidden.now) (method_of_class method.now) }
{
    let name = method.name.items();
    let desc = method.desc.items();
    if is_of_kind(false, method.flags, name) {
        shown.token(name, desc)
    } else if is_of_kind(true, method.flags, name) {
        hidden.token(name, desc)
    } else {
        None
    }
}

/// Whether there is a token above a limit.
pub(crate) fn is_above(limit: usize, token: Option<usize>) -> bool
    ensures { result ≡ is_above limit token }
{
    match token {
        None => false,
        Some(token) => limit < token,
    }
}

/// Whether a virtual method would get a token above 127.
pub(crate) fn any_high(
    shown: &Shown<'_, '_>,
    hidden: &IndexedRow<'_, '_>,
    methods: &[MethodTree<'_>],
) -> bool
    ensures { result ≡ list_any (λ m. is_above 127 (virtual_token (slot_token shown.now) (signs hidden.now)
        (method_of_class m))) methods.now }
{
    methods.iter().any(|method| is_above(127, virtual_token(shown, hidden, method)))
}

/// Whether an added method would get a token above 127.
pub(crate) fn any_high_added(shown: &Shown<'_, '_>, added: &[MemberId]) -> bool
    ensures { result ≡ list_any (λ m. is_above 127 (slot_token shown.now (signature_of (member_of m)))) added.now }
{
    added.iter().any(|m| is_above(127, shown.token(m.name.items(), m.desc.items())))
}

/// A token as it stands in a component, with so much more.
pub(crate) fn as_byte(token: Option<usize>, more: u8) -> Option<u8>
    requires few { is_above 127 token ≡ false }
    requires more { more ≤ 128 }
    ensures { result ≡ option_map (λ t. t + more) token }
{
    match token {
        None => None,
        Some(token) => Some(token as u8 + more),
    }
}

/// The token of a method at a place of its class, where so many static ones with a token stand before it.
#[tactic(auto, unfolding(crate::specs::Methods::class_method_token))]
fn method_token(
    shown: &Shown<'_, '_>,
    hidden: &IndexedRow<'_, '_>,
    exported: bool,
    methods: &[MethodTree<'_>],
    place: usize,
    method: &MethodTree<'_>,
    bounds: usize,
) -> Option<u8>
    requires low { is_above 127 (virtual_token (slot_token shown.now) (signs hidden.now) (method_of_class method.now))
        ≡ false }
    requires bounds { bounds ≡ count_by is_open_bound (take place (map method_of_class methods.now)) }
    requires high { exported ≡ true → is_open_bound (method_of_class method.now) ≡ true → bounds < 255 }
    ensures { result ≡ class_method_token exported (slot_token shown.now) (signs hidden.now)
        (map method_of_class methods.now) place (method_of_class method.now) }
{
    let name = method.name.items();
    if is_of_kind(false, method.flags, name) {
        as_byte(virtual_token(shown, hidden, method), 0)
    } else if is_of_kind(true, method.flags, name) {
        as_byte(virtual_token(shown, hidden, method), 128)
    } else if exported && is_open_bound(method) {
        Some(bounds as u8)
    } else {
        None
    }
}

/// Puts the tokens of the methods of a class at the end.
pub(crate) fn put_method_tokens(
    tokens: &mut Row<Option<u8>>,
    shown: &Shown<'_, '_>,
    hidden: &IndexedRow<'_, '_>,
    exported: bool,
    methods: &[MethodTree<'_>],
) -> Result<(), NoMemory>
    requires low { list_any (λ m. is_above 127 (virtual_token (slot_token shown.now) (signs hidden.now)
        (method_of_class m))) methods.now ≡ false }
    requires high { exported ≡ true → count_by is_open_bound (map method_of_class methods.now) ≤ 255 }
    ensures { OnOk result (tokens.new ≡ tokens.old ++ class_method_tokens exported (slot_token shown.now)
        (signs hidden.now) (map method_of_class methods.now) 0 (map method_of_class methods.now)) }
{
    let mut bounds = 0;
    for (place, method) in methods.iter().enumerate() {
        tokens.push(method_token(shown, hidden, exported, methods, place, method, bounds))?;
        if is_open_bound(method) {
            bounds += 1;
        }
    }
    Ok(())
}

/// Puts the tokens of the added methods of a class at the end.
pub(crate) fn put_added_tokens(
    tokens: &mut Row<Option<u8>>,
    shown: &Shown<'_, '_>,
    added: &[MemberId],
) -> Result<(), NoMemory>
    requires { list_any (λ m. is_above 127 (slot_token shown.now (signature_of (member_of m)))) added.now ≡ false }
    ensures { OnOk result (tokens.new ≡ tokens.old
        ++ map (λ m. slot_token shown.now (signature_of (member_of m))) added.now) }
{
    for id in added {
        let token = shown.token(id.name.items(), id.desc.items());
        tokens.push(as_byte(token, 0))?;
    }
    Ok(())
}
