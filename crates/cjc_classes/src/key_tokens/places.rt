//! The methods of one class by name and descriptor. Called by whoever walks up a class and its superclasses. It
//! knows no token.

ghost use Rattle.std.specs.Prelude.{◌≡◌, ◌<◌, ◌&&◌, length, map, not, position, IfSome};
ghost use Rattle.std.specs.Str.{bytes_eq};
ghost use Rattle.cjc_world.specs.Classes.{method_of_class};
ghost use Rattle.cjc_world.specs.Lookup.{is_called};
ghost use Rattle.cjc_tokens.specs.Members.{is_exposed, is_shown, is_virtual_by};
ghost use Rattle.cjc_tokens.specs.Working.{member_of};

use cjc_bytes::MemberId;
use cjc_tokens::{is_exposed, is_virtual};
use cjc_world::classfile::MethodTree;

/// Whether a method is virtual and package-visible.
pub(crate) fn is_hidden(method: &MethodTree<'_>) -> bool
    ensures { let m = method.now in result ≡ (not (is_exposed m.flags) && is_virtual_by m.flags m.name) }
{
    !is_exposed(method.flags) && is_virtual(method.flags, method.name.items())
}

fn method_place(methods: &[MethodTree<'_>], name: &[u8], desc: &[u8]) -> Option<usize>
    ensures { result ≡ position (λ m. bytes_eq m.name name.now && bytes_eq m.desc desc.now) methods.now }
{
    methods
        .iter()
        .position(|m| m.name.items() == name && m.desc.items() == desc)
}

/// The place of the first method that is called so.
#[tactic(auto, using(cjc_world::proofs::Places::position_of_map, cjc_world::proofs::Places::position_within))]
pub(crate) fn called_place(methods: &[MethodTree<'_>], name: &[u8], desc: &[u8]) -> Option<usize>
    ensures place { result ≡ position (λ m. is_called name.now desc.now m) (map method_of_class methods.now) }
    ensures within { IfSome result (λ i. i < length methods.now) }
{
    method_place(methods, name, desc)
}

fn exposed_place(methods: &[MethodTree<'_>], name: &[u8], desc: &[u8]) -> Option<usize>
    ensures { result ≡ position (λ m. (is_exposed m.flags && is_virtual_by m.flags m.name) && (bytes_eq m.name name.now
        && bytes_eq m.desc desc.now)) methods.now }
{
    methods.iter().position(|m| {
        (is_exposed(m.flags) && is_virtual(m.flags, m.name.items()))
            && (m.name.items() == name && m.desc.items() == desc)
    })
}

/// The place of the first public or protected virtual method that is called so.
#[tactic(auto, using(cjc_world::proofs::Places::position_of_map, cjc_world::proofs::Places::position_within))]
pub(crate) fn shown_place(methods: &[MethodTree<'_>], name: &[u8], desc: &[u8]) -> Option<usize>
    ensures place { result ≡ position (λ m. is_shown m && is_called name.now desc.now m)
        (map method_of_class methods.now) }
    ensures within { IfSome result (λ i. i < length methods.now) }
{
    exposed_place(methods, name, desc)
}

fn id_place(added: &[MemberId], name: &[u8], desc: &[u8]) -> Option<usize>
    ensures { result ≡ position (λ m. bytes_eq m.name name.now && bytes_eq m.desc desc.now) added.now }
{
    added
        .iter()
        .position(|m| m.name.items() == name && m.desc.items() == desc)
}

/// The place of a method that a class got from its interfaces.
#[tactic(auto, using(cjc_world::proofs::Places::position_of_map, cjc_world::proofs::Places::position_within))]
pub(crate) fn added_place(added: &[MemberId], name: &[u8], desc: &[u8]) -> Option<usize>
    ensures place { result ≡ position (λ m. is_called name.now desc.now m) (map member_of added.now) }
    ensures within { IfSome result (λ i. i < length added.now) }
{
    id_place(added, name, desc)
}
