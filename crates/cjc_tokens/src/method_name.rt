//! The name and the descriptor of a method as the key of a map. Called by `told`. It knows no class.

ghost use Rattle.std.specs.Cmp.{partial_equiv_from_equiv};
ghost use Rattle.cjc_tokens.specs.Members.{same};
ghost use Rattle.cjc_tokens.specs.MethodNames.{fed, same-equivalence, same-fed};

use std::hash::{Hash, Hasher};
use std::marker::Model;

/// The name and the descriptor of a method.
#[derive(Drop)]
pub(crate) struct MethodName<'w> {
    pub name: &'w [u8],
    pub desc: &'w [u8],
}

impl<'w> Model for MethodName<'w> {
    ghost use Rattle.cjc_tokens.specs.Members.{Signature};

    ghost Value = { Signature };

    ghost view = { λ n. record { name = n.name.now; desc = n.desc.now } };
}

impl<'w> PartialEq for MethodName<'w> {
    ghost eq = { same };

    ghost laws = { partial_equiv_from_equiv same-equivalence };

    fn eq(&self, other: &MethodName<'w>) -> bool {
        self.name == other.name && self.desc == other.desc
    }
}

impl<'w> Eq for MethodName<'w> {
    ghost laws = { same-equivalence };
}

impl<'w> Hash for MethodName<'w> {
    ghost hash_input = { fed };

    ghost respects_eq = { same-fed };

    fn hash<H: Hasher>(&self, state: &mut H) {
        self.name.hash(state);
        self.desc.hash(state);
    }
}
