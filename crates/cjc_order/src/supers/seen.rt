//! Names in the order in which a walk came to them, each once. Called by the walks.

ghost use Rattle.std.specs.Prelude.{◌≡◌, ◌<◌, [], length, not, slice_get, Some, IfOk, OnOk};
ghost use Rattle.std.specs.Str.{bytes_eq};
ghost use Rattle.std.specs.Cmp.{partial_equiv_from_equiv};
ghost use Rattle.cjc_order.specs.Supers.Working.Walk.{fed, has, names-equivalence, put, same-fed};

use cjc_world::bytes::{Bytes, NoMemory, Row};
use indexmap::IndexSet;
use std::alloc::Global;
use std::hash::{Hash, Hasher};
use std::marker::Model;

/// A name in a set.
#[derive(Drop)]
struct Name<'a> {
    bytes: &'a [u8],
}

impl<'a> Model for Name<'a> {
    ghost use Rattle.std.specs.Prelude.{ℕ, List};

    ghost Value = { List ℕ };

    ghost view = { λ n. n.bytes.now };
}

impl<'a> PartialEq for Name<'a> {
    ghost eq = { bytes_eq };

    ghost laws = { partial_equiv_from_equiv names-equivalence };

    fn eq(&self, other: &Name<'a>) -> bool {
        self.bytes == other.bytes
    }
}

impl<'a> Eq for Name<'a> {
    ghost laws = { names-equivalence };
}

impl<'a> Hash for Name<'a> {
    ghost hash_input = { fed };

    ghost respects_eq = { same-fed };

    fn hash<H: Hasher>(&self, state: &mut H) {
        self.bytes.hash(state)
    }
}

/// The names that a walk came to, each once. Contracts see them as a list.
#[derive(Drop)]
pub(crate) struct Seen<'a> {
    names: IndexSet<Name<'a>>,
}

impl<'a> Model for Seen<'a> {
    ghost use Rattle.std.specs.Prelude.{ℕ, List};

    ghost Value = { List (List ℕ) };

    ghost view = { λ s. s.names.keys };
}

impl<'a> Seen<'a> {
    /// No name yet.
    pub(crate) fn new(alloc: Global) -> Seen<'a>
        ensures { result ≡ [] }
    {
        Seen {
            names: IndexSet::new(alloc),
        }
    }

    /// Puts a name behind the others where it is not among them, and tells whether it was not.
    pub(crate) fn put(&mut self, name: &'a [u8]) -> Result<bool, NoMemory>
        ensures new { IfOk result (λ is_new. is_new ≡ not (has self.old name.now)) }
        ensures put { OnOk result (self.new ≡ put self.old name.now) }
    {
        let (_place, is_new) = self.names.insert_full(Name { bytes: name })?;
        Ok(is_new)
    }

    fn len(&self) -> usize
        ensures { result ≡ length self.now }
    {
        self.names.len()
    }

    fn at(&self, place: usize) -> &[u8]
        requires { place < length self.now }
        ensures { slice_get self.now place ≡ Some result.now }
    {
        self.names[place].bytes
    }

    /// The names in memory of their own.
    pub(crate) fn copies(&self, alloc: Global) -> Result<Row<Bytes>, NoMemory>
        ensures { IfOk result (λ names. names ≡ self.now) }
    {
        let mut names = Row::new(alloc);
        for place in 0..self.len() {
            names.push(Row::copy_of(alloc, self.at(place))?)?;
        }
        Ok(names)
    }
}
