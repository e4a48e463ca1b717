//! The constants of the pool of a written file, each once, numbered in the order in which they came.

ghost use Rattle.std.specs.Prelude.{◌≡◌, ◌<◌, ◌^◌, [], length, slice_get, Some, OnOk};
ghost use Rattle.std.specs.Cmp.{partial_equiv_from_equiv};
ghost use Rattle.cjc_export.specs.Constant.{Constant as Seen, same, constant_of, fed};
ghost use Rattle.cjc_export.specs.Constant.{text, integer, class, this};
ghost use Rattle.cjc_export.specs.Written.{index_of};
ghost use Rattle.cjc_export.specs.Working.Same.{same-fed, same-equivalence};
ghost use Rattle.indexmap.specs.IndexSet.{insert_key};

use cjc_bytes::NoMemory;
use indexmap::IndexSet;
use std::alloc::Global;
use std::hash::{Hash, Hasher};
use std::marker::Model;

/// A constant, as the code keeps it.
#[derive(Drop)]
pub(crate) enum Kind<'a> {
    Text(&'a [u8]),
    /// A number by its 32 bits.
    Integer(u32),
    /// The class of this name.
    Class(&'a [u8]),
    /// The package that is described.
    This,
}

/// What an entry of the pool stands for, whatever its place.
#[derive(Drop)]
pub(crate) struct Constant<'a> {
    pub(crate) kind: Kind<'a>,
}

impl<'a> Model for Constant<'a> {
    ghost Value = { Seen };

    ghost view = { λ c. constant_of c.kind };
}

impl<'a> Constant<'a> {
    /// The constant that is this text.
    pub(crate) fn text(bytes: &'a [u8]) -> Constant<'a>
        ensures { result ≡ text bytes.now }
    {
        Constant {
            kind: Kind::Text(bytes),
        }
    }

    /// The constant that is the number of these 32 bits.
    pub(crate) fn integer(bits: u32) -> Constant<'a>
        ensures { result ≡ integer bits }
    {
        Constant {
            kind: Kind::Integer(bits),
        }
    }

    /// The constant that is the class of this name.
    pub(crate) fn class(name: &'a [u8]) -> Constant<'a>
        ensures { result ≡ class name.now }
    {
        Constant {
            kind: Kind::Class(name),
        }
    }

    /// The constant that is the package that is described.
    pub(crate) fn this() -> Constant<'a>
        ensures { result ≡ this }
    {
        Constant { kind: Kind::This }
    }
}

impl<'a> PartialEq for Constant<'a> {
    ghost eq = { same };

    ghost laws = { partial_equiv_from_equiv same-equivalence };

    fn eq(&self, other: &Constant<'a>) -> bool {
        match (&self.kind, &other.kind) {
            (Kind::Text(a), Kind::Text(b)) | (Kind::Class(a), Kind::Class(b)) => a == b,
            (Kind::Integer(m), Kind::Integer(n)) => m == n,
            (Kind::This, Kind::This) => true,
            _ => false,
        }
    }
}

impl<'a> Eq for Constant<'a> {
    ghost laws = { same-equivalence };
}

impl<'a> Hash for Constant<'a> {
    ghost hash_input = { fed };

    ghost respects_eq = { same-fed };

    fn hash<H: Hasher>(&self, state: &mut H) {
        match &self.kind {
            Kind::Text(bytes) => bytes.hash(state),
            Kind::Integer(bits) => bits.hash(state),
            Kind::Class(name) => name.hash(state),
            Kind::This => {}
        }
    }
}

/// The constants so far. Contracts see them as a list, in their order.
#[derive(Drop)]
pub(crate) struct Pool<'a> {
    constants: IndexSet<Constant<'a>>,
}

impl<'a> Model for Pool<'a> {
    ghost use Rattle.std.specs.Prelude.{List};
    ghost use Rattle.cjc_export.specs.Constant.{Constant as Seen};

    ghost Value = { List Seen };

    ghost view = { λ pool. pool.constants.keys };
}

impl<'a> Pool<'a> {
    /// No constants so far.
    pub(crate) fn new(alloc: Global) -> Pool<'a>
        ensures { result ≡ [] }
    {
        Pool {
            constants: IndexSet::new(alloc),
        }
    }

    /// Puts the constant behind the others, where it is not among them.
    pub(crate) fn add(&mut self, constant: Constant<'a>) -> Result<(), NoMemory>
        ensures { OnOk result (self.new ≡ insert_key same self.old constant.entry) }
    {
        self.constants.insert_full(constant)?;
        Ok(())
    }

    /// How many constants there are.
    pub(crate) fn len(&self) -> usize
        ensures { result ≡ length self.now }
    {
        self.constants.len()
    }

    /// The constant of a number.
    pub(crate) fn at(&self, i: usize) -> &Constant<'a>
        requires { i < length self.now }
        ensures { slice_get self.now i ≡ Some result.now }
    {
        &self.constants[i]
    }

    /// The number of a constant that is among them.
    #[tactic(auto, unfolding(crate::specs::Written::index_of))]
    pub(crate) fn index_of(&self, constant: &Constant<'_>) -> u16
        requires { length self.now < 2 ^ 16 }
        ensures { result ≡ index_of self.now constant.now }
    {
        match self.constants.get_index_of(constant) {
            Some(index) => index as u16,
            None => 0,
        }
    }
}
