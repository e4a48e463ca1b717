//! Maps of this crate: a number kept under a number, a place kept under a name, the first that is noted. They
//! know nothing of what is numbered.

ghost use Rattle.std.specs.Prelude.{◌≡◌, ◌==◌, ℕ, List, Some, None, OnOk, if◌then◌else◌, option_map};
ghost use Rattle.std.specs.Str.{bytes_eq};
ghost use Rattle.std.specs.Cmp.{partial_equiv_from_equiv};
ghost use Rattle.cjc_card_semantics.specs.Machine.Classes.{or_else};
ghost use Rattle.cjc_card_frame.specs.Objects.{class_of};
ghost use Rattle.cjc_card_link.specs.Indices.{class_under, data_under, fed, names-equivalence, same-fed, number_under};
ghost use Rattle.cjc_card_link.specs.Indices.{place_under};

use cjc_card_frame::heap::Class;
use cjc_check_index::bytes::NoMemory;
use std::alloc::Global;
use std::collections::HashMap;
use std::hash::{Hash, Hasher};
use std::marker::Model;

/// Numbers under numbers.
#[derive(Drop)]
pub(crate) struct Numbers {
    kept: HashMap<u64, u64>,
}

impl Numbers {
    /// Nothing yet.
    pub(crate) fn new(alloc: Global) -> Numbers
        ensures { (x : ℕ) → number_under result x ≡ None }
    {
        Numbers {
            kept: HashMap::new(alloc),
        }
    }

    /// What is kept under a number.
    pub(crate) fn get(&self, key: u64) -> Option<u64>
        ensures { result ≡ number_under self.now key }
    {
        self.kept.get(&key).copied()
    }

    /// Keeps a number under another under which none is kept.
    pub(crate) fn note(&mut self, key: u64, value: u64) -> Result<(), NoMemory>
        ensures { OnOk result ((x : ℕ) → number_under self.new x ≡ or_else (number_under self.old x) (if key == x
            then Some value else None)) }
    {
        match self.get(key) {
            Some(_) => Ok(()),
            None => {
                self.kept.insert(key, value)?;
                Ok(())
            }
        }
    }
}

/// A name as the key of a map.
#[derive(Drop)]
pub struct Name<'a> {
    pub bytes: &'a [u8],
}

impl<'a> Model for Name<'a> {
    ghost use Rattle.std.specs.Prelude.{ℕ, List};

    ghost Value = { List ℕ };

    ghost view = { λ n. n.bytes.now };
}

impl<'a> PartialEq for Name<'a> {
    ghost eq = { bytes_eq };

    ghost laws = { partial_equiv_from_equiv names-equivalence };

    fn eq(&self, other: &Name<'a>) -> bool {
        self.bytes == other.bytes
    }
}

impl<'a> Eq for Name<'a> {
    ghost laws = { names-equivalence };
}

impl<'a> Hash for Name<'a> {
    ghost hash_input = { fed };

    ghost respects_eq = { same-fed };

    fn hash<H: Hasher>(&self, state: &mut H) {
        self.bytes.hash(state)
    }
}

/// Places under names.
#[derive(Drop)]
pub(crate) struct Places<'a> {
    kept: HashMap<Name<'a>, u64>,
}

impl<'a> Places<'a> {
    /// Nothing yet.
    pub(crate) fn new(alloc: Global) -> Places<'a>
        ensures { (x : List ℕ) → place_under result x ≡ None }
    {
        Places {
            kept: HashMap::new(alloc),
        }
    }

    /// What is kept under a name.
    pub(crate) fn get(&self, name: &[u8]) -> Option<u64>
        ensures { result ≡ place_under self.now name.now }
    {
        self.kept.get(&Name { bytes: name }).copied()
    }

    /// Keeps a place under a name under which none is kept.
    pub(crate) fn note(&mut self, name: &'a [u8], place: u64) -> Result<(), NoMemory>
        ensures { OnOk result ((x : List ℕ) → place_under self.new x ≡ or_else (place_under self.old x)
            (if bytes_eq name.now x then Some place else None)) }
    {
        match self.get(name) {
            Some(_) => Ok(()),
            None => {
                self.kept.insert(Name { bytes: name }, place)?;
                Ok(())
            }
        }
    }
}

/// Classes under names.
#[derive(Drop)]
pub(crate) struct Classes<'a> {
    kept: HashMap<Name<'a>, Class>,
}

impl<'a> Classes<'a> {
    /// Nothing yet.
    pub(crate) fn new(alloc: Global) -> Classes<'a>
        ensures { (x : List ℕ) → class_under result x ≡ None }
    {
        Classes {
            kept: HashMap::new(alloc),
        }
    }

    /// What is kept under a name.
    pub(crate) fn get(&self, name: &[u8]) -> Option<Class>
        ensures { option_map class_of result ≡ class_under self.now name.now }
    {
        self.kept.get(&Name { bytes: name }).copied()
    }

    // Keeps a class under a name under which none is kept.
    fn note_data(&mut self, name: &'a [u8], class: Class) -> Result<(), NoMemory>
        ensures { OnOk result ((x : List ℕ) → data_under self.new x ≡ or_else (data_under self.old x)
            (if bytes_eq name.now x then Some class else None)) }
    {
        match self.kept.get(&Name { bytes: name }).copied() {
            Some(_) => Ok(()),
            None => {
                self.kept.insert(Name { bytes: name }, class)?;
                Ok(())
            }
        }
    }

    /// Keeps a class under a name under which none is kept.
    pub(crate) fn note(&mut self, name: &'a [u8], class: Class) -> Result<(), NoMemory>
        ensures { OnOk result ((x : List ℕ) → class_under self.new x ≡ or_else (class_under self.old x)
            (if bytes_eq name.now x then Some (class_of class) else None)) }
    {
        self.note_data(name, class)?;
        Ok(())
    }
}
