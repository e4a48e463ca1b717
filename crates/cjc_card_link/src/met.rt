//! Which classes were met on a walk upwards, so that none is gone through twice. Called by `supers`.

ghost use Rattle.std.specs.Prelude.{◌≡◌, ◌||◌, Some, None, true, false, if◌then◌else◌, OnOk};
ghost use Rattle.std.specs.Cmp.{partial_equiv_from_equiv};
ghost use Rattle.cjc_card_semantics.specs.Machine.Classes.{Class as ByToken, or_else, same_class};
ghost use Rattle.cjc_card_frame.specs.Objects.{class_of};
ghost use Rattle.cjc_card_link.specs.MetClasses.{classes-equivalence, fed, is_met, kept_under, number_in, same-fed};

use cjc_card_frame::heap::{Class, same_class};
use cjc_check_index::bytes::NoMemory;
use std::alloc::Global;
use std::collections::HashMap;
use std::hash::{Hash, Hasher};
use std::marker::Model;

/// A class as the key of a map.
#[derive(Drop)]
pub struct Key {
    pub class: Class,
}

impl Model for Key {
    ghost use Rattle.cjc_card_semantics.specs.Machine.Classes.{Class as ByToken};
    ghost use Rattle.cjc_card_frame.specs.Objects.{class_of};

    ghost Value = { ByToken };

    ghost view = { λ k. class_of k.class };
}

impl PartialEq for Key {
    ghost eq = { same_class };

    ghost laws = { partial_equiv_from_equiv classes-equivalence };

    fn eq(&self, other: &Key) -> bool {
        same_class(self.class, other.class)
    }
}

impl Eq for Key {
    ghost laws = { classes-equivalence };
}

// The offset of a class, or its token.
fn number_in(class: Class) -> u32
    ensures { result ≡ number_in (class_of class) }
{
    match class {
        Class::Own(_, offset) => offset,
        Class::External(_, token) => u32::from(token),
    }
}

impl Hash for Key {
    ghost hash_input = { fed };

    ghost respects_eq = { same-fed };

    fn hash<H: Hasher>(&self, state: &mut H) {
        number_in(self.class).hash(state)
    }
}

/// Classes that were met.
#[derive(Drop)]
pub(crate) struct Met {
    kept: HashMap<Key, bool>,
}

impl Met {
    /// None yet.
    pub(crate) fn new(alloc: Global) -> Met
        ensures { (x : ByToken) → is_met result x ≡ false }
    {
        Met {
            kept: HashMap::new(alloc),
        }
    }

    /// Whether a class was met.
    pub(crate) fn has(&self, class: Class) -> bool
        ensures { result ≡ is_met self.now (class_of class) }
    {
        self.kept.get(&Key { class }).is_some()
    }

    // Keeps a class.
    fn keep(&mut self, class: Class) -> Result<(), NoMemory>
        ensures { OnOk result ((x : ByToken) → kept_under self.new x ≡ or_else (kept_under self.old x)
            (if same_class (class_of class) x then Some true else None)) }
    {
        match self.kept.get(&Key { class }).copied() {
            Some(_) => Ok(()),
            None => {
                self.kept.insert(Key { class }, true)?;
                Ok(())
            }
        }
    }

    /// Keeps a class.
    pub(crate) fn note(&mut self, class: Class) -> Result<(), NoMemory>
        ensures { OnOk result ((x : ByToken) → is_met self.new x ≡ same_class x (class_of class) || is_met self.old x) }
    {
        self.keep(class)?;
        Ok(())
    }
}
