//! Names by which a class's supers are sought, each noted once. Rule 745 asks it. It knows no class.

ghost use Rattle.std.specs.Prelude.{◌≡◌, ◌||◌, ℕ, List, IfOk, OnOk, false};
ghost use Rattle.std.specs.Str.{bytes_eq};
ghost use Rattle.cjc_compat.specs.Rules.{lacks_one};
ghost use Rattle.cjc_compat.specs.Working.Names.{is_noted};
ghost use Rattle.cjc_export.specs.Supers.{is_one_of};

use cjc_export::bytes::{Bytes, NoMemory};
use std::alloc::Global;
use std::collections::HashMap;

/// Names, each once.
#[derive(Drop)]
pub(crate) struct Names {
    kept: HashMap<Vec<u8>, bool>,
}

impl Names {
    /// None. Takes no memory.
    fn new(alloc: Global) -> Names
        ensures { (x : List ℕ) → is_noted result x ≡ false }
    {
        Names {
            kept: HashMap::new(alloc),
        }
    }

    /// Whether a name is noted.
    fn has(&self, name: &[u8]) -> bool
        ensures { result ≡ is_noted self.now name.now }
    {
        self.kept.get(name).is_some()
    }

    /// Notes a name that is not.
    fn put(&mut self, alloc: Global, name: &[u8]) -> Result<(), NoMemory>
        ensures { OnOk result ((x : List ℕ) → is_noted self.new x ≡ bytes_eq name.now x || is_noted self.old x) }
    {
        let name = Vec::from_slice(alloc, name)?;
        self.kept.insert(name, true)?;
        Ok(())
    }

    /// Notes a name, also one that is.
    fn note(&mut self, alloc: Global, name: &[u8]) -> Result<(), NoMemory>
        ensures { OnOk result ((x : List ℕ) → is_noted self.new x ≡ bytes_eq name.now x || is_noted self.old x) }
    {
        if self.has(name) {
            Ok(())
        } else {
            self.put(alloc, name)
        }
    }
}

fn noted(alloc: Global, list: &[Bytes]) -> Result<Names, NoMemory>
    ensures { IfOk result (λ names. (x : List ℕ) → is_noted names x ≡ is_one_of list.now x) }
{
    let mut names = Names::new(alloc);
    for name in list {
        names.note(alloc, name.items())?;
    }
    Ok(names)
}

/// Whether one of the old names is not among the new ones. In time linear in both, as hashing goes.
pub(crate) fn lacks_one(alloc: Global, new: &[Bytes], old: &[Bytes]) -> Result<bool, NoMemory>
    ensures { IfOk result (λ lacks. lacks ≡ lacks_one new.now old.now) }
{
    let names = noted(alloc, new)?;
    Ok(old.iter().any(|x| !names.has(x.items())))
}
