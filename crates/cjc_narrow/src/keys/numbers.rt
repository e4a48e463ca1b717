//! Keys that are numbered as they are first seen. Called by walks over code, and by the pool that keeps them.

ghost use Rattle.std.specs.Prelude.{◌≡◌, ◌<◌, [], length, IfSome, OnOk};
ghost use Rattle.indexmap.specs.IndexSet.{insert_key};
ghost use Rattle.cjc_ncode.specs.PoolOrder.{same_key};
ghost use Rattle.cjc_narrow.specs.Keys.Index.{index_of};

use crate::keys::key::Key;
use cjc_ncode::PoolKey;
use cjc_types::bytes::{NoMemory, Row};
use indexmap::IndexSet;
use std::alloc::Global;
use std::marker::Model;

/// Keys, each once, in the order in which they came. Contracts see them as a list.
#[derive(Drop)]
pub struct Numbers {
    keys: Row<PoolKey>,
    set: IndexSet<Key<'static>>,
}

impl Model for Numbers {
    ghost use Rattle.std.specs.Prelude.{List, ◌≡◌};
    ghost use Rattle.cjc_ncode.specs.declared.narrow.PoolKey.{PoolKey as Named};

    ghost Value = { List Named };

    ghost view = { λ n. n.keys };

    ghost invariant = { λ n. n.set.keys ≡ n.keys };
}

impl Numbers {
    /// No keys yet. Takes no memory.
    pub fn new(alloc: Global) -> Numbers
        ensures { result ≡ [] }
    {
        Numbers {
            keys: Row::new(alloc),
            set: IndexSet::new(alloc),
        }
    }

    /// Puts the key behind the others, where it is not among them.
    pub fn add(&mut self, alloc: Global, key: &Key<'_>) -> Result<(), NoMemory>
        ensures { OnOk result (self.new ≡ insert_key same_key self.old key.now) }
    {
        if self.set.contains(key) {
            return Ok(());
        }
        let own = key.copy(alloc)?;
        let kept = Key::kept(key.copy(alloc)?);
        self.set.reserve(1)?;
        self.keys.push(own)?;
        self.set.insert_full(kept)?;
        Ok(())
    }

    /// The keys.
    pub fn keys(&self) -> &Row<PoolKey>
        ensures { result.now ≡ self.now }
    {
        &self.keys
    }

    /// The number of a key by the names that it is made of.
    pub fn find(&self, key: &Key<'_>) -> Option<usize>
        ensures index { result ≡ index_of self.now key.now }
        ensures within { IfSome result (λ i. i < length self.now) }
    {
        self.set.get_index_of(key)
    }

    /// The number of a key.
    pub fn index_of(&self, key: &PoolKey) -> Option<usize>
        ensures index { result ≡ index_of self.now key.now }
        ensures within { IfSome result (λ i. i < length self.now) }
    {
        self.find(&Key::lent(key))
    }
}
