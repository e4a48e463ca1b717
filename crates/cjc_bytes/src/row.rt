//! Lists that grow at their end. Contracts see a `Row` as the list of its items.

ghost use Rattle.std.specs.Prelude.{◌≡◌, ℕ, List, [], ◌∷◌, ◌++◌, IfOk, OnOk, OnErr};

use crate::stop::NoMemory;
use std::alloc::Global;
use std::marker::Model;

/// A list, which keeps the allocator that it was made with.
#[derive(Drop)]
pub struct Row<T> {
    items: Vec<T>,
}

/// A list of bytes.
pub type Bytes = Row<u8>;

impl<T> Model for Row<T> {
    ghost Value = { List T };

    ghost view = { λ r. r.items.items };
}

impl<T> Row<T> {
    /// The empty list. Takes no memory.
    pub fn new(alloc: Global) -> Row<T>
        ensures { result ≡ [] }
    {
        Row {
            items: Vec::new(alloc),
        }
    }

    /// The items of a vector, in their order. Takes no memory.
    pub fn of(items: Vec<T>) -> Row<T>
        ensures { result ≡ items.items }
    {
        Row { items }
    }

    /// The items as a vector. Takes no memory.
    pub fn into_vec(self) -> Vec<T>
        ensures { result.items ≡ self }
    {
        let Row { items } = self;
        items
    }

    /// Puts an item at the end. After `NoMemory` the row is as before.
    pub fn push(&mut self, item: T) -> Result<(), NoMemory>
    where
        T: Drop,
        ensures ok { OnOk result (self.new ≡ self.old ++ item ∷ []) }
        ensures err { OnErr result (self.new ≡ self.old) }
    {
        self.items.push(item)?;
        Ok(())
    }

    /// The items.
    pub fn items(&self) -> &[T]
        ensures { result.now ≡ self.now }
    {
        self.items.as_slice()
    }
}

impl Row<u8> {
    /// The same bytes in memory of their own.
    pub fn copy_of(alloc: Global, bytes: &[u8]) -> Result<Bytes, NoMemory>
        ensures { IfOk result (λ b. b ≡ bytes.now) }
    {
        let items = Vec::from_slice(alloc, bytes)?;
        Ok(Row { items })
    }
}
