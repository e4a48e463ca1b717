//! `Pile`, a list that grows and shrinks at its head: operand stacks and the callers of a run. It knows nothing
//! of what is piled.

ghost use Rattle.std.specs.Prelude.{◌≡◌, ◌≤◌, [], ◌∷◌, ◌++◌, length, take, drop, reverse, slice_get, IfSome, IfNone};
ghost use Rattle.std.specs.Prelude.{OnOk};

use cjc_script::bytes::NoMemory;
use std::alloc::Global;
use std::marker::Model;

/// A stack. Contracts see the list of its items, the top first.
#[derive(Drop)]
pub struct Pile<T> {
    items: Vec<T>,
}

impl<T> Model for Pile<T> {
    ghost use Rattle.std.specs.Prelude.{List, reverse};

    ghost Value = { List T };

    ghost view = { λ pile. reverse pile.items.items };
}

impl<T: Drop> Pile<T> {
    /// Nothing. Takes no memory.
    pub fn new(alloc: Global) -> Pile<T>
        ensures { result ≡ [] }
    {
        Pile {
            items: Vec::new(alloc),
        }
    }

    /// How many items there are.
    pub fn len(&self) -> usize
        ensures { result ≡ length self.now }
    {
        self.items.len()
    }

    /// Takes so many items off.
    pub fn forget(&mut self, count: usize)
        requires { count ≤ length self.old }
        ensures { self.new ≡ drop count self.old }
    {
        let len = self.items.len();
        self.items.truncate(len - count);
    }

    /// Takes the top off.
    pub fn pop(&mut self) -> Option<T>
        ensures some { IfSome result (λ item. self.old ≡ item ∷ self.new) }
        ensures none { IfNone result (self.old ≡ []) }
        ensures same { IfNone result (self.new ≡ []) }
    {
        self.items.pop()
    }

    /// Puts an item on top.
    pub fn push(&mut self, item: T) -> Result<(), NoMemory>
        ensures { OnOk result (self.new ≡ item ∷ self.old) }
    {
        self.items.push(item)?;
        Ok(())
    }
}

impl<T: Copy> Pile<T> {
    /// The item at a depth, 0 for the top.
    pub fn peek(&self, depth: usize) -> Option<T>
        ensures { result ≡ slice_get self.now depth }
    {
        let len = self.items.len();
        if depth < len {
            Some(self.items[len - 1 - depth])
        } else {
            None
        }
    }
}

impl<T: Drop> Pile<T> {
    /// Puts an item below the top `depth`.
    pub fn put_under(&mut self, depth: usize, item: T) -> Result<(), NoMemory>
        requires { depth ≤ length self.old }
        ensures { OnOk result (self.new ≡ take depth self.old ++ item ∷ drop depth self.old) }
    {
        let len = self.items.len();
        self.items.insert(len - depth, item)?;
        Ok(())
    }
}

impl<T: Copy> Pile<T> {
    /// The top items, the top last.
    pub fn newest(&self, count: usize) -> &[T]
        requires { count ≤ length self.now }
        ensures { result.now ≡ reverse (take count self.now) }
    {
        let len = self.items.len();
        &self.items[len - count..]
    }
}
