//! Values with several owners, so that the frames of a table share what they have in common.

ghost use Rattle.std.specs.Prelude.{◌≡◌, IfOk, IfErr};

use cjc_bytes::{NoMemory, Row};
use std::alloc::Global;
use std::marker::Model;
use std::rc::Rc;

/// A value with several owners. Contracts see the value.
#[derive(Drop)]
pub struct Shared<T> {
    owned: Rc<T>,
}

impl<T> Model for Shared<T> {
    ghost Value = { T };

    ghost view = { λ s. s.owned.value };
}

impl<T: Drop> Shared<T> {
    /// The value with its first owner.
    pub(crate) fn new(alloc: Global, value: T) -> Result<Shared<T>, NoMemory>
        ensures { IfOk result (λ shared. shared ≡ value) }
    {
        match Rc::new(alloc, value) {
            Ok(owned) => Ok(Shared { owned }),
            Err(_) => Err(NoMemory),
        }
    }

    /// The same value with one owner more.
    pub fn shared(&self) -> Result<Shared<T>, NoMemory>
        ensures { IfOk result (λ shared. shared ≡ self.now) }
    {
        let owned = self.owned.clone()?;
        Ok(Shared { owned })
    }

    /// Whether this and the other are seen to be owners of one value. Contracts know nothing of it.
    pub(crate) fn is_one_with(&self, other: &Shared<T>) -> bool {
        Rc::ptr_eq(&self.owned, &other.owned)
    }

    /// The value itself, if it has no other owner.
    pub(crate) fn alone(self) -> Result<T, Shared<T>>
        ensures ok { IfOk result (λ value. value ≡ self) }
        ensures err { IfErr result (λ shared. shared ≡ self) }
    {
        let Shared { owned } = self;
        match Rc::try_unwrap(owned) {
            Ok(value) => Ok(value),
            Err(owned) => Err(Shared { owned }),
        }
    }
}

impl<T> Shared<Row<T>> {
    /// The items of a shared list.
    pub fn items(&self) -> &[T]
        ensures { result.now ≡ self.now }
    {
        self.owned.as_ref().items()
    }
}
