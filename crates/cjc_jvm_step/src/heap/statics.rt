//! The static fields of a package while it runs: what each holds, found by class, name and descriptor. Look-ups
//! decide which field an instruction means; nothing here does.

ghost use Rattle.std.specs.Prelude.{◌≡◌, length, Some, None, false, IfOk, if◌then◌else◌};
ghost use Rattle.cjc_jvm_semantics.specs.Effects.{value_in};
ghost use Rattle.cjc_jvm_semantics.specs.OnePackage.{of_class};
ghost use Rattle.cjc_jvm_step.specs.Heap.Objects.{fields_after_put, fields_with};

use crate::heap::object::{fresh_values, put_value, value_at};
use cjc_script::bytes::{MemberId, NoMemory};
use cjc_script::{FieldValue, Value};
use std::alloc::Global;
use std::marker::Model;

/// The static cells of a package and what they hold.
#[derive(Drop)]
pub struct Statics<'a> {
    fresh: &'a [FieldValue],
    values: Vec<Value>,
}

impl<'a> Model for Statics<'a> {
    ghost use Rattle.std.specs.Prelude.{◌≡◌, List, length};
    ghost use Rattle.cjc_script.specs.declared.report.FieldValue.{FieldValue};
    ghost use Rattle.cjc_jvm_step.specs.Heap.Objects.{fields_with};

    ghost Value = { List FieldValue };

    ghost view = { λ s. fields_with s.fresh.now s.values.items };

    ghost invariant = { λ s. length s.values.items ≡ length s.fresh.now };
}

impl<'a> Statics<'a> {
    /// Cells with what they hold at first.
    pub fn new(alloc: Global, fresh: &'a [FieldValue]) -> Result<Statics<'a>, NoMemory>
        ensures { IfOk result (λ s. s ≡ fresh.now) }
    {
        let values = fresh_values(alloc, fresh)?;
        Ok(Statics { fresh, values })
    }

    /// What a cell holds, by the class, the name and the descriptor of its field.
    pub fn value(&self, class: &[u8], id: &MemberId) -> Option<Value>
        ensures { result ≡ value_in self.now (of_class class.now id.now) }
    {
        value_at(self.fresh, self.values.as_slice(), class, id)
    }

    /// Puts a value into a cell, where it is there and holds a value of the same kind; whether it did.
    pub fn put(&mut self, class: &[u8], id: &MemberId, value: Value) -> bool
        ensures put { fields_after_put self.old (of_class class.now id.now) value ≡ (if result then Some self.new
            else None) }
        ensures same { result ≡ false → self.new ≡ self.old }
    {
        put_value(self.fresh, &mut self.values, class, id, value)
    }

    /// The cells as they are at first, and what they hold.
    pub fn cells(&self) -> (&'a [FieldValue], &[Value])
        ensures cells { self.now ≡ fields_with result.0.now result.1.now }
        ensures len { length result.1.now ≡ length result.0.now }
    {
        (self.fresh, self.values.as_slice())
    }
}
