//! What new objects hold: a slot for each token of each class of the package (Java Card Virtual Machine
//! Specification 2.2.2, section 6.8.2).

ghost use Rattle.std.specs.Prelude.{◌≡◌, ◌<◌, ◌+◌, ◌^◌, ◌++◌, map, option_map, IfOk, OnOk};
ghost use Rattle.cjc_card_semantics.specs.Machine.Classes.{depth, fresh, is_reference_token, own_slots, slot_for};
ghost use Rattle.cjc_card_semantics.specs.Machine.Classes.{slots_from, slots_upwards};
ghost use Rattle.cjc_card_frame.specs.Objects.{class_of, slot_by};
ghost use Rattle.cjc_card_link.specs.Infos.{info_by};
ghost use Rattle.cjc_card_link.specs.Tables.{AreKept, loaded_of};

use crate::infos::Info;
use crate::tables::Tables;
use cjc_card_frame::heap::{Class, Field, Slot};
use cjc_card_semantics::capread::ClassEntry;
use cjc_card_semantics::script::Value;
use cjc_check_index::bytes::NoMemory;
use std::alloc::Global;

// Whether a token is in the span of references.
fn is_reference_token(class: &ClassEntry, token: u8) -> bool
    ensures { result ≡ is_reference_token class.now token }
{
    let first = u16::from(class.first_reference_token);
    let behind = first + u16::from(class.reference_count);
    first <= u16::from(token) && u16::from(token) < behind
}

// The slot of a token in a new object.
fn slot_for(class: Class, entry: &ClassEntry, token: u8) -> Slot
    ensures { slot_by result ≡ slot_for (class_of class) entry.now token }
{
    let value = if is_reference_token(entry, token) {
        Value::Null
    } else {
        Value::Num(0)
    };
    Slot {
        field: Field { class, token },
        value,
    }
}

// Puts the slots of a class at the end.
fn put_slots(slots: &mut Vec<Slot>, class: Class, entry: &ClassEntry) -> Result<(), NoMemory>
    ensures { OnOk result (map slot_by slots.new.items ≡ map slot_by slots.old.items
        ++ slots_from (class_of class) entry.now 0 entry.now.declared_instance_size) }
{
    for token in 0..entry.declared_instance_size {
        slots.push(slot_for(class, entry, token))?;
    }
    Ok(())
}

impl<'a> Tables<'a> {
    /// So many superclasses are looked at, at most.
    pub fn depth(&self) -> u32
        requires { AreKept self.now }
        ensures depth { result ≡ depth (loaded_of self.now) }
        ensures small { result + 1 < 2 ^ 32 }
    {
        1 + self.count
    }

    // Puts the slots of an info at the end.
    fn put_own(
        &self,
        slots: &mut Vec<Slot>,
        class: Class,
        info: Option<Info<'_>>,
    ) -> Result<(), NoMemory>
        ensures { OnOk result (map slot_by slots.new.items ≡ map slot_by slots.old.items
            ++ own_slots (class_of class) (option_map info_by info.entry)) }
    {
        match info {
            Some(Info::IsClass(entry)) => put_slots(slots, class, entry),
            Some(Info::IsInterface(_)) => Ok(()),
            None => Ok(()),
        }
    }

    // Puts the slots of a class at the end behind those of its superclasses, so many upwards at most.
    fn put_upwards(
        &self,
        slots: &mut Vec<Slot>,
        class: Option<Class>,
        depth: u32,
    ) -> Result<(), NoMemory>
        requires { AreKept self.now }
        ensures { OnOk result (map slot_by slots.new.items ≡ map slot_by slots.old.items
            ++ slots_upwards (loaded_of self.now) depth (option_map class_of class)) }
    {
        if depth == 0 {
            return Ok(());
        }
        match class {
            None => Ok(()),
            Some(Class::External(_, _)) => Ok(()),
            Some(Class::Own(part, offset)) => {
                self.put_upwards(slots, self.superclass(part, offset), depth - 1)?;
                let info = self.info(part, u64::from(offset));
                self.put_own(slots, Class::Own(part, offset), info)
            }
        }
    }

    /// What a new object of a class holds; `None` where it is none that objects are made of.
    pub fn fresh(&self, alloc: Global, class: Class) -> Result<Option<Vec<Slot>>, NoMemory>
        requires { AreKept self.now }
        ensures { IfOk result (λ slots. option_map (λ s. map slot_by s.items) slots ≡ fresh (loaded_of self.now)
            (class_of class)) }
    {
        if self.is_interface(class) {
            return Ok(None);
        }
        let mut slots = Vec::new(alloc);
        self.put_upwards(&mut slots, Some(class), self.depth())?;
        Ok(Some(slots))
    }
}
