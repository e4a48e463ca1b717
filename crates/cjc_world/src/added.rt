//! The methods that abstract classes of the package get from interfaces they implement without declaring them.
//! Made once for each world; they count as members behind a class's own.

ghost use Rattle.std.specs.Prelude.{◌≡◌, ◌&&◌, ℕ, IfOk, OnOk, true, length, map, slice_get, Some};
ghost use Rattle.std.specs.List.{list_any};
ghost use Rattle.std.specs.Str.{bytes_eq};
ghost use Rattle.cjc_world.specs.Added.{added, added_at, is_one_of, named_by, own_methods};
ghost use Rattle.cjc_world.specs.Working.Asked.{got, got_all, got_one, has_id, is_asked_at, is_had, is_open_at};
ghost use Rattle.cjc_world.specs.Classes.{all_classes};
ghost use Rattle.cjc_world.specs.Working.Known.{class_of};
ghost use Rattle.cjc_world.specs.Working.Unchecked.{is_number_ready};
ghost use Rattle.cjc_world.specs.Working.Tables.{are_ready, IsPart};

use crate::class::Known;
use crate::class_index::ClassIndex;
use crate::tables::{Above, Order, row_at};
use cjc_bytes::{Bytes, MemberId, NoMemory, Row};
use std::alloc::Global;

fn is_called(own_name: &[u8], own_desc: &[u8], name: &[u8], desc: &[u8]) -> bool
    ensures { result ≡ (bytes_eq own_name.now name.now && bytes_eq own_desc.now desc.now) }
{
    own_name == name && own_desc == desc
}

/// Whether an interface has such a method of its own.
fn has_asked(class: Known<'_, '_>, name: &[u8], desc: &[u8]) -> bool
    ensures { result ≡ is_one_of (own_methods (class_of class.entry)) name.now desc.now }
{
    for position in 0..class.member_count(false) {
        if let Some((own_name, own_desc)) = class.asked(position) {
            if is_called(own_name, own_desc, name, desc) {
                return true;
            }
        }
    }
    false
}

fn has_id(ids: &[MemberId], name: &[u8], desc: &[u8]) -> bool
    ensures { result ≡ has_id ids.now name.now desc.now }
{
    ids.iter()
        .any(|id| id.name.items() == name && id.desc.items() == desc)
}

fn member_id(alloc: Global, class: &[u8], name: &[u8], desc: &[u8]) -> Result<MemberId, NoMemory>
    ensures { IfOk result (λ id. id ≡ record { class = class.now; name = name.now; desc = desc.now }) }
{
    let class = Bytes::copy_of(alloc, class)?;
    let name = Bytes::copy_of(alloc, name)?;
    let desc = Bytes::copy_of(alloc, desc)?;
    Ok(MemberId { class, name, desc })
}

impl<'a> ClassIndex<'a> {
    fn is_asked_at(&self, place: u32, name: &[u8], desc: &[u8]) -> bool
        ensures { result ≡ is_asked_at (all_classes self.now) name.now desc.now place }
    {
        match self.class_in(place) {
            Some(class) => has_asked(class, name, desc),
            None => false,
        }
    }

    fn any_asked(&self, places: &[u32], name: &[u8], desc: &[u8]) -> bool
        ensures { result ≡ list_any (λ p. is_asked_at (all_classes self.now) name.now desc.now p) places.now }
    {
        places
            .iter()
            .any(|place| self.is_asked_at(*place, name, desc))
    }

    /// Whether the class at a place declares such a method that is public or protected and not static, or gets it.
    fn is_open_at(&self, rows: &[Option<Above>], place: u32, name: &[u8], desc: &[u8]) -> bool
        ensures { result ≡ is_open_at (all_classes self.now) rows.now name.now desc.now place }
    {
        match self.class_in(place) {
            Some(class) => {
                class.declares_open(name, desc)
                    || (class.takes_added()
                        && self.any_asked(row_at(rows, Order::Interfaces, place), name, desc))
            }
            None => false,
        }
    }

    fn any_open(&self, rows: &[Option<Above>], places: &[u32], name: &[u8], desc: &[u8]) -> bool
        ensures { result ≡ list_any (λ p. is_open_at (all_classes self.now) rows.now name.now desc.now p) places.now }
    {
        places
            .iter()
            .any(|place| self.is_open_at(rows, *place, name, desc))
    }

    /// Whether a class has such a method, or one of its superclasses, whose places these are.
    #[tactic(auto, unfolding(crate::specs::Working::Asked::is_had))]
    fn is_had(
        &self,
        rows: &[Option<Above>],
        class: Known<'_, 'a>,
        line: &[u32],
        name: &[u8],
        desc: &[u8],
    ) -> bool
        ensures { result ≡ is_had (all_classes self.now) rows.now (class_of class.entry) line.now name.now desc.now }
    {
        class.declares_open(name, desc) || self.any_open(rows, line, name, desc)
    }

    /// Puts a method at the end, where the class neither has it nor got it yet.
    #[tactic(auto, unfolding(crate::specs::Working::Asked::got_one))]
    fn get_one(
        &self,
        alloc: Global,
        rows: &[Option<Above>],
        class: Known<'_, 'a>,
        line: &[u32],
        name: &[u8],
        desc: &[u8],
        ids: &mut Vec<MemberId>,
    ) -> Result<(), NoMemory>
        ensures { OnOk result (ids.new.items ≡ got_one (λ n d. is_had (all_classes self.now) rows.now
            (class_of class.entry) line.now n d) (class_of class.entry).name ids.old.items name.now desc.now) }
    {
        if self.is_had(rows, class, line, name, desc) || has_id(ids, name, desc) {
            return Ok(());
        }
        ids.push(member_id(alloc, class.name(), name, desc)?)?;
        Ok(())
    }

    /// Puts the methods of an interface at the end, by token, that the class neither has nor got yet.
    fn get_methods(
        &self,
        alloc: Global,
        rows: &[Option<Above>],
        class: Known<'_, 'a>,
        line: &[u32],
        interface: Known<'_, 'a>,
        ids: &mut Vec<MemberId>,
    ) -> Result<(), NoMemory>
        ensures { OnOk result (ids.new.items ≡ got (λ n d. is_had (all_classes self.now) rows.now (class_of class.entry)
            line.now n d) (class_of class.entry).name ids.old.items (own_methods (class_of interface.entry))) }
    {
        for position in 0..interface.member_count(false) {
            if let Some((name, desc)) = interface.asked(position) {
                self.get_one(alloc, rows, class, line, name, desc, ids)?;
            }
        }
        Ok(())
    }

    /// The same of the interfaces at these places.
    fn get_all(
        &self,
        alloc: Global,
        rows: &[Option<Above>],
        class: Known<'_, 'a>,
        line: &[u32],
        interfaces: &[u32],
        ids: &mut Vec<MemberId>,
    ) -> Result<(), NoMemory>
        ensures { OnOk result (ids.new.items ≡ got_all (all_classes self.now) (λ n d. is_had (all_classes self.now)
            rows.now (class_of class.entry) line.now n d) (class_of class.entry).name ids.old.items interfaces.now) }
    {
        for place in interfaces {
            if let Some(interface) = self.class_in(*place) {
                self.get_methods(alloc, rows, class, line, interface, ids)?;
            }
        }
        Ok(())
    }

    /// The methods that a class gets, in the order of its interfaces and by token.
    fn added_row(
        &self,
        alloc: Global,
        rows: &[Option<Above>],
        class: Known<'_, 'a>,
    ) -> Result<Row<MemberId>, NoMemory>
        requires part { IsPart (all_classes self.now) rows.now }
        requires ready { are_ready (all_classes self.now) rows.now (class_of class) ≡ true }
        ensures { IfOk result (λ row. row ≡ map (named_by (class_of class.entry).name) (added (all_classes self.now)
            (class_of class.entry))) }
    {
        let mut ids = Vec::new(alloc);
        if class.takes_added() {
            let interfaces = self.interfaces(alloc, rows, class)?;
            let line = self.line_above(alloc, rows, class)?;
            self.get_all(
                alloc,
                rows,
                class,
                line.items(),
                interfaces.items(),
                &mut ids,
            )?;
        }
        Ok(Row::of(ids))
    }

    /// The same where the rows of all that the class lists are there, and else nothing.
    fn added_where_ready(
        &self,
        alloc: Global,
        rows: &[Option<Above>],
        class: Known<'_, 'a>,
    ) -> Result<Row<MemberId>, NoMemory>
        requires { IsPart (all_classes self.now) rows.now }
        ensures { IfOk result (λ row. are_ready (all_classes self.now) rows.now (class_of class.entry) ≡ true
            → row ≡ map (named_by (class_of class.entry).name) (added (all_classes self.now) (class_of class.entry))) }
    {
        if self.are_ready(rows, class) {
            self.added_row(alloc, rows, class)
        } else {
            Ok(Row::new(alloc))
        }
    }

    /// What each class of the package gets, where no cycle is at it or above it.
    pub(crate) fn added_rows(
        &self,
        alloc: Global,
        rows: &[Option<Above>],
    ) -> Result<Row<Row<MemberId>>, NoMemory>
        requires { IsPart (all_classes self.now) rows.now }
        ensures count { IfOk result (λ added. length added ≡ length self.now.classes) }
        ensures added { IfOk result (λ added. (i : ℕ) → is_number_ready self.now rows.now i ≡ true
            → slice_get added i ≡ Some (added_at self.now i)) }
    {
        let mut added = Vec::new(alloc);
        for place in 0..self.class_count()? {
            let class = Known::Declared(place, &self.classes().items()[place as usize]);
            added.push(self.added_where_ready(alloc, rows, class)?)?;
        }
        Ok(Row::of(added))
    }

    /// How many classes the package has, where 32 bits count them.
    fn class_count(&self) -> Result<u32, NoMemory>
        ensures { IfOk result (λ n. n ≡ length self.now.classes) }
    {
        let count = self.classes().items().len();
        if count < 0x1_0000_0000 {
            Ok(count as u32)
        } else {
            Err(NoMemory)
        }
    }
}
