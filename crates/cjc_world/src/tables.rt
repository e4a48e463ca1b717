//! Tables of what stands above each class, made once, supers first. A class has a row exactly where no cycle is
//! at it or above it.

ghost use Rattle.std.specs.Prelude.{◌≡◌, ◌<◌, ◌+◌, ℕ, [], ◌∷◌, false, true, length, is_some, slice_get, IfOk, OnOk};
ghost use Rattle.std.specs.List.{list_all};
ghost use Rattle.cjc_world.specs.Classes.{all_classes};
ghost use Rattle.cjc_world.specs.Supertypes.{IsAcyclic};
ghost use Rattle.cjc_world.specs.declared.tables.Order.TheVariants as orders;
ghost use Rattle.cjc_world.specs.Working.Known.{class_of};
ghost use Rattle.cjc_world.specs.Working.Places.{is_in, joined};
ghost use Rattle.cjc_world.specs.Working.Tables.{above_at, are_ready, Closer, is_ready, is_ready_at, is_row, IsPart};
ghost use Rattle.cjc_world.specs.Working.Tables.{piece, pieces, row_at, row_in};

use crate::class::Known;
use crate::class_index::ClassIndex;
use cjc_bytes::{Bytes, NoMemory, Row};
use std::alloc::Global;
use std::marker::Model;

/// What stands above a class, as places of classes in the order of the list, each once.
#[derive(Drop)]
pub(crate) struct Above {
    /// The class, then its superclasses going upwards.
    pub line: Row<u32>,
    /// Its interfaces that some file has, in order.
    pub interfaces: Row<u32>,
    /// The classes in which a field is looked up, in order. They are all that stand above it, and itself.
    pub fields: Row<u32>,
}

/// One of the lists of places.
#[derive(Clone, Copy)]
pub(crate) enum Order {
    Line,
    Interfaces,
    Fields,
}

impl Above {
    fn row(&self, order: Order) -> &[u32]
        ensures { result.now ≡ row_in order self.now }
    {
        match order {
            Order::Line => self.line.items(),
            Order::Interfaces => self.interfaces.items(),
            Order::Fields => self.fields.items(),
        }
    }
}

/// The list of the class at a place, or nothing where no row is there.
pub(crate) fn row_at(rows: &[Option<Above>], order: Order, place: u32) -> &[u32]
    ensures { result.now ≡ row_at order (slice_get rows.now place) }
{
    match rows.get(place as usize) {
        Some(Some(above)) => above.row(order),
        _ => &[],
    }
}

/// Places of classes in the order in which they were put, each once, with a mark for each class.
#[derive(Drop)]
struct Places {
    places: Vec<u32>,
    marks: Vec<bool>,
}

impl Model for Places {
    ghost use Rattle.std.specs.Prelude.{ℕ, List};
    ghost use Rattle.cjc_world.specs.Working.Tables.{AreMarked};

    ghost Value = { List ℕ };

    ghost view = { λ p. p.places.items };

    ghost invariant = { λ p. AreMarked p.marks.items p.places.items };
}

impl Places {
    /// None yet, of so many classes.
    fn new(alloc: Global, count: u32) -> Result<Places, NoMemory>
        ensures { IfOk result (λ places. places ≡ []) }
    {
        Ok(Places {
            places: Vec::new(alloc),
            marks: vec![in alloc; false; count as usize]?,
        })
    }

    fn has(&self, place: u32) -> bool
        ensures { result ≡ is_in place self.now }
    {
        match self.marks.get(place as usize) {
            Some(mark) => *mark,
            None => self.places.contains(&place),
        }
    }

    /// Puts a place at the end, if it is not there yet.
    fn put(&mut self, place: u32) -> Result<(), NoMemory>
        ensures { OnOk result (self.new ≡ joined self.old (place ∷ [])) }
    {
        if self.has(place) {
            return Ok(());
        }
        self.places.push(place)?;
        if (place as usize) < self.marks.len() {
            self.marks[place as usize] = true;
        }
        Ok(())
    }

    /// Puts those places at the end that are not there yet.
    fn join(&mut self, more: &[u32]) -> Result<(), NoMemory>
        ensures { OnOk result (self.new ≡ joined self.old more.now) }
    {
        for place in more {
            self.put(*place)?;
        }
        Ok(())
    }

    fn into_row(self) -> Row<u32>
        ensures { result ≡ self }
    {
        Row::of(self.places)
    }
}

/// Puts what the class at a place adds at the end: its list, and then itself where it is a listed interface.
fn put_piece(
    rows: &[Option<Above>],
    order: Order,
    listed: bool,
    place: Option<u32>,
    places: &mut Places,
) -> Result<(), NoMemory>
    ensures { OnOk result (places.new ≡ joined places.old (piece order listed rows.now place)) }
{
    if let Some(place) = place {
        places.join(row_at(rows, order, place))?;
        if listed {
            places.put(place)?;
        }
    }
    Ok(())
}

fn is_ready_at(rows: &[Option<Above>], place: Option<u32>) -> bool
    ensures { result ≡ is_ready_at rows.now place }
{
    match place {
        Some(place) => matches!(rows.get(place as usize), Some(Some(_))),
        None => true,
    }
}

impl<'a> ClassIndex<'a> {
    /// Whether a name is of no class, or the row of its class is there.
    fn is_ready(&self, rows: &[Option<Above>], name: &[u8]) -> bool
        ensures { result ≡ is_ready (all_classes self.now) rows.now name.now }
    {
        is_ready_at(rows, self.place_named(name))
    }

    fn all_ready(&self, rows: &[Option<Above>], names: &[Bytes]) -> bool
        ensures { result ≡ list_all (λ x. is_ready (all_classes self.now) rows.now x) names.now }
    {
        names.iter().all(|name| self.is_ready(rows, name.items()))
    }

    /// Whether the rows of all that a class lists are there.
    #[tactic(auto, unfolding(crate::specs::Working::Tables::are_ready))]
    pub(crate) fn are_ready(&self, rows: &[Option<Above>], class: Known<'_, '_>) -> bool
        ensures { result ≡ are_ready (all_classes self.now) rows.now (class_of class.entry) }
    {
        self.all_ready(rows, class.supers()) && self.all_ready(rows, class.interfaces())
    }

    /// Puts what the classes of some names add at the end, each place once.
    fn put_pieces(
        &self,
        rows: &[Option<Above>],
        order: Order,
        listed: bool,
        names: &[Bytes],
        places: &mut Places,
    ) -> Result<(), NoMemory>
        ensures { OnOk result (places.new ≡ joined places.old (pieces (all_classes self.now) order listed rows.now
            names.now)) }
    {
        for name in names {
            put_piece(rows, order, listed, self.place_named(name.items()), places)?;
        }
        Ok(())
    }

    /// The interfaces of a class that some file has, in order.
    #[tactic(auto, unfolding(crate::specs::Working::Tables::above_at))]
    pub(crate) fn interfaces(
        &self,
        alloc: Global,
        rows: &[Option<Above>],
        class: Known<'_, '_>,
    ) -> Result<Row<u32>, NoMemory>
        ensures { IfOk result (λ places. places
            ≡ (above_at (all_classes self.now) rows.now 0 (class_of class.entry)).interfaces) }
    {
        let mut places = Places::new(alloc, self.count())?;
        self.put_pieces(rows, Order::Interfaces, false, class.supers(), &mut places)?;
        self.put_pieces(
            rows,
            Order::Interfaces,
            true,
            class.interfaces(),
            &mut places,
        )?;
        Ok(places.into_row())
    }

    /// The superclasses of a class going upwards.
    pub(crate) fn line_above(
        &self,
        alloc: Global,
        rows: &[Option<Above>],
        class: Known<'_, '_>,
    ) -> Result<Row<u32>, NoMemory>
        ensures { IfOk result (λ places. places ≡ joined [] (pieces (all_classes self.now) orders.Line false rows.now
            (class_of class.entry).supers)) }
    {
        let mut places = Places::new(alloc, self.count())?;
        self.put_pieces(rows, Order::Line, false, class.supers(), &mut places)?;
        Ok(places.into_row())
    }

    /// What stands above the class at a place, where the rows of all that it lists are there.
    #[tactic(auto, using(crate::proofs::Joined::joined_first), unfolding(crate::specs::Working::Tables::above_at))]
    fn above(
        &self,
        alloc: Global,
        rows: &[Option<Above>],
        place: u32,
        class: Known<'_, 'a>,
    ) -> Result<Above, NoMemory>
        ensures { IfOk result (λ above. above ≡ above_at (all_classes self.now) rows.now place (class_of class.entry)) }
    {
        let mut line = Places::new(alloc, self.count())?;
        line.put(place)?;
        self.put_pieces(rows, Order::Line, false, class.supers(), &mut line)?;
        let interfaces = self.interfaces(alloc, rows, class)?;
        let mut fields = Places::new(alloc, self.count())?;
        fields.put(place)?;
        self.put_pieces(rows, Order::Fields, false, class.interfaces(), &mut fields)?;
        self.put_pieces(rows, Order::Fields, false, class.supers(), &mut fields)?;
        Ok(Above {
            line: line.into_row(),
            interfaces,
            fields: fields.into_row(),
        })
    }

    /// Makes the row of the class at a place, where it is not there and the rows of all that it lists are.
    fn settle(
        &self,
        alloc: Global,
        rows: &mut Vec<Option<Above>>,
        place: u32,
    ) -> Result<(), NoMemory>
        requires { place < length rows.old.items }
        ensures { OnOk result (Closer (all_classes self.now) rows.old.items rows.new.items place (place + 1)) }
    {
        if is_ready_at(rows, Some(place)) {
            return Ok(());
        }
        let class = match self.class_in(place) {
            Some(class) => class,
            None => return Ok(()),
        };
        if self.are_ready(rows, class) {
            let above = self.above(alloc, rows, place, class)?;
            rows[place as usize] = Some(above);
        }
        Ok(())
    }

    /// Makes the rows that are ready, place after place.
    fn pass(&self, alloc: Global, rows: &mut Vec<Option<Above>>, count: u32) -> Result<(), NoMemory>
        requires { count ≡ length rows.old.items }
        ensures { OnOk result (Closer (all_classes self.now) rows.old.items rows.new.items 0 count) }
    {
        for place in 0..count {
            self.settle(alloc, rows, place)?;
        }
        Ok(())
    }

    /// The same, from the last place to the first.
    fn pass_back(
        &self,
        alloc: Global,
        rows: &mut Vec<Option<Above>>,
        count: u32,
    ) -> Result<(), NoMemory>
        requires { count ≡ length rows.old.items }
        ensures { OnOk result (Closer (all_classes self.now) rows.old.items rows.new.items 0 0) }
    {
        for left in 0..count {
            self.settle(alloc, rows, count - 1 - left)?;
        }
        Ok(())
    }

    /// What stands above each class that has no cycle at it or above it. Each pass reaches a step further, and one is
    /// enough where the list has supers first or last.
    pub(crate) fn above_all(&self, alloc: Global) -> Result<Row<Option<Above>>, NoMemory>
        ensures part { IfOk result (λ rows. IsPart (all_classes self.now) rows) }
        ensures all { IfOk result (λ rows. list_all is_some rows ≡ true → IsAcyclic (all_classes self.now)) }
    {
        let count = self.count();
        let mut rows = no_rows(alloc, count)?;
        for _step in 0..count as u64 + 2 {
            if all_there(&rows) {
                return Ok(Row::of(rows));
            }
            self.pass(alloc, &mut rows, count)?;
            self.pass_back(alloc, &mut rows, count)?;
        }
        Ok(Row::of(rows))
    }
}

/// Whether no row is missing.
pub(crate) fn all_there(rows: &[Option<Above>]) -> bool
    ensures { result ≡ list_all is_some rows.now }
{
    rows.iter().all(|row| row.is_some())
}

/// So many rows that are not there.
fn no_rows(alloc: Global, count: u32) -> Result<Vec<Option<Above>>, NoMemory>
    ensures count { IfOk result (λ rows. length rows.items ≡ count) }
    ensures none { IfOk result (λ rows. (p : ℕ) → is_row (slice_get rows.items p) ≡ false) }
{
    let mut rows = Vec::new(alloc);
    for _place in 0..count {
        rows.push(None)?;
    }
    Ok(rows)
}
