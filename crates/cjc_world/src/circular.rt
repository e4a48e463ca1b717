//! What the rules ask of a world with cycles: which classes are their own supers, and which are below
//! java/lang/Throwable. Each step reaches one super further, and no step is taken once nothing changes.

ghost use Rattle.std.specs.Prelude.{◌≡◌, ◌||◌, false, true, ℕ, List, Some, slice_get, unwrap_or, IfOk};
ghost use Rattle.cjc_world.specs.Classes.{all_classes};
ghost use Rattle.cjc_world.specs.Supertypes.{is_below, stands_above};
ghost use Rattle.cjc_world.specs.Rules.{throwable};
ghost use Rattle.cjc_world.specs.Working.Known.{class_of};
ghost use Rattle.cjc_world.specs.Working.Places.{has_name, place_named};
ghost use Rattle.cjc_world.specs.Working.Steps.{any_stands, AreCycles, class_stands, IsBegun, IsDone, IsStep};
ghost use Rattle.cjc_world.specs.Working.Steps.{name_stands, name_stands_at};

use crate::class::Known;
use crate::class_index::ClassIndex;
use crate::rules::THROWABLE;
use cjc_bytes::{Bytes, NoMemory, Row};
use std::alloc::Global;

/// What is kept of the classes where a class is its own super, in the order of the list.
#[derive(Drop)]
pub(crate) struct Cycles {
    /// Whether each is its own superclass or superinterface over steps.
    pub own: Row<bool>,
    /// Whether each is java/lang/Throwable or has it as a superclass.
    pub below: Row<bool>,
}

fn are_same(left: &[bool], right: &[bool]) -> bool
    ensures { result ≡ true → left.now ≡ right.now }
{
    left == right
}

fn name_stands_at(known: &[bool], name: &[u8], other: &[u8], place: Option<u32>) -> bool
    ensures { result ≡ name_stands_at name.now known.now other.now place }
{
    match place {
        Some(place) => match known.get(place as usize) {
            Some(stands) => *stands,
            None => false,
        },
        None => other == name,
    }
}

impl<'a> ClassIndex<'a> {
    fn name_stands(&self, known: &[bool], name: &[u8], other: &[u8]) -> bool
        ensures { result ≡ name_stands (all_classes self.now) name.now known.now other.now }
    {
        name_stands_at(known, name, other, self.place_named(other))
    }

    #[tactic(auto, unfolding(crate::specs::Working::Steps::any_stands))]
    fn any_stands(&self, known: &[bool], name: &[u8], others: &[Bytes]) -> bool
        ensures { result ≡ any_stands (all_classes self.now) name.now known.now others.now }
    {
        others
            .iter()
            .any(|other| self.name_stands(known, name, other.items()))
    }

    /// Whether the name stands above the class at a place or is its name, one step further.
    fn class_stands(&self, known: &[bool], by_supers: bool, name: &[u8], place: u32) -> bool
        ensures { result ≡ class_stands (all_classes self.now) by_supers name.now known.now
            (slice_get (all_classes self.now) place) }
    {
        match self.class_in(place) {
            Some(class) => {
                class.name() == name
                    || self.any_stands(known, name, class.supers())
                    || (!by_supers && self.any_stands(known, name, class.interfaces()))
            }
            None => false,
        }
    }

    fn begun(&self, alloc: Global, name: &[u8]) -> Result<Vec<bool>, NoMemory>
        ensures { IfOk result (λ known. IsBegun (all_classes self.now) name.now known.items) }
    {
        let mut known = Vec::new(alloc);
        for place in 0..self.count() {
            known.push(self.has_name(place, name))?;
        }
        Ok(known)
    }

    fn step(
        &self,
        alloc: Global,
        known: &[bool],
        by_supers: bool,
        name: &[u8],
    ) -> Result<Vec<bool>, NoMemory>
        ensures { IfOk result (λ next. IsStep (all_classes self.now) by_supers name.now known.now next.items) }
    {
        let mut next = Vec::new(alloc);
        for place in 0..self.count() {
            next.push(self.class_stands(known, by_supers, name, place))?;
        }
        Ok(next)
    }

    /// Whether the name stands above each class or is its name, over supers and interfaces or by supers alone.
    fn standing(&self, alloc: Global, by_supers: bool, name: &[u8]) -> Result<Vec<bool>, NoMemory>
        ensures { IfOk result (λ known. IsDone (all_classes self.now) by_supers name.now known.items) }
    {
        let mut known = self.begun(alloc, name)?;
        for _step in 0..self.count() {
            let next = self.step(alloc, &known, by_supers, name)?;
            if are_same(&next, &known) {
                return Ok(known);
            }
            known = next;
        }
        Ok(known)
    }

    /// Whether one of the classes that a class lists is it or stands below it.
    fn is_listed_below(&self, known: &[bool], class: Known<'_, 'a>) -> bool
        ensures { let c = class_of class.entry in result ≡ (any_stands (all_classes self.now) c.name known.now c.supers
            || any_stands (all_classes self.now) c.name known.now c.interfaces) }
    {
        self.any_stands(known, class.name(), class.supers())
            || self.any_stands(known, class.name(), class.interfaces())
    }

    /// Whether the class at a place is its own super.
    fn is_own(&self, alloc: Global, place: u32) -> Result<bool, NoMemory>
        ensures { IfOk result (λ own. (x : List ℕ) → place_named (all_classes self.now) x ≡ Some place
            → own ≡ stands_above (all_classes self.now) x x) }
    {
        match self.class_in(place) {
            Some(class) => {
                let known = self.standing(alloc, false, class.name())?;
                Ok(self.is_listed_below(&known, class))
            }
            None => Ok(false),
        }
    }

    /// Of each class, whether it is its own super, and whether it is below java/lang/Throwable.
    pub(crate) fn cycles(&self, alloc: Global) -> Result<Cycles, NoMemory>
        ensures { IfOk result (λ c. AreCycles (all_classes self.now) c) }
    {
        let below = self.standing(alloc, true, THROWABLE)?;
        let mut own = Vec::new(alloc);
        for place in 0..self.count() {
            own.push(self.is_own(alloc, place)?)?;
        }
        Ok(Cycles {
            own: Row::of(own),
            below: Row::of(below),
        })
    }

    /// Whether a class is its own superclass or superinterface over steps.
    pub(crate) fn is_own_super(&self, cycles: &Cycles, class: &[u8]) -> bool
        requires { AreCycles (all_classes self.now) cycles.now }
        ensures { result ≡ stands_above (all_classes self.now) class.now class.now }
    {
        match self.place_named(class) {
            Some(place) => is_set(cycles.own.items(), place),
            None => false,
        }
    }

    /// Whether a class is java/lang/Throwable or has it as a superclass.
    pub(crate) fn is_throwable(&self, cycles: &Cycles, class: &[u8]) -> bool
        requires { AreCycles (all_classes self.now) cycles.now }
        ensures { result ≡ is_below (all_classes self.now) class.now throwable }
    {
        match self.place_named(class) {
            Some(place) => is_set(cycles.below.items(), place),
            None => class == THROWABLE,
        }
    }
}

fn is_set(row: &[bool], place: u32) -> bool
    ensures { result ≡ unwrap_or (slice_get row.now place) false }
{
    match row.get(place as usize) {
        Some(set) => *set,
        None => false,
    }
}
