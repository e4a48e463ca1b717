//! The infos of interfaces and classes by their offsets (Java Card Virtual Machine Specification 2.2.2, section 6.8).

ghost use Rattle.std.specs.Prelude.{◌≡◌, ◌<◌, ◌+◌, ◌^◌, ◌++◌, ◌==◌, ℕ, length, option_map, option_and_then, slice_get};
ghost use Rattle.std.specs.Prelude.{IfOk, IfSome, OnOk};
ghost use Rattle.cjc_check_index.specs.CheckRules.Complete.{class_info_size};
ghost use Rattle.cjc_card_semantics.specs.Machine.Classes.{number_from, offset_from, info_size};
ghost use Rattle.cjc_check_index.specs.CheckRules.Spots.{starts};
ghost use Rattle.cjc_card_link.specs.Indices.{number_under, first_place};
ghost use Rattle.cjc_card_link.specs.Infos.{AreInfos, info_by, infos_in};

use crate::indices::Numbers;
use cjc_card_semantics::capread::{ClassEntry, ClassInfo, InterfaceEntry};
use cjc_check_index::bytes::{NoMemory, Row};
use cjc_check_index::lookup::{first_class, starts};
use std::alloc::Global;
use std::marker::Model;

/// An info of Class.
#[derive(Clone, Copy)]
pub(crate) enum Info<'a> {
    IsInterface(&'a InterfaceEntry),
    IsClass(&'a ClassEntry),
}

/// The infos of a package, interfaces first.
#[derive(Drop)]
pub(crate) struct Infos<'a> {
    class: &'a ClassInfo,
    /// Where each begins.
    offsets: Row<u64>,
    /// By these offsets the numbers of infos.
    numbers: Numbers,
}

impl<'a> Model for Infos<'a> {
    ghost use Rattle.cjc_card_semantics.specs.CapRead.declared.tree.ClassInfo.{ClassInfo as Entries};
    ghost use Rattle.cjc_card_link.specs.Infos.{AreInfos};

    ghost Value = { Entries };

    ghost view = { λ k. k.class.now };

    ghost invariant = { λ k. AreInfos k.class.now k.offsets k.numbers };
}

// Keeps the places of numbers.
fn places_of(alloc: Global, keys: &[u64]) -> Result<Numbers, NoMemory>
    ensures { IfOk result (λ r. (x : ℕ) → number_under r x ≡ first_place (λ n. n == x) keys.now) }
{
    let mut numbers = Numbers::new(alloc);
    for (i, key) in keys.iter().enumerate() {
        numbers.note(*key, i as u64)?;
    }
    Ok(numbers)
}

// Puts numbers at the end of others.
fn put_all(numbers: &mut Row<u64>, more: &[u64]) -> Result<(), NoMemory>
    ensures { OnOk result (numbers.new ≡ numbers.old ++ more.now) }
{
    for number in more {
        numbers.push(*number)?;
    }
    Ok(())
}

// The number in a place.
fn number_at(numbers: &[u64], place: u64) -> Option<u64>
    ensures { result ≡ slice_get numbers.now place }
{
    numbers.get(place as usize).copied()
}

// Where infos begin.
fn offsets_of(alloc: Global, class: &ClassInfo) -> Result<Row<u64>, NoMemory>
    requires { class_info_size class.now < 2 ^ 32 }
    ensures { IfOk result (λ offsets. offsets ≡ starts info_size 2 (infos_in class.now)) }
{
    let mut offsets = starts(alloc, 2, class.interfaces.items())?;
    let behind = starts(alloc, first_class(class), class.classes.items())?;
    put_all(&mut offsets, behind.items())?;
    Ok(offsets)
}

impl<'a> Infos<'a> {
    /// The infos of Class.
    pub(crate) fn new(alloc: Global, class: &'a ClassInfo) -> Result<Infos<'a>, NoMemory>
        requires { class_info_size class.now < 2 ^ 32 }
        ensures { IfOk result (λ infos. infos ≡ class.now) }
    {
        let offsets = offsets_of(alloc, class)?;
        let numbers = places_of(alloc, offsets.items())?;
        Ok(Infos {
            class,
            offsets,
            numbers,
        })
    }

    /// How many there are.
    pub(crate) fn count(&self) -> usize
        ensures count { result ≡ length (infos_in self.now) }
        ensures small { result + 2 < 2 ^ 32 }
    {
        self.offsets.items().len()
    }

    /// The number of the info that stands at an offset.
    pub(crate) fn number_of(&self, offset: u64) -> Option<u64>
        ensures number { result ≡ number_from 2 (infos_in self.now) offset }
        ensures small { IfSome result (λ n. offset < 2 ^ 32) }
    {
        self.numbers.get(offset)
    }

    /// The offset of the info with a number.
    pub(crate) fn offset_of(&self, number: u64) -> Option<u64>
        ensures offset { result ≡ offset_from 2 (infos_in self.now) number }
        ensures small { IfSome result (λ offset. offset < 2 ^ 32) }
    {
        number_at(self.offsets.items(), number)
    }

    /// The info with a number.
    pub(crate) fn info(&self, number: u64) -> Option<Info<'a>>
        ensures { option_map info_by result ≡ slice_get (infos_in self.now) number }
    {
        let number = number as usize;
        let interfaces = self.class.interfaces.items();
        if number < interfaces.len() {
            return Some(Info::IsInterface(&interfaces[number]));
        }
        match self.class.classes.items().get(number - interfaces.len()) {
            Some(class) => Some(Info::IsClass(class)),
            None => None,
        }
    }

    /// The info at an offset.
    pub(crate) fn at(&self, offset: u64) -> Option<Info<'a>>
        ensures at { option_map info_by result ≡ option_and_then (slice_get (infos_in self.now))
            (number_from 2 (infos_in self.now) offset) }
        ensures small { IfSome result (λ i. offset < 2 ^ 32) }
    {
        match self.number_of(offset) {
            Some(number) => self.info(number),
            None => None,
        }
    }
}
