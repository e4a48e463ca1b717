//! Which reference types are of others, by the supers that Class and the export files list (Java Card Virtual Machine
//! Specification 2.2.2, sections 6.8 and 7.5), as frames ask of them.

ghost use Rattle.std.specs.Prelude.{◌≡◌, ◌<◌, ◌^◌, option_map};
ghost use Rattle.cjc_capread.specs.Parts.{class_of as class_in_bytes};
ghost use Rattle.cjc_capread.specs.declared.tree.ClassRef.TheVariants as refs;
ghost use Rattle.cjc_card_acts.specs.CardTypes.{class_by, is_type_of, shape_by};
ghost use Rattle.cjc_card_calls.specs.Lines.Lines.{AreLines};
ghost use Rattle.cjc_card_acts.specs.CardFrame.Objects.{class_of, shape_of};
ghost use Rattle.cjc_card_acts.specs.CardSemantics.Machine.Classes.{class_of as class_by_ref};
ghost use Rattle.cjc_card_calls.specs.LowerCardLink.Tables.{AreKept, loaded_of};

use cjc_capread::ClassRef;
use cjc_card_acts::frames::Subtypes;
use cjc_card_calls::card_frame::heap::{Class, Element, Shape};
use cjc_card_calls::card_link::Tables;
use cjc_card_calls::lines::{Lines, is_of};
use std::marker::Model;

/// A class of the package by the offset of its info.
fn own(tables: &Tables<'_>, offset: u32) -> Option<Class>
    requires { AreKept tables.now }
    ensures { option_map class_of result ≡ class_by_ref (loaded_of tables.now) 0 (refs.Inside offset) }
{
    tables.class_in(0, ClassRef::Inside(u64::from(offset)))
}

/// A class of an import by its token.
fn imported(tables: &Tables<'_>, import: u32, token: u8) -> Option<Class>
    requires { AreKept tables.now }
    ensures { option_map class_of result ≡ class_by_ref (loaded_of tables.now) 0 (refs.Outside import token) }
{
    tables.class_outside(0, import, token)
}

/// The class of a class_ref by its number.
fn class_of_number(tables: &Tables<'_>, number: u32) -> Option<Class>
    requires { AreKept tables.now }
    ensures { option_map class_of result ≡ class_by_ref (loaded_of tables.now) 0 (class_in_bytes number) }
{
    if number < 0x8000 {
        own(tables, number)
    } else {
        imported(tables, number / 256 - 0x80, (number % 256) as u8)
    }
}

/// The class of a class_ref by its nibbles.
fn class_by(tables: &Tables<'_>, nibbles: &[u8]) -> Option<Class>
    requires { AreKept tables.now }
    ensures { option_map class_of result ≡ class_by (loaded_of tables.now) nibbles.now }
{
    let [a, b, c, d] = nibbles else {
        return None;
    };
    let high = 4096 * u32::from(*a) + 256 * u32::from(*b);
    class_of_number(tables, high + 16 * u32::from(*c) + u32::from(*d))
}

/// What a reference type means.
fn shape_by(tables: &Tables<'_>, nibbles: &[u8]) -> Option<Shape>
    requires { AreKept tables.now }
    ensures { option_map shape_of result ≡ shape_by (loaded_of tables.now) nibbles.now }
{
    let [first, class @ ..] = nibbles else {
        return None;
    };
    match *first {
        0x6 => match class_by(tables, class) {
            Some(class) => Some(Shape::OfClass(class)),
            None => None,
        },
        0xE => match class_by(tables, class) {
            Some(class) => Some(Shape::OfReferences(class)),
            None => None,
        },
        0xA => Some(Shape::OfNumbers(Element::Booleans)),
        0xB => Some(Shape::OfNumbers(Element::Bytes)),
        0xC => Some(Shape::OfNumbers(Element::Shorts)),
        0xD => Some(Shape::OfNumbers(Element::Ints)),
        _ => None,
    }
}

/// Whether one reference type is of another, where both mean something.
fn is_type_of(tables: &Tables<'_>, lines: &Lines, sub: &[u8], sup: &[u8]) -> bool
    requires tables { AreKept tables.now }
    requires lines { AreLines (loaded_of tables.now) lines.now }
    ensures { result ≡ is_type_of (loaded_of tables.now) sub.now sup.now }
{
    match (shape_by(tables, sub), shape_by(tables, sup)) {
        (Some(sub), Some(sup)) => is_of(tables, lines, sub, sup),
        (Some(_), None) => false,
        (None, _) => false,
    }
}

/// The reference types of components.
#[derive(Drop)]
pub(crate) struct Kinds<'a> {
    tables: &'a Tables<'a>,
    lines: &'a Lines,
}

impl<'a> Model for Kinds<'a> {
    ghost use Rattle.cjc_card_calls.specs.Lines.Lines.{AreLines};
    ghost use Rattle.cjc_card_acts.specs.CardSemantics.Machine.Loaded.{Loaded};
    ghost use Rattle.cjc_card_calls.specs.LowerCardLink.Tables.{AreKept, loaded_of};

    ghost Value = { Loaded };

    ghost view = { λ k. loaded_of k.tables.now };

    ghost invariant = { λ k. AreKept k.tables.now × AreLines (loaded_of k.tables.now) k.lines.now };
}

impl<'a> Kinds<'a> {
    /// The types of the package of these tables.
    pub(crate) fn new(tables: &'a Tables<'a>, lines: &'a Lines) -> Kinds<'a>
        requires tables { AreKept tables.now }
        requires lines { AreLines (loaded_of tables.now) lines.now }
        ensures { result ≡ loaded_of tables.now }
    {
        Kinds { tables, lines }
    }
}

impl Subtypes for Kinds<'_> {
    ghost use Rattle.cjc_card_acts.specs.CardTypes.{is_type_of};

    ghost subtype = { λ k. is_type_of k };

    fn is_of(&self, sub: &[u8], sup: &[u8]) -> bool {
        is_type_of(self.tables, self.lines, sub, sup)
    }
}
