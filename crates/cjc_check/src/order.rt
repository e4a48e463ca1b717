//! The first broken sentence in the order of refusals: a sentence by its number, whether those that it needs
//! are true, and its first place. It knows no sentence.

ghost use Rattle.std.specs.Prelude.{◌≡◌, ◌&&◌, ◌++◌, Bool, List, option_map};
ghost use Rattle.cjc_capread.specs.Bytes.Breaks.{Break as BreakOf, IsFirstOf};
ghost use Rattle.cjc_capread.specs.Bytes.Told.{break_of, spot_of};
ghost use Rattle.cjc_check.specs.Order.{as_break};
ghost use Rattle.cjc_check_rules.specs.Consistent.{breaks_of, is_true, place_of, sentence, file_name};
ghost use Rattle.cjc_check_rules.specs.Spots.{first};
ghost use Rattle.cjc_check_rules.specs.declared.spot.ComponentPlace.{ComponentPlace as Place};

use cjc_capread::bytes::{Break, FileKey, Part, PlaceRef, RulePlace, first};
use cjc_check_rules::ComponentPlace;

/// The name of a component's file by its tag, the folder aside.
fn file_name(tag: u8) -> &'static [u8]
    ensures { result.now ≡ file_name tag }
{
    match tag {
        1 => b"Header.cap",
        2 => b"Directory.cap",
        3 => b"Applet.cap",
        4 => b"Import.cap",
        5 => b"ConstantPool.cap",
        6 => b"Class.cap",
        7 => b"Method.cap",
        8 => b"StaticField.cap",
        9 => b"RefLocation.cap",
        10 => b"Export.cap",
        _ => b"Descriptor.cap",
    }
}

/// A place in a component as a refusal tells it.
fn place_of(spot: ComponentPlace) -> RulePlace<'static>
    ensures { spot_of result ≡ place_of spot }
{
    RulePlace {
        file: FileKey::Component(spot.component),
        class: 0,
        member: 0,
        place: PlaceRef {
            file: file_name(spot.component),
            class: &[],
            part: Part::Whole,
            offset: spot.offset,
        },
    }
}

/// The first place of a sentence as a break, where those that it needs are true.
fn as_break(number: u16, needed: bool, spot: Option<ComponentPlace>) -> Option<Break<'static>>
    ensures { option_map break_of result ≡ as_break number needed spot }
{
    match spot {
        Some(spot) => {
            if needed {
                Some(Break {
                    rule: number,
                    spot: place_of(spot),
                })
            } else {
                None
            }
        }
        None => None,
    }
}

/// Whether a sentence is true, by its first place.
pub(crate) fn is_true(spot: Option<ComponentPlace>) -> bool
    ensures { (spots : List Place) → spot ≡ first spots → result ≡ is_true spots }
{
    spot.is_none()
}

/// Whether both hold.
pub(crate) fn both(one: bool, other: bool) -> bool
    ensures { result ≡ (one && other) }
{
    one && other
}

/// The first break of a sentence, by its number, whether those that it needs are true, and its first place, and
/// of those behind it.
pub(crate) fn with_sentence(
    number: u16,
    needed: bool,
    spot: Option<ComponentPlace>,
    behind: Option<Break<'static>>,
) -> Option<Break<'static>>
    ensures { (need : Bool) (spots : List Place) (rest : List BreakOf) → needed ≡ need → spot ≡ first spots
        → IsFirstOf rest (option_map break_of behind.entry) → IsFirstOf (breaks_of (sentence number need spots)
        ++ rest) (option_map break_of result) }
{
    first(as_break(number, needed, spot), behind)
}
