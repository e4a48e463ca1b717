//! Where components are not of a package, as a refusal tells it, and the first of several such places, which stand
//! in their order.

ghost use Rattle.std.specs.Prelude.{◌≡◌, ◌+◌, ◌++◌, ◌<◌, ◌^◌, List, option_map};
ghost use Rattle.cjc_card_link.specs.Bytes.Breaks.{broken_at};
ghost use Rattle.cjc_card_link.specs.Bytes.Told.{break_of};
ghost use Rattle.cjc_classes.specs.CheckRules.Consistent.{break_at};
ghost use Rattle.cjc_classes.specs.CheckRules.declared.spot.ComponentPlace.{ComponentPlace as Place};
ghost use Rattle.cjc_classes.specs.CheckRules.Spots.{in_info, unless};
ghost use Rattle.cjc_pairing.specs.Working.Heads.{IsHead, place_in};

use cjc_classes::bytes::{Break, FileKey, Part, PlaceRef, RulePlace};

/// The number of the sentence.
const SENTENCE: u16 = 719;

/// The sentence broken at an offset of the info of a component, by its tag and the name of its file.
fn broken(component: u8, file: &'static [u8], at: u32) -> Break<'static>
    requires { 3 + at < 2 ^ 32 }
    ensures { break_of result ≡ broken_at (place_in component file.now at) 719 }
{
    Break {
        rule: SENTENCE,
        spot: RulePlace {
            file: FileKey::Component(component),
            class: 0,
            member: 0,
            place: PlaceRef {
                file,
                class: &[],
                part: Part::Whole,
                offset: 3 + at,
            },
        },
    }
}

/// An offset of Descriptor, where a test fails.
pub(crate) fn in_descriptor(passes: bool, at: u32) -> Option<Break<'static>>
    requires { 3 + at < 2 ^ 32 }
    ensures { IsHead (unless passes (in_info 11 at)) result }
{
    if passes {
        None
    } else {
        Some(broken(11, b"Descriptor.cap", at))
    }
}

/// The size of the image in StaticField, where a test fails.
pub(crate) fn in_statics(passes: bool) -> Option<Break<'static>>
    ensures { IsHead (unless passes (in_info 8 0)) result }
{
    if passes {
        None
    } else {
        Some(broken(8, b"StaticField.cap", 0))
    }
}

/// The one, or else the other.
pub(crate) fn or_else(
    one: Option<Break<'static>>,
    other: Option<Break<'static>>,
) -> Option<Break<'static>>
    ensures { (xs ys : List Place) → IsHead xs one.entry → IsHead ys other.entry → IsHead (xs ++ ys) result }
{
    match one {
        Some(_) => one,
        None => other,
    }
}
