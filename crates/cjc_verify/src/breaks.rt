//! Broken rules of components as refusals tell them, and the first of several. Called by `bodies` and `verify`.

ghost use Rattle.std.specs.Prelude.{◌≡◌, ◌⊎◌, ◌++◌, List, Some, map, option_map, option_to_list};
ghost use Rattle.cjc_bytes.specs.Breaks.{Break as BreakOf, IsFirstOf};
ghost use Rattle.cjc_bytes.specs.Told.{break_of, spot_of};
ghost use Rattle.cjc_check_rules.specs.Consistent.{break_at, file_name, place_of};
ghost use Rattle.cjc_check_rules.specs.Spots.{first};
ghost use Rattle.cjc_check_rules.specs.declared.spot.ComponentPlace.{ComponentPlace as Place};

use cjc_bytes::{Break, FileKey, Part, PlaceRef, RulePlace, first};
use cjc_check_rules::ComponentPlace;

/// The name of a component's file by its tag.
fn file_name(tag: u8) -> &'static [u8]
    ensures { result.now ≡ file_name tag }
{
    match tag {
        1 => b"Header.cap",
        2 => b"Directory.cap",
        3 => b"Applet.cap",
        4 => b"Import.cap",
        5 => b"ConstantPool.cap",
        6 => b"Class.cap",
        7 => b"Method.cap",
        8 => b"StaticField.cap",
        9 => b"RefLocation.cap",
        10 => b"Export.cap",
        _ => b"Descriptor.cap",
    }
}

/// A place in a component as a refusal tells it.
fn place_of(spot: ComponentPlace) -> RulePlace<'static>
    ensures { spot_of result ≡ place_of spot }
{
    RulePlace {
        file: FileKey::Component(spot.component),
        class: 0,
        member: 0,
        place: PlaceRef {
            file: file_name(spot.component),
            class: &[],
            part: Part::Whole,
            offset: spot.offset,
        },
    }
}

/// A rule broken at a place.
pub(crate) fn break_at(rule: u16, spot: ComponentPlace) -> Break<'static>
    ensures { break_of result ≡ break_at rule spot }
{
    Break {
        rule,
        spot: place_of(spot),
    }
}

/// A rule broken at a place, where there is one.
pub(crate) fn break_if(rule: u16, spot: Option<ComponentPlace>) -> Option<Break<'static>>
    ensures { option_map break_of result ≡ option_map (break_at rule) spot }
{
    match spot {
        Some(spot) => Some(break_at(rule, spot)),
        None => None,
    }
}

/// The first place where a rule is broken, and what is broken behind it.
#[tactic(auto, using(crate::proofs::FirstPlaces::first_of_spots))]
pub(crate) fn with_rule(
    rule: u16,
    spot: Option<ComponentPlace>,
    behind: Option<Break<'static>>,
) -> Option<Break<'static>>
    ensures { (spots : List Place) (rest : List BreakOf) → spot ≡ first spots → IsFirstOf rest
        (option_map break_of behind.entry) → IsFirstOf (map (break_at rule) spots ++ rest)
        (option_map break_of result) }
{
    first(break_if(rule, spot), behind)
}

/// The first of two.
#[tactic(auto, using(crate::proofs::Firsts::alone))]
pub(crate) fn either(
    left: Option<Break<'static>>,
    right: Option<Break<'static>>,
) -> Option<Break<'static>>
    ensures { IsFirstOf (option_to_list (option_map break_of left.entry)
        ++ option_to_list (option_map break_of right.entry)) (option_map break_of result) }
{
    first(left, right)
}
