//! The first of two places, and the place where a test fails. The test of each sentence uses it. It knows no sentence.

ghost use Rattle.std.specs.Prelude.{◌≡◌, ◌+◌, ◌<◌, ◌^◌};
ghost use Rattle.cjc_check_rules.specs.ExportFile.Members.{same_bool};
ghost use Rattle.cjc_check_rules.specs.Spots.{in_info, unless, earlier, first, is_up_to};

use cjc_check_rules::ComponentPlace;

/// Whether a place does not stand after another: by component, then by offset.
fn is_up_to(left: ComponentPlace, right: ComponentPlace) -> bool
    ensures { result ≡ is_up_to left right }
{
    left.component < right.component
        || (left.component == right.component && left.offset <= right.offset)
}

/// The first of two places.
pub fn earlier(
    left: Option<ComponentPlace>,
    right: Option<ComponentPlace>,
) -> Option<ComponentPlace>
    ensures { result ≡ earlier left right }
{
    match (left, right) {
        (None, _) => right,
        (Some(one), None) => Some(one),
        (Some(one), Some(other)) => {
            if is_up_to(one, other) {
                Some(one)
            } else {
                Some(other)
            }
        }
    }
}

/// The place at an offset of a component's info, where the test fails.
#[tactic(auto, unfolding(cjc_check_rules::specs::Spots::first))]
pub fn unless(passes: bool, component: u8, at: u32) -> Option<ComponentPlace>
    requires { 3 + at < 2 ^ 32 }
    ensures { result ≡ first (unless passes (in_info component at)) }
{
    if passes {
        None
    } else {
        Some(ComponentPlace {
            component,
            offset: 3 + at,
        })
    }
}

/// Whether both hold or neither does.
pub fn same_bool(one: bool, other: bool) -> bool
    ensures { result ≡ same_bool one other }
{
    if one { other } else { !other }
}
