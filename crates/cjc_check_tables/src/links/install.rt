//! Install methods are static methods of classes (Java Card Virtual Machine Specification 2.2.2, section 6.5).
//! It knows methods by `methods`.

ghost use Rattle.std.specs.Prelude.{◌≡◌};
ghost use Rattle.cjc_check_rules.specs.Complete.{AreSmall};
ghost use Rattle.cjc_check_rules.specs.Spots.{first};
ghost use Rattle.cjc_check_rules.specs.Statics.{install_spot, install_spots};
ghost use Rattle.cjc_check_index.specs.Lookup.MethodStarts.{HasMethods};
ghost use Rattle.cjc_check_index.specs.Lookup.Parts.{complete_of};

use cjc_capread::AppletEntry;
use cjc_check_index::lookup::{Methods, Test, first_along, unless};
use cjc_check_rules::ComponentPlace;

/// The tag of Applet.
const APPLET: u8 = 3;

/// The test of install methods.
#[derive(Drop)]
struct Installs<'a> {
    methods: &'a Methods<'a>,
}

impl Test<AppletEntry> for Installs<'_> {
    ghost broken = { λ s. install_spot (complete_of s.methods.now.names.now.parts.now) };

    ghost fits = { λ s. HasMethods s.methods.now };

    fn first_in(&self, at: u32, item: &AppletEntry) -> Option<ComponentPlace> {
        let is_start = self.methods.is_static_start(item.install_method);
        unless(is_start, APPLET, at + 1 + item.aid.items().len() as u32)
    }
}

/// Where 715 is broken first: the offset of an install method.
#[tactic(auto, unfolding(cjc_check_rules::specs::Spots::along, cjc_check_rules::specs::Spots::first))]
pub fn install_spot(methods: &Methods<'_>) -> Option<ComponentPlace>
    requires ready { HasMethods methods.now }
    requires small { AreSmall (complete_of methods.now.names.now.parts.now) }
    ensures { result ≡ first (install_spots (complete_of methods.now.names.now.parts.now)) }
{
    match methods.names.parts.applet {
        Some(applet) => first_along(&Installs { methods }, 1, applet.applets.items()),
        None => None,
    }
}
