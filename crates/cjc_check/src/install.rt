//! Install methods are static methods of classes (Java Card Virtual Machine Specification 2.2.2, section 6.5). It knows methods by
//! `methods`.

ghost use Rattle.std.specs.Prelude.{◌≡◌};
ghost use Rattle.cjc_check.specs.Complete.{AreSmall};
ghost use Rattle.cjc_check.specs.Spots.{first};
ghost use Rattle.cjc_check.specs.Statics.{install_spot, install_spots};
ghost use Rattle.cjc_check.specs.Working.MethodStarts.{HasMethods};
ghost use Rattle.cjc_check.specs.Working.Parts.{complete_of};

use crate::along::{Test, first_along};
use crate::methods::Methods;
use crate::spot::{Spot, unless};
use cjc_capread::AppletEntry;

/// The tag of Applet.
const APPLET: u8 = 3;

impl Test<AppletEntry> for Methods<'_> {
    ghost broken = { λ s. install_spot (complete_of s.names.now.parts.now) };

    ghost fits = { λ s. HasMethods s };

    fn first_in(&self, at: u32, item: &AppletEntry) -> Option<Spot> {
        let is_start = self.is_static_start(item.install_method);
        unless(is_start, APPLET, at + 1 + item.aid.items().len() as u32)
    }
}

/// Where 715 is broken first: the offset of an install method.
#[tactic(auto, unfolding(crate::specs::Spots::along, crate::specs::Spots::first))]
pub(crate) fn install_spot(methods: &Methods<'_>) -> Option<Spot>
    requires ready { HasMethods methods.now }
    requires small { AreSmall (complete_of methods.now.names.now.parts.now) }
    ensures { result ≡ first (install_spots (complete_of methods.now.names.now.parts.now)) }
{
    match methods.names.parts.applet {
        Some(applet) => first_along(methods, 1, applet.applets.items()),
        None => None,
    }
}
