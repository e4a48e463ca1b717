//! Class beside the package's classes (Java Card Virtual Machine Specification 2.2.2, section 6.8): where an info is
//! not that of its class, where its tables or maps are not, and where a class of which objects are made has an
//! abstract method. What an info is to be is put together first, and then compared item by item. Called by `verify`.
mod abstracts;
mod items;
mod laws;
mod made;
mod offsets;
mod refs;
mod walks;
mod wanted;

ghost use Rattle.std.specs.Prelude.{◌≡◌, Bool, IfOk};
ghost use Rattle.cjc_check_rules.specs.Spots.{first};
ghost use Rattle.cjc_methods.specs.Tokens.Tokens.{assigned};
ghost use Rattle.cjc_verify.specs.Infos.{all_abstract_spots, all_info_spots, all_table_spots};

use crate::infos::abstracts::{all_abstract_beside, unmade_of};
use crate::infos::laws::infos_beside_wanted;
use crate::infos::made::wanted_infos;
use crate::infos::offsets::method_ats;
use crate::infos::walks::{all_beside, all_tables_beside};
use crate::package::Package;
use cjc_bytes::NoMemory;
use cjc_check_rules::ComponentPlace;
pub(crate) use items::same_class;
pub(crate) use offsets::{methods_of, numbers_in_order};
pub(crate) use refs::{all_starts, class_refs};
use std::alloc::Global;

/// Where 725, 727 at a class, and 729 are broken first, each by itself.
#[derive(Clone, Copy)]
pub(crate) struct InfoSpots {
    pub(crate) tables: Option<ComponentPlace>,
    pub(crate) abstracts: Option<ComponentPlace>,
    pub(crate) infos: Option<ComponentPlace>,
}

/// Where the infos of Class are not those of the package's classes.
pub(crate) fn info_spots(alloc: Global, pair: &Package<'_>) -> Result<InfoSpots, NoMemory>
    requires tokens { (applets : Bool) × (pair.now.tokens ≡ assigned applets pair.now.files) }
    ensures tables { IfOk result (λ s. s.tables ≡ first (all_table_spots pair.now)) }
    ensures abstracts { IfOk result (λ s. s.abstracts ≡ first (all_abstract_spots pair.now)) }
    ensures infos { IfOk result (λ s. s.infos ≡ first (all_info_spots pair.now)) }
{
    infos_beside_wanted();
    let class = pair.parts.class;
    let described = pair.parts.descriptor.classes.items();
    let methods = method_ats(alloc, pair.world, pair.order, described)?;
    let wanted = wanted_infos(alloc, pair.world, pair.tokens, pair.refs, methods.items())?;
    let unmade = unmade_of(alloc, pair.world, pair.order)?;
    Ok(InfoSpots {
        tables: all_tables_beside(class, wanted.items()),
        abstracts: all_abstract_beside(pair, class, unmade.items()),
        infos: all_beside(class, wanted.items()),
    })
}
