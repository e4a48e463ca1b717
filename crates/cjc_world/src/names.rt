//! From the name of a class to its place in the list, by a map; of two classes with a name the first counts.
//! Only the roster asks it.

ghost use Rattle.std.specs.Prelude.{◌≡◌, ◌<◌, ◌^◌, ℕ, List, length, IfOk, OnOk, cond};
ghost use Rattle.std.specs.Str.{bytes_eq};
ghost use Rattle.cjc_world.specs.Working.Names.{place_in, spot_named};

use crate::spot::{ClassPlace, known};
use cjc_bytes::NoMemory;
use cjc_classfile::ClassTree;
use cjc_export::ExportTree;
use std::alloc::Global;
use std::collections::HashMap;

/// Of each name the place of the first class that has it, in the order of the list.
#[derive(Drop)]
pub(crate) struct Names {
    places: HashMap<Vec<u8>, u32>,
}

impl Names {
    /// No place is noted for any name.
    pub(crate) fn new(alloc: Global) -> Names
        ensures { (x : List ℕ) → place_in result x ≡ None }
    {
        Names {
            places: HashMap::new(alloc),
        }
    }

    /// The place that is noted for a name.
    pub(crate) fn get(&self, name: &[u8]) -> Option<u32>
        ensures { result ≡ place_in self.now name.now }
    {
        self.places.get(name).copied()
    }

    /// Notes the place of a name that has none.
    pub(crate) fn note(&mut self, alloc: Global, name: &[u8], place: u32) -> Result<(), NoMemory>
        ensures { OnOk result ((x : List ℕ) → place_in self.new x ≡ cond (bytes_eq name.now x) (Some place)
            (place_in self.old x)) }
    {
        let name = Vec::from_slice(alloc, name)?;
        self.places.insert(name, place)?;
        Ok(())
    }
}

/// The names of the classes that these spots mean, each at the place of the first class that has it.
pub(crate) fn names_of<'w>(
    alloc: Global,
    spots: &[ClassPlace],
    classes: &'w [ClassTree<'w>],
    exports: &'w [ExportTree],
) -> Result<Names, NoMemory>
    requires { length spots.now < 2 ^ 32 }
    ensures { IfOk result (λ n. (x : List ℕ) → place_in n x ≡ spot_named classes.now exports.now spots.now x) }
{
    let mut names = Names::new(alloc);
    for (place, spot) in spots.iter().enumerate() {
        if let Some(class) = known(classes, exports, spot) {
            match names.get(class.name()) {
                Some(_) => (),
                None => names.note(alloc, class.name(), place as u32)?,
            }
        }
    }
    Ok(names)
}
