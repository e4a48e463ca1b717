//! Directory: the size of each component, which its caller has, and the counts that are read off the components
//! themselves (Java Card Virtual Machine Specification 2.2.2, section 6.4).

ghost use Rattle.std.specs.Prelude.{◌≡◌, IfOk};
ghost use Rattle.cjc_components.specs.LowerCheckRules.Listed.{applet_count, array_bytes};
ghost use Rattle.cjc_components.specs.Package.{Package};
ghost use Rattle.cjc_components.specs.Components.{applet, directory_with, import};
ghost use Rattle.cjc_components.specs.Statics.{static_field};

use cjc_bytes::{NoMemory, Row};
use cjc_components::capread::{Applet, ArrayInit, Directory, Import, StaticField};

/// The bytes of all arrays.
fn array_bytes(arrays: &[ArrayInit]) -> Result<u64, NoMemory>
    ensures { IfOk result (λ n. n ≡ array_bytes arrays.now) }
{
    let mut bytes = 0u64;
    for array in arrays {
        let Some(sum) = bytes.checked_add(array.values.items().len() as u64) else {
            return Err(NoMemory);
        };
        bytes = sum;
    }
    Ok(bytes)
}

/// A count as it stands in Directory.
fn as_byte(count: usize) -> Result<u8, NoMemory>
    ensures { IfOk result (λ n. n ≡ count) }
{
    if count < 256 {
        Ok(count as u8)
    } else {
        Err(NoMemory)
    }
}

fn applet_count(applet: &Option<Applet>) -> usize
    ensures { result ≡ applet_count applet.now }
{
    match applet {
        None => 0,
        Some(applet) => applet.applets.items().len(),
    }
}

/// Directory with these sizes, of the package that has these components.
pub fn directory(
    sizes: Row<u64>,
    statics: &StaticField,
    imports: &Import,
    applets: &Option<Applet>,
) -> Result<Directory, NoMemory>
    ensures { (p : Package) → statics.now ≡ static_field p.image → imports.now ≡ import p → applets.now ≡ applet p
        → IfOk result (λ d. d ≡ directory_with sizes p) }
{
    let array_init_size = array_bytes(statics.array_inits.items())?;
    let import_count = as_byte(imports.packages.items().len())?;
    let applet_count = as_byte(applet_count(applets))?;
    Ok(Directory {
        component_sizes: sizes,
        image_size: statics.image_size,
        array_init_count: statics.array_inits.items().len() as u64,
        array_init_size,
        import_count,
        applet_count,
    })
}
