//! The bytes of StaticField and ReferenceLocation (6.10, 6.11). Called by `files`. It tests no limit.

ghost use Rattle.std.specs.Prelude.{◌≡◌, ◌++◌, OnOk};
ghost use Rattle.std.specs.List.{flat_map};
ghost use Rattle.cjc_capwrite.specs.Statics.{array_init_bytes, static_field_bytes, reference_location_bytes};

use crate::parts::{put_bytes2, put_count2, put_two};
use cjc_capread::bytes::{NoMemory, Out};
use cjc_capread::{ArrayInit, ReferenceLocation, StaticField};

#[tactic(auto, unfolding(crate::specs::Statics::array_init_bytes))]
fn put_array_init(out: &mut Out, array: &ArrayInit) -> Result<(), NoMemory>
    ensures { OnOk result (out.new ≡ out.old ++ array_init_bytes array.now) }
{
    out.put1(array.type_)?;
    put_bytes2(out, array.values.items())
}

fn put_array_inits(out: &mut Out, arrays: &[ArrayInit]) -> Result<(), NoMemory>
    ensures { OnOk result (out.new ≡ out.old ++ flat_map array_init_bytes arrays.now) }
{
    for array in arrays {
        put_array_init(out, array)?;
    }
    Ok(())
}

/// The content of a Static Field component: the sizes of the image and the values it starts with.
#[tactic(auto, unfolding(crate::specs::Statics::static_field_bytes))]
pub(crate) fn put_static_field(out: &mut Out, image: &StaticField) -> Result<(), NoMemory>
    ensures { OnOk result (out.new ≡ out.old ++ static_field_bytes image.now) }
{
    put_two(out, image.image_size)?;
    put_two(out, image.reference_count)?;
    put_count2(out, image.array_inits.items())?;
    put_array_inits(out, image.array_inits.items())?;
    put_two(out, image.default_value_count)?;
    put_bytes2(out, image.values.items())
}

/// The content of a Reference Location component: where one-byte and two-byte indices of the pool lie.
#[tactic(auto, unfolding(crate::specs::Statics::reference_location_bytes))]
pub(crate) fn put_reference_location(
    out: &mut Out,
    locations: &ReferenceLocation,
) -> Result<(), NoMemory>
    ensures { OnOk result (out.new ≡ out.old ++ reference_location_bytes locations.now) }
{
    put_bytes2(out, locations.one_byte.items())?;
    put_bytes2(out, locations.two_byte.items())
}
