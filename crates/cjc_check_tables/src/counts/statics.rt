//! The static field image adds up (Java Card Virtual Machine Specification 2.2.2, section 6.10). It knows
//! StaticField alone.

ghost use Rattle.std.specs.Prelude.{◌≡◌, ◌+◌, ◌*◌, ◌<◌, ◌^◌, ◌==◌, nat_le, length, sum_by};
ghost use Rattle.cjc_check_rules.specs.Complete.{array_size, statics_size};
ghost use Rattle.cjc_check_rules.specs.Spots.{along, first};
ghost use Rattle.cjc_check_rules.specs.Statics.{element_size, image_spots, in_array};

use cjc_capread::{ArrayInit, StaticField};
use cjc_check_index::lookup::{earlier, unless};
use cjc_check_rules::ComponentPlace;

/// The tag of StaticField.
const STATIC_FIELD: u8 = 8;

/// The bytes of an element of an array, by its type.
fn element_size(type_: u8) -> usize
    ensures { result ≡ element_size type_ }
{
    match type_ {
        4 => 2,
        5 => 4,
        _ => 1,
    }
}

/// Whether an array has whole elements; where not, its place, the array beginning at an offset.
fn in_array(at: u32, array: &ArrayInit) -> Option<ComponentPlace>
    requires { 4 + at < 2 ^ 32 }
    ensures { result ≡ first (in_array at array.now) }
{
    let is_whole = array.values.items().len() % element_size(array.type_) == 0;
    unless(is_whole, STATIC_FIELD, at + 1)
}

/// The first array that has no whole elements.
fn in_arrays(arrays: &[ArrayInit]) -> Option<ComponentPlace>
    requires { 9 + sum_by array_size arrays.now < 2 ^ 32 }
    ensures { result ≡ first (along array_size in_array 6 arrays.now) }
{
    let mut least = None;
    let mut at: u32 = 6;
    for array in arrays {
        least = earlier(least, in_array(at, array));
        at += 3 + array.values.items().len() as u32;
    }
    least
}

/// Whether the image has two bytes for each reference and the bytes of the primitives.
fn adds_up(image_size: u64, references: u64, zeros: u64, values: usize) -> bool
    ensures { result ≡ (image_size == 2 * references + zeros + values) }
{
    let primitives = u128::from(zeros) + values as u128;
    u128::from(image_size) == 2 * u128::from(references) + primitives
}

/// Whether there are no more arrays than references.
fn has_room(statics: &StaticField) -> bool
    ensures { result ≡ nat_le (length statics.now.array_inits) statics.now.reference_count }
{
    statics.array_inits.items().len() as u64 <= statics.reference_count
}

/// Where 716 is broken first: the size of the image, the number of arrays, or the number of an array's bytes. A
/// component with its tag and size has fewer than 2^32 bytes.
pub fn image_spot(statics: &StaticField) -> Option<ComponentPlace>
    requires { 3 + statics_size statics.now < 2 ^ 32 }
    ensures { result ≡ first (image_spots statics.now) }
{
    let values = statics.values.items().len();
    let is_sum = adds_up(
        statics.image_size,
        statics.reference_count,
        statics.default_value_count,
        values,
    );
    let size = unless(is_sum, STATIC_FIELD, 0);
    let count = unless(has_room(statics), STATIC_FIELD, 4);
    let arrays = in_arrays(statics.array_inits.items());
    earlier(earlier(size, count), arrays)
}
