//! The bytes of static cells (Java Card Virtual Machine Specification 2.2.2, section 6.10). It knows no class.

ghost use Rattle.std.specs.Prelude.{◌≡◌, ◌+◌, ◌==◌, length, sum_by, IfOk};
ghost use Rattle.cjc_classes.specs.LowerComponents.Statics.{cell_size, size_of_field};
ghost use Rattle.cjc_classes.specs.LowerComponents.Paired.Pairs.{has_cells, number_bytes};
ghost use Rattle.cjc_classes.specs.TypeInfo.Meant.{sort_meant};

use crate::counts::sum;
use cjc_card_link::capread::StaticField;
use cjc_classes::bytes::{MemberId, NoMemory};
use cjc_classes::type_info::{Sort, field_sort};
use cjc_classes::world::{StaticImage, ValueCell};

/// The bytes of a cell of a type.
fn cell_size(sort: Sort<'_>) -> u64
    ensures { result ≡ cell_size (sort_meant sort.entry) }
{
    match sort {
        Sort::Boolean | Sort::Byte => 1,
        Sort::Short => 2,
        Sort::Int => 4,
        Sort::NoValue => 0,
        _ => 2,
    }
}

/// The bytes of a field's cell.
fn size_of_field(field: &MemberId) -> Result<u64, NoMemory>
    ensures { IfOk result (λ n. n ≡ size_of_field field.now) }
{
    let sort = field_sort(field.desc.items())?;
    Ok(cell_size(sort))
}

/// The bytes of the numbers that are 0.
fn zero_bytes(zeros: &[MemberId]) -> Result<u64, NoMemory>
    ensures { IfOk result (λ n. n ≡ sum_by size_of_field zeros.now) }
{
    let mut size = 0;
    for field in zeros {
        size = sum(size, size_of_field(field)?)?;
    }
    Ok(size)
}

/// The bytes of the other numbers.
fn value_bytes(others: &[ValueCell]) -> Result<u64, NoMemory>
    ensures { IfOk result (λ n. n ≡ sum_by (λ v. size_of_field v.field) others.now) }
{
    let mut size = 0;
    for value in others {
        size = sum(size, size_of_field(&value.field)?)?;
    }
    Ok(size)
}

/// The bytes of all cells of numbers.
fn number_bytes(image: &StaticImage) -> Result<u64, NoMemory>
    ensures { IfOk result (λ n. n ≡ number_bytes image.now) }
{
    let zeros = zero_bytes(image.zeros.items())?;
    let others = value_bytes(image.others.items())?;
    sum(zeros, others)
}

/// Whether there are as many reference cells: arrays and null.
fn has_references(image: &StaticImage, statics: &StaticField) -> bool
    ensures { result ≡ (statics.now.reference_count == length image.now.arrays + length image.now.nulls) }
{
    let arrays = image.arrays.items().len() as u128;
    let nulls = image.nulls.items().len() as u128;
    u128::from(statics.reference_count) == arrays + nulls
}

/// Whether defaults and values have so many bytes together.
fn have_bytes(defaults: u64, values: usize, bytes: u64) -> bool
    ensures { result ≡ (defaults + values == bytes) }
{
    u128::from(defaults) + values as u128 == u128::from(bytes)
}

/// Whether there are as many reference cells, and as many bytes of numbers.
pub(crate) fn has_cells(image: &StaticImage, statics: &StaticField) -> Result<bool, NoMemory>
    ensures { IfOk result (λ b. b ≡ has_cells image.now statics.now) }
{
    let bytes = number_bytes(image)?;
    let values = statics.values.items().len();
    let have_bytes = have_bytes(statics.default_value_count, values, bytes);
    Ok(has_references(image, statics) && have_bytes)
}
