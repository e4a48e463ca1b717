//! How values of a type are kept. Called for parameters, fields and results.

ghost use Rattle.std.specs.Prelude.{◌≡◌, ◌++◌, IfOk, OnOk};
ghost use Rattle.cjc_int_mode.specs.Script.Sorts.{field_sort, reference_to, shape_named, signature_of, sort_by};
ghost use Rattle.cjc_ncode.specs.IntCode.IntCode.{is_reference, is_short, params_by};
ghost use Rattle.cjc_int_mode.specs.Written.{result_by};
ghost use Rattle.cjc_int_narrow.specs.Working.Moves.{is_int, kept_as, narrowed_if, widened_if};

use cjc_int_mode::descriptors::{is_short, parsed, width};
use cjc_narrow::written::tested;
use cjc_ncode::NInsn;
use cjc_ncode::bytes::{Kind, NoMemory, Row};
use cjc_ncode::capread::card;

/// How values of a type are kept.
#[derive(Clone, Copy)]
pub(crate) struct Kept {
    /// In one word, outside of the code of int mode.
    pub is_short: bool,
    pub is_reference: bool,
    /// The words that an argument has.
    pub words: u8,
}

/// Whether a class or array is one that values can have.
#[tactic(auto, using(crate::proofs::Moves::named_shape, crate::proofs::Moves::named_none))]
fn is_shape(class: &[u8]) -> Result<bool, NoMemory>
    ensures { IfOk result (λ is. is ≡ is_reference (reference_to (shape_named class.now))) }
{
    match tested(class)? {
        Some(_) => Ok(true),
        None => Ok(false),
    }
}

fn is_reference(kind: Kind, class: &[u8]) -> Result<bool, NoMemory>
    ensures { IfOk result (λ is. is ≡ is_reference (sort_by kind class.now)) }
{
    match kind {
        Kind::Ref => is_shape(class),
        _ => Ok(false),
    }
}

/// How values of a type are kept, by its kind and class.
pub(crate) fn kept_of(kind: Kind, class: &[u8]) -> Result<Kept, NoMemory>
    ensures { IfOk result (λ kept. kept ≡ kept_as (sort_by kind class.now)) }
{
    let is_reference = is_reference(kind, class)?;
    Ok(Kept {
        is_short: is_short(kind),
        is_reference,
        words: width(kind) as u8,
    })
}

/// Whether the values of a field with this descriptor are one word.
pub(crate) fn is_short_field(desc: &[u8]) -> Result<bool, NoMemory>
    ensures { IfOk result (λ is. is ≡ is_short (field_sort desc.now)) }
{
    match parsed(desc)? {
        Some(parts) => Ok(is_short(parts.result_type().0)),
        None => Ok(false),
    }
}

/// Whether a method with this descriptor returns an int.
pub(crate) fn returns_int(desc: &[u8]) -> Result<bool, NoMemory>
    ensures { IfOk result (λ is. is ≡ is_int (result_by (signature_of desc.now))) }
{
    match parsed(desc)? {
        Some(parts) => Ok(parts.is_method() && matches!(parts.result_type().0, Kind::Int)),
        None => Ok(false),
    }
}

/// How many parameters a method with this descriptor has.
pub(crate) fn params_of(desc: &[u8]) -> Result<u32, NoMemory>
    ensures { IfOk result (λ n. n ≡ params_by (signature_of desc.now)) }
{
    match parsed(desc)? {
        Some(parts) if parts.is_method() => Ok(parts.params()),
        _ => Ok(0),
    }
}

/// Puts s2i at the end where a value is one word.
pub(crate) fn put_widened(out: &mut Row<NInsn>, is_short: bool) -> Result<(), NoMemory>
    ensures { OnOk result (out.new ≡ out.old ++ widened_if is_short) }
{
    if is_short {
        out.push(NInsn::Op(card::S2I))
    } else {
        Ok(())
    }
}

/// Puts i2s at the end where a value is to be one word.
pub(crate) fn put_narrowed(out: &mut Row<NInsn>, is_short: bool) -> Result<(), NoMemory>
    ensures { OnOk result (out.new ≡ out.old ++ narrowed_if is_short) }
{
    if is_short {
        out.push(NInsn::Op(card::I2S))
    } else {
        Ok(())
    }
}
