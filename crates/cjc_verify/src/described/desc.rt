//! The nibbles of the descriptors of class files, where the card has values of their types (Java Card Virtual Machine
//! Specification 2.2.2, section 6.13.4).

ghost use Rattle.std.specs.Prelude.{◌≡◌, map, IfOk};
ghost use Rattle.std.specs.List.{list_all};
ghost use Rattle.cjc_bytes.specs.Descriptor.{Part};
ghost use Rattle.cjc_card_acts.specs.Script.Sorts.{result_by, signature_of, sort_of};
ghost use Rattle.cjc_classes.specs.ClassInfo.Refs.{ref_of};
ghost use Rattle.cjc_classes.specs.TypeInfo.Meant.{sort_meant};
ghost use Rattle.cjc_verify.specs.Pairs.{is_card_result, is_card_sort, is_card_type};
ghost use Rattle.cjc_verify.specs.WantedMembers.{card_nibbles};
ghost use Rattle.cjc_verify.specs.CardTypes.{is_card_parts};

use cjc_bytes::{Bytes, Desc, Kind, NoMemory};
use cjc_classes::class_info::ClassRefs;
use cjc_classes::type_info::{Sort, nibbles_in, parsed, result_sort, sort_by};
use std::alloc::Global;

/// Whether the card has values of a type.
fn is_card_sort(sort: Sort<'_>) -> bool
    ensures { result ≡ is_card_sort (sort_meant sort.entry) }
{
    match sort {
        Sort::NoValue => false,
        _ => true,
    }
}

/// Whether the card has values of the types of all parameters.
#[tactic(auto, using(crate::proofs::DescribedLaws::Descs::card_next, crate::proofs::DescribedLaws::Descs::card_stop, crate::proofs::DescribedLaws::Descs::card_end))]
fn are_card_params(desc: &Desc<'_>) -> Result<bool, NoMemory>
    ensures { IfOk result (λ b. b ≡ list_all (λ (x : Part). is_card_sort (sort_of x)) desc.now.params) }
{
    for (kind, class) in desc.parameters() {
        if !is_card_sort(sort_by(kind, class)?) {
            return Ok(false);
        }
    }
    Ok(true)
}

/// Whether a result is void or the card has values of its type.
fn is_card_result(desc: &Desc<'_>) -> Result<bool, NoMemory>
    ensures { let d = desc.now in let r = d.result in IfOk result (λ b. b ≡ is_card_result (result_by r.kind r)) }
{
    let (kind, class) = desc.result_type();
    match kind {
        Kind::Void => Ok(true),
        _ => {
            let sort = sort_by(kind, class)?;
            Ok(is_card_sort(sort))
        }
    }
}

/// Whether the card has values of all types of a method, or of a field's type.
fn is_card_parts(desc: &Desc<'_>) -> Result<bool, NoMemory>
    ensures { IfOk result (λ b. b ≡ is_card_parts desc.now) }
{
    if desc.is_method() {
        let params = are_card_params(desc)?;
        let result = is_card_result(desc)?;
        Ok(params && result)
    } else {
        let sort = result_sort(desc)?;
        Ok(is_card_sort(sort))
    }
}

/// Whether the card has values of all types of a descriptor.
#[tactic(auto, using(crate::proofs::DescribedLaws::Descs::card_none, crate::proofs::DescribedLaws::Descs::card_some))]
fn is_card_type(desc: &[u8]) -> Result<bool, NoMemory>
    ensures { IfOk result (λ b. b ≡ is_card_type desc.now (signature_of desc.now)) }
{
    match parsed(desc)? {
        Some(parts) => {
            let passes = is_card_parts(&parts)?;
            Ok(passes)
        }
        None => Ok(false),
    }
}

/// The nibbles of a descriptor; none where the card has no values of one of its types.
pub(crate) fn card_nibbles(
    alloc: Global,
    refs: &ClassRefs,
    desc: &[u8],
) -> Result<Option<Bytes>, NoMemory>
    ensures { IfOk result (λ nibbles. nibbles ≡ card_nibbles (ref_of refs.now) desc.now) }
{
    if is_card_type(desc)? {
        let nibbles = nibbles_in(alloc, refs, desc)?;
        Ok(Some(nibbles))
    } else {
        Ok(None)
    }
}
