//! The layout of a method, or the rule that it breaks. Called by whoever emits methods' bytes.

ghost use Rattle.std.specs.Prelude.{◌≡◌, ◌≤◌, ◌⊎◌, length, None, IfOk, OnOk, IfErr};
ghost use Rattle.cjc_ncode.specs.LowerBytes.declared.fault.Fault.TheVariants as faults;
ghost use Rattle.cjc_ncode.specs.declared.narrow.NMethod.{NMethod};
ghost use Rattle.cjc_layout.specs.Sizes.{code_size, widest_size, AllLead, bytes_before};
ghost use Rattle.cjc_layout.specs.Legal.{IsLeast};
ghost use Rattle.cjc_layout.specs.Layouts.{IsLayout, IsWhole, HasPlaces};
ghost use Rattle.cjc_layout.specs.Refusals.{of_method, refusal_of, IsRefusalBy};

use crate::handlers::{first_overtaking, written_handlers};
use crate::jumps::widen_all;
use crate::layout::Layout;
use crate::sizes::narrow_sizes;
use cjc_ncode::bytes::{Fault, MemberId, NoMemory, Part, PlaceRef, Row, refused_at};
use cjc_ncode::{NInsn, NMethod};
use std::alloc::Global;

/// Where the jumps and the instructions of a method stand.
#[derive(Drop)]
struct Places {
    offsets: Vec<u16>,
    wide: Vec<bool>,
    end: u16,
}

/// The least choice of wide jumps, with its offsets.
fn places_of(alloc: Global, insns: &[NInsn]) -> Result<Places, NoMemory>
    requires leads { AllLead (length insns.now) insns.now }
    requires short { widest_size insns.now ≤ 32767 }
    ensures least { IfOk result (λ p. IsLeast insns.now p.wide.items) }
    ensures offsets { IfOk result (λ p. HasPlaces insns.now (bytes_before insns.now p.wide.items) p.offsets.items) }
    ensures end { IfOk result (λ p. p.end ≡ code_size insns.now p.wide.items) }
{
    let sizes = narrow_sizes(alloc, insns)?;
    let mut wide = Vec::from_elem(alloc, false, insns.len())?;
    let mut offsets = Vec::from_elem(alloc, 0u16, insns.len())?;
    let end = widen_all(insns, &sizes, &mut wide, &mut offsets);
    Ok(Places { offsets, wide, end })
}

/// The refusal of a method by a rule at an offset of its code in the class file.
fn refused(alloc: Global, file: &[u8], id: &MemberId, rule: u16, offset: u32) -> Fault
    ensures { (result ≡ faults.Refused (of_method file.now id.now rule offset)) ⊎ (result ≡ faults.NoMemory) }
{
    let place = PlaceRef {
        file,
        class: id.class.items(),
        part: Part::Method(id.name.items(), id.desc.items()),
        offset,
    };
    refused_at(alloc, rule, place)
}

/// Tests 311 and 415.
fn check(alloc: Global, file: &[u8], id: &MemberId, method: &NMethod) -> Result<(), Fault>
    ensures unbroken { OnOk result (refusal_of file.now id.now method.now ≡ None) }
    ensures refused { IfErr result (IsRefusalBy (refusal_of file.now id.now method.now)) }
{
    if let Some(offset) = first_overtaking(method.catches.items()) {
        return Err(refused(alloc, file, id, 311, offset));
    }
    if method.widest > 32767 {
        return Err(refused(alloc, file, id, 415, 0));
    }
    Ok(())
}

/// The layout of a method that breaks no rule.
fn laid_out(alloc: Global, method: &NMethod) -> Result<Layout, NoMemory>
    requires whole { IsWhole method.now }
    requires short { (let m = method.now in m.widest ≤ 32767) }
    ensures { IfOk result (IsLayout method.now) }
{
    let places = places_of(alloc, method.insns.items())?;
    let handlers = written_handlers(alloc, &places.offsets, places.end, method.catches.items())?;
    let Places { offsets, wide, end } = places;
    Ok(Layout {
        places: Row::of(offsets),
        wide: Row::of(wide),
        length: end,
        handlers,
    })
}

/// The layout of a method of a class file, whose handlers keep their order and whose code is not too long.
/// Otherwise the answer is the rule that is broken: 311 at the first handler that stands in the class file in
/// another order than in the table, with an instruction under both, or else 415.
pub fn lay(alloc: Global, file: &[u8], id: &MemberId, method: &NMethod) -> Result<Layout, Fault>
    requires { IsWhole method.now }
    ensures laid { IfOk result (IsLayout method.now) }
    ensures unbroken { OnOk result (refusal_of file.now id.now method.now ≡ None) }
    ensures refused { IfErr result (IsRefusalBy (refusal_of file.now id.now method.now)) }
{
    check(alloc, file, id, method)?;
    let layout = laid_out(alloc, method)?;
    Ok(layout)
}
