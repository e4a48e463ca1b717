//! The least choice of wide jumps: all are narrow at first, and those whose targets are too far become wide,
//! until none is. Called by the layout. It knows no handler.

ghost use Rattle.std.specs.Prelude.{◌≡◌, ℕ, Bool, List, true, false, ◌<◌, ◌≤◌, length, map, replicate, slice_index};
ghost use Rattle.cjc_layout.specs.Sizes.{insn_size, bytes_before, code_size, widest_size, Leads, AllLead};
ghost use Rattle.cjc_layout.specs.Legal.{is_near, IsLegal, IsWithin, IsLeast};
ghost use Rattle.cjc_layout.specs.Layouts.{HasPlaces};
ghost use Rattle.cjc_layout.specs.Working.{bit, sum_before, narrow_count, is_far};

use cjc_ncode::NInsn;

/// Whether a jump from the one offset to the other may be narrow.
fn is_near(from: u16, to: u16) -> bool
    ensures { result ≡ is_near from to }
{
    let from = u32::from(from);
    let to = u32::from(to);
    to <= from + 127 && from <= to + 128
}

/// Whether an instruction is a jump whose target is too far for its narrow form.
fn is_far(insn: &NInsn, at: usize, places: &[u16]) -> bool
    requires inside { at < length places.now }
    requires leads { Leads (length places.now) insn.now }
    ensures { result ≡ is_far (slice_index places.now) at insn.now }
{
    match insn {
        NInsn::Jump { target, .. } => !is_near(places[at], places[*target as usize]),
        _ => false,
    }
}

/// One byte more where a jump is wide.
fn bit(wide: bool) -> u16
    ensures { result ≡ bit wide }
{
    if wide { 1 } else { 0 }
}

/// Writes the offset of each instruction, where so many jumps are wide, and answers the end.
fn set_places(sizes: &[u16], wide: &[bool], places: &mut [u16]) -> u16
    requires wide { length wide.now ≡ length sizes.now }
    requires places { length places.old ≡ length sizes.now }
    requires short { sum_before sizes.now wide.now (length sizes.now) ≤ 32767 }
    ensures count { length places.new ≡ length sizes.now }
    ensures each { (k : ℕ) → k < length sizes.now → slice_index places.new k ≡ sum_before sizes.now wide.now k }
    ensures end { result ≡ sum_before sizes.now wide.now (length sizes.now) }
{
    let mut at: u16 = 0;
    for k in 0..sizes.len() {
        places[k] = at;
        at += sizes[k] + bit(wide[k]);
    }
    at
}

/// Makes wide each narrow jump whose target is too far at these offsets; whether there was one.
fn widen(insns: &[NInsn], places: &[u16], wide: &mut [bool]) -> bool
    requires count { length wide.old ≡ length insns.now }
    requires places { HasPlaces insns.now (bytes_before insns.now wide.old) places.now }
    requires leads { AllLead (length insns.now) insns.now }
    ensures count { length wide.new ≡ length insns.now }
    ensures below { (other : List Bool) → IsLegal insns.now other → IsWithin wide.old other → IsWithin wide.new other }
    ensures fewer { result ≡ true → narrow_count wide.new < narrow_count wide.old }
    ensures legal { result ≡ false → (wide.new ≡ wide.old) × IsLegal insns.now wide.old }
{
    let mut changed = false;
    for k in 0..insns.len() {
        if !wide[k] && is_far(&insns[k], k, places) {
            wide[k] = true;
            changed = true;
        }
    }
    changed
}

/// Makes wide what has to be, from a choice below every legal one; writes the offsets and answers the end.
pub(crate) fn widen_all(
    insns: &[NInsn],
    sizes: &[u16],
    wide: &mut [bool],
    places: &mut [u16],
) -> u16
    requires sizes { sizes.now ≡ map (insn_size false) insns.now }
    requires wide { wide.old ≡ replicate (length insns.now) false }
    requires places { length places.old ≡ length insns.now }
    requires leads { AllLead (length insns.now) insns.now }
    requires short { widest_size insns.now ≤ 32767 }
    ensures least { IsLeast insns.now wide.new }
    ensures places { HasPlaces insns.now (bytes_before insns.now wide.new) places.new }
    ensures end { result ≡ code_size insns.now wide.new }
{
    loop {
        let end = set_places(sizes, wide, places);
        if !widen(insns, places, wide) {
            return end;
        }
    }
}
