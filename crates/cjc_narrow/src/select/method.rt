//! The narrow code of a method: its instructions, where they come from, its handlers and its numbers.

ghost use Rattle.std.specs.Prelude.{◌≡◌, ◌<◌, ◌^◌, ℕ, length, slice_get, Some, true, IfOk};
ghost use Rattle.cjc_types.specs.Bytecode.declared.insn.JInsn.{JInsn as Insn};
ghost use Rattle.cjc_types.specs.Flow.{body_of};
ghost use Rattle.cjc_types.specs.Marks.{marks_of};
ghost use Rattle.cjc_narrow.specs.Rows.Resolved.{argument_words, resolution};
ghost use Rattle.cjc_narrow.specs.Rows.Selected.{near_fields, selected_code};
ghost use Rattle.cjc_narrow.specs.Written.Labels.{place_of};
ghost use Rattle.cjc_narrow.specs.Written.Operands.{CanBeSaid, IsAscending, IsByte};
ghost use Rattle.cjc_narrow.specs.Written.Rows.{rows_by};
ghost use Rattle.cjc_ncode.specs.Written.{narrow_method};
ghost use Rattle.cjc_narrow.specs.Pairs.Fusible.{FusesAll};
ghost use Rattle.cjc_narrow.specs.Pairs.Roles.{steps_of, with_roles};
ghost use Rattle.cjc_narrow.specs.Select.Select.{IsSelectable};
ghost use Rattle.cjc_narrow.specs.Select.Working.Names.{resolution_of};
ghost use Rattle.cjc_narrow.specs.Select.Working.Whole.{AreParts};

use crate::keys::Numbers;
use crate::select::code::put_all;
use crate::select::names::Names;
use crate::select::pairs::roles_of;
use crate::written::{Places, catches_at, widest_sum, words_by};
use cjc_ncode::{NMethod, PairRole};
use cjc_types::bytecode::JInsn;
use cjc_types::bytes::{NoMemory, Row, is_static};
use cjc_types::classfile::{ClassTree, Code, MethodTree};
use cjc_types::world::World;
use std::alloc::Global;

/// How many words a method with these flags and this descriptor takes, its receiver counted.
#[tactic(auto, using(crate::proofs::RowsLaws::Fields::counted))]
pub fn argument_words(flags: u16, desc: &[u8]) -> Result<u64, NoMemory>
    ensures { IfOk result (λ words. words ≡ argument_words flags desc.now) }
{
    let words = words_by(desc)?;
    if is_static(flags) {
        Ok(words.saturating_sub(1))
    } else {
        Ok(words)
    }
}

/// A method of its parts, whose labels are these places.
fn method_at(
    alloc: Global,
    names: &Names<'_, '_>,
    places: &Places<'_>,
    code: &Code<'_>,
    insns: &[JInsn],
    reaches: &[bool],
    roles: &[PairRole],
    nargs: u8,
) -> Result<NMethod, NoMemory>
    requires stack { IsByte code.now.max_stack }
    requires locals { IsByte code.now.max_locals }
    requires few { length insns.now < 2 ^ 32 }
    requires each { length reaches.now ≡ length insns.now }
    requires roles { length roles.now ≡ length insns.now }
    requires said { (k : ℕ) (i : Insn) → slice_get insns.now k ≡ Some i → slice_get reaches.now k ≡ Some true
        → CanBeSaid i.op }
    ensures { IfOk result (AreParts (resolution_of names.now) code.now nargs insns.now reaches.now
        roles.now (place_of places.now)) }
{
    let widest = widest_sum(insns, reaches)?;
    let catches = catches_at(alloc, places, code.catches.items())?;
    let mut out = Row::new(alloc);
    let mut from = Row::new(alloc);
    put_all(
        &mut out, &mut from, alloc, names, places, insns, reaches, roles,
    )?;
    Ok(NMethod {
        insns: out,
        from,
        catches,
        max_stack: code.max_stack as u8,
        nargs,
        max_locals: (code.max_locals as u8).saturating_sub(nargs),
        widest,
    })
}

/// A method whose instructions have these roles.
fn method_by(
    alloc: Global,
    names: &Names<'_, '_>,
    code: &Code<'_>,
    insns: &[JInsn],
    reaches: &[bool],
    roles: &[PairRole],
    nargs: u8,
) -> Result<NMethod, NoMemory>
    requires stack { IsByte code.now.max_stack }
    requires locals { IsByte code.now.max_locals }
    requires few { length insns.now < 2 ^ 32 }
    requires each { length reaches.now ≡ length insns.now }
    requires roles { length roles.now ≡ length insns.now }
    requires ascending { IsAscending insns.now }
    requires said { (k : ℕ) (i : Insn) → slice_get insns.now k ≡ Some i → slice_get reaches.now k ≡ Some true
        → CanBeSaid i.op }
    ensures { IfOk result (λ m. m ≡ narrow_method (with_roles (resolution_of names.now) insns.now roles.now) code.now
        nargs insns.now (rows_by reaches.now)) }
{
    let places = Places::new(alloc, insns, reaches, roles)?;
    let narrow = method_at(alloc, names, &places, code, insns, reaches, roles, nargs)?;
    Ok(narrow)
}

/// The narrow code of a method of a class, by which of its instructions are reached (Java Card Virtual Machine
/// Specification 2.2.2, chapter 7). A field instruction has an index of one byte where its field has one in the pool;
/// before the pool is known it is empty, and each has two. `marks` are the places to which a jump, a switch or a
/// handler leads: none of them lies within a pair that is written as one. Each pair that may be written as one is,
/// and no other.
#[tactic(auto, using(crate::proofs::PairsLaws::Roles::marks_ascend))]
pub fn select(
    alloc: Global,
    world: &World<'_>,
    class: &ClassTree<'_>,
    method: &MethodTree<'_>,
    code: &Code<'_>,
    insns: &[JInsn],
    reaches: &[bool],
    marks: &[u32],
    pool: &Numbers,
) -> Result<NMethod, NoMemory>
    requires marks { marks.now ≡ marks_of (body_of class.now method.now code.now insns.now) }
    requires fits { IsSelectable method.now code.now insns.now reaches.now }
    ensures code { IfOk result (λ narrow. narrow ≡ selected_code world.now (near_fields pool.now) class.now method.now
        code.now insns.now (rows_by reaches.now)) }
    ensures pairs { IfOk result (λ narrow. FusesAll (steps_of (resolution world.now (near_fields pool.now)
        (let c = class.now in c.name)) (body_of class.now method.now code.now insns.now) reaches.now)) }
{
    if insns.len() > 0xFFFF_FFFF {
        return Err(NoMemory);
    }
    let desc = method.desc.items();
    let nargs = argument_words(method.flags, desc)? as u8;
    let holder = class.name.items();
    let names = Names {
        world,
        holder,
        pool,
    };
    let roles = roles_of(alloc, &names, method.flags, code, marks, insns, reaches)?;
    let each = roles.items();
    let narrow = method_by(alloc, &names, code, insns, reaches, each, nargs)?;
    Ok(narrow)
}
