//! The layouts of all methods of a package, or the first of rules 311, 414 and 415 that it breaks.

ghost use Rattle.std.specs.Prelude.{◌≡◌, [], All, length, IfOk, IfErr, OnOk, option_map};
ghost use Rattle.cjc_bytes.specs.Breaks.{IsFirstOf, IsFirstRefusal, each};
ghost use Rattle.cjc_bytes.specs.Told.{break_of};
ghost use Rattle.cjc_pool.specs.NCode.declared.narrow.NMethod.{NMethod as Narrow};
ghost use Rattle.cjc_pool.specs.Layout.Layouts.{IsWhole};
ghost use Rattle.cjc_components.specs.Limits.{form_breaks};
ghost use Rattle.cjc_components.specs.Package.{Package};
ghost use Rattle.cjc_methods.specs.Ready.{IsOwn};
ghost use Rattle.cjc_methods.specs.Layouts.Laid.{AreOf};
ghost use Rattle.cjc_methods.specs.Layouts.Limits.{IsTold};
ghost use Rattle.cjc_methods.specs.Layouts.Working.Tries.{AreAll, AreFine, IsFine, IsPut, IsTry, breaks_at};
ghost use Rattle.cjc_methods.specs.Layouts.Working.Tries.{code_breaks};

use crate::layouts::laid::{Laid, Methods};
use crate::layouts::limits::{count_break, method_break};
use crate::layouts::tries::{Try, is_abstract, overtaken, try_layout};
use cjc_bytes::{Break, Fault, NoMemory, Row, answer, first};
use cjc_narrow::ncode::NMethod;
use cjc_world::{Found, World};
use std::alloc::Global;

/// Puts a method at the end, where it has a layout.
fn put_laid(
    laid: &mut Row<Laid>,
    world: &World<'_>,
    member: Found,
    tried: Try,
) -> Result<(), NoMemory>
    ensures { (m : Narrow) → IsTry m tried → OnOk result (IsFine m → IsPut world.now member m laid.old laid.new) }
{
    match tried {
        Try::Done(layout) => {
            let is_abstract = is_abstract(world, member);
            laid.push(Laid {
                member,
                is_abstract,
                layout,
            })
        }
        Try::Overtaken(_) => Ok(()),
        Try::TooLong => Ok(()),
    }
}

/// Lays out a method and puts it at the end. Where it breaks rules, the first of them is answered.
fn lay_method<'w>(
    alloc: Global,
    laid: &mut Row<Laid>,
    world: &'w World<'_>,
    member: Found,
    code: &NMethod,
) -> Result<Option<Break<'w>>, NoMemory>
    requires own { IsOwn world.now member }
    requires whole { IsWhole code.now }
    ensures first { (p : Package) → p.files ≡ world.now
        → IfOk result (λ b. IsFirstOf (breaks_at p member code.now) (option_map break_of b)) }
    ensures put { OnOk result (IsFine code.now → IsPut world.now member code.now laid.old laid.new) }
{
    let tried = try_layout(alloc, code)?;
    let broken = method_break(world, member, code.widest, overtaken(&tried));
    put_laid(laid, world, member, tried)?;
    Ok(broken)
}

/// Lays out methods, which are these members. Where they break rules, the first of them is answered.
fn lay_methods<'w>(
    alloc: Global,
    laid: &mut Row<Laid>,
    world: &'w World<'_>,
    members: &[Found],
    codes: &[NMethod],
) -> Result<Option<Break<'w>>, NoMemory>
    requires none { laid.old ≡ [] }
    requires own { All (IsOwn world.now) members.now }
    requires whole { All IsWhole codes.now }
    requires count { length codes.now ≡ length members.now }
    ensures first { (p : Package) → p.files ≡ world.now
        → IfOk result (λ b. IsFirstOf (each (code_breaks p members.now) codes.now) (option_map break_of b)) }
    ensures laid { OnOk result (AreFine codes.now → AreAll world.now members.now codes.now laid.new) }
{
    let mut least = None;
    for k in 0..codes.len() {
        let broken = lay_method(alloc, laid, world, members[k], &codes[k])?;
        least = first(least, broken);
    }
    Ok(least)
}

/// Lays out the methods and tests all three rules.
fn lay_tested(
    alloc: Global,
    laid: &mut Row<Laid>,
    list: &[u8],
    world: &World<'_>,
    members: &[Found],
    codes: &[NMethod],
    exported: usize,
) -> Result<(), Fault>
    requires none { laid.old ≡ [] }
    requires own { All (IsOwn world.now) members.now }
    requires whole { All IsWhole codes.now }
    requires count { length codes.now ≡ length members.now }
    ensures laid { OnOk result (AreAll world.now members.now codes.now laid.new) }
    ensures unbroken { (p : Package) → IsTold list.now world.now members.now codes.now exported p
        → OnOk result (form_breaks p ≡ []) }
    ensures refused { (p : Package) → IsTold list.now world.now members.now codes.now exported p
        → IfErr result (IsFirstRefusal (form_breaks p)) }
{
    let broken = lay_methods(alloc, laid, world, members, codes)?;
    let counted = count_break(alloc, list, codes, exported)?;
    answer(alloc, first(broken, counted))
}

/// The methods of a package, which are these members and have this narrow code, each with its layout: the least
/// choice of wide jumps, and the handlers in the order of the table. `list` is the name of the list, and the
/// pool of the export file has `exported` entries.
///
/// # Errors
///
/// The first of these, in the order of refusals: rule 311, handlers that cover a common instruction and stand in
/// another order than their offsets; 415, a method that is counted at more than 32,767 bytes; 414, more than
/// 16,383 entries in either pool.
pub fn lay_out(
    alloc: Global,
    list: &[u8],
    world: &World<'_>,
    members: &[Found],
    codes: Row<NMethod>,
    exported: usize,
) -> Result<Methods, Fault>
    requires own { All (IsOwn world.now) members.now }
    requires whole { All IsWhole codes }
    requires count { length codes ≡ length members.now }
    ensures laid { IfOk result (AreOf world.now members.now codes) }
    ensures unbroken { (p : Package) → IsTold list.now world.now members.now codes exported p
        → OnOk result (form_breaks p ≡ []) }
    ensures refused { (p : Package) → IsTold list.now world.now members.now codes exported p
        → IfErr result (IsFirstRefusal (form_breaks p)) }
{
    let mut laid = Row::new(alloc);
    lay_tested(
        alloc,
        &mut laid,
        list,
        world,
        members,
        codes.items(),
        exported,
    )?;
    Ok(Methods { codes, laid })
}
