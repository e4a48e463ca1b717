//! The first number of a method that may not lie where its instruction needs it: by all of 601 to 609, or by some.

ghost use Rattle.std.specs.Prelude.{◌≡◌, ◌<◌, Option, ℤ, List, length, option_map, IfOk, IfSome};
ghost use Rattle.cjc_fixpoint.specs.Bytes.declared.fault.MemberId.{MemberId as Field};
ghost use Rattle.cjc_types.specs.ClassFile.Code.{CodeTree};
ghost use Rattle.cjc_types.specs.ClassFile.declared.tree.ClassTree.{ClassTree as ClassFile};
ghost use Rattle.cjc_types.specs.ClassFile.declared.tree.MethodTree.{MethodTree as ClassMethod};
ghost use Rattle.cjc_types.specs.World.Classes.{Class, all_classes};
ghost use Rattle.cjc_types.specs.Flow.{Body, body_of};
ghost use Rattle.cjc_types.specs.Tables.{IsMethodOf, IsOfPackage, IsTypeTable, rows_of, state_of};
ghost use Rattle.cjc_flow.specs.Constants.{AreNumbers, values_of};
ghost use Rattle.cjc_flow.specs.Tables.{IsRangeTable, ranges_of};
ghost use Rattle.cjc_flow.specs.Tests.Answers as answers;
ghost use Rattle.cjc_flow.specs.Tests.Breaches.{IsFound, is_tested};
ghost use Rattle.cjc_flow.specs.Tests.Working.Search.{first_from, row_rule};

use crate::tests::rules::lowest_rule;
use crate::{RangeTable, Ranges, Ranging};
use cjc_fixpoint::bytes::{BrokenAt, NoMemory};
use cjc_types::bytecode::{JInsn, MethodCode};
use cjc_types::world::World;
use cjc_types::{Frame, Method, TypeTable, TypeWalk};
use std::alloc::Global;

/// Which of the rules on numbers are tested.
#[derive(Clone, Copy)]
pub enum Tested {
    /// All of 601 to 609.
    All,
    /// 601 to 604 and 606.
    LowWords,
    /// 605 and 607 to 609.
    Values,
}

/// The first broken rule of a method.
#[derive(Clone, Copy)]
struct Found {
    /// The place of the instruction that breaks it.
    place: usize,
    /// 601 to 609.
    rule: u16,
}

/// The lowest of the tested rules that an instruction breaks, where both tables reach it.
fn row_rule(
    tested: Tested,
    desc: &[u8],
    insn: &JInsn,
    frame: &Option<Frame>,
    row: &Option<Ranges>,
) -> Option<u16>
    ensures { (b : Body) → b.desc ≡ desc.now
        → result ≡ row_rule tested b insn.now (option_map state_of frame.now) row.now }
{
    match (frame, row) {
        (Some(frame), Some(before)) => lowest_rule(tested, desc, &insn.op, &frame.stack, before),
        _ => None,
    }
}

/// The first of the tested rules that a method breaks by its tables.
fn first_found(
    alloc: Global,
    tested: Tested,
    method: &Method<'_>,
    desc: &[u8],
    insns: &[JInsn],
    types: &TypeTable,
    ranging: &Ranging<'_>,
    table: &RangeTable,
) -> Result<Option<Found>, NoMemory>
    requires desc { desc.now ≡ method.now.desc }
    requires insns { insns.now ≡ method.now.insns }
    requires types { (w : List Class) × IsTypeTable w method.now types.now }
    requires body { ranging.now.body ≡ method.now }
    requires table { (constant : Field → Option ℤ) × (numbers : AreNumbers constant)
        × (values : ranging.now.values ≡ values_of constant ranging.now.body.insns)
        × IsRangeTable ranging.now.body constant ranging.now.types table.now.marks table.now.rows }
    ensures first { (constant : Field → Option ℤ) → AreNumbers constant
        → ranging.now.values ≡ values_of constant ranging.now.body.insns
        → IfOk result (λ first. first ≡ first_from tested method.now 0 insns.now (rows_of method.now types.now)
        (ranges_of ranging.now.body constant ranging.now.types table.now.marks table.now.rows)) }
    ensures within { IfOk result (λ first. IfSome first (λ f. f.place < length insns.now)) }
{
    let mut frames = TypeWalk::new(method, types);
    let mut rows = ranging.walk(table);
    for place in 0..insns.len() {
        match row_rule(tested, desc, &insns[place], frames.frame(), rows.row()) {
            Some(rule) => return Ok(Some(Found { place, rule })),
            None => {
                frames.advance(alloc)?;
                rows.advance(alloc)?;
            }
        }
    }
    Ok(None)
}

/// The first number of a method that may not lie where a tested rule needs it, by the instructions' order and then by
/// the rule, with the offset of the instruction in bytes. Nothing where each lies there.
///
/// The code is that of a method of the world, and its instructions are those that `decode` gives for it; the types
/// are those that `infer` gave for it, and the intervals those that `ranges` gave.
pub fn first_broken(
    alloc: Global,
    tested: Tested,
    world: &World<'_>,
    code: &MethodCode,
    types: &TypeTable,
    ranging: &Ranging<'_>,
    table: &RangeTable,
) -> Result<Option<BrokenAt>, NoMemory>
    requires code { IsOfPackage world.now code.now }
    requires types { (c : ClassFile) (m : ClassMethod) (t : CodeTree) → IsMethodOf world.now code.now c m t
        → IsTypeTable (all_classes world.now) (body_of c m t code.now.insns) types.now }
    requires body { (c : ClassFile) (m : ClassMethod) (t : CodeTree) → IsMethodOf world.now code.now c m t
        → ranging.now.body ≡ body_of c m t code.now.insns }
    requires rows { (c : ClassFile) (m : ClassMethod) (t : CodeTree) → IsMethodOf world.now code.now c m t
        → ranging.now.types ≡ rows_of (body_of c m t code.now.insns) types.now }
    requires table { (constant : Field → Option ℤ) × (numbers : AreNumbers constant)
        × (values : ranging.now.values ≡ values_of constant ranging.now.body.insns)
        × IsRangeTable ranging.now.body constant ranging.now.types table.now.marks table.now.rows }
    ensures { (c : ClassFile) (m : ClassMethod) (t : CodeTree) → IsMethodOf world.now code.now c m t
        → (constant : Field → Option ℤ) → AreNumbers constant → ranging.now.values ≡ values_of constant code.now.insns
        → IfOk result (IsFound (is_tested tested) (body_of c m t code.now.insns)
        (rows_of (body_of c m t code.now.insns) types.now) (ranges_of (body_of c m t code.now.insns) constant
        (rows_of (body_of c m t code.now.insns) types.now) table.now.marks table.now.rows)) }
{
    let method = Method::new(world, code);
    let class = &world.classes().items()[code.class as usize];
    let desc = class.methods.items()[code.method as usize].desc.items();
    let insns = code.insns.items();
    let found = first_found(alloc, tested, &method, desc, insns, types, ranging, table)?;
    match found {
        Some(found) => Ok(Some(BrokenAt {
            rule: found.rule,
            offset: insns[found.place].at,
        })),
        None => Ok(None),
    }
}

/// The first number of a method that may not lie where its instruction needs it, by the instructions' order and then
/// by the rule: 601 to 609, with the offset of the instruction in bytes. Nothing where each lies there.
///
/// The code is that of a method of the world, and its instructions are those that `decode` gives for it; the types
/// are those that `infer` gave for it, and the intervals those that `ranges` gave.
pub fn passes(
    alloc: Global,
    world: &World<'_>,
    code: &MethodCode,
    types: &TypeTable,
    ranging: &Ranging<'_>,
    table: &RangeTable,
) -> Result<Option<BrokenAt>, NoMemory>
    requires code { IsOfPackage world.now code.now }
    requires types { (c : ClassFile) (m : ClassMethod) (t : CodeTree) → IsMethodOf world.now code.now c m t
        → IsTypeTable (all_classes world.now) (body_of c m t code.now.insns) types.now }
    requires body { (c : ClassFile) (m : ClassMethod) (t : CodeTree) → IsMethodOf world.now code.now c m t
        → ranging.now.body ≡ body_of c m t code.now.insns }
    requires rows { (c : ClassFile) (m : ClassMethod) (t : CodeTree) → IsMethodOf world.now code.now c m t
        → ranging.now.types ≡ rows_of (body_of c m t code.now.insns) types.now }
    requires table { (constant : Field → Option ℤ) × (numbers : AreNumbers constant)
        × (values : ranging.now.values ≡ values_of constant ranging.now.body.insns)
        × IsRangeTable ranging.now.body constant ranging.now.types table.now.marks table.now.rows }
    ensures { (c : ClassFile) (m : ClassMethod) (t : CodeTree) → IsMethodOf world.now code.now c m t
        → (constant : Field → Option ℤ) → AreNumbers constant → ranging.now.values ≡ values_of constant code.now.insns
        → IfOk result (answers.IsFound (body_of c m t code.now.insns) (rows_of (body_of c m t code.now.insns) types.now)
        (ranges_of (body_of c m t code.now.insns) constant (rows_of (body_of c m t code.now.insns) types.now)
        table.now.marks table.now.rows)) }
{
    first_broken(alloc, Tested::All, world, code, types, ranging, table)
}
