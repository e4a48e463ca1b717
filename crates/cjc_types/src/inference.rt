//! `infer`, from a method to its type table, or the first instruction where rule 501, 502 or 503 is broken.
//! What the crate is called for.

ghost use Rattle.std.specs.Prelude.{◌≡◌, ◌<◌, ◌^◌, length, IfOk, IfErr, IfSome, Ok, Err};
ghost use Rattle.cjc_world.specs.Classes.{all_classes};
ghost use Rattle.cjc_types.specs.Search.{row_rule, first_from, frames_of};
ghost use Rattle.cjc_fixpoint.specs.Kept.{StandsForLeast, full};
ghost use Rattle.cjc_types.specs.Flow.{body_of, type_flow};
ghost use Rattle.cjc_types.specs.Marks.{marks_of as marks_by};
ghost use Rattle.cjc_types.specs.Tables.{Answers, IsAnswer, IsBroken, IsBrokenBy, IsMethodOf, IsOfPackage, IsRefused};
ghost use Rattle.cjc_types.specs.Tables.{IsRefusedBy, IsTypeTable, refusal_in};
ghost use Rattle.cjc_types.specs.Working.Told.{ToldAs};
ghost use Rattle.cjc_types.specs.declared.inference.InferError.TheVariants as errors;
ghost use Rattle.cjc_bytes.specs.declared.breaks.BrokenAt.{BrokenAt as Wrong};
ghost use Rattle.cjc_bytes.specs.Refused.{IsUnlessNoMemory};
ghost use Rattle.cjc_bytes.specs.declared.fault.Fault.TheVariants as faults;
ghost use Rattle.cjc_classfile.specs.Code.{CodeTree};
ghost use Rattle.cjc_classfile.specs.declared.tree.ClassTree.{ClassTree as Class};
ghost use Rattle.cjc_classfile.specs.declared.tree.MethodTree.{MethodTree as ClassMethod};
ghost use Rattle.cjc_bytes.specs.declared.fault.Refusal.{Refusal as Told};
ghost use Rattle.cjc_types.specs.declared.table.TypeTable.{TypeTable as Types};

use crate::marks::marks_of;
use crate::method::Method;
use crate::recent::Recent;
use crate::repeats::{MarkedMethod, bounds_of};
use crate::rules;
use crate::state::State;
use crate::table::{Frame, TypeTable, frame_in};
use cjc_bytes::{BrokenAt, Bytes, Fault, NoMemory, Place, Refusal, Row, Rule};
use cjc_classfile::{ClassTree, MethodTree};
use cjc_code::{JInsn, MethodCode};
use cjc_fixpoint::{Table, Walk, solve};
use cjc_world::World;
use std::alloc::Global;
use std::cell::Cell;

/// Why a method got no types.
#[derive(Clone, Copy)]
pub enum InferError {
    /// Rule 501, 502 or 503, and the offset of the instruction from the start of the code, in bytes.
    Broken(BrokenAt),
    NoMemory,
}

impl From<NoMemory> for InferError {
    ghost use Rattle.std.specs.Prelude.{◌≡◌};
    ghost use Rattle.cjc_types.specs.declared.inference.InferError.TheVariants as errors;

    ghost from_gives = { λ _ e. e ≡ errors.NoMemory };

    fn from(_: NoMemory) -> InferError {
        InferError::NoMemory
    }
}

/// The first broken rule of a method.
#[derive(Clone, Copy)]
struct FirstBroken {
    /// The place of the instruction that breaks it.
    place: usize,
    /// 501, 502 or 503.
    rule: u16,
}

/// The first rule that an instruction breaks, where it is reached.
fn row_rule(
    world: &World<'_>,
    method: &Method<'_>,
    insn: &JInsn,
    row: &Option<State>,
) -> Option<u16>
    ensures { result ≡ row_rule (all_classes world.now) method.now insn.now row.now }
{
    match row {
        Some(state) => rules::first_rule(world, method, &insn.op, state),
        None => None,
    }
}

/// The first rule that a method breaks by its least table.
fn first_broken(
    alloc: Global,
    world: &World<'_>,
    marked: &MarkedMethod<'_>,
    table: &Table<State>,
) -> Result<Option<FirstBroken>, NoMemory>
    requires { StandsForLeast (type_flow marked.now.method.now) (length marked.now.method.now.insns) table.now.marks
        table.now.rows }
    ensures first { IfOk result (λ first. first ≡ first_from (all_classes world.now) marked.now.method.now 0
        marked.now.method.now.insns (full (type_flow marked.now.method.now) (length marked.now.method.now.insns)
        table.now.marks table.now.rows)) }
    ensures within { IfOk result (λ first. IfSome first (λ f. f.place < length marked.now.method.now.insns)) }
{
    let method = marked.method;
    let insns = method.insns;
    let mut walk = Walk::new(marked, table, method.places());
    for place in 0..insns.len() {
        let broken = row_rule(world, method, &insns[place], walk.row());
        match broken {
            Some(rule) => return Ok(Some(FirstBroken { place, rule })),
            None => walk.advance(alloc)?,
        }
    }
    Ok(None)
}

/// The frames of all rows.
fn frames(alloc: Global, rows: Vec<Option<State>>) -> Result<Row<Option<Frame>>, NoMemory>
    ensures { IfOk result (λ frames. frames ≡ frames_of rows.items) }
{
    let mut frames = Row::new(alloc);
    for row in rows {
        frames.push(frame_in(alloc, row))?;
    }
    Ok(frames)
}

/// The refusal of a method by a rule that is broken at an offset in its code.
fn refused(
    alloc: Global,
    file: &[u8],
    class: &ClassTree<'_>,
    method: &MethodTree<'_>,
    broken: BrokenAt,
) -> Result<Refusal, NoMemory>
    ensures { IfOk result (λ r. r ≡ refusal_in file.now class.now method.now broken) }
{
    let mut member = Vec::from_slice(alloc, method.name.items())?;
    member.extend_from_slice(method.desc.items())?;
    Ok(Refusal {
        rule: Rule(broken.rule),
        place: Place {
            file: Bytes::copy_of(alloc, file)?,
            class: Bytes::copy_of(alloc, class.name.items())?,
            member: Row::of(member),
            offset: broken.offset,
        },
    })
}

/// The least table of a method, with rows at its marks.
fn least_table(alloc: Global, marked: &MarkedMethod<'_>) -> Result<Table<State>, NoMemory>
    ensures marks { IfOk result (λ table. table.marks ≡ marks_by marked.now.method.now) }
    ensures stands { IfOk result (λ table. StandsForLeast (type_flow marked.now.method.now)
        (length marked.now.method.now.insns) table.marks table.rows) }
{
    solve(alloc, marked, marked.method.places(), marked.marks)
}

/// What the least table of a method gives: the types, or the first rule that it breaks.
fn judged(
    alloc: Global,
    world: &World<'_>,
    marked: &MarkedMethod<'_>,
    table: Table<State>,
) -> Result<TypeTable, InferError>
    requires marks { table.marks ≡ marks_by marked.now.method.now }
    requires stands { StandsForLeast (type_flow marked.now.method.now) (length marked.now.method.now.insns) table.marks
        table.rows }
    ensures { Answers (all_classes world.now) marked.now.method.now result }
{
    let method = marked.method;
    let first = first_broken(alloc, world, marked, &table)?;
    match first {
        Some(first) => {
            let offset = method.insns[first.place].at;
            let rule = first.rule;
            Err(InferError::Broken(BrokenAt { rule, offset }))
        }
        None => {
            let Table { marks, rows } = table;
            let frames = frames(alloc, rows.into_vec())?;
            Ok(TypeTable { marks, frames })
        }
    }
}

/// The types of a method, or the first rule that it breaks.
fn types_of(alloc: Global, world: &World<'_>, method: &Method<'_>) -> Result<TypeTable, InferError>
    ensures { Answers (all_classes world.now) method.now result }
{
    let marks = marks_of(alloc, method)?;
    let bounds = bounds_of(alloc, method)?;
    let marked = MarkedMethod {
        method,
        marks: &marks,
        bounds: bounds.items(),
        recent: Cell::new(Recent::new(alloc)),
    };
    let table = least_table(alloc, &marked)?;
    judged(alloc, world, &marked, table)
}

/// The types of a method: the least table that is closed under its instructions.
///
/// The code is that of a method of the world, and its instructions are those that `decode` gives for it.
///
/// # Errors
///
/// The first broken rule of the method, in the order of its instructions: 501 where two ways to an instruction
/// have stacks of different heights, 502 where an operand is of the wrong kind or class, 503 where the stack
/// goes below empty or above `max_stack`; with the offset of the instruction in bytes.
pub fn infer_method(
    alloc: Global,
    world: &World<'_>,
    code: &MethodCode,
) -> Result<TypeTable, InferError>
    requires { IsOfPackage world.now code.now }

    // What is inferred is the least table, in which no rule is broken; and where there is such a table it is inferred.
    ensures inferred { (c : Class) (m : ClassMethod) (t : CodeTree) → IsMethodOf world.now code.now c m t
        → IfOk result (λ table. IsTypeTable (all_classes world.now) (body_of c m t code.now.insns) table) }
    ensures only { (c : Class) (m : ClassMethod) (t : CodeTree) → IsMethodOf world.now code.now c m t
        → (table : Types) → IsTypeTable (all_classes world.now) (body_of c m t code.now.insns) table
        → IsAnswer (Ok table) result }

    // A broken rule is the first of the least table; and where there is one it is answered.
    ensures broken { (c : Class) (m : ClassMethod) (t : CodeTree) → IsMethodOf world.now code.now c m t
        → IfErr result (IsBroken (all_classes world.now) (body_of c m t code.now.insns)) }
    ensures breaks { (c : Class) (m : ClassMethod) (t : CodeTree) → IsMethodOf world.now code.now c m t
        → (b : Wrong) → IsBrokenBy (all_classes world.now) (body_of c m t code.now.insns) b
        → IsAnswer (Err (errors.Broken b)) result }
{
    let method = Method::new(world, code);
    types_of(alloc, world, &method)
}

/// An answer with a broken rule as the refusal of a method.
fn told(
    alloc: Global,
    file: &[u8],
    class: &ClassTree<'_>,
    method: &MethodTree<'_>,
    answer: Result<TypeTable, InferError>,
) -> Result<TypeTable, Fault>
    ensures { ToldAs file.now class.now method.now answer result }
{
    match answer {
        Ok(table) => Ok(table),
        Err(InferError::Broken(broken)) => {
            Err(Fault::Refused(refused(alloc, file, class, method, broken)?))
        }
        Err(InferError::NoMemory) => Err(Fault::NoMemory),
    }
}

/// As `infer_method`, with a broken rule as a refusal. Its place has the file, the class, the method's name and
/// descriptor, and the offset of the instruction in bytes.
pub fn infer(
    alloc: Global,
    file: &[u8],
    world: &World<'_>,
    code: &MethodCode,
) -> Result<TypeTable, Fault>
    requires { IsOfPackage world.now code.now }

    // What is inferred is the least table, in which no rule is broken; and where there is such a table it is inferred.
    ensures inferred { (c : Class) (m : ClassMethod) (t : CodeTree) → IsMethodOf world.now code.now c m t
        → IfOk result (λ table. IsTypeTable (all_classes world.now) (body_of c m t code.now.insns) table) }
    ensures only { (c : Class) (m : ClassMethod) (t : CodeTree) → IsMethodOf world.now code.now c m t
        → (table : Types) → IsTypeTable (all_classes world.now) (body_of c m t code.now.insns) table
        → IsUnlessNoMemory result (Ok table) }

    // A refusal is the first broken rule of the least table; and where there is one it is refused.
    ensures refused { (c : Class) (m : ClassMethod) (t : CodeTree) → IsMethodOf world.now code.now c m t
        → IfErr result (λ e. IsRefused (all_classes world.now) file.now c m (body_of c m t code.now.insns) e) }
    ensures breaks { (c : Class) (m : ClassMethod) (t : CodeTree) → IsMethodOf world.now code.now c m t
        → (r : Told) → IsRefusedBy (all_classes world.now) file.now c m (body_of c m t code.now.insns) r
        → IsUnlessNoMemory result (Err (faults.Refused r)) }
{
    let answer = infer_method(alloc, world, code);
    let class = &world.classes().items()[code.class as usize];
    let method = &class.methods.items()[code.method as usize];
    told(alloc, file, class, method, answer)
}
