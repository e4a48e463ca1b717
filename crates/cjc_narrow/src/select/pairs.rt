//! Which aload_0s and field instructions of a method are written as one (getfield_this and putfield_this of the Java
//! Card Virtual Machine Specification 2.2.2, section 7.5). Called by whoever selects code. It writes nothing.

ghost use Rattle.std.specs.Prelude.{◌≡◌, ◌∷◌, ◌<◌, ◌^◌, ◌||◌, ◌&&◌, true, false, List, drop, get_or, length, IfOk};
ghost use Rattle.std.specs.List.{list_any};
ghost use Rattle.cjc_types.specs.Flow.{Body};
ghost use Rattle.cjc_types.specs.Fixpoint.Kept.{IsAscending};
ghost use Rattle.cjc_types.specs.Marks.{marks_of};
ghost use Rattle.cjc_narrow.specs.Pairs.Roles.{access_kind, any_stores, differs, first_role, is_joined, is_open};
ghost use Rattle.cjc_narrow.specs.Pairs.Roles.{is_taken};
ghost use Rattle.cjc_narrow.specs.Pairs.Roles.{keeps_this, kind_if, kind_of, last_wait, load_kind, next_wait, role_of};
ghost use Rattle.cjc_narrow.specs.Pairs.Roles.{roles_from, roles_of, static_kind, steps_from, stores_this, wait_behind};
ghost use Rattle.cjc_narrow.specs.Pairs.Roles.{waits};
ghost use Rattle.cjc_narrow.specs.declared.select.pairs.PairStep.{PairStep as Step};
ghost use Rattle.cjc_narrow.specs.declared.select.pairs.Wait.TheVariants as waiting;
ghost use Rattle.cjc_narrow.specs.Select.Working.Names.{resolution_of};

use crate::rows::constant_named;
use crate::select::names::{Names, is_near_field};
use cjc_ncode::PairRole;
use cjc_types::bytecode::{JInsn, JOp, jvm};
use cjc_types::bytes::{NoMemory, Row, is_static};
use cjc_types::classfile::{Catch, Code};
use cjc_types::covers;
use cjc_types::fixpoint::is_marked;
use std::alloc::Global;

/// What an instruction is to the reference that an aload_0 pushed before it.
#[derive(Clone, Copy)]
pub enum PairKind {
    /// Nothing is written for it.
    Silent,
    /// An aload_0 whose reference is the object of the method.
    This,
    /// It pushes a constant or a local.
    Pushes,
    /// A getfield of a field with an index of one byte.
    Gets,
    /// A putfield of such a field.
    Puts,
    Other,
}

/// An instruction, and whether execution comes to it from the one before alone, under the same handlers.
#[derive(Clone, Copy)]
pub struct PairStep {
    pub joined: bool,
    pub kind: PairKind,
}

/// What has become of a reference that an aload_0 pushed.
#[derive(Clone, Copy)]
pub enum Wait {
    /// It is the last that was pushed.
    Begins,
    /// One was pushed behind it.
    Pushed,
    /// A field instruction took it.
    Taken,
    /// No field instruction takes it at once.
    Lost,
}

fn stores_this(op: &JOp) -> bool
    ensures { result ≡ stores_this op.now }
{
    match op {
        JOp::Store { refs: _, local } => *local == 0,
        _ => false,
    }
}

/// The same of one more, where it is reached.
fn stores_more(any: bool, is_reached: bool, op: &JOp) -> bool
    ensures { result ≡ (any || (is_reached && stores_this op.now)) }
{
    any || (is_reached && stores_this(op))
}

/// Whether a reached instruction stores into local 0.
#[tactic(auto, using(crate::proofs::PairsLaws::Walks::stores_next, crate::proofs::PairsLaws::Walks::stores_end))]
fn any_stores(insns: &[JInsn], reaches: &[bool]) -> bool
    requires { length reaches.now ≡ length insns.now }
    ensures { result ≡ any_stores insns.now reaches.now }
{
    let mut any = false;
    for k in 0..insns.len() {
        any = stores_more(any, reaches[k], &insns[k].op);
    }
    any
}

fn load_kind(keeps: bool, refs: bool, local: u16) -> PairKind
    ensures { result ≡ load_kind keeps refs local }
{
    if keeps && refs && local == 0 {
        PairKind::This
    } else {
        PairKind::Pushes
    }
}

fn access_kind(put: bool, near: bool) -> PairKind
    ensures { result ≡ access_kind put near }
{
    match (near, put) {
        (true, true) => PairKind::Puts,
        (true, false) => PairKind::Gets,
        _ => PairKind::Other,
    }
}

fn static_kind(put: bool, constant: Option<i32>) -> PairKind
    ensures { result ≡ static_kind put constant }
{
    if !put && constant.is_some() {
        PairKind::Pushes
    } else {
        PairKind::Other
    }
}

#[tactic(auto, unfolding(crate::specs::Rows::Resolved::resolution))]
fn kind_of(
    alloc: Global,
    names: &Names<'_, '_>,
    keeps: bool,
    op: &JOp,
) -> Result<PairKind, NoMemory>
    ensures { IfOk result (λ kind. kind ≡ kind_of keeps (resolution_of names.now) op.now) }
{
    match op {
        JOp::Nop => Ok(PairKind::Silent),
        JOp::Narrow(op) => Ok(if *op == jvm::I2B {
            PairKind::Other
        } else {
            PairKind::Silent
        }),
        JOp::Null | JOp::Number(_) => Ok(PairKind::Pushes),
        JOp::Load { refs, local } => Ok(load_kind(keeps, *refs, *local)),
        JOp::Static { put, field } => Ok(static_kind(*put, constant_named(names.world, field))),
        JOp::Field { put, field } => Ok(access_kind(*put, is_near_field(alloc, names, field)?)),
        _ => Ok(PairKind::Other),
    }
}

fn kind_if(
    alloc: Global,
    names: &Names<'_, '_>,
    keeps: bool,
    is_reached: bool,
    op: &JOp,
) -> Result<PairKind, NoMemory>
    ensures { IfOk result (λ kind. kind ≡ kind_if is_reached keeps (resolution_of names.now) op.now) }
{
    if is_reached {
        kind_of(alloc, names, keeps, op)
    } else {
        Ok(PairKind::Silent)
    }
}

fn differs(catch: &Catch, a: u32, b: u32) -> bool
    ensures { result ≡ differs catch.now a b }
{
    if covers(catch, a) {
        !covers(catch, b)
    } else {
        covers(catch, b)
    }
}

/// Whether some handler covers one offset and not the other.
fn any_differs(catches: &[Catch], a: u32, b: u32) -> bool
    ensures { result ≡ list_any (λ c. differs c a b) catches.now }
{
    catches.iter().any(|catch| differs(catch, a, b))
}

fn is_joined(marks: &[u32], catches: &[Catch], at: u32, before: u32, offset: u32) -> bool
    requires { IsAscending marks.now }
    ensures { result ≡ is_joined marks.now catches.now at before offset }
{
    !(is_marked(marks, at) || any_differs(catches, before, offset))
}

/// What the instructions of a method are.
#[tactic(auto, using(crate::proofs::PairsLaws::Walks::steps_next, crate::proofs::PairsLaws::Walks::steps_end))]
fn steps(
    alloc: Global,
    names: &Names<'_, '_>,
    keeps: bool,
    marks: &[u32],
    catches: &[Catch],
    insns: &[JInsn],
    reaches: &[bool],
) -> Result<Row<PairStep>, NoMemory>
    requires few { length insns.now < 2 ^ 32 }
    requires each { length reaches.now ≡ length insns.now }
    requires marks { IsAscending marks.now }
    ensures { IfOk result (λ row. row ≡ steps_from keeps (resolution_of names.now) marks.now catches.now 0 0 insns.now
        reaches.now) }
{
    let mut row = Row::new(alloc);
    let mut before = 0;
    for k in 0..insns.len() {
        let offset = insns[k].at;
        let joined = is_joined(marks, catches, k as u32, before, offset);
        let kind = kind_if(alloc, names, keeps, reaches[k], &insns[k].op)?;
        row.push(PairStep { joined, kind })?;
        before = offset;
    }
    Ok(row)
}

fn wait_behind(wait: Wait, kind: PairKind) -> Wait
    ensures { result ≡ wait_behind wait kind }
{
    match (wait, kind) {
        (Wait::Begins, PairKind::Silent) => Wait::Begins,
        (Wait::Begins, PairKind::This | PairKind::Pushes) => Wait::Pushed,
        (Wait::Begins, PairKind::Gets) => Wait::Taken,
        (Wait::Pushed, PairKind::Silent) => Wait::Pushed,
        (Wait::Pushed, PairKind::Puts) => Wait::Taken,
        (Wait::Taken, _) => Wait::Taken,
        _ => Wait::Lost,
    }
}

fn waits(wait: Wait) -> bool
    ensures { result ≡ waits wait }
{
    match wait {
        Wait::Begins | Wait::Pushed => true,
        Wait::Taken | Wait::Lost => false,
    }
}

fn next_wait(wait: Wait, step: PairStep) -> Wait
    requires { waits wait ≡ true }
    ensures { result ≡ next_wait wait step }
{
    if step.joined {
        wait_behind(wait, step.kind)
    } else {
        Wait::Lost
    }
}

/// What becomes of a reference that is pushed before the instruction at a place.
#[tactic(auto, using(crate::proofs::PairsLaws::Walks::wait_next, crate::proofs::PairsLaws::Walks::wait_end, crate::proofs::PairsLaws::Walks::wait_over))]
fn last_wait(steps: &[PairStep], from: usize) -> Wait
    ensures { result ≡ last_wait waiting.Begins (drop from steps.now) }
{
    let mut wait = Wait::Begins;
    let mut k = from;
    while k < steps.len() && waits(wait) {
        wait = next_wait(wait, steps[k]);
        k += 1;
    }
    wait
}

/// Whether a field instruction takes it.
fn is_taken(steps: &[PairStep], from: usize) -> bool
    ensures { result ≡ is_taken (last_wait waiting.Begins (drop from steps.now)) }
{
    match last_wait(steps, from) {
        Wait::Taken => true,
        _ => false,
    }
}

/// The role of an instruction of this kind, behind which these stand.
fn first_role(opened: bool, kind: PairKind, steps: &[PairStep], behind: usize) -> PairRole
    ensures { result ≡ role_of opened kind (is_taken (last_wait waiting.Begins (drop behind steps.now))) }
{
    match (opened, kind) {
        (true, PairKind::Gets | PairKind::Puts) => PairRole::Closes,
        (false, PairKind::This) => {
            if is_taken(steps, behind) {
                PairRole::Opens
            } else {
                PairRole::Alone
            }
        }
        _ => PairRole::Alone,
    }
}

fn is_open(before: bool, role: PairRole) -> bool
    ensures { result ≡ is_open before role }
{
    match role {
        PairRole::Alone => before,
        PairRole::Opens => true,
        PairRole::Closes => false,
    }
}

#[tactic(auto, using(crate::proofs::PairsLaws::Walks::roles_next, crate::proofs::PairsLaws::Walks::roles_end))]
fn roles_by(alloc: Global, steps: &[PairStep]) -> Result<Row<PairRole>, NoMemory>
    ensures { IfOk result (λ row. row ≡ roles_from false steps.now) }
{
    let mut row = Row::new(alloc);
    let mut opened = false;
    for k in 0..steps.len() {
        let role = first_role(opened, steps[k].kind, steps, k + 1);
        row.push(role)?;
        opened = is_open(opened, role);
    }
    Ok(row)
}

/// The roles of the instructions of a method, by its marked places and by which of its instructions are reached.
#[tactic(auto, using(crate::proofs::PairsLaws::Roles::roles_long, crate::proofs::PairsLaws::Roles::steps_long))]
pub(crate) fn roles_of(
    alloc: Global,
    names: &Names<'_, '_>,
    flags: u16,
    code: &Code<'_>,
    marks: &[u32],
    insns: &[JInsn],
    reaches: &[bool],
) -> Result<Row<PairRole>, NoMemory>
    requires few { length insns.now < 2 ^ 32 }
    requires each { length reaches.now ≡ length insns.now }
    requires marks { IsAscending marks.now }
    ensures each { IfOk result (λ row. length row ≡ length insns.now) }
    ensures roles { (b : Body) → b.flags ≡ flags → b.catches ≡ code.now.catches → b.insns ≡ insns.now
        → marks_of b ≡ marks.now
        → IfOk result (λ row. row ≡ roles_of (resolution_of names.now) b reaches.now) }
{
    let keeps = !(is_static(flags) || any_stores(insns, reaches));
    let catches = code.catches.items();
    let steps = steps(alloc, names, keeps, marks, catches, insns, reaches)?;
    let roles = roles_by(alloc, steps.items())?;
    Ok(roles)
}
