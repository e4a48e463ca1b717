//! The places of what is written for offsets of the class file. Called for jumps, switches and handlers.

ghost use Rattle.std.specs.Prelude.{◌≡◌, ◌+◌, ◌<◌, ◌≤◌, ℕ, length, if◌then◌else◌, nat_lt, IfOk};
ghost use Rattle.std.specs.List.{prefix_len};
ghost use Rattle.cjc_jvm_semantics.specs.LowerScript.Sorts.{shape_named};
ghost use Rattle.cjc_ncode.specs.Written.{Resolution, place_in, reached, type_test};
ghost use Rattle.cjc_narrow.specs.Written.Labels.{place_of};
ghost use Rattle.cjc_narrow.specs.Written.Operands.{IsAscending};
ghost use Rattle.cjc_narrow.specs.Written.Rows.{rows_by};
ghost use Rattle.cjc_narrow.specs.Written.Working.Places.{count, count_as, count_if, starts};
ghost use Rattle.cjc_narrow.specs.Pairs.Roles.{AreRoles};

use crate::written::switches::{has_pair, has_word};
use crate::written::type_tests::tested;
use cjc_ncode::PairRole;
use cjc_types::bytecode::{JInsn, JOp, jvm};
use cjc_types::bytes::{NoMemory, Row};
use std::alloc::Global;
use std::marker::Model;

/// How many instructions a switch is written as.
fn count_switch(has_case: bool) -> u32
    ensures { result ≡ (if has_case then 1 else 2) }
{
    if has_case { 1 } else { 2 }
}

fn count_test(class: &[u8]) -> Result<u32, NoMemory>
    ensures { (op : ℕ) → IfOk result (λ n. n ≡ length (type_test op (shape_named class.now))) }
{
    match tested(class)? {
        Some(_) => Ok(1),
        None => Ok(0),
    }
}

/// How many instructions are written for one.
#[tactic(auto, using(crate::proofs::WrittenLaws::Cases::table_length, crate::proofs::WrittenLaws::Cases::pair_length))]
fn count(op: &JOp) -> Result<u32, NoMemory>
    ensures { IfOk result (λ n. n ≡ count op.now) }
{
    match op {
        JOp::Nop => Ok(0),
        JOp::Narrow(op) => Ok(if *op == jvm::I2B { 1 } else { 0 }),
        JOp::TableSwitch {
            other: _,
            low,
            targets,
        } => Ok(count_switch(has_word(*low, targets.items()))),
        JOp::LookupSwitch { other: _, cases } => Ok(count_switch(has_pair(cases.items()))),
        JOp::CheckCast(class) | JOp::InstanceOf(class) => count_test(class.items()),
        _ => Ok(1),
    }
}

/// The sum, where 32 bits count it.
pub(crate) fn sum(m: u32, n: u32) -> Result<u32, NoMemory>
    ensures { IfOk result (λ total. total ≡ m + n) }
{
    match m.checked_add(n) {
        Some(total) => Ok(total),
        None => Err(NoMemory),
    }
}

/// How many instructions are written for one of this role.
fn count_as(role: PairRole, op: &JOp) -> Result<u32, NoMemory>
    ensures { IfOk result (λ n. n ≡ count_as role op.now) }
{
    match (role, op) {
        (PairRole::Opens, JOp::Load { .. }) => Ok(0),
        _ => count(op),
    }
}

/// A number of instructions, with those that are written for one where it is reached.
fn count_if(is_reached: bool, role: PairRole, before: u32, op: &JOp) -> Result<u32, NoMemory>
    ensures { IfOk result (λ total. total ≡ count_if is_reached role before op.now) }
{
    if is_reached {
        sum(before, count_as(role, op)?)
    } else {
        Ok(before)
    }
}

/// How many instructions are written before each one, and at the end of all.
#[tactic(auto, using(crate::proofs::WrittenLaws::Order::starts_next, crate::proofs::WrittenLaws::Order::starts_end))]
fn starts(
    alloc: Global,
    insns: &[JInsn],
    reaches: &[bool],
    roles: &[PairRole],
) -> Result<Row<u32>, NoMemory>
    requires each { length reaches.now ≡ length insns.now }
    requires roles { length roles.now ≡ length insns.now }
    ensures { IfOk result (λ row. row ≡ starts 0 insns.now reaches.now roles.now) }
{
    let mut row = Row::new(alloc);
    let mut before = 0;
    for k in 0..insns.len() {
        row.push(before)?;
        before = count_if(reaches[k], roles[k], before, &insns[k].op)?;
    }
    row.push(before)?;
    Ok(row)
}

/// The places of what is written for the reached instructions of a method. Contracts see its instructions and how
/// many are written before each.
pub struct Places<'a> {
    insns: &'a [JInsn],
    starts: Row<u32>,
}

impl Drop for Places<'_> {
    fn drop(self) {
        let Places {
            insns: _insns,
            starts: _starts,
        } = self;
    }
}

impl<'a> Model for Places<'a> {
    ghost use Rattle.std.specs.Prelude.{◌≡◌, ◌+◌, length};
    ghost use Rattle.cjc_narrow.specs.Written.Labels.{Labels};
    ghost use Rattle.cjc_narrow.specs.Written.Operands.{IsAscending};

    ghost Value = { Labels };

    ghost view = { λ p. record { insns = p.insns.now; starts = p.starts } };

    ghost invariant = { λ p. (length p.starts ≡ length p.insns.now + 1) × IsAscending p.insns.now };
}

/// How many of the instructions stand before an offset.
fn place_before(insns: &[JInsn], offset: u32) -> usize
    requires { IsAscending insns.now }
    ensures place { result ≡ prefix_len (λ i. nat_lt i.at offset) insns.now }
    ensures within { result ≤ length insns.now }
{
    insns.partition_point(|insn| insn.at < offset)
}

impl<'a> Places<'a> {
    /// Those of a method, by which of its instructions are reached and by their roles.
    pub fn new(
        alloc: Global,
        insns: &'a [JInsn],
        reaches: &[bool],
        roles: &[PairRole],
    ) -> Result<Places<'a>, NoMemory>
        requires each { length reaches.now ≡ length insns.now }
        requires roles { length roles.now ≡ length insns.now }
        requires ascending { IsAscending insns.now }
        ensures { (r : Resolution) → AreRoles r insns.now roles.now
            → IfOk result (λ places. place_of places ≡ place_in r (reached insns.now (rows_by reaches.now))) }
    {
        let starts = starts(alloc, insns, reaches, roles)?;
        Ok(Places { insns, starts })
    }

    /// Those of a method, by how many instructions are written before each of its own and at the end of all. Takes no
    /// memory.
    pub fn of(insns: &'a [JInsn], starts: Row<u32>) -> Places<'a>
        requires each { length starts ≡ length insns.now + 1 }
        requires ascending { IsAscending insns.now }
        ensures { result ≡ record { insns = insns.now; starts = starts } }
    {
        Places { insns, starts }
    }

    /// The place of what is written for an offset, or of the next that is written.
    pub fn place(&self, offset: u32) -> u32
        ensures { result ≡ place_of self.now offset }
    {
        let place = place_before(self.insns, offset);
        self.starts.items()[place]
    }
}
