//! Rules 722 to 724, 726 and 727 at one instruction over the state before it: what its operands and locals are, and
//! whether they and the stack have their room. Called by the search.

ghost use Rattle.std.specs.Prelude.{◌≡◌, List, ℕ, Bool, nat_le, slice_get};
ghost use Rattle.std.specs.List.{list_all, list_any};
ghost use Rattle.cjc_frames.specs.Acts.{has_wrong, has_wrong_local, is_off, is_wrong, is_wrong_local, meets};
ghost use Rattle.cjc_frames.specs.Search.{first_rule, row_rule, rule_of_act};
ghost use Rattle.cjc_frames.specs.Types.{begins_with};

use crate::acts::{Act, Need, Read, Step, Write};
use crate::cells::{Cell, Word};
use crate::states::Frame;
use cjc_fixpoint::bytes::Bytes;

/// The reference types, as rules ask of them.
pub trait Subtypes {
    /// Whether one type is of another, both by their nibbles.
    ghost subtype: { Self → List ℕ → List ℕ → Bool };

    /// Whether one type is of another, both by their nibbles.
    fn is_of(&self, sub: &[u8], sup: &[u8]) -> bool
        ensures { result ≡ subtype self.now sub.now sup.now };
}

/// Whether all types are of one.
fn are_of<T: Subtypes>(types: &T, subs: &[Bytes], sup: &[u8]) -> bool
    ensures { result ≡ list_all (λ t. T.subtype types.now t sup.now) subs.now }
{
    for sub in subs {
        if !types.is_of(sub.items(), sup) {
            return false;
        }
    }
    true
}

/// Whether a type begins with one of these nibbles.
fn begins_with(nibbles: &[u8], type_: &[u8]) -> bool
    ensures { result ≡ begins_with nibbles.now type_.now }
{
    match type_ {
        [first, ..] => nibbles.contains(first),
        [] => false,
    }
}

/// Whether all types begin with one of these nibbles.
fn all_begin(nibbles: &[u8], types: &[Bytes]) -> bool
    ensures { result ≡ list_all (begins_with nibbles.now) types.now }
{
    for type_ in types {
        if !begins_with(nibbles, type_.items()) {
            return false;
        }
    }
    true
}

/// Whether a word is what is needed.
fn meets<T: Subtypes>(types: &T, need: &Need, cell: &Cell) -> bool
    ensures { result ≡ meets (T.subtype types.now) need.now cell.now }
{
    match need {
        Need::AnyWord => true,
        Need::NumberWord => cell.is_number(),
        Need::ReferenceWord => cell.is_reference(),
        Need::OfType(sup) => match &cell.word {
            Word::Number => false,
            Word::Refs(subs) => are_of(types, subs.items(), sup.items()),
            Word::Unusable => false,
        },
        Need::OfArrays(nibbles) => match &cell.word {
            Word::Number => false,
            Word::Refs(arrays) => all_begin(nibbles.items(), arrays.items()),
            Word::Unusable => false,
        },
    }
}

/// Whether one of the operands that are there is not what is needed.
#[tactic(auto, using(crate::proofs::Wrong::wrong_here, crate::proofs::Wrong::wrong_later, crate::proofs::Wrong::wrong_past, crate::proofs::Wrong::wrong_end))]
fn has_wrong<T: Subtypes>(types: &T, needs: &[Need], stack: &[Cell]) -> bool
    ensures { result ≡ has_wrong (T.subtype types.now) needs.now stack.now }
{
    for k in 0..needs.len() {
        if k >= stack.len() {
            return false;
        }
        if !meets(types, &needs[k], &stack[k]) {
            return true;
        }
    }
    false
}

/// Whether a local that is there does not hold what is needed.
fn is_wrong_local<T: Subtypes>(types: &T, read: &Read, locals: &[Cell]) -> bool
    ensures { result ≡ is_wrong_local (T.subtype types.now) read.now.need (slice_get locals.now read.now.local) }
{
    match locals.get(read.local as usize) {
        Some(cell) => !meets(types, &read.need, cell),
        None => false,
    }
}

/// Whether one of the locals that are there does not hold what is needed.
fn has_wrong_local<T: Subtypes>(types: &T, reads: &[Read], locals: &[Cell]) -> bool
    ensures { result ≡ has_wrong_local (T.subtype types.now) reads.now locals.now }
{
    for read in reads {
        if is_wrong_local(types, read, locals) {
            return true;
        }
    }
    false
}

/// Whether an operand or a local is not what is needed, or the letter or the return is another.
fn is_wrong<T: Subtypes>(types: &T, act: &Act, locals: &[Cell], stack: &[Cell]) -> bool
    ensures { result ≡ is_wrong (T.subtype types.now) act.now locals.now stack.now }
{
    has_wrong(types, act.takes.items(), stack)
        || has_wrong_local(types, act.reads.items(), locals)
        || act.misfits
}

/// Whether one of the locals that are read is not there.
fn lacks_read(reads: &[Read], count: usize) -> bool
    ensures { result ≡ list_any (λ r. nat_le count r.local) reads.now }
{
    for read in reads {
        if read.local as usize >= count {
            return true;
        }
    }
    false
}

/// Whether one of the locals that are written is not there.
fn lacks_write(writes: &[Write], count: usize) -> bool
    ensures { result ≡ list_any (λ w. nat_le count w.local) writes.now }
{
    for write in writes {
        if write.local as usize >= count {
            return true;
        }
    }
    false
}

/// Whether an operand or a local is not there, or the stack has more words than it may have.
fn is_off(max_stack: u8, act: &Act, locals: &[Cell], stack: &[Cell]) -> bool
    ensures { result ≡ is_off max_stack act.now locals.now stack.now }
{
    let taken = act.takes.items().len();
    let room = usize::from(max_stack);
    let given = act.gives.items().len();
    if stack.len() < taken || room < stack.len() {
        return true;
    }
    let left = stack.len() - taken;
    if given > room || left > room - given {
        return true;
    }
    lacks_read(act.reads.items(), locals.len()) || lacks_write(act.writes.items(), locals.len())
}

/// The first rule that an instruction breaks whatever the state.
fn rule_of_act(act: &Act) -> Option<u16>
    ensures { result ≡ rule_of_act act.now }
{
    if act.is_unknown {
        Some(726)
    } else if act.misnames {
        Some(727)
    } else {
        None
    }
}

/// The first rule that the state before an instruction breaks.
fn first_rule<T: Subtypes>(types: &T, max_stack: u8, act: &Act, state: &Frame) -> Option<u16>
    ensures { result ≡ first_rule (T.subtype types.now) max_stack act.now state.now }
{
    match &state.stack {
        None => Some(722),
        Some(cells) => {
            let locals = state.locals.items();
            if is_wrong(types, act, locals, cells.items()) {
                Some(723)
            } else if is_off(max_stack, act, locals, cells.items()) {
                Some(724)
            } else {
                rule_of_act(act)
            }
        }
    }
}

/// The first rule that an instruction breaks, where it is reached.
pub(crate) fn row_rule<T: Subtypes>(
    types: &T,
    max_stack: u8,
    step: &Step,
    row: &Option<Frame>,
) -> Option<u16>
    ensures { result ≡ row_rule (T.subtype types.now) max_stack step.now row.now }
{
    match row {
        None => None,
        Some(state) => first_rule(types, max_stack, &step.act, state),
    }
}
