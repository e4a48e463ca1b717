//! Jumps: conditional ones, goto and both switches (Java Virtual Machine Specification, 6.5).

ghost use Rattle.std.specs.Prelude.{◌≡◌, ◌<◌, ◌+◌, ◌-ℤ◌, ℕ, List, pos, length, slice_get, MatchOption};
ghost use Rattle.cjc_jvm_semantics.specs.Arithmetic.{relation, OfNumber, OfNumbers, AreSame, IsNull, condition};
ghost use Rattle.cjc_jvm_semantics.specs.Effects.{one_number, jump, after_branch, is_same_reference, case_of, entry_of};
ghost use Rattle.cjc_jvm_semantics.specs.Effects.{or_other};
ghost use Rattle.cjc_jvm_step.specs.Frame.Deeds.{Follows};

use crate::frame::activation::{Activation, is_kind};
use crate::frame::deed::Deed;
use crate::frame::number::relation;
use cjc_jvm_semantics::bytecode::{JCase, jvm};
use cjc_script::Value;

/// Whether two references are the same.
pub fn is_same_reference(a: Value, b: Value) -> bool
    ensures { result ≡ is_same_reference a b }
{
    match (a, b) {
        (Value::Null, Value::Null) => true,
        (Value::Obj(j), Value::Obj(k)) => j == k,
        _ => false,
    }
}

/// The target of a lookupswitch, by its default and its cases.
pub fn case_of(other: u32, cases: &[JCase], x: i32) -> u32
    ensures { result ≡ case_of other cases.now x }
{
    for case in cases {
        if case.value == x {
            return case.target;
        }
    }
    other
}

// How far a number is above the low value of a tableswitch.
fn distance(x: i32, low: i32) -> Option<usize>
    ensures { MatchOption result
        ((other : ℕ) (targets : List ℕ) → entry_of other targets (x -ℤ low) ≡ other)
        (λ n. (other : ℕ) (targets : List ℕ) → entry_of other targets (x -ℤ low)
        ≡ or_other other (slice_get targets n)) }
{
    if x < low {
        return None;
    }
    Some((i64::from(x) - i64::from(low)) as usize)
}

// The target at a place, or the default.
fn target_at(other: u32, targets: &[u32], place: usize) -> u32
    ensures { result ≡ or_other other (slice_get targets.now place) }
{
    match targets.get(place) {
        Some(target) => *target,
        None => other,
    }
}

/// The target of a tableswitch, by its default, its low value and its targets.
pub fn entry_of(other: u32, low: i32, targets: &[u32], x: i32) -> u32
    ensures { result ≡ entry_of other targets.now (x -ℤ low) }
{
    match distance(x, low) {
        Some(place) => target_at(other, targets, place),
        None => other,
    }
}

impl<'a> Activation<'a> {
    // ifeq to ifle, by their place.
    fn branch_on_number(&mut self, k: u8, target: u32) -> Deed<'a>
        requires { self.old.at < length self.old.method.insns }
        ensures { Follows (λ l m at locals store. after_branch l m at locals store
            (OfNumber (λ x. relation k x (pos 0))) target) result self.old self.new }
    {
        match self.number() {
            Some(x) => {
                self.jump_if(relation(k, x, 0), 1, target);
                Deed::Go
            }
            None => Deed::Stick,
        }
    }

    // if_icmpeq to if_icmple, by their place.
    fn branch_on_numbers(&mut self, k: u8, target: u32) -> Deed<'a>
        requires { self.old.at < length self.old.method.insns }
        ensures { Follows (λ l m at locals store. after_branch l m at locals store (OfNumbers (relation k)) target)
            result self.old self.new }
    {
        match self.two_numbers() {
            Some((x, y)) => {
                self.jump_if(relation(k, x, y), 2, target);
                Deed::Go
            }
            None => Deed::Stick,
        }
    }

    // if_acmpeq, if_acmpne.
    fn branch_on_references(&mut self, wanted: bool, target: u32) -> Deed<'a>
        requires { self.old.at < length self.old.method.insns }
        ensures { Follows (λ l m at locals store. after_branch l m at locals store (AreSame wanted) target) result
            self.old self.new }
    {
        match self.two_values() {
            Some((a, b)) if is_kind(true, a) && is_kind(true, b) => {
                self.jump_if(is_same_reference(a, b) == wanted, 2, target);
                Deed::Go
            }
            Some(_) => Deed::Stick,
            None => Deed::Stick,
        }
    }

    // ifnull, ifnonnull.
    fn branch_on_null(&mut self, wanted: bool, target: u32) -> Deed<'a>
        requires { self.old.at < length self.old.method.insns }
        ensures { Follows (λ l m at locals store. after_branch l m at locals store (IsNull wanted) target) result
            self.old self.new }
    {
        match self.value() {
            Some(Value::Null) => {
                self.jump_if(wanted, 1, target);
                Deed::Go
            }
            Some(Value::Obj(_)) => {
                self.jump_if(!wanted, 1, target);
                Deed::Go
            }
            Some(Value::Num(_)) => Deed::Stick,
            None => Deed::Stick,
        }
    }

    /// The conditional jumps, by opcode.
    pub fn branch(&mut self, op: u8, target: u32) -> Deed<'a>
        requires { self.old.at < length self.old.method.insns }
        ensures { Follows (λ l m at locals store. after_branch l m at locals store (condition op) target) result
            self.old self.new }
    {
        match op {
            jvm::IFEQ..=jvm::IFLE => self.branch_on_number(op - jvm::IFEQ, target),
            jvm::IF_ICMPEQ..=jvm::IF_ICMPLE => self.branch_on_numbers(op - jvm::IF_ICMPEQ, target),
            jvm::IF_ACMPEQ => self.branch_on_references(true, target),
            jvm::IF_ACMPNE => self.branch_on_references(false, target),
            jvm::IFNULL => self.branch_on_null(true, target),
            jvm::IFNONNULL => self.branch_on_null(false, target),
            _ => Deed::Stick,
        }
    }

    /// goto, goto_w.
    pub fn go_to(&mut self, target: u32) -> Deed<'a>
        requires { self.old.at < length self.old.method.insns }
        ensures { Follows (λ l m at locals store. jump l m at locals store target) result self.old self.new }
    {
        self.jump_if(true, 0, target);
        Deed::Go
    }

    /// tableswitch.
    pub fn switch_by_table(&mut self, other: u32, low: i32, targets: &[u32]) -> Deed<'a>
        requires { self.old.at < length self.old.method.insns }
        ensures { Follows (λ l m at locals store stack. one_number stack (λ x rest. jump l m at locals store
            (entry_of other targets.now (x -ℤ low)) rest)) result self.old self.new }
    {
        match self.number() {
            Some(x) => {
                self.jump_if(true, 1, entry_of(other, low, targets, x));
                Deed::Go
            }
            None => Deed::Stick,
        }
    }

    /// lookupswitch.
    pub fn switch_by_cases(&mut self, other: u32, cases: &[JCase]) -> Deed<'a>
        requires { self.old.at < length self.old.method.insns }
        ensures { Follows (λ l m at locals store stack. one_number stack (λ x rest. jump l m at locals store
            (case_of other cases.now x) rest)) result self.old self.new }
    {
        match self.number() {
            Some(x) => {
                self.jump_if(true, 1, case_of(other, cases, x));
                Deed::Go
            }
            None => Deed::Stick,
        }
    }
}
