//! The conditions of jumps, ifeq to if_acmpne: operands are taken and compared. Where a jump leads is not known
//! here.

ghost use Rattle.std.specs.Prelude.{◌≡◌};
ghost use Rattle.cjc_card_semantics.specs.Bytecode.Calculations.{if_null, if_number, if_numbers, if_same};
ghost use Rattle.cjc_card_frame.specs.Meanings.{against_zero, between, test_of};
ghost use Rattle.cjc_card_frame.specs.Frame.Frames.{Asks, same_reference};

use crate::frame::cells::Cells;
use crate::frame::ending::Choice;
use crate::opcodes::{Condition, Relation};
use cjc_card_semantics::script::Value;

/// Whether a number is so beside 0.
fn against_zero(relation: Relation, x: i32) -> bool
    ensures { result ≡ against_zero relation x }
{
    match relation {
        Relation::Equal => x == 0,
        Relation::NotEqual => x != 0,
        Relation::Less => x < 0,
        Relation::NotLess => x >= 0,
        Relation::Greater => x > 0,
        Relation::NotGreater => x <= 0,
    }
}

/// Whether two numbers are so.
fn between(relation: Relation, x: i32, y: i32) -> bool
    ensures { result ≡ between relation x y }
{
    match relation {
        Relation::Equal => x == y,
        Relation::NotEqual => x != y,
        Relation::Less => x < y,
        Relation::NotLess => x >= y,
        Relation::Greater => x > y,
        Relation::NotGreater => x <= y,
    }
}

/// Whether two references are the same, where both are references.
fn same_reference(a: Option<Value>, b: Option<Value>) -> Option<bool>
    ensures { result ≡ same_reference a b }
{
    match (a?, b?) {
        (Value::Null, Value::Null) => Some(true),
        (Value::Obj(j), Value::Obj(k)) => Some(j == k),
        (Value::Null, Value::Obj(_)) => Some(false),
        (Value::Obj(_), Value::Null) => Some(false),
        (Value::Num(_), _) => None,
        (_, Value::Num(_)) => None,
    }
}

impl Cells {
    /// ifeq to ifle.
    fn ask_number(&mut self, relation: Relation) -> Choice
        ensures { Asks (if_number (against_zero relation)) result self.old self.new }
    {
        match self.number(0) {
            Some(x) => {
                self.forget(1);
                Choice::Takes(against_zero(relation, x))
            }
            None => Choice::Neither,
        }
    }

    /// if_scmpeq to if_scmple.
    fn ask_numbers(&mut self, relation: Relation) -> Choice
        ensures { Asks (if_numbers (between relation)) result self.old self.new }
    {
        match self.numbers(0) {
            Some((x, y)) => {
                self.forget(2);
                Choice::Takes(between(relation, x, y))
            }
            None => Choice::Neither,
        }
    }

    /// ifnull and ifnonnull.
    fn ask_null(&mut self, null: bool) -> Choice
        ensures { Asks (if_null null) result self.old self.new }
    {
        match self.word(0) {
            Some(Value::Null) => {
                self.forget(1);
                Choice::Takes(null)
            }
            Some(Value::Obj(_)) => {
                self.forget(1);
                Choice::Takes(!null)
            }
            Some(Value::Num(_)) => Choice::Neither,
            None => Choice::Neither,
        }
    }

    /// if_acmpeq and if_acmpne.
    fn ask_same(&mut self, same: bool) -> Choice
        ensures { Asks (if_same same) result self.old self.new }
    {
        match same_reference(self.word(0), self.word(1)) {
            Some(t) => {
                self.forget(2);
                Choice::Takes(t == same)
            }
            None => Choice::Neither,
        }
    }

    /// Asks the condition of a jump, and takes its operands.
    pub fn ask(&mut self, condition: Condition) -> Choice
        ensures { Asks (test_of condition) result self.old self.new }
    {
        match condition {
            Condition::Number(relation) => self.ask_number(relation),
            Condition::Numbers(relation) => self.ask_numbers(relation),
            Condition::Null(null) => self.ask_null(null),
            Condition::Same(same) => self.ask_same(same),
            Condition::Always => Choice::Takes(true),
        }
    }
}
