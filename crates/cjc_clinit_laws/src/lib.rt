//! What the machine by name does at the instructions of initialisers is what the static image says of them. Definitions and
//! laws alone: nothing here runs.
#![tactic(auto)]

ghost use Rattle.std.specs.Prelude.{◌≡◌, ◌≤◌, ℕ, List, [], ◌∷◌, ◌++◌, length, true, Option, Some};
ghost use Rattle.cjc_bytes.specs.declared.fault.MemberId.{MemberId};
ghost use Rattle.cjc_code.specs.declared.insn.JOp.{JOp};
ghost use Rattle.cjc_code.specs.declared.insn.JOp.TheVariants as jop;
ghost use Rattle.cjc_script.specs.declared.value.Value.{Value};
ghost use Rattle.cjc_by_name.specs.Effects.{Store, is_same_kind, value_in};
ghost use Rattle.cjc_by_name.specs.Linked.{Linked, Method, Static};
ghost use Rattle.cjc_clinit.specs.Fields.{Contents};
ghost use Rattle.cjc_clinit.specs.Initialiser.{Makes};
ghost use Rattle.cjc_clinit_laws.specs.Statements.{Reaches, ops_from, store_with, value_by};

/// For every record of look-ups: from the first instruction of a statement, with an empty stack, the machine by name comes behind
/// its putstatic with an empty stack again, where the field has a cell of the kind of what is put and the method has room for
/// four operands. The statement's array stands last in the heap, and the field holds it, the number or null.
pub fn statements_run()
    ensures { (l : Linked) (m : Method) (locals : List (Option Value)) (at : ℕ) (made ops : List JOp) (contents : Contents) (id field : MemberId) (old : Value) (store : Store)
        → 4 ≤ m.max_stack → Makes made contents → ops_from m at ≡ made ++ (jop.Static true id ∷ ops) → l.field (let here = m.id in here.class) id ≡ Some (Static field)
        → value_in store.statics field ≡ Some old → is_same_kind old (value_by (length store.heap) contents) ≡ true
        → (later : ℕ) × Reaches l m locals at [] store later [] (store_with store field contents) × (ops_from m later ≡ ops) }
{}
