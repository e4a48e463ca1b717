//! Rows that see the stack and the locals alone, as the type checker reads them. It has laws alone, for whoever proves
//! that components which break no rule are never stuck.
ghost use Rattle.std.specs.Prelude.{◌≡◌, List, ℤ};
ghost use Rattle.cjc_capread.specs.Opcodes.{Operand};
ghost use Rattle.cjc_capread.specs.Decode.{Instruction};
ghost use Rattle.cjc_card_semantics.specs.Bytecode.Calculations.{Calculation};
ghost use Rattle.cjc_check_rules.specs.Spots.{Placed};
ghost use Rattle.cjc_card_acts.specs.CardTypes.{ValueType};
ghost use Rattle.cjc_card_acts.specs.Rows.{Row};
ghost use Rattle.cjc_verify.specs.Instructions.{act_by};
ghost use Rattle.cjc_verify.specs.Pairs.{Pair};
ghost use Rattle.cjc_verify_proof.specs.Acts.{plain_act};
ghost use Rattle.cjc_verify_proof.specs.Beside.{BesidePlain};

/// What the type checker takes an instruction for that sees the stack and the locals alone is what its row and its
/// operands say.
pub fn plain_rows_are_read()
    ensures { (p : Pair) (result : ValueType) (i : Placed Instruction) (r : Row) (f : List ℤ → Calculation)
        (kinds : List Operand) → BesidePlain r f kinds
        → act_by p result i r ≡ plain_act r (let x = i.item in x.operands) }
{}
