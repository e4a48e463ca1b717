//! The acts of what is written for instructions that name nothing, where it is laid.
ghost use Rattle.std.specs.Prelude.{◌≡◌, ◌==◌, ℕ, ℤ, Bool, false, List, [], ◌∷◌, map};
ghost use Rattle.cjc_types.specs.Bytecode.Jvm.{i2b, ineg};
ghost use Rattle.cjc_types.specs.Bytecode.declared.insn.JOp.TheVariants.{Arith, Inc, Load, Narrow, Null, Number};
ghost use Rattle.cjc_types.specs.Bytecode.declared.insn.JOp.TheVariants.{Stack};
ghost use Rattle.cjc_types.specs.Bytecode.declared.insn.JOp.TheVariants.{Store};
ghost use Rattle.cjc_types.specs.Steps.{shuffled, stack_takes};
ghost use Rattle.cjc_check_proof.specs.NCode.Lowering.Naming.{Naming};
ghost use Rattle.cjc_check_proof.specs.NCode.Written.{Resolution, written};
ghost use Rattle.cjc_check_proof.specs.NCode.declared.narrow.NInsn.{NInsn};
ghost use Rattle.cjc_verify.specs.CardActs.CardTypes.{ValueType};
ghost use Rattle.cjc_verify.specs.CardActs.Rows.{any_words, calculating, idle, increasing, loading, pushing};
ghost use Rattle.cjc_verify.specs.CardActs.Rows.{storing};
ghost use Rattle.cjc_verify.specs.CardSemantics.Bytecode.Effects.{Short};
ghost use Rattle.cjc_frames.specs.declared.acts.Given.TheVariants.{ANull, ANumber, Operand};
ghost use Rattle.cjc_verify.specs.Pairs.{Pair};
ghost use Rattle.cjc_accepted_proof.specs.Plain.{IsStackOpcode, act_laid, letter_moving};

/// The one instruction that is written for a constant, for a load, a store or an increase of a local, for arithmetic,
/// i2b and the stack's instructions has the act that mirrors them, wherever it is laid.
pub fn written_acts_are_those_that_mirror()
    ensures null { (p : Pair) (result : ValueType) (n : Naming) (to : ℕ → ℕ) (at : ℕ) (wide : Bool) (r : Resolution)
        (place : ℕ → ℕ) (insn : NInsn) → written r place Null ≡ insn ∷ []
        → act_laid p result n to at wide insn ≡ pushing (ANull ∷ []) }
    ensures number { (p : Pair) (result : ValueType) (n : Naming) (to : ℕ → ℕ) (at : ℕ) (wide : Bool) (r : Resolution)
        (place : ℕ → ℕ) (z : ℤ) (insn : NInsn) → written r place (Number z) ≡ insn ∷ []
        → act_laid p result n to at wide insn ≡ pushing (ANumber ∷ []) }
    ensures loads { (p : Pair) (result : ValueType) (n : Naming) (to : ℕ → ℕ) (at : ℕ) (wide : Bool) (r : Resolution)
        (place : ℕ → ℕ) (refs : Bool) (l : ℕ) (insn : NInsn) → written r place (Load refs l) ≡ insn ∷ []
        → act_laid p result n to at wide insn ≡ loading (letter_moving refs) l }
    ensures stores { (p : Pair) (result : ValueType) (n : Naming) (to : ℕ → ℕ) (at : ℕ) (wide : Bool) (r : Resolution)
        (place : ℕ → ℕ) (refs : Bool) (l : ℕ) (insn : NInsn) → written r place (Store refs l) ≡ insn ∷ []
        → act_laid p result n to at wide insn ≡ storing (letter_moving refs) l }
    ensures increases { (p : Pair) (result : ValueType) (n : Naming) (to : ℕ → ℕ) (at : ℕ) (wide : Bool)
        (r : Resolution) (place : ℕ → ℕ) (l : ℕ) (by : ℤ) (insn : NInsn) → written r place (Inc l by) ≡ insn ∷ []
        → act_laid p result n to at wide insn ≡ increasing Short l }
    ensures negation { (p : Pair) (result : ValueType) (n : Naming) (to : ℕ → ℕ) (at : ℕ) (wide : Bool) (r : Resolution)
        (place : ℕ → ℕ) (insn : NInsn) → written r place (Arith ineg) ≡ insn ∷ []
        → act_laid p result n to at wide insn ≡ calculating 1 1 }
    ensures arithmetic { (p : Pair) (result : ValueType) (n : Naming) (to : ℕ → ℕ) (at : ℕ) (wide : Bool)
        (r : Resolution) (place : ℕ → ℕ) (op : ℕ) → (op == ineg) ≡ false → (insn : NInsn)
        → written r place (Arith op) ≡ insn ∷ [] → act_laid p result n to at wide insn ≡ calculating 2 1 }
    ensures narrowing { (p : Pair) (result : ValueType) (n : Naming) (to : ℕ → ℕ) (at : ℕ) (wide : Bool)
        (r : Resolution) (place : ℕ → ℕ) (insn : NInsn) → written r place (Narrow i2b) ≡ insn ∷ []
        → act_laid p result n to at wide insn ≡ calculating 1 1 }
    ensures stack { (p : Pair) (result : ValueType) (n : Naming) (to : ℕ → ℕ) (at : ℕ) (wide : Bool) (r : Resolution)
        (place : ℕ → ℕ) (op : ℕ) → IsStackOpcode op → (insn : NInsn) → written r place (Stack op) ≡ insn ∷ []
        → act_laid p result n to at wide insn ≡ record idle {
          takes = any_words (stack_takes op);
          gives = map Operand (shuffled op);
        } }
{}
