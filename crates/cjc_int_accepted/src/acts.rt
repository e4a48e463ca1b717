//! The acts of what is written in int mode for constants, locals and arithmetic, where it is laid.
ghost use Rattle.std.specs.Prelude.{Bool, [], false, ℕ, ℤ, ◌+◌, ◌==◌, ◌∷◌, ◌≡◌, if◌then◌else◌};
ghost use Rattle.cjc_accepted_proof.specs.Plain.{act_laid};
ghost use Rattle.cjc_ncode.specs.IntCode.IntCode.{loads, pushed, stores};
ghost use Rattle.cjc_check_proof.specs.NCode.Lowering.Naming.{Naming};
ghost use Rattle.cjc_check_proof.specs.NCode.Written.{arithmetic, is_byte};
ghost use Rattle.cjc_check_proof.specs.NCode.declared.narrow.NInsn.TheVariants.{Inc, Op};
ghost use Rattle.cjc_check_proof.specs.NCode.declared.narrow.NInsn.{NInsn};
ghost use Rattle.cjc_frames.specs.declared.acts.Given.TheVariants.{ANumber};
ghost use Rattle.cjc_int_accepted.specs.Acts.{letter_of_local};
ghost use Rattle.cjc_types.specs.Bytecode.Jvm.{ineg};
ghost use Rattle.cjc_verify.specs.CardActs.CardTypes.{ValueType};
ghost use Rattle.cjc_verify.specs.CardActs.Rows.{calculating, increasing, loading, pushing, storing};
ghost use Rattle.cjc_verify.specs.CardSemantics.Bytecode.Effects.{Int};
ghost use Rattle.cjc_verify.specs.Pairs.{Pair};

/// The one instruction that is written in int mode for a number, for a load, a store or an increase of a local and for
/// arithmetic has the act of its row, wherever it is laid.
pub fn written_acts_in_int_mode_are_those_of_rows()
    ensures numbers { (p : Pair) (result : ValueType) (n : Naming) (to : ℕ → ℕ) (at : ℕ) (wide : Bool) (z : ℤ)
        → act_laid p result n to at wide (pushed z) ≡ pushing (ANumber ∷ ANumber ∷ []) }
    ensures loads { (p : Pair) (result : ValueType) (n : Naming) (to : ℕ → ℕ) (at : ℕ) (wide : Bool) (refs : Bool)
        (word : ℕ) (insn : NInsn) → loads refs word ≡ insn ∷ []
        → act_laid p result n to at wide insn ≡ loading (letter_of_local refs) word }
    ensures stores { (p : Pair) (result : ValueType) (n : Naming) (to : ℕ → ℕ) (at : ℕ) (wide : Bool) (refs : Bool)
        (word : ℕ) (insn : NInsn) → stores refs word ≡ insn ∷ []
        → act_laid p result n to at wide insn ≡ storing (letter_of_local refs) word }
    ensures increases { (p : Pair) (result : ValueType) (n : Naming) (to : ℕ → ℕ) (at : ℕ) (wide : Bool) (l : ℕ)
        (z : ℤ) → act_laid p result n to at wide (Inc (if is_byte z then 0x5A else 0x97) l z) ≡ increasing Int l }
    ensures negation { (p : Pair) (result : ValueType) (n : Naming) (to : ℕ → ℕ) (at : ℕ) (wide : Bool)
        → act_laid p result n to at wide (Op (arithmetic ineg + 1)) ≡ calculating 2 2 }
    ensures arithmetic { (p : Pair) (result : ValueType) (n : Naming) (to : ℕ → ℕ) (at : ℕ) (wide : Bool) (op : ℕ)
        → (op == ineg) ≡ false → act_laid p result n to at wide (Op (arithmetic op + 1)) ≡ calculating 4 2 }
{}
