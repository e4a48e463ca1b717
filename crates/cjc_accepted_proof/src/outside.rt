//! Rows of reached instructions outside of pairs: what is written for each stands between its frames, where the entries
//! of the constant pool that it names say what the class file names.
ghost use Rattle.std.specs.Prelude.{◌≡◌, Bool, List, Option, Some, length, slice_get, suc, ℕ};
ghost use Rattle.cjc_types.specs.Bytecode.declared.insn.JInsn.{JInsn};
ghost use Rattle.cjc_types.specs.Fixpoint.Tables.{HasRow, IsClosed};
ghost use Rattle.cjc_types.specs.Flow.{Body, type_flow};
ghost use Rattle.cjc_types.specs.Tables.{Breach};
ghost use Rattle.cjc_types.specs.World.Classes.{Class};
ghost use Rattle.cjc_types.specs.declared.state.State.{State};
ghost use Rattle.cjc_check_proof.specs.NCode.Lowering.Naming.{Naming};
ghost use Rattle.cjc_check_proof.specs.NCode.Written.{Resolution};
ghost use Rattle.cjc_check_proof.specs.NarrowProof.Tables.Analysis.{IsDecoded};
ghost use Rattle.cjc_check_proof.specs.NarrowProof.Tables.Pairs.{AreInPairs};
ghost use Rattle.cjc_frames.specs.Acts.{Subtype};
ghost use Rattle.cjc_verify.specs.CardActs.CardTypes.{ValueType};
ghost use Rattle.cjc_verify.specs.Narrow.Pairs.Open.{Open, closed};
ghost use Rattle.cjc_verify.specs.Pairs.{Pair};
ghost use Rattle.cjc_accepted_proof.specs.Coded.{step_laid};
ghost use Rattle.cjc_accepted_proof.specs.Methods.{RowStands};
ghost use Rattle.cjc_accepted_proof.specs.Served.{IsServed, IsServedIn};

/// What is written for a reached instruction of a method that breaks no rule stands between its frames, goes on where
/// the instruction does, and jumps to what is written for its targets, where no pair is open before it or behind it and
/// what it names is served.
pub fn rows_outside_pairs_stand()
    ensures { (card_type : List ℕ → Option (List ℕ)) (is_of : Subtype) (w : List Class) (b : Body) (p : Pair)
        (result : ValueType) (n : Naming) (r : Resolution) (rows : List (Option State)) (opened : ℕ → Open)
        (to : ℕ → ℕ) (wide : ℕ → Bool) (count : ℕ) → IsServedIn card_type is_of w p n r b result → IsDecoded b
        → IsClosed (type_flow b) (length b.insns) rows → ((at rule : ℕ) → Breach w b rows at rule → ⊥)
        → AreInPairs r b rows opened → (at from : ℕ) (i : JInsn) (x : State) → slice_get b.insns at ≡ Some i
        → HasRow rows at x → opened at ≡ closed → opened (suc at) ≡ closed → IsServed card_type is_of w p n r b i.op
        → RowStands card_type is_of r b rows opened (step_laid p result n to wide) count b.max_stack to at from i x }
{}
