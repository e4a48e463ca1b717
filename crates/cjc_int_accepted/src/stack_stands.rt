//! What is written in int mode for an instruction of the stack stands between its frames.
ghost use Rattle.std.specs.Prelude.{Bool, List, Option, map, ℕ, ◌≡◌};
ghost use Rattle.cjc_accepted_proof.specs.Plain.{IsStackOpcode};
ghost use Rattle.cjc_check_proof.specs.NCode.Lowering.Naming.{Naming};
ghost use Rattle.cjc_check_proof.specs.NCode.Written.{Resolution};
ghost use Rattle.cjc_frames.specs.Acts.{Subtype};
ghost use Rattle.cjc_int_accepted.specs.Frames.{Room};
ghost use Rattle.cjc_int_accepted.specs.Methods.{Selection};
ghost use Rattle.cjc_int_accepted.specs.Standing.{IsStanding};
ghost use Rattle.cjc_ncode.specs.IntCode.IntCode.{Before, Frame};
ghost use Rattle.cjc_types.specs.Bytecode.declared.insn.JOp.TheVariants as jop;
ghost use Rattle.cjc_types.specs.Flow.{Body};
ghost use Rattle.cjc_types.specs.Rules.{is_reference};
ghost use Rattle.cjc_types.specs.Search.{cells_of};
ghost use Rattle.cjc_types.specs.World.Classes.{Class};
ghost use Rattle.cjc_types.specs.declared.state.State.{State};
ghost use Rattle.cjc_verify.specs.CardActs.CardTypes.{ValueType};
ghost use Rattle.cjc_verify.specs.Pairs.{Pair};

/// What is written for an instruction of the stack stands between its frames, where the cells that are known to be
/// references are those of its frame.
pub fn stack_instructions_stand()
    ensures { (card_type : List ℕ → Option (List ℕ)) (is_of : Subtype) (m : Room) (new : Selection) (b : Body)
        (rows : List (Option State)) (label to : ℕ → ℕ) (p : Pair) (result : ValueType) (n : Naming) (wide : ℕ →
        Bool) (f : Frame) (r : Resolution) (known : Before) (w : List Class) (count place here o : ℕ) (x : State)
        → known.references ≡ map is_reference (cells_of x.stack) → (op : ℕ) → IsStackOpcode op → IsStanding
        card_type is_of m new b rows label to p result n wide f r known w count place here o x (jop.Stack op) }
{}
