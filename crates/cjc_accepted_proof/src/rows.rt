//! Rows of the table of written code: a written instruction breaks no rule where the one of the class file breaks none,
//! and hands on no more than the table has behind it.
ghost use Rattle.std.specs.Prelude.{◌≡◌, ℕ, List, Option, ◌==◌, false};
ghost use Rattle.cjc_verify.specs.CapRead.declared.tree.ClassRef.{ClassRef};
ghost use Rattle.cjc_frames.specs.Acts.{Subtype};
ghost use Rattle.cjc_frames.specs.declared.acts.Act.{Act};
ghost use Rattle.cjc_verify.specs.CardActs.Rows.{calculating};
ghost use Rattle.cjc_types.specs.Bytecode.Jvm.{ineg};
ghost use Rattle.cjc_types.specs.Bytecode.declared.insn.JOp.{JOp};
ghost use Rattle.cjc_types.specs.Bytecode.declared.insn.JOp.TheVariants.{Arith};
ghost use Rattle.cjc_types.specs.Flow.{Body};
ghost use Rattle.cjc_types.specs.Rules.{has_wrong, is_off};
ghost use Rattle.cjc_types.specs.Steps.{after};
ghost use Rattle.cjc_types.specs.declared.cell.Cell.{Cell};
ghost use Rattle.cjc_types.specs.declared.state.Stack.TheVariants.{Cells};
ghost use Rattle.cjc_verify.specs.Narrow.Pairs.Open.{closed};
ghost use Rattle.cjc_types.specs.World.Classes.{Class};
ghost use Rattle.cjc_accepted_proof.specs.Frames.{Mirrors, Stands, card_state};

/// The row of an instruction outside of pairs stands where its act mirrors the instruction of the class file, whose
/// stack has the words that it takes and no more than the method's.
pub fn mirrored_rows_stand()
    ensures { (card_type : List ℕ → Option (List ℕ)) (is_of : Subtype) (w : List Class) (b : Body) (count : ℕ) (op :
        JOp) (a : Act) (locals s : List Cell) → Mirrors card_type is_of op a locals s → is_off b op locals s ≡ false
        → Stands is_of count b.max_stack a (card_state card_type closed (record { stack = Cells s; locals = locals }))
        (card_state card_type closed (after op (record { stack = Cells s; locals = locals }))) }
{}

/// Arithmetic of two operands is mirrored where its operands are numbers.
pub fn arithmetic_is_mirrored()
    ensures { (card_type : List ℕ → Option (List ℕ)) (is_of : Subtype) (w : List Class) (b : Body) (opcode : ℕ) →
        (opcode == ineg) ≡ false → (locals s : List Cell) → has_wrong w b (Arith opcode) 2 0 s ≡ false
        → Mirrors card_type is_of (Arith opcode) (calculating 2 1) locals s }
{}
