//! Rows of instructions that name nothing: words that are put, locals, the stack's instructions, numbers, jumps and
//! switches.
ghost use Rattle.std.specs.Prelude.{◌≡◌, ◌<◌, ℕ, List, Option, [], ◌∷◌, ℤ, Bool, true, false, length, map};
ghost use Rattle.cjc_frames.specs.Acts.{Subtype};
ghost use Rattle.cjc_frames.specs.declared.acts.Given.TheVariants.{ANull, ANumber, Operand};
ghost use Rattle.cjc_verify.specs.CardActs.Rows.{any_words, calculating, idle, increasing, loading, number_words};
ghost use Rattle.cjc_verify.specs.CardActs.Rows.{pushing, storing};
ghost use Rattle.cjc_verify.specs.CardSemantics.Bytecode.Effects.{Short};
ghost use Rattle.cjc_types.specs.Bytecode.Jvm.{ineg};
ghost use Rattle.cjc_types.specs.Bytecode.declared.insn.JCase.{JCase};
ghost use Rattle.cjc_types.specs.Bytecode.declared.insn.JOp.TheVariants.{Arith, Goto, If, Inc, Load, LookupSwitch};
ghost use Rattle.cjc_types.specs.Bytecode.declared.insn.JOp.TheVariants.{Narrow, Null, Number, Stack, Store};
ghost use Rattle.cjc_types.specs.Bytecode.declared.insn.JOp.TheVariants.{TableSwitch};
ghost use Rattle.cjc_types.specs.Flow.{Body};
ghost use Rattle.cjc_types.specs.Rules.{has_wrong, has_wrong_local, tests_references};
ghost use Rattle.cjc_types.specs.Steps.{compares, shuffled, stack_takes, takes};
ghost use Rattle.cjc_types.specs.declared.cell.Cell.{Cell};
ghost use Rattle.cjc_types.specs.World.Classes.{Class};
ghost use Rattle.cjc_accepted_proof.specs.Frames.{Mirrors};
ghost use Rattle.cjc_accepted_proof.specs.Plain.{letter_moving, tested_words};

/// Constants are mirrored.
pub fn constants_are_mirrored()
    ensures null { (card_type : List ℕ → Option (List ℕ)) (is_of : Subtype) (locals s : List Cell)
        → Mirrors card_type is_of Null (pushing (ANull ∷ [])) locals s }
    ensures number { (card_type : List ℕ → Option (List ℕ)) (is_of : Subtype) (z : ℤ) (locals s : List Cell)
        → Mirrors card_type is_of (Number z) (pushing (ANumber ∷ [])) locals s }
{}

/// Loads, increases and stores of locals are mirrored, where a local that is read is of the right kind and one that is
/// written is there.
pub fn locals_are_mirrored()
    ensures loads { (card_type : List ℕ → Option (List ℕ)) (is_of : Subtype) (refs : Bool) (k : ℕ)
        (locals s : List Cell) → has_wrong_local (Load refs k) locals ≡ false
        → Mirrors card_type is_of (Load refs k) (loading (letter_moving refs) k) locals s }
    ensures increases { (card_type : List ℕ → Option (List ℕ)) (is_of : Subtype) (k : ℕ) (by : ℤ)
        (locals s : List Cell) → has_wrong_local (Inc k by) locals ≡ false
        → Mirrors card_type is_of (Inc k by) (increasing Short k) locals s }
    ensures stores { (card_type : List ℕ → Option (List ℕ)) (is_of : Subtype) (w : List Class) (b : Body) (refs : Bool)
        (k : ℕ) (locals s : List Cell) → k < length locals → has_wrong w b (Store refs k) 1 0 s ≡ false
        → Mirrors card_type is_of (Store refs k) (storing (letter_moving refs) k) locals s }
{}

/// The stack's instructions are mirrored: what takes as many words of any kind and puts the same operands back.
pub fn stack_instructions_are_mirrored()
    ensures { (card_type : List ℕ → Option (List ℕ)) (is_of : Subtype) (opcode n : ℕ) (ks : List ℕ)
        → stack_takes opcode ≡ n → shuffled opcode ≡ ks → (locals s : List Cell)
        → Mirrors card_type is_of (Stack opcode) (record idle { takes = any_words n; gives = map Operand ks }) locals
        s }
{}

/// Numbers of one number are mirrored: ineg and i2b.
pub fn numbers_are_mirrored()
    ensures negation { (card_type : List ℕ → Option (List ℕ)) (is_of : Subtype) (w : List Class) (b : Body)
        (locals s : List Cell) → has_wrong w b (Arith ineg) 1 0 s ≡ false
        → Mirrors card_type is_of (Arith ineg) (calculating 1 1) locals s }
    ensures narrowing { (card_type : List ℕ → Option (List ℕ)) (is_of : Subtype) (w : List Class) (b : Body)
        (opcode : ℕ) (locals s : List Cell) → has_wrong w b (Narrow opcode) 1 0 s ≡ false
        → Mirrors card_type is_of (Narrow opcode) (calculating 1 1) locals s }
{}

/// Jumps and switches are mirrored, wherever they lead.
pub fn jumps_are_mirrored()
    ensures branches { (card_type : List ℕ → Option (List ℕ)) (is_of : Subtype) (w : List Class) (b : Body)
        (opcode target : ℕ) (two references : Bool) → compares opcode ≡ two → tests_references opcode ≡ references
        → (targets : List ℕ) (locals s : List Cell)
        → has_wrong w b (If opcode target) (takes (If opcode target)) 0 s ≡ false
        → Mirrors card_type is_of (If opcode target) (record idle {
          takes = tested_words two references;
          falls = true;
          targets = targets;
        }) locals s }
    ensures gotos { (card_type : List ℕ → Option (List ℕ)) (is_of : Subtype) (target : ℕ) (targets : List ℕ)
        (locals s : List Cell) → Mirrors card_type is_of (Goto target) (record idle {
          takes = [];
          falls = false;
          targets = targets;
        }) locals s }
    ensures tables { (card_type : List ℕ → Option (List ℕ)) (is_of : Subtype) (w : List Class) (b : Body) (other : ℕ)
        (low : ℤ) (cases targets : List ℕ) (locals s : List Cell) → has_wrong w b (TableSwitch other low cases) 1 0 s
        ≡ false → Mirrors card_type is_of (TableSwitch other low cases) (record idle {
          takes = number_words 1;
          falls = false;
          targets = targets;
        }) locals s }
    ensures pairs { (card_type : List ℕ → Option (List ℕ)) (is_of : Subtype) (w : List Class) (b : Body) (other : ℕ)
        (cases : List JCase) (targets : List ℕ) (locals s : List Cell) → has_wrong w b (LookupSwitch other cases) 1 0 s
        ≡ false → Mirrors card_type is_of (LookupSwitch other cases) (record idle {
          takes = number_words 1;
          falls = false;
          targets = targets;
        }) locals s }
{}
