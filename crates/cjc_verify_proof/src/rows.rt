//! Rows of the table of opcodes beside what the opcodes mean: where an instruction's operands and locals are what its
//! row needs, the machine is not stuck, and what it leaves is what the row gives. It has laws alone, for whoever proves
//! that components which break no rule are never stuck. It knows no class and no constant pool.
ghost use Rattle.std.specs.Prelude.{◌≡◌, ◌≤◌, ℕ, Bool, false, List, ◌∷◌, length, drop, Option, Some, ℤ};
ghost use Rattle.cjc_card_semantics.specs.CapRead.Opcodes.{Form, Operand, form};
ghost use Rattle.cjc_card_semantics.specs.CapRead.Decode.{Instruction, before_table, decode};
ghost use Rattle.cjc_script.specs.declared.value.Value.{Value};
ghost use Rattle.cjc_types.specs.Cells.{IsCellBelow};
ghost use Rattle.cjc_types.specs.declared.cell.Cell.{Cell};
ghost use Rattle.cjc_types.specs.declared.state.Stack.TheVariants.{Cells};
ghost use Rattle.cjc_card_semantics.specs.Bytecode.Calculations.{Calculation, Test};
ghost use Rattle.cjc_card_semantics.specs.Bytecode.Meanings.{meaning};
ghost use Rattle.cjc_frames.specs.declared.acts.Need.{Need};
ghost use Rattle.cjc_frames.specs.Acts.{Subtype, stack_behind, with_writes, has_wrong};
ghost use Rattle.cjc_card_acts.specs.Rows.{Row, row};
ghost use Rattle.cjc_verify_proof.specs.Words.{IsWord, AreWords, AreLocals, Leaves, Chooses};
ghost use Rattle.cjc_verify_proof.specs.Beside.{BesidePlain, BesideTest, Beside, AreRead};
ghost use Rattle.cjc_verify_proof.specs.Acts.{Passes, plain_act};

/// A word of a cell is one of each cell above it.
pub fn words_stay_words()
    ensures { (is : (type : List ℕ) → (object : ℕ) → Bool) → (x y : Cell) (v : Value) → IsCellBelow x y
        → IsWord is x v → IsWord is y v }
{}

/// An instruction that sees the stack and the locals alone leaves what its row gives, or raises, where these are what
/// the row needs.
pub fn plain_rows_hold()
    ensures { (is : (type : List ℕ) → (object : ℕ) → Bool) (is_of : Subtype) (room : ℕ) (r : Row)
        (f : List ℤ → Calculation) (kinds : List Operand) → BesidePlain r f kinds
        → (operands : List ℤ) → AreRead kinds operands → (cells local_cells : List Cell) (stack : List Value)
        (locals : List (Option Value)) → AreWords is cells stack → AreLocals is local_cells locals
        → (let a = plain_act r operands in Passes is_of room a local_cells cells
        → Leaves is (stack_behind a local_cells cells) (with_writes a local_cells (Cells cells) a.writes local_cells)
        (f operands room locals stack)) }
{}

/// The tables of the card's opcodes agree, opcode by opcode: what a row says is taken, given, read and written belongs
/// to the meaning of its opcode, and what the meaning reads of operands is there by the form.
pub fn rows_stand_beside_meanings()
    ensures { (opcode : ℕ) → Beside (row opcode) (meaning opcode) (form opcode) }
{}

/// The operands of a decoded instruction, of a switch those before its table, are as many as the form of its opcode
/// says, and none without a sign is below 0.
pub fn operands_are_read()
    ensures { (opcode : ℕ) (bytes : List ℕ) (i : Instruction) (f : Form) → form opcode ≡ Some f
        → decode (opcode ∷ bytes) ≡ Some i → AreRead (before_table f) i.operands }
{}

/// A condition of a jump applies where the words on top are what it needs, and leaves what lies behind them.
pub fn jumps_hold()
    ensures { (is : (type : List ℕ) → (object : ℕ) → Bool) (is_of : Subtype) (needs : List Need) (falls : Bool)
        (test : Test) → BesideTest needs falls test → (cells : List Cell) (stack : List Value) → AreWords is cells stack
        → has_wrong is_of needs cells ≡ false → length needs ≤ length cells
        → Chooses is (drop (length needs) cells) (test stack) }
{}
