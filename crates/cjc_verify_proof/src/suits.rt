//! Instructions that name nothing in the constant pool: what their rows take and give is what the machine asks of them.
//! It has laws alone, for whoever proves that components which break no rule are never stuck.
ghost use Rattle.std.specs.Prelude.{◌≡◌, ℕ, Bool, true, false, not, List, [], ◌∷◌, ◌++◌, map, Option, Some, ℤ};
ghost use Rattle.std.specs.Prelude.{Contains, if◌then◌else◌, length};
ghost use Rattle.cjc_card_semantics.specs.CapRead.Card as card;
ghost use Rattle.cjc_card_semantics.specs.CapRead.Opcodes.{Operand, Signed2, Index2, form};
ghost use Rattle.cjc_card_semantics.specs.CapRead.declared.tree.PoolEntry.{PoolEntry};
ghost use Rattle.cjc_script.specs.Bytes.declared.fault.MemberId.{MemberId};
ghost use Rattle.cjc_script.specs.Sorts.{Element, OfNumbers, Signature, signature_of};
ghost use Rattle.cjc_card_semantics.specs.Bytecode.Calculations.{Test};
ghost use Rattle.cjc_card_semantics.specs.Bytecode.Effects.{Letter, Touch, Return};
ghost use Rattle.cjc_card_semantics.specs.Bytecode.Meanings.{Use, Branches, Ranged, Paired};
ghost use Rattle.cjc_card_semantics.specs.Bytecode.Machine.{Start};
ghost use Rattle.cjc_card_semantics.specs.Machine.Loaded.{Loaded};
ghost use Rattle.cjc_card_semantics.specs.Machine.Methods.{Code, start_of};
ghost use Rattle.cjc_card_semantics.specs.Machine.Operations.{Fixed, Outer, element_type, moved, operation};
ghost use Rattle.cjc_frames.specs.declared.acts.Act.{Act};
ghost use Rattle.cjc_frames.specs.declared.acts.Need.{Need};
ghost use Rattle.cjc_frames.specs.Acts.{given};
ghost use Rattle.cjc_card_acts.specs.Rows.{Jumps, Switches, Uses, idle, number_words, row};
ghost use Rattle.cjc_card_acts.specs.CardTypes.{ValueType, is_returned_by, needs_of, needs_of_all, numbers_type};
ghost use Rattle.cjc_card_acts.specs.CardTypes.{shape_by};
ghost use Rattle.cjc_card_acts.specs.CardTypes.{words};
ghost use Rattle.cjc_card_acts.specs.CheckRules.Spots.{lies_between};
ghost use Rattle.cjc_card_acts.specs.CheckRules.Instructions.{default_of, is_jump, is_needed_by, pair_offsets};
ghost use Rattle.cjc_verify_proof.specs.Beside.{BesideTest, AreRead};
ghost use Rattle.cjc_verify_proof.specs.Control.{switched_words};
ghost use Rattle.cjc_verify_proof.specs.Calls.{receiver_needs, has_receiver, argument_cells, AreSorts, IsResult};
ghost use Rattle.cjc_verify_proof.specs.Frames.{Typing, Program, Begins};
ghost use Rattle.cjc_verify_proof.specs.Turns.{Calls};
ghost use Rattle.cjc_verify_proof.specs.Instructions.{Suits};
ghost use Rattle.cjc_verify_proof.specs.Uses.{is_index_form, is_used_by};

/// The opcodes whose rows are those of jumps are the ones whose operand says how far to jump; those of switches are
/// none of them.
pub fn opcodes_jump()
    ensures jumps { (opcode : ℕ) (needs : List Need) (falls : Bool) → row opcode ≡ Jumps needs falls
        → is_jump opcode ≡ true }
    ensures switches { (opcode n : ℕ) → row opcode ≡ Switches n → is_jump opcode ≡ false }
{}

/// An opcode whose row uses an entry of the constant pool has an index alone behind it, and needs an entry that is used
/// so.
pub fn uses_name_entries()
    ensures { (op : ℕ) (how : Use) → row op ≡ Uses how → (is_index_form (form op) ≡ true)
        × ((entry : PoolEntry) → is_needed_by entry op ≡ true → is_used_by how entry ≡ true)
        × (lies_between card.checkcast card.instanceof op ≡ false) }
{}

/// A jump is what its row says: it goes where its operand says, or falls.
pub fn jumps_suit()
    ensures { (l : Loaded) (program : Program) (result : ValueType) (part at : ℕ) (pool : List PoolEntry)
        (needs : List Need) (falls : Bool) (test : Test) (k : Operand) → BesideTest needs falls test
        → (operands table : List ℤ) → AreRead (k ∷ []) operands → Suits l program result (record idle {
          takes = needs;
          falls = falls;
          targets = map (moved at) operands;
        }) (operation l part pool at (Branches test) operands table) }
{}

/// A switch is what its row says: it goes where its default or one of its arms says.
pub fn switches_suit()
    ensures ranges { (l : Loaded) (program : Program) (result : ValueType) (part at : ℕ) (pool : List PoolEntry)
        (is_int : Bool) (k : Operand) (operands table : List ℤ) → AreRead (Signed2 ∷ k ∷ k ∷ []) operands
        → Suits l program result (record idle {
          takes = number_words (switched_words is_int);
          falls = false;
          targets = map (moved at) (default_of operands ++ table);
        }) (operation l part pool at (Ranged is_int) operands table) }
    ensures pairs { (l : Loaded) (program : Program) (result : ValueType) (part at : ℕ) (pool : List PoolEntry)
        (is_int : Bool) (operands table : List ℤ) → AreRead (Signed2 ∷ Index2 ∷ []) operands
        → Suits l program result (record idle {
          takes = number_words (switched_words is_int);
          falls = false;
          targets = map (moved at) (default_of operands ++ pair_offsets table);
        }) (operation l part pool at (Paired is_int) operands table) }
{}

/// A return is what its row says, where it is that of the method's result.
pub fn returns_suit()
    ensures { (l : Loaded) (program : Program) (result : ValueType) (letter : Option Letter) (needs : List Need)
        → not (is_returned_by letter result) ≡ false → Suits l program result (record idle {
          takes = if is_returned_by letter result then needs_of result else needs;
          falls = false;
          misfits = not (is_returned_by letter result);
        }) (Touch (Return letter)) }
{}

/// The type of arrays of numbers that a number says is that of the machine.
pub fn numbers_are_meant()
    ensures { (l : Loaded) (n : ℕ) (type : List ℕ) → numbers_type n ≡ Some type → (element : Element)
        × ((element_type n ≡ Some element) × (shape_by l type ≡ Some (OfNumbers element))) }
{}

/// A call of a fixed method of the group is what its act says, where the method takes the arguments that the act takes
/// and gives its result.
pub fn fixed_calls_suit()
    ensures { (l : Loaded) (program : Program) (a : Act) (receiver : Option (List ℕ)) (params : List ValueType)
        (result : ValueType) → a.takes ≡ needs_of_all params ++ receiver_needs receiver → a.gives ≡ words result
        → a.writes ≡ [] → a.falls ≡ true → (part offset : ℕ) (m : Start Code) → start_of l part offset ≡ Some m
        → m.nargs ≡ length a.takes → (t : Typing) → Contains program.methods t → Begins t m
        → map (given [] []) (let b = t.body in b.arguments) ≡ argument_cells receiver params → t.result ≡ result
        → Calls l program a (Fixed (has_receiver receiver) part offset) }
{}

/// A call of a fixed imported method is what its act says, where its descriptor has the types that the act takes and
/// gives.
pub fn outer_calls_suit()
    ensures { (l : Loaded) (program : Program) (a : Act) (receiver : Option (List ℕ)) (params : List ValueType)
        (result : ValueType) → a.takes ≡ needs_of_all params ++ receiver_needs receiver → a.gives ≡ words result
        → a.writes ≡ [] → a.falls ≡ true → (id : MemberId) (sig : Signature) → signature_of id.desc ≡ Some sig
        → AreSorts l sig.params params → IsResult l sig.result result
        → Calls l program a (Outer (has_receiver receiver) id) }
{}
