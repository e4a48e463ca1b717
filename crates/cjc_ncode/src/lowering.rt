//! Laws of lowering: narrow code as its machine runs it, by name and label, and components as the machine by
//! token runs them, by token and offset. Whoever emits components cites them. It has no code that runs, and
//! knows no class file, no interval, and not how a table or a layout was made.
ghost use Rattle.std.specs.Prelude.{◌≡◌, ◌<◌, ◌≤◌, ℕ, Bool, false, List, length, slice_get, codes, Some, None, ℤ};
ghost use Rattle.cjc_code.specs.Bytes.declared.fault.MemberId.{MemberId};
ghost use Rattle.cjc_card_semantics.specs.Script.Sorts.{Shape};
ghost use Rattle.cjc_card_semantics.specs.Bytecode.Meanings.{meaning};
ghost use Rattle.cjc_card_semantics.specs.Bytecode.Renaming.{option_as, shape_as};
ghost use Rattle.cjc_card_semantics.specs.Bytecode.Alike.{SettingsAlike, RunsAgree, RunsStickAlike, KnownState, IsFree};
ghost use Rattle.cjc_card_semantics.specs.Bytecode.Alike.{state_as};
ghost use Rattle.cjc_card_semantics.specs.Machine.ByToken.{by_token};
ghost use Rattle.cjc_card_semantics.specs.Machine.Operations.{operation};
ghost use Rattle.cjc_card_semantics.specs.Bytecode.Machine.{Fetched, State, run};
ghost use Rattle.cjc_card_semantics.specs.Machine.Loaded.{Part};
ghost use Rattle.cjc_card_semantics.specs.Machine.Methods.{fetch, handler, handler_among, start_of};
ghost use Rattle.cjc_ncode.specs.declared.narrow.NInsn.{NInsn};
ghost use Rattle.cjc_ncode.specs.declared.narrow.NCase.{NCase};
ghost use Rattle.cjc_ncode.specs.declared.narrow.NCatch.{NCatch};
ghost use Rattle.cjc_ncode.specs.declared.narrow.NMethod.{NMethod};
ghost use Rattle.cjc_ncode.specs.ByLabel as ByLabel;
ghost use Rattle.cjc_ncode.specs.ByLabel.{Named, by_label};
ghost use Rattle.cjc_ncode.specs.Lowering.Naming.{Naming, on_card};
ghost use Rattle.cjc_ncode.specs.Lowering.Laid.{laid, IsFormed};
ghost use Rattle.cjc_ncode.specs.Lowering.Handlers.{handlers_of, IsAscending, AllLie, SubtypesAgree, IsObject};
ghost use Rattle.cjc_ncode.specs.Lowering.Placed.{Placed, offset_of, code_of, fetched_on_card, short_header};
ghost use Rattle.cjc_ncode.specs.Lowering.Placed.{extended_header, start_on_card, IsLaidOut, Stands, HandlersStand};
ghost use Rattle.cjc_ncode.specs.Lowering.Placed.{IsHeader, IsListed};
ghost use Rattle.cjc_ncode.specs.Lowering.Opcodes.{HoldsOfAll, pushes, locals, increases, copies, jumps, switches};
ghost use Rattle.cjc_ncode.specs.Lowering.Opcodes.{element_types};
ghost use Rattle.cjc_ncode.specs.Lowering.Package.{AreConsecutive, HoldsMethods, all_bytes, all_handlers};
ghost use Rattle.cjc_ncode.specs.Lowering.Worked.{naming, methods, g, of_a};
ghost use Rattle.cjc_card_semantics.specs.Machine.Worked.{calls};
ghost use Rattle.cjc_card_semantics.specs.Machine.Methods.{methods_begin as begin_at};
ghost use Rattle.cjc_ncode.specs.declared.narrow.NInsn.TheVariants as insns;
ghost use Rattle.cjc_ncode.specs.declared.narrow.PoolKey.TheVariants as keys;
ghost use Rattle.cjc_ncode.specs.Lowering.ByPlace.{Methods, by_place};
ghost use Rattle.cjc_ncode.specs.Lowering.Agreement.{Cells, Memories, names, KnownNames, known_by, IsKnownCall};
ghost use Rattle.cjc_ncode.specs.Lowering.Agreement.{IsAmong, TablesAgree, everything, code_alone, MethodsAgree};

/// An instruction of any form does at its offset, by the pool of its package, what the narrow one does by
/// name: the same calculation, jump, field, static cell, call, class or type, under the names of the card.
pub fn laid_instructions_do_the_same()
    ensures { (n : Naming) (to : ℕ → ℕ) (at : ℕ) (wide : Bool) (insn : NInsn) → IsFormed n insn
        → let i = laid n to at wide insn in operation n.loaded n.part n.pool at (meaning i.opcode) i.operands i.table
        ≡ on_card n to (ByLabel.operation insn) }
{}

/// The search through a method's handlers at an offset, which stop bits may end, finds the place of the
/// handler that the search by label finds, or none where that finds none, for what is of java/lang/Object by name:
/// entry 0 serves a handler of that class and takes whatever is thrown.
pub fn handlers_are_found()
    ensures { (n : Naming) (l : Named) (to : ℕ → ℕ) (count k : ℕ) (kind : Shape (List ℕ)) → k ≤ count
        → IsAscending count to → SubtypesAgree n l kind → IsObject l kind → (catches : List NCatch)
        → AllLie n count catches → handler_among n.loaded n.part n.pool (handlers_of n to catches) (to k)
        (shape_as n.class kind) ≡ option_as to (ByLabel.handler l catches k kind) }
{}

/// What narrow code fetches at a label, the card fetches at the label's offset, for each method whose bytes
/// stand in Method: the same operation under the names of the card, and the offset of the same next label.
pub fn methods_are_fetched()
    ensures { (n : Naming) (p : Placed) (part : Part) → IsLaidOut n p → Stands n p part
        → (k : ℕ) (i : Fetched (List ℕ) MemberId MemberId ByLabel.Callee) → ByLabel.fetch p.method k ≡ Some i
        → fetch n.loaded (code_of n p) (offset_of n p k) ≡ Some (fetched_on_card n p i) }
{}

/// Later labels of a method stand at greater offsets, up to the end of its code.
pub fn labels_ascend()
    ensures { (n : Naming) (p : Placed) → IsLaidOut n p → let m = p.method
        in IsAscending (length m.insns) (offset_of n p) }
{}

/// An exception at a label's offset, of java/lang/Object by name, goes on at the offset of the handler that takes it
/// at the label, or leaves the method where none does, for each method whose bytes and handlers stand in Method:
/// other methods' handlers take none of its exceptions.
pub fn exceptions_are_caught()
    ensures { (n : Naming) (l : Named) (p : Placed) (part : Part) (kind : Shape (List ℕ)) → IsLaidOut n p
        → Stands n p part → HandlersStand n p part → SubtypesAgree n l kind → IsObject l kind
        → (let m = p.method in AllLie n (length m.insns) m.catches → (k : ℕ)
        → handler n.loaded (code_of n p) (offset_of n p k) (shape_as n.class kind) ≡ option_as (offset_of n p)
        (ByLabel.handler l m.catches k kind)) }
{}

/// Where a package holds its methods one behind the other, with their handlers in the same order, the bytes and
/// the handlers of each stand as the laws of one method ask.
pub fn packages_stand()
    ensures bytes { (n : Naming) (part : Part) (placed : List Placed) → HoldsMethods n part placed
        → (j : ℕ) (p : Placed) → slice_get placed j ≡ Some p → Stands n p part }
    ensures handlers { (n : Naming) (part : Part) (placed : List Placed) → HoldsMethods n part placed
        → (j : ℕ) (p : Placed) → slice_get placed j ≡ Some p → HandlersStand n p part }
{}

/// Both headers are read as what the method says, the short one where each of its numbers is a nibble.
pub fn headers_are_read()
    ensures short { (m : NMethod) → m.max_stack < 16 → m.nargs < 16 → m.max_locals < 16
        → IsHeader false m (short_header m) }
    ensures extended { (m : NMethod) → IsHeader false m (extended_header m) }
{}

/// A method whose bytes stand in Method and which Descriptor lists begins on the card with what its header says,
/// at the offset of its first label, and its code ends behind its last instruction.
pub fn methods_begin()
    ensures { (n : Naming) (p : Placed) (part : Part) (is_abstract : Bool)
        → (let m = p.method in IsHeader is_abstract m p.header) → Stands n p part → IsListed n p part
        → start_of n.loaded n.part p.offset ≡ Some (start_on_card n is_abstract p) }
{}

/// Where a package holds its methods and its tables agree with the look-ups by name, narrow code and components
/// are alike, and give equal reports for every script and every number of instructions where narrow code is not
/// stuck.
pub fn settings_are_alike()
    ensures alike { (n : Naming) (part : Part) (placed : List Placed) (memories : Memories) (l : Named)
        (methods : Methods) (known : KnownNames) → HoldsMethods n part placed
        → TablesAgree n placed memories l methods (known_by known) (IsKnownCall known)
        → SettingsAlike (names n memories) (known_by known) (IsAmong placed) (IsKnownCall known) (by_place l methods)
        (by_token n.loaded) }
    ensures runs { (n : Naming) (part : Part) (placed : List Placed) (memories : Memories) (l : Named)
        (methods : Methods) (known : KnownNames) → HoldsMethods n part placed
        → TablesAgree n placed memories l methods (known_by known) (IsKnownCall known)
        → RunsAgree (names n memories) (known_by known) (IsAmong placed) (IsKnownCall known) (by_place l methods)
        (by_token n.loaded) }
{}

/// Components made by hand are what their narrow code is laid out as: the bytes of eight methods, two handlers of
/// which one lets the search go on, and the entries of a static call, of virtual calls and of a class.
pub fn worked_package_is_laid_out()
    ensures bytes { (let method = calls.method in method.methods) ≡ all_bytes naming methods }
    ensures handlers { (let method = calls.method in method.handlers) ≡ all_handlers naming methods }
    ensures consecutive { AreConsecutive naming (begin_at calls) methods }
    ensures static_call { IsFormed naming (insns.Named 0x8D (keys.StaticMethod g)) }
    ensures virtual_call { IsFormed naming (insns.Named 0x8B (keys.Virtual (of_a (codes "w")))) }
    ensures made { IsFormed naming (insns.Named 0x8F (keys.Class (codes "p/B"))) }
{}

/// Methods told apart by where they stand run as by their code alone: equal reports for every script and every
/// number of instructions where the first are not stuck; and they are not stuck where their code alone is not.
pub fn placed_methods_run_as_by_label()
    ensures reports { (l : Named) (methods : Methods) → MethodsAgree l methods
        → RunsAgree code_alone (known_by everything) (λ p. Unit {0}) (IsKnownCall everything) (by_place l methods)
        (by_label l) }
    ensures sticks { (l : Named) (methods : Methods) → MethodsAgree l methods
        → RunsStickAlike code_alone (known_by everything) (λ p. Unit {0}) (IsKnownCall everything) (by_place l methods)
        (by_label l) }
{}

/// Each opcode that a form of narrow instruction can have means what the form says, of a jump in both its forms;
/// type tests may name each type of numbers.
pub fn opcodes_are_formed()
    ensures pushes { (n : Naming) (value : ℤ) → HoldsOfAll (λ op. IsFormed n (insns.Push op value)) pushes }
    ensures locals { (n : Naming) (index : ℕ) → HoldsOfAll (λ op. IsFormed n (insns.Local op index)) locals }
    ensures increases { (n : Naming) (index : ℕ) (by : ℤ) → HoldsOfAll (λ op. IsFormed n (insns.Inc op index by))
        increases }
    ensures copies { (n : Naming) (high low : ℕ) → HoldsOfAll (λ op. IsFormed n (insns.Words op high low)) copies }
    ensures jumps { (n : Naming) (target : ℕ) → HoldsOfAll (λ op. IsFormed n (insns.Jump op target)) jumps }
    ensures switches { (n : Naming) (other : ℕ) (low : ℤ) (cases : List NCase)
        → HoldsOfAll (λ op. IsFormed n (insns.Switch op other low cases)) switches }
    ensures casts { (n : Naming) → HoldsOfAll (λ kind. IsFormed n (insns.TypeTest 0x94 kind None)) element_types }
    ensures asks { (n : Naming) → HoldsOfAll (λ kind. IsFormed n (insns.TypeTest 0x95 kind None)) element_types }
{}

/// Components run as narrow code does by label: equal reports from every known state and for every number of
/// instructions where narrow code by label is not stuck.
pub fn runs_agree()
    ensures { (n : Naming) (part : Part) (placed : List Placed) (memories : Memories) (l : Named) (methods : Methods)
        (known : KnownNames) → HoldsMethods n part placed → TablesAgree n placed memories l methods (known_by known)
        (IsKnownCall known) → MethodsAgree l methods → (k : ℕ) (s : State Placed (List ℕ) MemberId Cells)
        → KnownState (names n memories) (known_by known) (IsAmong placed) (IsKnownCall known) s
        → IsFree code_alone (known_by everything) (λ p. Unit {0}) (IsKnownCall everything)
        (run (by_label l) k (state_as code_alone s)) → run (by_token n.loaded) k (state_as (names n memories) s)
        ≡ run (by_label l) k (state_as code_alone s) }
{}
