//! Turns of a run by token: where frames are typed and the innermost instruction does what its act says, a turn is not
//! stuck and leaves typed frames. It has laws alone, for whoever proves that components which break no rule are never
//! stuck.
ghost use Rattle.std.specs.Prelude.{◌≡◌, ℕ, List, ◌∷◌, Option, Some, Contains};
ghost use Rattle.cjc_script.specs.declared.value.Value.{Value};
ghost use Rattle.cjc_script.specs.declared.script.Script.{Script};
ghost use Rattle.cjc_script.specs.declared.report.Outcome.TheVariants.{Stuck};
ghost use Rattle.cjc_types.specs.declared.cell.Cell.{Cell};
ghost use Rattle.cjc_card_semantics.specs.Bytecode.Effects.{Memory, Operation, Effect, effect};
ghost use Rattle.cjc_card_semantics.specs.Bytecode.Machine.{Frame, State, Fetched, counted, step};
ghost use Rattle.cjc_card_semantics.specs.Machine.Loaded.{Loaded};
ghost use Rattle.cjc_card_semantics.specs.Machine.Classes.{Class, Field};
ghost use Rattle.cjc_card_semantics.specs.Machine.Statics.{Image, StaticCell};
ghost use Rattle.cjc_card_semantics.specs.Machine.Operations.{Callee};
ghost use Rattle.cjc_card_semantics.specs.Machine.Methods.{Code, fetch};
ghost use Rattle.cjc_card_semantics.specs.Machine.Calls.{words};
ghost use Rattle.cjc_card_semantics.specs.Machine.ByToken.{classes, by_token, run};
ghost use Rattle.cjc_frames.specs.declared.acts.Act.{Act};
ghost use Rattle.cjc_card_acts.specs.CardTypes.{ValueType, is_type_of};
ghost use Rattle.cjc_verify_proof.specs.Words.{AreWords, AreLocals};
ghost use Rattle.cjc_verify_proof.specs.Acts.{Passes};
ghost use Rattle.cjc_verify_proof.specs.Heaps.{object_is};
ghost use Rattle.cjc_verify_proof.specs.Memories.{IsMemory, SupersStand, AreDeclared};
ghost use Rattle.cjc_verify_proof.specs.Frames.{Typing, Program, AreMethods, Runs, AreOuter};
ghost use Rattle.cjc_verify_proof.specs.Scripts.{GoesOnPrepared, HasExceptions};
ghost use Rattle.cjc_verify_proof.specs.Turns.{AreMade, Calls, Does, GoesOnBy};
ghost use Rattle.cjc_verify_proof.specs.Instructions.{Suits, HoldsOn};
ghost use Rattle.cjc_verify_proof.specs.Runs.{IsProgram};

/// A call begins a method, makes an event or raises, where the instruction takes the words of the method's arguments,
/// puts its result, and what the call reaches on each receiver of its type is such a method.
pub fn calls_go_on()
    ensures { (l : Loaded) (program : Program) → AreMethods l program → HasExceptions l program.exceptions
        → (s : State Code Class Field (List Image)) (t : Typing) → Contains program.methods t → (f : Frame Code)
        (runs : Runs l s.memory.heap t f) (outer : List (Frame Code))
        → AreOuter l program s.memory.heap t.result outer → (i : Fetched Class Field StaticCell Callee)
        → fetch l f.code f.at ≡ Some i → AreMade program s.memory.heap → (callee : Callee)
        → (let x = runs.stands in let y = x.step in Calls l program y.act callee)
        → GoesOnPrepared l program s.memory (counted (by_token l) (words l callee) callee
        (record f { next = i.next }) outer s) }
{}

/// One instruction of the innermost frame is not stuck, and leaves typed frames, where it does what its act says.
pub fn steps_go_on()
    ensures { (l : Loaded) (program : Program) → AreMethods l program → HasExceptions l program.exceptions
        → (s : State Code Class Field (List Image)) (t : Typing) → Contains program.methods t → (f : Frame Code)
        (runs : Runs l s.memory.heap t f) (outer : List (Frame Code))
        → AreOuter l program s.memory.heap t.result outer → (i : Fetched Class Field StaticCell Callee)
        → fetch l f.code f.at ≡ Some i → AreMade program s.memory.heap → (e : Effect Class Field Callee (List Image))
        → e ≡ effect (classes l) i.operation (let c = f.code in c.room) i.next f.locals s.memory f.stack
        → (let x = runs.stands in let y = x.step in Does l program t.result y.act i.next x.locals x.cells s.memory e)
        → GoesOnBy l program s.memory e (step (by_token l) (f ∷ outer) s) }
{}

/// An instruction does what its act says, and where it goes on, memory holds what it may and objects are made as
/// before, where operands and locals are what the act needs.
pub fn instructions_do()
    ensures { (l : Loaded) (program : Program) (result : ValueType) (room next : ℕ) (local_cells : List Cell)
        (locals : List (Option Value)) (m : Memory Class Field (List Image))
        → AreLocals (object_is l m.heap) local_cells locals → SupersStand l → AreDeclared l program.fields
        → IsMemory l program.fields m → (a : Act)
        (operation : Operation Class Field StaticCell Callee) → Suits l program result a operation
        → (cells : List Cell) (stack : List Value) → AreWords (object_is l m.heap) cells stack
        → Passes (is_type_of l) room a local_cells cells
        → (let e = effect (classes l) operation room next locals m stack in
        Does l program result a next local_cells cells m e × HoldsOn l program m e) }
{}

/// No run of a program is stuck, whatever the script and however many instructions are run: where its methods break no
/// rule, its instructions are what their acts say, entries begin its methods, and exceptions are there.
pub fn runs_are_never_stuck()
    ensures { (l : Loaded) (program : Program) → IsProgram l program → (script : Script) (n at : ℕ)
        → (let r = run l script n in r.outcome) ≡ Stuck at → ⊥ }
{}
