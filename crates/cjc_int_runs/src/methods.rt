//! Methods of both modes begin alike, wherever they are given arguments of their types; and where the code of
//! methods in
//! int mode stands.

ghost use Rattle.std.specs.Prelude.{◌≡◌, ℕ, ◌<◌, ◌≤◌, Option, Some, None, option_map, Bool, true};
ghost use Rattle.std.specs.Prelude.{List, [], ◌∷◌, ◌++◌, length};
ghost use Rattle.std.specs.Prelude.{slice_get};
ghost use Rattle.cjc_script.specs.Sorts.{Shape, Sort, Reference, OfClass, shape_name};
ghost use Rattle.cjc_ncode.specs.declared.narrow.NMethod.{NMethod};
ghost use Rattle.cjc_ncode.specs.ByLabel.{Named};
ghost use Rattle.cjc_ncode.specs.ByLabel as labels;
ghost use Rattle.cjc_ncode.specs.Written.{Resolution, catches_at};
ghost use Rattle.cjc_ncode.specs.IntCode.IntCode.{Frame, Reached, place_in, prologue, written, written_from};
ghost use Rattle.cjc_jvm_semantics.specs.Linked.{Method, Linked};
ghost use Rattle.cjc_narrow_proof.specs.Selection.Relation.{Kind, Refers};
ghost use Rattle.cjc_narrow_proof.specs.Selection.Tables.{Table, class_of_code, handler_at, offset_at};
ghost use Rattle.cjc_int_runs.specs.Entering.{IntMethodBegins, ShortMethodBegins};
ghost use Rattle.cjc_int_runs.specs.Bodies.{IntMethodStands};
ghost use Rattle.cjc_int_runs.specs.IntFrames.{IntArrives, IntBody, StandsByMode};
ghost use Rattle.cjc_int_runs.specs.Modes.{MayEnter, MayEnterOn};
ghost use Rattle.cjc_int_runs.specs.Placed.{Ascends, offset_in};
ghost use Rattle.cjc_int_runs.specs.Steps.{StandAt, behind};
ghost use Rattle.cjc_int_runs.specs.Typed.{IsWritten, Knows, TellsClasses, IntMethodIsTyped};

/// A method begins alike with arguments that are handed over by their types, from a method of any mode: one in int mode
/// with its prologue ahead, another with its words; and so it does on a receiver.
pub fn methods_of_both_modes_begin()
    ensures int { (by : Linked) (l : Named) (tb : Table) (bodies : Method → Option IntBody)
        (results : Method → Option Sort) (m : Method) (sorts : List Sort) (kinds : List Kind) (b : IntBody)
        → bodies m ≡ Some b → IntMethodBegins tb.narrowed b m sorts kinds
        → MayEnter by l (StandsByMode l tb bodies) results tb.narrowed tb.may_throw m sorts kinds }
    ensures short { (by : Linked) (l : Named) (tb : Table) (bodies : Method → Option IntBody)
        (results : Method → Option Sort) (m : Method) (sorts : List Sort) (kinds : List Kind) → bodies m ≡ None
        → ShortMethodBegins tb m sorts kinds
        → MayEnter by l (StandsByMode l tb bodies) results tb.narrowed tb.may_throw m sorts kinds }
    ensures receiver { (by : Linked) (l : Named) (tb : Table) (bodies : Method → Option IntBody)
        (results : Method → Option Sort) (m : Method) (sorts : List Sort) (kinds : List Kind)
        (of kind : Shape (List ℕ)) (receives : Shape (List ℕ) → Bool) → receives kind ≡ true
        → MayEnter by l (StandsByMode l tb bodies) results tb.narrowed tb.may_throw m (Reference of ∷ sorts)
        (Refers receives ∷ kinds)
        → MayEnterOn by l (StandsByMode l tb bodies) results tb.narrowed tb.may_throw m kind sorts kinds }
{}

/// In code that is the prologue and what is written for reached instructions with ascending offsets, as `int_method`
/// has
/// it, the prologue stands first, what is written for each instruction stands at its place, and the place of the next
/// one is behind it.
pub fn written_code_stands()
    ensures prologue { (f : Frame) (r : Resolution) (reached : List Reached) (code : NMethod) → code.insns ≡ prologue f
        ++ written_from f r (place_in f r reached) (length (prologue f)) reached → StandAt code 0 (prologue f) }
    ensures each { (f : Frame) (r : Resolution) (reached : List Reached) → Ascends reached → (code : NMethod)
        → code.insns ≡ prologue f ++ written_from f r (place_in f r reached) (length (prologue f)) reached → (k : ℕ)
        (i : Reached) → slice_get reached k ≡ Some i → (let n = i.insn in let p = place_in f r reached in
        StandAt code (p n.at) (written f r p i.before (p n.at) n.op)) }
    ensures next { (f : Frame) (r : Resolution) (reached : List Reached) → Ascends reached → (later k : ℕ)
        (i : Reached) → slice_get reached k ≡ Some i → offset_in i < later → ((j : ℕ) (x : Reached)
        → slice_get reached j ≡ Some x → offset_in x < later → offset_in x ≤ offset_in i) → (let n = i.insn in
        let p = place_in f r reached in p later ≡ behind (p n.at) (written f r p i.before (p n.at) n.op)) }
{}

/// Handlers are found alike for every place of what is written for an instruction of a method in int mode: the
/// search by
/// label finds the place of what the search by name finds, or none, where classes are told alike.
pub fn handlers_of_int_code_are_found_alike()
    ensures { (by : Linked) (l : Named) (f : Frame) (r : Resolution) (reached : List Reached) (m : Method)
        (code : NMethod) → code.catches ≡ catches_at (place_in f r reached) m.catches → (at k : ℕ) (i : Reached)
        → slice_get reached k ≡ Some i → offset_at m at ≡ offset_in i → (kind : Shape (List ℕ)) → ((class : List ℕ)
        → by.subtype (Some (class_of_code m)) (shape_name kind) class ≡ l.is_of kind (OfClass class)) → (q : ℕ)
        → place_in f r reached (offset_in i) ≤ q → (let n = i.insn in let p = place_in f r reached in q
        < behind (p n.at) (written f r p i.before (p n.at) n.op))
        → labels.handler l code.catches q kind ≡ option_map (place_in f r reached) (handler_at by m at kind) }
{}

/// A method in int mode whose code is what is written for its reached instructions stands, where enough is known before
/// each of cells and locals, and classes of exceptions are told alike; its first instruction is reached behind the
/// prologue.
pub fn written_methods_stand()
    ensures stands { (b : IntBody) (m : Method) (reached : List Reached) → IsWritten b m reached → (by : Linked)
        (l : Named) (tb : Table) (bodies : Method → Option IntBody) (results : Method → Option Sort)
        → TellsClasses by l (StandsByMode l tb bodies) results tb.narrowed tb.may_throw b m
        → IntMethodIsTyped by l (StandsByMode l tb bodies) results tb.narrowed tb.may_throw b m
        → IntMethodStands by l (StandsByMode l tb bodies) results tb.narrowed tb.may_throw b m }
    ensures first { (b : IntBody) (m : Method) (reached : List Reached) → IsWritten b m reached → (ls : List Kind)
        → Knows b 0 [] ls → IntArrives b m 0 (behind 0 (prologue b.frame)) [] ls }
{}
