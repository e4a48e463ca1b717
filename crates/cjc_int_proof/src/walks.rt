//! Instructions that a frame runs one behind the other. Laws alone: nothing here runs.

ghost use Rattle.std.specs.Prelude.{◌≤◌, ℕ};
ghost use Rattle.cjc_layout.specs.Script.declared.report.Report.{Report};
ghost use Rattle.cjc_layout.specs.CardSemantics.Bytecode.Runs.{Agree};
ghost use Rattle.cjc_ncode.specs.declared.narrow.NMethod.{NMethod};
ghost use Rattle.cjc_ncode.specs.ByLabel.{Named, by_label};
ghost use Rattle.cjc_int_proof.specs.Walks.{LeadsOn, LeadsOut, Splits};

/// Instructions that stay in their frame are as many turns of the machine, which lead to the spot where they lead;
/// where one leaves the frame, raises or is stuck, the turns end with that one's. So what is written for an instruction
/// can be run on a spot alone, part by part.
pub fn walks_are_turns()
    ensures on { (l : Named) (m : NMethod) → LeadsOn (by_label l) m }
    ensures out { (l : Named) (m : NMethod) → LeadsOut (by_label l) m }
    ensures split { (l : Named) (m : NMethod) → Splits (by_label l) m }
{}

/// Reports that agree where one machine makes at most so many instructions for one of the other agree where it makes at
/// most more.
pub fn more_instructions_agree_too()
    ensures { (few more : ℕ) (one other : ℕ → Report) → few ≤ more → Agree few one other → Agree more one other }
{}
