//! Where jumps and handlers lead. It has laws alone, for whoever proves that components which break no rule are never
//! stuck.
ghost use Rattle.std.specs.Prelude.{◌≡◌, ◌<◌, ◌≤◌, ◌+◌, ℕ, true, false, List, [], map, slice_get, Some, Contains, ℤ};
ghost use Rattle.std.specs.List.{list_all};
ghost use Rattle.cjc_check_rules.specs.CapRead.Decode.{Instruction};
ghost use Rattle.cjc_check_rules.specs.CapRead.declared.tree.Handler.{Handler};
ghost use Rattle.cjc_check_rules.specs.Codes.{Code, codes};
ghost use Rattle.cjc_check_rules.specs.Complete.{Complete};
ghost use Rattle.cjc_check_rules.specs.Handlers.{handler_spots};
ghost use Rattle.cjc_check_rules.specs.Instructions.{has_start, jump_spots, lands};
ghost use Rattle.cjc_check_rules.specs.Spots.{Placed};
ghost use Rattle.cjc_card_semantics.specs.Machine.Operations.{moved};
ghost use Rattle.cjc_cut_proof.specs.Cuts.{EndBehind, Jumps, Leads, StandApart};

/// Each jump of an instruction leads to one of the same method, and what is last lets nothing follow.
pub fn jumps_lead_inside()
    ensures jumps { (c : Complete) → jump_spots c ≡ [] → (k : ℕ) (code : Code) → slice_get (codes c) k ≡ Some code
        → (j : ℕ)
        (i : Placed Instruction) → slice_get code.instructions j ≡ Some i → Jumps code code.instructions j i }
    ensures lands { (code : Code) (at : ℕ) (bys : List ℤ) → list_all (lands code at) bys ≡ true → (to : ℕ)
        → Contains (map (moved at) bys) to → has_start code to ≡ true }
    ensures first { (c : Complete) → jump_spots c ≡ [] → (k : ℕ) (code : Code) → slice_get (codes c) k ≡ Some code
        → code.is_abstract ≡ false → (i : Placed Instruction) × (slice_get code.instructions 0 ≡ Some i) }
{}

/// A handler that covers an instruction leads to one of the same method, where codes stand apart.
pub fn handlers_lead_inside()
    ensures handlers { (c : Complete) → handler_spots c ≡ [] → (k : ℕ) (h : Handler) → slice_get (let m = c.method
        in m.handlers) k ≡ Some h → Leads (codes c) h }
    ensures covered { (all : List Code) → StandApart all → EndBehind all → (h : Handler) → Leads all h → (k : ℕ)
        (code : Code) → slice_get all k ≡ Some code → (at : ℕ) → has_start code at ≡ true → h.start ≤ at
        → at < h.start + h.length → has_start code h.handler ≡ true }
{}
