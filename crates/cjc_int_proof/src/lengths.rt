//! How much is written for a method in int mode, and where its labels stand. Laws alone: nothing here runs.

ghost use Rattle.std.specs.Prelude.{◌≡◌, ◌≤◌, ℕ, List, length};
ghost use Rattle.cjc_types.specs.ClassFile.Code.{CodeTree};
ghost use Rattle.cjc_types.specs.Bytecode.declared.insn.JOp.{JOp};
ghost use Rattle.cjc_ncode.specs.Written.{Resolution};
ghost use Rattle.cjc_ncode.specs.IntCode.IntCode.{Before, Frame, Reached, int_method, place_in, prologue, written};
ghost use Rattle.cjc_layout.specs.Sizes.{AllLead, widest_size};
ghost use Rattle.cjc_int_proof.specs.Labels.{LabelsStand};

/// As many instructions are written for one of the class file wherever its labels and its own place are. So code can be
/// written once to know the places, and again with them.
pub fn labels_change_no_length()
    ensures { (f : Frame) (r : Resolution) (place other : ℕ → ℕ) (b : Before) (here there : ℕ) (op : JOp)
        → length (written f r place b here op) ≡ length (written f r other b there op) }
{}

/// The places of what is written are in the order of the offsets, behind the prologue and within the code.
pub fn labels_are_in_order()
    ensures behind { (f : Frame) (r : Resolution) (reached : List Reached) (offset : ℕ)
        → length (prologue f) ≤ place_in f r reached offset }
    ensures order { (f : Frame) (r : Resolution) (reached : List Reached) (offset later : ℕ) → offset ≤ later
        → place_in f r reached offset ≤ place_in f r reached later }
    ensures within { (f : Frame) (r : Resolution) (code : CodeTree) (reached : List Reached) (places : List ℕ)
        (offset : ℕ) → (let m = int_method f r code reached places in place_in f r reached offset ≤ length m.insns) }
{}

/// Jumps and switches that are written lead to instructions of the code, where something is written for each offset to
/// which a reached instruction leads, or behind it: the guard of an index leads over its own instructions.
pub fn labels_stand_in_the_code()
    ensures { (f : Frame) (r : Resolution) (code : CodeTree) (reached : List Reached) (places : List ℕ)
        → (let m = int_method f r code reached places in LabelsStand f r reached (length m.insns)
        → AllLead (length m.insns) m.insns) }
{}

/// With every jump wide what is written has no more bytes than the sum of the widest sizes.
pub fn written_code_is_no_wider()
    ensures { (f : Frame) (r : Resolution) (code : CodeTree) (reached : List Reached) (places : List ℕ)
        → (let m = int_method f r code reached places in widest_size m.insns ≤ m.widest) }
{}
