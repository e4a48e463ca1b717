//! What a layout that was chosen has for whoever emits at it: its distances fit the operands that they stand
//! in. Nothing here runs.
ghost use Rattle.std.specs.Prelude.{◌≡◌, ◌≤◌, ℕ, slice_get, Some};
ghost use Rattle.cjc_ncode.specs.declared.narrow.NInsn.{NInsn as Insn};
ghost use Rattle.cjc_ncode.specs.declared.narrow.NMethod.{NMethod as Method};
ghost use Rattle.cjc_ncode.specs.Lowering.Naming.{Naming};
ghost use Rattle.cjc_ncode.specs.Lowering.Laid.{IsFormed};
ghost use Rattle.cjc_ncode.specs.Lowering.Placed.{IsLaidOut};
ghost use Rattle.cjc_layout.specs.declared.layout.Layout.{Layout as Placing};
ghost use Rattle.cjc_layout.specs.Forms.{HasForm};
ghost use Rattle.cjc_layout.specs.Layouts.{IsLayout};
ghost use Rattle.cjc_emit.specs.Emitted.{CanBeWritten, placed_at};
ghost use Rattle.cjc_emit.specs.Said.{CanBeSaid};

/// At its layout, of at most 32,767 bytes, and at any offset of the component, bytes can say each instruction
/// of a method with its labels where they are laid, where it has its form and bytes can say it with its labels
/// at its own place: a narrow jump has a distance of one byte, and all other distances are of two. Where its
/// names mean what they are to, it is laid out there.
pub fn layouts_can_be_said()
    ensures written { (n : Naming) (m : Method) (l : Placing) (offset : ℕ) → IsLayout m l → l.length ≤ 32767
        → ((k : ℕ) (insn : Insn) → slice_get m.insns k ≡ Some insn → HasForm insn) → ((k : ℕ) (insn : Insn)
        → slice_get m.insns k ≡ Some insn → CanBeSaid n insn) → CanBeWritten n (placed_at offset m l.wide) }
    ensures laid_out { (n : Naming) (m : Method) (l : Placing) (offset : ℕ) → IsLayout m l → l.length ≤ 32767
        → ((k : ℕ) (insn : Insn) → slice_get m.insns k ≡ Some insn → IsFormed n insn) → ((k : ℕ) (insn : Insn)
        → slice_get m.insns k ≡ Some insn → CanBeSaid n insn) → IsLaidOut n (placed_at offset m l.wide) }
{}
