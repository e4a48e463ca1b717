//! What the instructions of a package's narrow code name, by the class file's instructions that they are
//! written for. For whoever promises that what code names is there. It has definitions and laws alone; nothing
//! here runs.
ghost use Rattle.std.specs.Prelude.{◌≡◌, ℕ, List, Some, flat_map, slice_get};
ghost use Rattle.cjc_code.specs.declared.insn.JInsn.{JInsn as Insn};
ghost use Rattle.cjc_ncode.specs.declared.narrow.NInsn.{NInsn as Narrow};
ghost use Rattle.cjc_ncode.specs.declared.narrow.PairRole.{PairRole as Role};
ghost use Rattle.cjc_ncode.specs.Written.{Resolution, written_for};
ghost use Rattle.cjc_narrow_proof.specs.Sources.{IsWrittenFor};

/// Each instruction of narrow code, whatever roles the class file's have, is written for one that is kept of them.
pub fn instructions_have_sources()
    ensures { (r : Resolution) (place : ℕ → ℕ) (role_at : ℕ → Role) (kept : List Insn) (k : ℕ)
        (insn : Narrow)
        → slice_get (flat_map (written_for (record r { role = role_at }) place) kept) k ≡ Some insn
        → (j : ℕ) × (i : Insn) × (slice_get kept j ≡ Some i) × IsWrittenFor r i.op insn }
{}
