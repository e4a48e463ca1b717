//! The bytes of methods: headers, instructions, and the places of their indices into the constant pool (Java Card
//! Virtual Machine Specification 2.2.2, sections 6.9.2 and 6.11). It knows no class file, and not how a layout was
//! chosen.
#![tactic(auto)]

// Lower crates, for those above.
/// What crates above take of cjc_layout.
pub mod layout {
    pub use cjc_layout::{Handler, Layout, lay, layouts_are_laid_out, order_changes_no_search};
}

pub mod emit_laws;

ghost use Rattle.std.specs.Prelude.{◌≡◌, ◌∷◌, [], ◌++◌, ℕ, Bool, false, List, Some, drop, slice_get};
ghost use Rattle.cjc_layout.specs.CapRead.Decode.{decode};
ghost use Rattle.cjc_ncode.specs.declared.narrow.NInsn.{NInsn as Insn};
ghost use Rattle.cjc_ncode.specs.declared.narrow.NMethod.{NMethod as Method};
ghost use Rattle.cjc_ncode.specs.Lowering.Naming.{Naming};
ghost use Rattle.cjc_ncode.specs.Lowering.Laid.{laid};
ghost use Rattle.cjc_ncode.specs.Lowering.Placed.{IsHeader, method_bytes, offset_of};
ghost use Rattle.cjc_ncode.specs.Lowering.Worked.{naming};
ghost use Rattle.cjc_emit.specs.Emitted.{CanBeWritten, emitted_bytes, header_bytes, index_places, placed_at};
ghost use Rattle.cjc_emit.specs.Worked.{method, narrow};

mod code;
mod emitted;
mod head;
mod method;
mod numbers;
mod operands;
mod places;
mod pool;
mod switches;

pub use emitted::MethodBytes;
pub use head::header;
pub use method::emit;
pub use pool::PoolLookup;

/// Methods made by hand: a short header, an extended one for 16 further cells, an offset from the jump's own
/// opcode, high bytes first, and places of indices, of which a type test without class has none.
pub fn worked_methods_are_emitted()
    ensures bytes { emitted_bytes naming (method 0) narrow ≡ 0x02 ∷ 0x10 ∷ 0x18 ∷ 0x85 ∷ 0 ∷ 0x94 ∷ 12 ∷ 0 ∷ 0 ∷ 0x94
        ∷ 0 ∷ 0 ∷ 5 ∷ 0x8F ∷ 0 ∷ 5 ∷ 0x8E ∷ 1 ∷ 0 ∷ 0 ∷ 0 ∷ 0x70 ∷ 0xED ∷ [] }
    ensures fifteen { header_bytes (method 15) ≡ 0x02 ∷ 0x1F ∷ [] }
    ensures sixteen { header_bytes (method 16) ≡ 0x80 ∷ 2 ∷ 1 ∷ 16 ∷ [] }
    ensures ones { index_places naming 1 (method 0) narrow ≡ 4 ∷ [] }
    ensures twos { index_places naming 2 (method 0) narrow ≡ 11 ∷ 14 ∷ 18 ∷ [] }
    ensures behind { index_places naming 1 (method 16) narrow ≡ 6 ∷ [] }
{}

/// A method has the same bytes at every offset, and its header is read as what the method says.
pub fn methods_stand_anywhere()
    ensures bytes { (n : Naming) (offset : ℕ) (m : Method) (wide : List Bool) → method_bytes n (placed_at offset m wide)
        ≡ emitted_bytes n m wide }
    ensures header { (m : Method) → IsHeader false m (header_bytes m) }
{}

/// Decoding what is emitted of a method gives back each instruction as it is laid, at the offset of its label and
/// whatever stands behind the method.
pub fn emitted_code_is_decoded()
    ensures { (n : Naming) (m : Method) (wide : List Bool) (behind : List ℕ)
        → (let p = placed_at 0 m wide in CanBeWritten n p → (k : ℕ) (insn : Insn) (w : Bool)
        → slice_get m.insns k ≡ Some insn → slice_get wide k ≡ Some w
        → decode (drop (offset_of n p k) (emitted_bytes n m wide ++ behind))
        ≡ Some (laid n (offset_of n p) (offset_of n p k) w insn)) }
{}
