//! Laws of instructions as bytes, for whoever decodes or emits code. It has no code that runs.

ghost use Rattle.std.specs.Prelude.{◌≡◌, ◌<◌, ℕ, ◌+◌, ◌*◌, false, true, List, ◌∷◌, ◌++◌, length, Some};
ghost use Rattle.cjc_capread.specs.Opcodes.{Form};
ghost use Rattle.cjc_capread.specs.MethodHeader.{method_header};
ghost use Rattle.cjc_capread.specs.Decode.{Instruction, decode, emitted, size, IsWritable};

/// An instruction of any form is decoded from the bytes that it is written as, whatever stands behind them,
/// and they are as many as its size says.
pub fn what_is_written_is_decoded()
    ensures back { (f : Form) (i : Instruction) (rest : List ℕ) → IsWritable f i → decode (emitted f i ++ rest)
        ≡ Some i }
    ensures length { (f : Form) (i : Instruction) → IsWritable f i → length (emitted f i) ≡ size i }
{}

/// A header is read by its two flags alone: a short one says its numbers in nibbles, an extended one in
/// bytes, and what the other two flags are changes nothing.
pub fn headers_go_by_two_flags()
    ensures short { (stack nargs locals : ℕ) (rest : List ℕ) → stack < 16 → nargs < 16 → locals < 16
        → method_header (stack ∷ (16 * nargs + locals) ∷ rest) ≡ Some (record {
          max_stack = stack;
          nargs = nargs;
          max_locals = locals;
          is_abstract = false;
          size = 2;
        }) }
    ensures extended { (stack nargs locals : ℕ) (rest : List ℕ) → method_header (0x80 ∷ stack ∷ nargs ∷ locals ∷ rest)
        ≡ Some (record { max_stack = stack; nargs = nargs; max_locals = locals; is_abstract = false; size = 4 }) }
    ensures without_code { (nargs : ℕ) (rest : List ℕ) → method_header (0xC0 ∷ 0 ∷ nargs ∷ 0 ∷ rest)
        ≡ Some (record { max_stack = 0; nargs = nargs; max_locals = 0; is_abstract = true; size = 4 }) }
    ensures other_flags { (rest : List ℕ) → method_header (0x32 ∷ 0x10 ∷ rest) ≡ method_header (0x02 ∷ 0x10 ∷ rest) }
{}
