//! Instructions.
ghost use Rattle.std.specs.Prelude.{◌≡◌, ℕ, ◌+◌, List, ◌++◌, length, Some};
ghost use Rattle.cjc_capread.specs.Decode.{Instruction, decode, size};

/// Whatever stands behind an instruction, it is decoded.
pub fn instructions_stand_alone()
    ensures { (xs ys : List ℕ) (i : Instruction) → decode xs ≡ Some i → (decode (xs ++ ys) ≡ Some i)
        × (rest : List ℕ) × (length xs ≡ size i + length rest) }
{}
