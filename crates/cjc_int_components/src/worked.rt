//! Methods in int mode made by hand, with their bytes, and one that has too many locals. Laws alone: nothing here runs.
ghost use Rattle.std.specs.Prelude.{◌≡◌, ◌∷◌, ◌≤◌, [], ℕ, List, Option, false, replicate};
ghost use Rattle.cjc_check_proof.specs.LowerEmit.Emitted.{emitted_bytes};
ghost use Rattle.cjc_ncode.specs.Lowering.Worked.{naming};
ghost use Rattle.cjc_check_proof.specs.Types.Flow.{Body};
ghost use Rattle.cjc_check_proof.specs.Types.declared.state.State.{State};
ghost use Rattle.cjc_int_narrow.specs.LowerIntMode.Room.{LacksRoom};
ghost use Rattle.cjc_int_narrow.specs.LowerIntMode.declared.modes.Mode.TheVariants as modes;
ghost use Rattle.cjc_int_components.specs.Worked.{array_loop, comparison, element_read};

/// The bytes of three methods made by hand, where no jump is wide: whether a short and 1 are less than 10, an element
/// of a byte array at an int, whose index has its guard, and a loop over such an array up to a short.
pub fn int_methods_are_emitted()
    ensures compares { emitted_bytes naming comparison (replicate 15 false) ≡
        0x08 ∷ 0x12 ∷ 0x1C ∷ 0x5C ∷ 0x34 ∷ 0x21 ∷ 0x0B ∷ 0x42 ∷ 0x12 ∷ 0x0A ∷ 0x5F ∷ 0x63 ∷ 0x05 ∷ 0x0B ∷
        0x5E ∷ 0x78 ∷ 0x0A ∷ 0x5E ∷ 0x78 ∷ [] }
    ensures reads { emitted_bytes naming element_read (replicate 19 false) ≡
        0x08 ∷ 0x34 ∷ 0x18 ∷ 0x2E ∷ 0x21 ∷ 0x2A ∷ 0x05 ∷ 0x1B ∷ 0x17 ∷ 0x05 ∷ 0x3E ∷ 0x3E ∷ 0x5E ∷ 0x5C ∷
        0x5F ∷ 0x60 ∷ 0x04 ∷ 0x3C ∷ 0x09 ∷ 0x5E ∷ 0x25 ∷ 0x5C ∷ 0x5E ∷ 0x78 ∷ [] }
    ensures loops { emitted_bytes naming array_loop (replicate 30 false) ≡
        0x08 ∷ 0x26 ∷ 0x18 ∷ 0x2D ∷ 0x1D ∷ 0x5C ∷ 0x2A ∷ 0x04 ∷ 0x0A ∷ 0x2A ∷ 0x06 ∷ 0x17 ∷ 0x06 ∷ 0x17 ∷
        0x04 ∷ 0x5F ∷ 0x63 ∷ 0x17 ∷ 0x1A ∷ 0x17 ∷ 0x06 ∷ 0x3E ∷ 0x3E ∷ 0x5E ∷ 0x5C ∷ 0x5F ∷ 0x60 ∷ 0x04 ∷
        0x3C ∷ 0x09 ∷ 0x5E ∷ 0x25 ∷ 0x5C ∷ 0x3C ∷ 0x5A ∷ 0x06 ∷ 0x01 ∷ 0x70 ∷ 0xE6 ∷ 0x0A ∷ 0x5E ∷ 0x78 ∷ [] }
{}

/// A method in int mode with 128 locals has no room: two words of each are more than one byte counts.
pub fn many_locals_lack_room()
    ensures { (b : Body) (types : List (Option State)) → 128 ≤ b.max_locals → LacksRoom b types modes.Int }
{}
