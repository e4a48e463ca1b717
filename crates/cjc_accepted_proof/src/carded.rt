//! Descriptors: the card has values of their types.
ghost use Rattle.std.specs.Prelude.{◌≡◌, ◌<◌, ◌^◌, ℕ, List, Some, false, length};
ghost use Rattle.cjc_types.specs.Bytes.Descriptor.{Parts};
ghost use Rattle.cjc_types.specs.Bytes.Spots.{desc_of};
ghost use Rattle.cjc_verify.specs.Subset.Types.{is_unsupported_desc};
ghost use Rattle.cjc_accepted_proof.specs.Carded.{IsOnCard};

/// The card has values of the types of a descriptor that names no unsupported type.
pub fn supported_descriptors_are_on_the_card()
    ensures { (desc : List ℕ) (d : Parts) → length desc < 2 ^ 32 → desc_of desc ≡ Some d
        → is_unsupported_desc desc ≡ false → IsOnCard desc }
{}
