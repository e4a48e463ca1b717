//! The rules over Descriptor and StaticField as differences from what the package wants.

ghost use Rattle.std.specs.Prelude.{◌≡◌};
ghost use Rattle.cjc_verify.specs.Described.{all_array_spots, described_spots};
ghost use Rattle.cjc_verify.specs.Pairs.{Pair};
ghost use Rattle.cjc_verify.specs.WantedDescribed.{wanted_classes, wanted_entries, wanted_numbers};
ghost use Rattle.cjc_verify.specs.WantedDescriptor.{all_differ, arrays_differ};

/// Where Descriptor and the arrays of StaticField are not what their package says, they differ from what is wanted.
pub(crate) fn described_beside_wanted()
    ensures described { (p : Pair) → described_spots p ≡ all_differ p.components.descriptor (wanted_classes p)
        (wanted_entries p) }
    ensures arrays { (p : Pair) → all_array_spots p ≡ arrays_differ p.components.statics.array_inits
        (wanted_numbers p) }
{}
