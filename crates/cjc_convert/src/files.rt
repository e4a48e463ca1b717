//! That files are bytes, as proofs about their contents ask. It reads no byte.

ghost use Rattle.std.specs.Prelude.{◌≡◌, ◌<◌, ℕ, List as Items, Some, slice_get};
ghost use Rattle.std.specs.List.{AllByRecursion};

use cjc_shape_proof::bytes::{Bytes, Row};

fn are_numbers_of_bytes(bytes: &[u8])
    ensures { AllByRecursion (λ b. b < 256) bytes.now }
{}

/// Each file's items are numbers below 256.
pub(crate) fn are_bytes(files: &Row<Bytes>)
    ensures { (k : ℕ) (bytes : Items ℕ) → slice_get files.now k ≡ Some bytes → AllByRecursion (λ b. b < 256) bytes }
{
    for file in files.items() {
        are_numbers_of_bytes(file.items());
    }
}
