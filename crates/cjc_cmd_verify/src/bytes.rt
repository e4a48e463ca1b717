//! That files are bytes, as proofs about their contents ask. It reads no byte.

ghost use Rattle.std.specs.Prelude.{◌<◌, List};
ghost use Rattle.std.specs.List.{AllByRecursion};
ghost use Rattle.cjc_verify_theorem.specs.Passed.{AreBytes};

use cjc_cmd_card::bytes::{Bytes, Row};

fn are_numbers_of_bytes(bytes: &[u8])
    ensures { AllByRecursion (λ b. b < 256) bytes.now }
{}

/// Each file's items are numbers below 256.
pub(crate) fn are_bytes(files: &Row<Bytes>)
    ensures { AreBytes files.now }
{
    for file in files.items() {
        are_numbers_of_bytes(file.items());
    }
}
