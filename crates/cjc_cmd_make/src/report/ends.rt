//! How a read of a shelf in memory may end. Called by making.rt and by_token.rt.

ghost use Rattle.std.specs.Prelude.{◌≡◌};
ghost use Rattle.cjc_cmd_make.specs.Report.Working.{fault_of};

use cjc_cmd_convert::bytes::Fault;
use cjc_cmd_convert::shelf::command::Status;

/// The fault for an end of reads. A made package has all files that its list names, a conversion those that its
/// Directory says are there, none of them too long, and a shelf in memory does not fail: where the reads end otherwise
/// than by a rule, memory is wanting.
pub(crate) fn fault_of(end: Status) -> Fault
    ensures { result ≡ fault_of end }
{
    match end {
        Status::Refused(refusal) => Fault::Refused(refusal),
        _ => Fault::NoMemory,
    }
}
