//! The greatest number of scratch pairs of the instructions of a method. Called by whoever selects code.

ghost use Rattle.std.specs.Prelude.{◌≡◌, length, IfOk};
ghost use Rattle.cjc_ncode.specs.IntCode.IntCode.{scratch_pairs};
ghost use Rattle.cjc_int_narrow.specs.Reached.{reached_by};
ghost use Rattle.cjc_int_narrow.specs.Working.Walks.{pairs_if};

use crate::known::Before;
use cjc_int_mode::descriptors::scratch_pairs_of;
use cjc_ncode::bytecode::{JInsn, JOp};
use cjc_ncode::bytes::NoMemory;

/// So many pairs, or those of an instruction where it is reached and has more.
fn pairs_if(before: &Option<Before>, pairs: u32, op: &JOp) -> Result<u32, NoMemory>
    ensures { IfOk result (λ more. more ≡ pairs_if before.now pairs op.now) }
{
    match before {
        Some(_) => {
            let own = scratch_pairs_of(op)?;
            Ok(if pairs <= own { own } else { pairs })
        }
        None => Ok(pairs),
    }
}

/// The greatest number of scratch pairs of the reached instructions.
#[tactic(auto, using(crate::proofs::Pairs::pairs_next, crate::proofs::Pairs::pairs_end))]
pub(crate) fn most_pairs(insns: &[JInsn], befores: &[Option<Before>]) -> Result<u32, NoMemory>
    requires { length befores.now ≡ length insns.now }
    ensures { IfOk result (λ pairs. pairs ≡ scratch_pairs (reached_by insns.now befores.now)) }
{
    let mut pairs = 0;
    for k in 0..insns.len() {
        pairs = pairs_if(&befores[k], pairs, &insns[k].op)?;
    }
    Ok(pairs)
}
