//! Where the indices into the constant pool stand in a method's bytes. Called by whoever emits a method. It knows
//! no pool and no layout's choice.

ghost use Rattle.std.specs.Prelude.{◌≡◌, ◌++◌, ◌≤◌, length, OnOk};
ghost use Rattle.cjc_emit.specs.Emitted.{index_place, insn_places};
ghost use Rattle.cjc_emit.specs.Working.{all_marked};

use cjc_ncode::NInsn;
use cjc_ncode::bytes::{NoMemory, Row};
use cjc_ncode::capread::{OpInfo, card, op};

/// Puts the place of the index of an instruction into that of its two lists that its width has.
fn mark_index(
    ones: &mut Row<u32>,
    twos: &mut Row<u32>,
    at: u32,
    info: Option<OpInfo>,
) -> Result<(), NoMemory>
    requires { at ≤ 65539 }
    ensures ones { OnOk result (ones.new ≡ ones.old ++ index_place 1 at info) }
    ensures twos { OnOk result (twos.new ≡ twos.old ++ index_place 2 at info) }
{
    if let Some(info) = info {
        let place = at + u32::from(info.index_at);
        if info.index_bytes == 1 {
            ones.push(place)?;
        } else if info.index_bytes == 2 {
            twos.push(place)?;
        }
    }
    Ok(())
}

fn mark(ones: &mut Row<u32>, twos: &mut Row<u32>, at: u32, insn: &NInsn) -> Result<(), NoMemory>
    requires { at ≤ 65539 }
    ensures ones { OnOk result (ones.new ≡ ones.old ++ insn_places 1 at insn.now) }
    ensures twos { OnOk result (twos.new ≡ twos.old ++ insn_places 2 at insn.now) }
{
    match insn {
        NInsn::Named { op: opcode, .. } => mark_index(ones, twos, at, op(*opcode)),
        NInsn::Interface { .. } => mark_index(ones, twos, at, op(card::INVOKEINTERFACE)),
        NInsn::TypeTest {
            op: opcode,
            class: Some(_),
            ..
        } => mark_index(ones, twos, at, op(*opcode)),
        _ => Ok(()),
    }
}

/// The places of the indices of one byte and of two, behind a header of so many bytes.
pub(crate) fn mark_all(
    ones: &mut Row<u32>,
    twos: &mut Row<u32>,
    head: u32,
    places: &[u16],
    insns: &[NInsn],
) -> Result<(), NoMemory>
    requires head { head ≤ 4 }
    requires places { length places.now ≡ length insns.now }
    ensures ones { OnOk result (ones.new ≡ ones.old ++ all_marked 1 head places.now 0 insns.now) }
    ensures twos { OnOk result (twos.new ≡ twos.old ++ all_marked 2 head places.now 0 insns.now) }
{
    for k in 0..insns.len() {
        mark(ones, twos, head + u32::from(places[k]), &insns[k])?;
    }
    Ok(())
}
