//! How the parameters of a call are handed over, where some have one word. Called by whoever selects code.

ghost use Rattle.std.specs.Prelude.{◌≡◌, ◌+◌, ◌*◌, ◌≤◌, ◌++◌, length, map, true, OnOk};
ghost use Rattle.std.specs.List.{list_any};
ghost use Rattle.cjc_int_mode.specs.Script.Sorts.{sort_of};
ghost use Rattle.cjc_ncode.specs.IntCode.IntCode.{is_by_scratch, is_short};
ghost use Rattle.cjc_int_narrow.specs.Working.Moves.{aside_all, back_all, handed};

use crate::kinds::{kept_of, put_narrowed};
use crate::numbers::{load, store};
use cjc_int_mode::descriptors::{has_short_before, is_short};
use cjc_ncode::NInsn;
use cjc_ncode::bytes::{Desc, NoMemory, Row};
use cjc_ncode::capread::card;

/// Whether a parameter has one word.
#[tactic(auto, using(crate::proofs::Moves::short_found, crate::proofs::Moves::short_next))]
fn has_short(desc: &Desc<'_>) -> bool
    ensures { result ≡ list_any is_short (map sort_of desc.now.params) }
{
    for (kind, _) in desc.parameters() {
        if is_short(kind) {
            return true;
        }
    }
    false
}

/// Puts what stores the parameters into the pairs from a word on at the end, the last first.
fn put_aside(out: &mut Row<NInsn>, desc: &Desc<'_>, scratch: u8) -> Result<(), NoMemory>
    requires { scratch + 2 * length desc.now.params ≤ 255 }
    ensures { OnOk result (out.new ≡ out.old ++ aside_all scratch (map sort_of desc.now.params)) }
{
    let count = desc.params();
    for done in 0..count {
        let place = count - 1 - done;
        let kept = kept_of(desc.kind(place), desc.class(place))?;
        let word = scratch + 2 * place as u8;
        out.push(store(kept.is_reference, word))?;
    }
    Ok(())
}

/// Puts what loads them in order at the end.
#[tactic(auto, using(crate::proofs::Moves::back_next, crate::proofs::Moves::back_end))]
fn put_back(out: &mut Row<NInsn>, desc: &Desc<'_>, scratch: u8) -> Result<(), NoMemory>
    requires { scratch + 2 * length desc.now.params ≤ 255 }
    ensures { OnOk result (out.new ≡ out.old ++ back_all scratch (map sort_of desc.now.params)) }
{
    let mut word = scratch;
    for (kind, class) in desc.parameters() {
        let kept = kept_of(kind, class)?;
        out.push(load(kept.is_reference, word))?;
        put_narrowed(out, kept.is_short)?;
        word += 2;
    }
    Ok(())
}

/// Puts what cuts the parameters of a call at the end; where one has one word that is not the last, all go into the
/// pairs from a word on, and come back.
#[tactic(auto, using(cjc_int_mode::proofs::Words::by_scratch))]
pub(crate) fn put_handed(out: &mut Row<NInsn>, desc: &Desc<'_>, scratch: u8) -> Result<(), NoMemory>
    requires { is_by_scratch (map sort_of desc.now.params) ≡ true → scratch + 2 * length desc.now.params ≤ 255 }
    ensures { OnOk result (out.new ≡ out.old ++ handed scratch (map sort_of desc.now.params)) }
{
    if has_short_before(desc) {
        put_aside(out, desc, scratch)?;
        return put_back(out, desc, scratch);
    }
    put_narrowed(out, has_short(desc))
}
