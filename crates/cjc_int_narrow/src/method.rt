//! The narrow code of a method in int mode: its instructions, where they come from, its handlers and its numbers.

ghost use Rattle.std.specs.Prelude.{◌≡◌, List, Option, IfOk};
ghost use Rattle.cjc_ncode.specs.IntCode.IntCode.{int_method};
ghost use Rattle.cjc_narrow.specs.Rows.Resolved.{resolution};
ghost use Rattle.cjc_narrow.specs.Rows.Selected.{near_fields};
ghost use Rattle.cjc_narrow.specs.Select.Working.Names.{resolution_of};
ghost use Rattle.cjc_narrow.specs.Written.Labels.{place_of};
ghost use Rattle.cjc_narrow.specs.Types.declared.state.State.{State};
ghost use Rattle.cjc_narrow.specs.Types.Flow.{body_of};
ghost use Rattle.cjc_int_mode.specs.Intervals.Frames.{RangeState};
ghost use Rattle.cjc_int_mode.specs.Written.{written_in_int_mode};
ghost use Rattle.cjc_int_narrow.specs.Reached.{places_by, reached_by};
ghost use Rattle.cjc_int_narrow.specs.Select.{AreBefore, IsSelectable};
ghost use Rattle.cjc_int_narrow.specs.Working.Whole.{AreParts, Fits};

use crate::code::{WrittenCode, places_of, written};
use crate::frame::Frame;
use crate::known::Before;
use crate::scratch::most_pairs;
use crate::widest::widest_sum;
use cjc_int_mode::descriptors::argument_words;
use cjc_int_mode::world::World;
use cjc_narrow::keys::Numbers;
use cjc_narrow::select::Names;
use cjc_narrow::written::{Places, catches_at};
use cjc_ncode::NMethod;
use cjc_ncode::bytecode::JInsn;
use cjc_ncode::bytes::{NoMemory, Row};
use cjc_ncode::classfile::{ClassTree, Code, MethodTree};
use std::alloc::Global;

/// A method of its parts, whose labels are these places.
fn method_at(
    alloc: Global,
    names: &Names<'_, '_>,
    places: &Places<'_>,
    frame: &Frame<'_>,
    code: &Code<'_>,
    insns: &[JInsn],
    befores: &[Option<Before>],
) -> Result<NMethod, NoMemory>
    requires { Fits frame.now code.now insns.now befores.now }
    ensures { IfOk result (AreParts frame.now (resolution_of names.now) code.now insns.now befores.now
        (place_of places.now)) }
{
    let catches = catches_at(alloc, places, code.catches.items())?;
    let widest = widest_sum(names, frame, insns, befores)?;
    let pairs = most_pairs(insns, befores)?;
    let text = written(alloc, names, places, frame, insns, befores)?;
    let WrittenCode {
        insns: out,
        from,
        starts: _starts,
    } = text;
    Ok(NMethod {
        insns: out,
        from,
        catches,
        max_stack: (2 * code.max_stack + 4) as u8,
        nargs: frame.words(),
        max_locals: (2 * u32::from(frame.max_locals()) + 2 * pairs) as u8,
        widest,
    })
}

/// A method with this frame.
fn method_by(
    alloc: Global,
    names: &Names<'_, '_>,
    frame: &Frame<'_>,
    code: &Code<'_>,
    insns: &[JInsn],
    befores: &[Option<Before>],
) -> Result<NMethod, NoMemory>
    requires { Fits frame.now code.now insns.now befores.now }
    ensures { IfOk result (λ m. m ≡ int_method frame.now (resolution_of names.now) code.now
        (reached_by insns.now befores.now) (places_by 0 insns.now befores.now)) }
{
    let places = places_of(alloc, names, frame, insns, befores)?;
    let narrow = method_at(alloc, names, &places, frame, code, insns, befores)?;
    Ok(narrow)
}

/// The narrow code of a method of a class in int mode, by what is known before each of its instructions that is reached
/// (Java Card Virtual Machine Specification 2.2.2, chapter 7). A field instruction has an index of one byte where its
/// field has one in the pool; before the pool is known it is empty, and each has two.
pub fn select(
    alloc: Global,
    world: &World<'_>,
    class: &ClassTree<'_>,
    method: &MethodTree<'_>,
    code: &Code<'_>,
    insns: &[JInsn],
    befores: &[Option<Before>],
    pool: &Numbers,
) -> Result<NMethod, NoMemory>
    requires { (types : List (Option State)) × (ranges : List (Option RangeState))
        × (known : AreBefore (body_of class.now method.now code.now insns.now) types ranges befores.now)
        × IsSelectable (body_of class.now method.now code.now insns.now) types }
    ensures { (types : List (Option State)) (ranges : List (Option RangeState))
        → AreBefore (body_of class.now method.now code.now insns.now) types ranges befores.now
        → IfOk result (λ narrow. narrow ≡ written_in_int_mode (resolution world.now (near_fields pool.now)
        (let c = class.now in c.name)) code.now (body_of class.now method.now code.now insns.now) types ranges) }
{
    if insns.len() > 0xFFFF_FFFF {
        return Err(NoMemory);
    }
    let desc = method.desc.items();
    let holder = class.name.items();
    let words = argument_words(method.flags, desc)? as u8;
    let frame = Frame::new(holder, method.flags, desc, code.max_locals, words)?;
    let names = Names {
        world,
        holder,
        pool,
    };
    let narrow = method_by(alloc, &names, &frame, code, insns, befores)?;
    Ok(narrow)
}
