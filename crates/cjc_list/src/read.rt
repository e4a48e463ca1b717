//! From the text of a list to a `List`, or rule 107 at the first malformed line. What the crate is called for;
//! what a single line says is known to `line`.

ghost use Rattle.std.specs.Prelude.{◌≡◌, ◌<◌, ◌^◌, ◌⊎◌, ◌↔◌, length, IfOk, IfErr};
ghost use Rattle.cjc_bytes.specs.Found.{Finds};
ghost use Rattle.cjc_bytes.specs.Text.{kept_lines};
ghost use Rattle.cjc_bytes.specs.Refused.{IsUnlessNoMemory};
ghost use Rattle.cjc_bytes.specs.declared.fault.Fault.TheVariants as faults;
ghost use Rattle.cjc_bytes.specs.declared.fault.Refusal.{Refusal as Refused};
ghost use Rattle.cjc_list.specs.Listed.{ListTree, Codes, with_lines, of_lines, listed, answer};
ghost use Rattle.cjc_list.specs.Spelling.{IsSpelt, IsBroken, SaysBroken};

use crate::line::{class_count, read_line, read_package};
use crate::listing::List;
use cjc_bytes::{Fault, Line, Stop, kept_lines, refused};
use std::alloc::Global;

/// The list with these further lines.
#[tactic(auto, using(crate::proofs::Loops::with_lines_next, crate::proofs::Loops::with_lines_breaks, crate::proofs::Loops::with_lines_ends))]
fn read_rest(alloc: Global, list: List, lines: &[Line<'_>]) -> Result<List, Stop>
    ensures { Finds (λ l. l) (with_lines list lines.now) result }
{
    let mut list = list;
    for line in lines {
        list = read_line(alloc, list, line)?;
    }
    Ok(list)
}

/// The list of these lines, of which the first is the package line.
#[tactic(auto, unfolding(crate::specs::Listed::of_lines))]
fn read_lines(alloc: Global, name: &[u8], end: u32, lines: &[Line<'_>]) -> Result<List, Stop>
    ensures { Finds (λ l. l) (of_lines name.now end lines.now) result }
{
    match lines {
        [] => Err(Stop::Broken(end)),
        [first, rest @ ..] => {
            let list = read_package(alloc, name, first)?;
            read_rest(alloc, list, rest)
        }
    }
}

/// The list of a text, with class lines or without.
fn read_text(alloc: Global, name: &[u8], bytes: &[u8]) -> Result<List, Stop>
    requires { length bytes.now < 2 ^ 32 }
    ensures { Finds (λ l. l) (of_lines name.now (length bytes.now) (kept_lines bytes.now)) result }
{
    let lines = kept_lines(alloc, bytes)?;
    read_lines(alloc, name, bytes.len() as u32, lines.items())
}

/// What is listed, unless memory runs out.
#[tactic(auto, unfolding(crate::specs::Listed::listed))]
fn decided(alloc: Global, name: &[u8], bytes: &[u8]) -> Result<List, Fault>
    requires { length bytes.now < 2 ^ 32 }
    ensures { IsUnlessNoMemory result (answer (listed name.now bytes.now)) }
{
    match read_text(alloc, name, bytes) {
        Ok(list) => {
            if class_count(list.lines.items()) == 0 {
                return Err(refused(alloc, name, 108, bytes.len() as u32));
            }
            Ok(list)
        }
        Err(Stop::Broken(at)) => Err(refused(alloc, name, 107, at)),
        Err(Stop::NoMemory) => Err(Fault::NoMemory),
    }
}

/// What the list of this name with this text says.
///
/// A text that is no list breaks rule 107 at the start of its first malformed line, or at its end where it
/// has no line, and one with no class line rule 108 at its end.
pub fn read_list(alloc: Global, name: &[u8], bytes: &[u8]) -> Result<List, Fault>
    requires { length bytes.now < 2 ^ 32 }
    ensures exact { IsUnlessNoMemory result (answer (listed name.now bytes.now)) }

    // What is read is spelt by the text, and what the text spells is read.
    ensures found { IfOk result (λ t. IsSpelt name.now t bytes.now) }
    ensures only { (t : ListTree) → IsSpelt name.now t bytes.now → IsUnlessNoMemory result (Ok t) }

    // A refusal is by a rule that the text breaks, and a rule that it breaks is refused.
    ensures refused { IfErr result (SaysBroken name.now bytes.now) }
    ensures breaks { (r : Refused) → IsBroken name.now bytes.now r → IsUnlessNoMemory result (Err (faults.Refused r)) }
{
    decided(alloc, name, bytes)
}

/// What is listed of a text, as a function, is the list that it spells or the rule that it breaks. A text spells one
/// list at most, or breaks a rule at one place, and not both.
pub fn listings()
    ensures spells { (name text : Codes) (t : ListTree) → (listed name text ≡ Ok t) ↔ IsSpelt name t text }
    ensures breaks { (name text : Codes) (r : Refused) → (listed name text ≡ Err r) ↔ IsBroken name text r }
    ensures list { (name text : Codes) (s t : ListTree) → IsSpelt name s text → IsSpelt name t text → s ≡ t }
    ensures refusal { (name text : Codes) (r s : Refused) → IsBroken name text r → IsBroken name text s → r ≡ s }
    ensures both { (name text : Codes) (t : ListTree) (r : Refused) → IsSpelt name t text → IsBroken name text r → ⊥ }
    ensures either { (name text : Codes) → ((t : ListTree) × IsSpelt name t text)
        ⊎ ((r : Refused) × IsBroken name text r) }
{}
