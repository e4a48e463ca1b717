//! From the text that names a group to its packages, or rule 109 at the first malformed line. What a single line says
//! is known to `line`.

ghost use Rattle.std.specs.Prelude.{◌≡◌, ◌<◌, ◌^◌, ◌⊎◌, ◌↔◌, ℕ, List, [], length, IfOk, IfErr};
ghost use Rattle.cjc_bytes.specs.Found.{Finds};
ghost use Rattle.cjc_bytes.specs.Text.{kept_lines};
ghost use Rattle.cjc_bytes.specs.Refused.{IsUnlessNoMemory};
ghost use Rattle.cjc_bytes.specs.declared.fault.Fault.TheVariants as faults;
ghost use Rattle.cjc_bytes.specs.declared.fault.Refusal.{Refusal as Refused};
ghost use Rattle.cjc_list.specs.Listed.{answer};
ghost use Rattle.cjc_group.specs.Grouped.{with_lines, of_lines, grouped};
ghost use Rattle.cjc_group.specs.Spelling.{IsSpelt, IsBroken, SaysBroken};
ghost use Rattle.cjc_group.specs.declared.line.PackageLine.{PackageLine as Package};

use crate::line::{PackageLine, read_line};
use cjc_bytes::{Fault, Line, Row, Stop, kept_lines, refused};
use std::alloc::Global;

/// The packages that these lines name.
#[tactic(auto, using(crate::proofs::Loops::with_lines_next, crate::proofs::Loops::with_lines_breaks, crate::proofs::Loops::with_lines_ends))]
fn read_lines(alloc: Global, lines: &[Line<'_>]) -> Result<Row<PackageLine>, Stop>
    ensures { Finds (λ ps. ps) (with_lines [] lines.now) result }
{
    let mut packages = Row::new(alloc);
    for line in lines {
        packages = read_line(alloc, packages, line)?;
    }
    Ok(packages)
}

/// The packages of a text, which has a line.
#[tactic(auto, unfolding(crate::specs::Grouped::of_lines))]
fn read_text(alloc: Global, bytes: &[u8]) -> Result<Row<PackageLine>, Stop>
    requires { length bytes.now < 2 ^ 32 }
    ensures { Finds (λ ps. ps) (of_lines (length bytes.now) (kept_lines bytes.now)) result }
{
    let lines = kept_lines(alloc, bytes)?;
    match lines.items() {
        [] => Err(Stop::Broken(bytes.len() as u32)),
        some => read_lines(alloc, some),
    }
}

/// What is named, unless memory runs out.
#[tactic(auto, unfolding(crate::specs::Grouped::grouped))]
fn decided(alloc: Global, name: &[u8], bytes: &[u8]) -> Result<Row<PackageLine>, Fault>
    requires { length bytes.now < 2 ^ 32 }
    ensures { IsUnlessNoMemory result (answer (grouped name.now bytes.now)) }
{
    match read_text(alloc, bytes) {
        Ok(packages) => Ok(packages),
        Err(Stop::Broken(at)) => Err(refused(alloc, name, 109, at)),
        Err(Stop::NoMemory) => Err(Fault::NoMemory),
    }
}

/// The packages that a text of this name names, one a line, in the order of its lines.
///
/// A text that names none, or more than 16, or has another line, breaks rule 109 at the start of its first malformed
/// line, or at its end where it has no line.
pub fn read_group(alloc: Global, name: &[u8], bytes: &[u8]) -> Result<Row<PackageLine>, Fault>
    requires { length bytes.now < 2 ^ 32 }
    ensures exact { IsUnlessNoMemory result (answer (grouped name.now bytes.now)) }

    // What is read is spelt by the text, and what the text spells is read.
    ensures found { IfOk result (λ ps. IsSpelt ps bytes.now) }
    ensures only { (ps : List Package) → IsSpelt ps bytes.now → IsUnlessNoMemory result (Ok ps) }

    // A refusal is by rule 109 at the place where the text breaks it, and a text that breaks it is refused.
    ensures refused { IfErr result (SaysBroken name.now bytes.now) }
    ensures breaks { (r : Refused) → IsBroken name.now bytes.now r → IsUnlessNoMemory result (Err (faults.Refused r)) }
{
    decided(alloc, name, bytes)
}

/// What is named by a text, as a function, is the packages that it spells or the rule that it breaks. A text spells one
/// list of packages at most, or breaks the rule at one place, and not both.
pub fn groups()
    ensures spells { (name text : List ℕ) (ps : List Package) → (grouped name text ≡ Ok ps) ↔ IsSpelt ps text }
    ensures breaks { (name text : List ℕ) (r : Refused) → (grouped name text ≡ Err r) ↔ IsBroken name text r }
    ensures packages { (text : List ℕ) (ps qs : List Package) → IsSpelt ps text → IsSpelt qs text → ps ≡ qs }
    ensures refusal { (name text : List ℕ) (r s : Refused) → IsBroken name text r → IsBroken name text s → r ≡ s }
    ensures both { (name text : List ℕ) (ps : List Package) (r : Refused) → IsSpelt ps text → IsBroken name text r → ⊥ }
    ensures either { (name text : List ℕ) → ((ps : List Package) × IsSpelt ps text)
        ⊎ ((r : Refused) × IsBroken name text r) }
{}
