//! From the text of a script to a `Script`, or rule 105 at the first line that says nothing there. What the
//! lines add up to is kept in a `PartialScript`.

ghost use Rattle.std.specs.Prelude.{◌≡◌, ◌<◌, ◌≤◌, ◌^◌, ◌⊎◌, ◌↔◌, length, IfOk, IfErr};
ghost use Rattle.cjc_list.specs.Bytes.Found.{Finds};
ghost use Rattle.cjc_list.specs.Bytes.Text.{kept_lines};
ghost use Rattle.cjc_list.specs.Bytes.Refused.{IsUnlessNoMemory};
ghost use Rattle.cjc_list.specs.Bytes.declared.fault.Fault.TheVariants as faults;
ghost use Rattle.cjc_list.specs.Bytes.declared.fault.Refusal.{Refusal as Refused};
ghost use Rattle.cjc_list.specs.Listed.{answer};
ghost use Rattle.cjc_script_text.specs.Scripted.{ScriptTree, Codes, fresh, with_lines, of_lines, scripted};
ghost use Rattle.cjc_script_text.specs.Spelling.{IsSpelt, IsBroken, SaysBroken};
ghost use Rattle.cjc_script_text.specs.Working.{AreShortLines};

use crate::partial_script::PartialScript;
use cjc_list::bytes::{Fault, Line, Stop, kept_lines, refused};
use cjc_script::Script;
use std::alloc::Global;

/// What these lines say.
#[tactic(auto, using(crate::proofs::Loops::lines_next, crate::proofs::Loops::lines_break, crate::proofs::Loops::lines_end, crate::proofs::Loops::one_turn, crate::proofs::Loops::line_is_short))]
fn read_lines(alloc: Global, lines: &[Line<'_>]) -> Result<PartialScript, Stop>
    requires short { AreShortLines lines.now }
    requires few { length lines.now ≤ 2 ^ 32 }
    ensures { Finds (λ d. d) (with_lines fresh lines.now) result }
{
    let mut partial_script = PartialScript::new(alloc);
    for line in lines {
        partial_script = partial_script.with_line(alloc, line)?;
    }
    Ok(partial_script)
}

/// The script of a text.
#[tactic(auto, unfolding(crate::specs::Scripted::of_lines), using(crate::proofs::Short::few_lines, crate::proofs::Short::short_lines))]
fn read_text(alloc: Global, bytes: &[u8]) -> Result<Script, Stop>
    requires { length bytes.now < 2 ^ 32 }
    ensures { Finds (λ s. s) (of_lines (kept_lines bytes.now)) result }
{
    let lines = kept_lines(alloc, bytes)?;
    let partial_script = read_lines(alloc, lines.items())?;
    partial_script.end()
}

/// What the script says, unless memory runs out.
#[tactic(auto, unfolding(crate::specs::Scripted::scripted))]
fn decided(alloc: Global, file: &[u8], bytes: &[u8]) -> Result<Script, Fault>
    requires { length bytes.now < 2 ^ 32 }
    ensures { IsUnlessNoMemory result (answer (scripted file.now bytes.now)) }
{
    match read_text(alloc, bytes) {
        Ok(script) => Ok(script),
        Err(Stop::Broken(at)) => Err(refused(alloc, file, 105, at)),
        Err(Stop::NoMemory) => Err(Fault::NoMemory),
    }
}

/// What the script of this name with this text says.
///
/// A text that is no script breaks rule 105 at the start of its first line that says nothing, or, where each line
/// says something, at the start of the first act to which no call and no answer belongs.
pub fn read(alloc: Global, file: &[u8], bytes: &[u8]) -> Result<Script, Fault>
    requires { length bytes.now < 2 ^ 32 }
    ensures exact { IsUnlessNoMemory result (answer (scripted file.now bytes.now)) }

    // What is read is spelt by the text, and what the text spells is read.
    ensures found { IfOk result (λ s. IsSpelt s bytes.now) }
    ensures only { (s : ScriptTree) → IsSpelt s bytes.now → IsUnlessNoMemory result (Ok s) }

    // A refusal says where the text breaks the rule, and where it breaks it is refused.
    ensures refused { IfErr result (SaysBroken file.now bytes.now) }
    ensures breaks { (r : Refused) → IsBroken file.now bytes.now r → IsUnlessNoMemory result (Err (faults.Refused r)) }
{
    decided(alloc, file, bytes)
}

/// What a text says, as a function, is the script that it spells or the rule that it breaks. A text spells one
/// script at most, or breaks the rule at one place, and not both.
pub fn scripts()
    ensures spells { (name text : Codes) (s : ScriptTree) → (scripted name text ≡ Ok s) ↔ IsSpelt s text }
    ensures breaks { (name text : Codes) (r : Refused) → (scripted name text ≡ Err r) ↔ IsBroken name text r }
    ensures script { (text : Codes) (s t : ScriptTree) → IsSpelt s text → IsSpelt t text → s ≡ t }
    ensures refusal { (name text : Codes) (r s : Refused) → IsBroken name text r → IsBroken name text s → r ≡ s }
    ensures both { (name text : Codes) (s : ScriptTree) (r : Refused) → IsSpelt s text → IsBroken name text r → ⊥ }
    ensures either { (name text : Codes) → ((s : ScriptTree) × IsSpelt s text)
        ⊎ ((r : Refused) × IsBroken name text r) }
{}
