//! What the program does, whole.

ghost use Rattle.std.specs.Prelude.{◌≡◌, ◌⊎◌, ◌↔◌, ℕ, List, None, IfSome, IsSomeAnd, Err};
ghost use Rattle.cjc_bytes.specs.declared.fault.Refusal.{Refusal};
ghost use Rattle.cjc_shelf.specs.Count.{Rose};
ghost use Rattle.cjc_command.specs.Plan.{verdict, complete};
ghost use Rattle.cjc_command.specs.Publish.{Quiet};
ghost use Rattle.cjc_command.specs.Answer.{Acts, Answers, Cause, Decides};
ghost use Rattle.jcconv.specs.Request.{request};
ghost use Rattle.jcconv.specs.Asked.{asked};
ghost use Rattle.jcconv.specs.Command.{command_of};
ghost use Rattle.jcconv.specs.Promise.{Promised};

use crate::command::{Asked, asked_by};
use crate::converting::gather_convert;
use cjc_bytes::Bytes;
use cjc_command::{Status, publish};
use cjc_shelf::{Shelf, Sink};
use std::alloc::Global;

fn act<S: Shelf, O: Sink>(alloc: Global, command: Asked<'_>, shelf: &mut S, out: &mut O) -> Status
    ensures { Acts (command_of (asked command.entry)) (S.shelved shelf.old) (S.shelved shelf.new) (O.sunk out.old) (O.sunk out.new) result }
{
    match gather_convert(alloc, command.list, command.dir, shelf) {
        Ok(todo) => publish(shelf, out, todo),
        Err(end) => end,
    }
}

/// Does what the words after the program's name ask for.
///
/// # Errors
///
/// The status says how the run ended: all done, wrong words, a broken rule with its place, a file that is
/// absent or too long, a fault of the shelf or of the output, or want of memory.
pub fn run<S: Shelf, O: Sink>(alloc: Global, words: &[Bytes], shelf: &mut S, out: &mut O) -> Status
    // Usage exactly where the words are of no form, and then nothing is read or printed.
    ensures usage { (result ≡ Status.Usage) ↔ (request words.now ≡ None) }
    ensures untouched { result ≡ Status.Usage → (S.shelved shelf.new ≡ S.shelved shelf.old) × (O.sunk out.new ≡ O.sunk out.old) }

    // Over each shelf and each sink.
    ensures cause { Cause (S.shelved shelf.old) (S.shelved shelf.new) (O.sunk out.old) (O.sunk out.new) result }
    ensures quiet { Quiet (O.sunk out.old) (O.sunk out.new) result }

    // Over a shelf that tells its files.
    ensures told { IfSome (request words.now) (λ asked. IfSome (S.shelved shelf.old).files (λ files.
        Answers (command_of asked) files (S.shelved shelf.old) (S.shelved shelf.new) (O.sunk out.old) (O.sunk out.new) result)) }

    // Where no fault count rises, the words and the files decide the answer, want of memory aside.
    ensures decided { IfSome (request words.now) (λ asked. IfSome (S.shelved shelf.old).files (λ files.
        (Rose (S.shelved shelf.old).faults (S.shelved shelf.new).faults → ⊥) → (Rose (O.sunk out.old).faults (O.sunk out.new).faults → ⊥)
        → (result ≡ Status.NoMemory) ⊎ Decides (command_of asked) files result)) }

    // Where moreover all files are read and no rule is broken, all is done.
    ensures complete { IfSome (request words.now) (λ asked. IfSome (S.shelved shelf.old).files (λ files.
        (Rose (S.shelved shelf.old).faults (S.shelved shelf.new).faults → ⊥) → (Rose (O.sunk out.old).faults (O.sunk out.new).faults → ⊥)
        → (inputs : (command_of asked).Inputs) → verdict files (command_of asked).plan ≡ complete inputs → ((r : Refusal) → (command_of asked).Makes inputs (Err r) → ⊥)
        → (result ≡ Status.NoMemory) ⊎ (result ≡ Status.Done))) }

    // What was asked for is done as promised: the class files before and the components after behave alike, and
    // the components are consistent.
    ensures alike { result ≡ Status.Done → IfSome (request words.now) (λ asked. IfSome (S.shelved shelf.old).files (λ before. IsSomeAnd (S.shelved shelf.new).files (Promised asked before))) }
{
    match asked_by(words) {
        None => Status::Usage,
        Some(command) => act(alloc, command, shelf, out),
    }
}
