//! What the program does, whole: the words into a command, its reads, and then what is written and printed. Only
//! `gather` knows one command from another.

ghost use Rattle.std.specs.Prelude.{◌≡◌, ◌↔◌, None, IfSome};
ghost use Rattle.cjc_shelf.specs.Command.Gather.{Gathers};
ghost use Rattle.cjc_shelf.specs.Command.Publish.{Quiet};
ghost use Rattle.cjc_shelf.specs.Command.Answer.{Acts, Answers, Cause, IsDecided, IsComplete};
ghost use Rattle.cjc_run.specs.Request.{request};
ghost use Rattle.cjc_run.specs.Asked.{HasSize, asked};
ghost use Rattle.cjc_run.specs.Command.{command_of};
ghost use Rattle.cjc_run.specs.Promise.{Promised};
ghost use Rattle.cjc_run.specs.Together.{Agrees};
ghost use Rattle.cjc_run.specs.Written.{Accepts};

use crate::command::{Asked, asked_by};
use crate::converting::gather_convert;
use crate::laws::{written_files_pass, written_packages_agree};
use cjc_cmd_compat::cmd_check::checking::gather_check;
use cjc_cmd_compat::gather_compat;
use cjc_cmd_link::{gather_link, gather_linkjvm};
use cjc_cmd_make::report::gather_make;
use cjc_cmd_verify::cmd_card::report::gather_card;
use cjc_cmd_verify::cmd_jvm::report::gather_run;
use cjc_cmd_verify::gather_verify;
use cjc_shelf::bytes::Bytes;
use cjc_shelf::command::{Status, Todo, publish};
use cjc_shelf::{Shelf, Sink};
use std::alloc::Global;

// Reads and computes what a command writes and prints. Nothing is written here.
fn gather<S: Shelf>(alloc: Global, command: Asked<'_>, shelf: &mut S) -> Result<Todo, Status>
    requires { HasSize command }
    ensures { Gathers (command_of (asked command.entry)).plan (command_of (asked command.entry)).Makes
        (S.shelved shelf.old) (S.shelved shelf.new) result }
{
    match command {
        Asked::Convert { list, dir } => gather_convert(alloc, list, dir, shelf),
        Asked::Check { list, dir } => gather_check(alloc, list, dir, shelf),
        Asked::Jvm { list, script, n } => gather_run(alloc, list, script, n, shelf),
        Asked::Card {
            list,
            dir,
            script,
            n,
        } => gather_card(alloc, list, dir, script, n, shelf),
        Asked::Make { number, size } => gather_make(alloc, number, size, shelf),
        Asked::Verify { list, dir } => gather_verify(alloc, list, dir, shelf),
        Asked::Link { group, script, n } => gather_link(alloc, group, script, n, shelf),
        Asked::LinkJvm { group, script, n } => gather_linkjvm(alloc, group, script, n, shelf),
        Asked::Compat { old, new } => gather_compat(alloc, old, new, shelf),
    }
}

fn act<S: Shelf, O: Sink>(alloc: Global, command: Asked<'_>, shelf: &mut S, out: &mut O) -> Status
    requires { HasSize command }
    ensures { Acts (command_of (asked command.entry)) (S.shelved shelf.old) (S.shelved shelf.new) (O.sunk out.old)
        (O.sunk out.new) result }
{
    match gather(alloc, command, shelf) {
        Ok(todo) => publish(shelf, out, todo),
        Err(end) => end,
    }
}

/// Does what the words after the program's name ask for.
///
/// # Errors
///
/// The status says how the run ended: all done, wrong words, a broken rule with its place, a file that is
/// absent or too long, a fault of the shelf or of the output, or want of memory.
pub fn run<S: Shelf, O: Sink>(alloc: Global, words: &[Bytes], shelf: &mut S, out: &mut O) -> Status
    // Usage exactly where the words are of no form, and then nothing is read or printed.
    ensures usage { (result ≡ Status.Usage) ↔ (request words.now ≡ None) }
    ensures untouched { result ≡ Status.Usage → (S.shelved shelf.new ≡ S.shelved shelf.old)
        × (O.sunk out.new ≡ O.sunk out.old) }

    // Over each shelf and each sink.
    ensures cause { Cause (S.shelved shelf.old) (S.shelved shelf.new) (O.sunk out.old) (O.sunk out.new) result }
    ensures quiet { Quiet (O.sunk out.old) (O.sunk out.new) result }

    // What each answer says of what was read, made, written and printed: by the told files, or else by some
    // answers to the reads.
    ensures answers { IfSome (request words.now) (λ asked. Answers (command_of asked) (S.shelved shelf.old)
        (S.shelved shelf.new) (O.sunk out.old) (O.sunk out.new) result) }

    // Where no fault count rises, and files are told or none is read, words and files decide the answer, want
    // of memory aside.
    ensures decided { IfSome (request words.now) (λ asked. IsDecided (command_of asked) (S.shelved shelf.old)
        (S.shelved shelf.new) (O.sunk out.old) (O.sunk out.new) result) }

    // Where moreover all files are read and no rule is broken, all is done.
    ensures complete { IfSome (request words.now) (λ asked. IsComplete (command_of asked) (S.shelved shelf.old)
        (S.shelved shelf.new) (O.sunk out.old) (O.sunk out.new) result) }

    // What was asked for is done as promised: over fair export files the class files before and the components
    // after behave alike, and the components are consistent.
    ensures alike { result ≡ Status.Done → IfSome (request words.now) (λ asked. Promised asked (S.shelved shelf.old)
        (S.shelved shelf.new) (O.sunk out.old) (O.sunk out.new)) }

    // What `convert` wrote, `verify` accepts: where a list and its files are there, the export files among them are
    // fair, and in the folder stand the files that `convert` makes of these, all is done, want of memory aside, where
    // no fault count rises.
    ensures accepted { IfSome (request words.now) (λ asked. Accepts asked (S.shelved shelf.old) (S.shelved shelf.new)
        (O.sunk out.old) (O.sunk out.new) result) }

    // What `link` and `linkjvm` print of packages that `convert` wrote agrees: where a text names packages in whose
    // folders what `convert` makes of their lists stands, none of their methods in int mode, over files that are fair
    // together, and nothing is refused, these are run, and for every script their reports by name and by token agree.
    ensures together { IfSome (request words.now) (λ asked. Agrees asked (S.shelved shelf.old)) }
{
    written_files_pass();
    written_packages_agree();
    match asked_by(words) {
        None => Status::Usage,
        Some(command) => act(alloc, command, shelf, out),
    }
}
