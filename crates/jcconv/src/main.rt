//! The program: it hands the words, the system's files and its output to `run`, puts the line that says how the
//! run ended to standard error, and ends with its status. It knows no command.
#![tactic(auto)]

use cjc_run::bytes::{Bytes, Row};
use cjc_run::shelf::command::Status;
use cjc_run::shelf::{DiskShelf, StdSink};
use cjc_run::{run, status_line};
use std::alloc::Global;
use std::process::ExitCode;
use std::rt::Env;
use std::{env, io};

// The words after the program's name. Where they are no text, the answer is that for wrong words.
fn words<R: Env + AllocGlobal>(rt: &R) -> Result<Row<Bytes>, Status> {
    let arguments = match env::args(rt) {
        Ok(arguments) => arguments,
        Err(error) => {
            return Err(match error.kind() {
                io::ErrorKind::InvalidData => Status::Usage,
                _ => Status::NoMemory,
            });
        }
    };
    let mut words = Row::new(rt.alloc());
    for argument in arguments.skip(1) {
        words.push(Bytes::copy_of(rt.alloc(), argument.as_bytes())?)?;
    }
    Ok(words)
}

fn main(rt: HostRuntime) -> ExitCode {
    let mut shelf = DiskShelf::new(&rt);
    let mut out = StdSink::new(rt.stdout());
    let status = match words(&rt) {
        Ok(words) => run(rt.alloc(), words.items(), &mut shelf, &mut out),
        Err(end) => end,
    };
    let mut errors = StdSink::new(rt.stderr());
    let _ = status_line(&status, &mut errors);
    ExitCode::from(status.code())
}
