//! How a run can end, and what is left to do once all is computed.

ghost use Rattle.std.specs.Prelude.{◌≡◌};

use cjc_bytes::{Bytes, Fault, NoMemory, Refusal, Row};

/// How a run ended. The exit statuses are 0 to 7, in this order.
#[derive(Drop)]
pub enum Status {
    /// All was written and printed.
    Done,
    /// The words are of no form. Nothing was read.
    Usage,
    /// A rule is broken. Nothing was written.
    Refused(Refusal),
    /// The command reads a file of this name, and there is none. Nothing was written.
    Absent(Bytes),
    /// The file of this name has more bytes than are read. Nothing was written.
    TooLong(Bytes),
    /// The file of this name could not be read or written. The files written before it stand whole.
    ShelfFault(Bytes),
    /// The output took a prefix of the text. The files stand whole.
    SinkFault,
    /// There was no memory left.
    NoMemory,
}

/// A file to be written.
#[derive(Drop)]
pub struct File {
    pub name: Bytes,
    pub bytes: Bytes,
}

/// What is left to do once all is computed: files to write, by their whole names, and lines to print.
#[derive(Drop)]
pub struct Todo {
    pub files: Row<File>,
    pub lines: Row<Bytes>,
}

impl From<NoMemory> for Status {
    ghost use Rattle.cjc_shelf.specs.declared.command.status.Status.TheVariants as ends;

    ghost from_gives = { λ _ e. e ≡ ends.NoMemory };

    fn from(_: NoMemory) -> Status {
        Status::NoMemory
    }
}

impl From<Fault> for Status {
    ghost use Rattle.cjc_shelf.specs.Command.Gather.{status_of_fault};

    ghost from_gives = { λ fault e. e ≡ status_of_fault fault };

    fn from(fault: Fault) -> Status {
        match fault {
            Fault::Refused(refusal) => Status::Refused(refusal),
            Fault::NoMemory => Status::NoMemory,
        }
    }
}

impl Status {
    ghost use Rattle.cjc_shelf.specs.Command.Answer.{code_of};

    /// The exit status of the program.
    pub fn code(&self) -> u8
        ensures { result ≡ code_of self.now }
    {
        match self {
            Status::Done => 0,
            Status::Usage => 1,
            Status::Refused(_) => 2,
            Status::Absent(_) => 3,
            Status::TooLong(_) => 4,
            Status::ShelfFault(_) => 5,
            Status::SinkFault => 6,
            Status::NoMemory => 7,
        }
    }
}
