//! The files of the system. Only counts are known of them; what they hold, a test shows.

ghost use Rattle.std.specs.Prelude.{◌≡◌, ◌≤◌, ◌+◌, [], None, length, IsErrOf};

use crate::{LONGEST, ReadEnd, Shelf, WriteEnd};
use cjc_bytes::{Bytes, Row};
use std::alloc::Global;
use std::fs;
use std::io::{ErrorKind, Read, Write};
use std::rt::Files;

/// The system's files. What they hold is not told.
#[derive(Drop)]
pub struct DiskShelf<'a, R: Files> {
    rt: &'a R,
    misses: u64,
    faults: u64,
    taken: u64,
}

// Takes what is left, up to one byte more than the longest file has.
fn take_all<F: Read>(file: &mut F, bytes: &mut Vec<u8>) -> Result<(), ReadEnd>
    requires { bytes.old.items ≡ [] }
    ensures bound { length bytes.new.items ≤ LONGEST + 1 }
    ensures absent { IsErrOf result ReadEnd.Absent → ⊥ }
    ensures too_long { IsErrOf result ReadEnd.TooLong → ⊥ }
{
    let mut piece = [0u8; 4096];
    for _ in 0..LONGEST + 1 {
        let room = (LONGEST + 1 - bytes.len()).min(4096);
        let Ok(count) = file.read(&mut piece[..room]) else {
            return Err(ReadEnd::Failed);
        };
        if count == 0 {
            break;
        }
        let Ok(()) = bytes.extend_from_slice(&piece[..count]) else {
            return Err(ReadEnd::NoMemory);
        };
    }
    Ok(())
}

// Writes all of the bytes, or says that one write failed or took nothing.
pub(crate) fn put_all<F: Write>(file: &mut F, bytes: &[u8]) -> bool {
    let mut rest = bytes;
    while !rest.is_empty() {
        match file.write(rest) {
            Ok(0) => return false,
            Ok(count) => rest = &rest[count..],
            Err(_) => return false,
        }
    }
    true
}

fn open<R: Files>(rt: &R, name: &[u8]) -> Result<R::File, ReadEnd>
    ensures too_long { IsErrOf result ReadEnd.TooLong → ⊥ }
{
    let Ok(path) = str::from_utf8(name) else {
        return Err(ReadEnd::Absent);
    };
    match fs::open(rt, path) {
        Ok(file) => Ok(file),
        Err(error) => match error.kind() {
            ErrorKind::NotFound => Err(ReadEnd::Absent),
            _ => Err(ReadEnd::Failed),
        },
    }
}

impl<'a, R: Files> DiskShelf<'a, R> {
    ghost use Rattle.cjc_shelf.specs.Disk.{disk_shelved};

    /// The files that the system has, with nothing counted.
    pub fn new(rt: &'a R) -> DiskShelf<'a, R>
        ensures { disk_shelved result ≡ record {
          files = None;
          last = [];
          misses = 0;
          faults = 0;
          wants = 0;
          taken = 0;
        } }
    {
        DiskShelf {
            rt,
            misses: 0,
            faults: 0,
            taken: 0,
        }
    }
}

impl<'a, R: Files> Shelf for DiskShelf<'a, R> {
    ghost use Rattle.cjc_shelf.specs.Disk.{disk_shelved};

    ghost shelved = { disk_shelved };

    fn read(&mut self, alloc: Global, name: &[u8]) -> Result<Bytes, ReadEnd> {
        let mut bytes = Vec::new(alloc);
        let ended = match open(self.rt, name) {
            Ok(mut file) => take_all(&mut file, &mut bytes),
            Err(end) => Err(end),
        };
        self.taken = bytes.len() as u64;
        match ended {
            Err(ReadEnd::Absent) => {
                self.misses = self.misses.saturating_add(1);
                Err(ReadEnd::Absent)
            }
            Err(ReadEnd::Failed) => {
                self.faults = self.faults.saturating_add(1);
                Err(ReadEnd::Failed)
            }
            Err(end) => Err(end),
            Ok(()) => {
                if bytes.len() > LONGEST {
                    return Err(ReadEnd::TooLong);
                }
                Ok(Row::of(bytes))
            }
        }
    }

    fn write(&mut self, name: &[u8], bytes: &[u8]) -> Result<(), WriteEnd> {
        if !put_file(self.rt, name, bytes) {
            self.faults = self.faults.saturating_add(1);
            return Err(WriteEnd::Failed);
        }
        Ok(())
    }
}

// Whether all of the bytes were written under the name.
fn put_file<R: Files>(rt: &R, name: &[u8], bytes: &[u8]) -> bool {
    let Ok(path) = str::from_utf8(name) else {
        return false;
    };
    match fs::create(rt, path) {
        Ok(mut file) => put_all(&mut file, bytes),
        Err(_) => false,
    }
}
