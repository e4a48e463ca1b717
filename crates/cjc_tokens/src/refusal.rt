//! The refusal of a class whose tokens are too many.

ghost use Rattle.std.specs.Prelude.{◌≡◌, ◌⊎◌, IfOk};
ghost use Rattle.cjc_bytes.specs.declared.fault.Fault.TheVariants as faults;
ghost use Rattle.cjc_tokens.specs.Rules.{at_class, file_of};

use cjc_bytes::{Bytes, Fault, FileLine, NoMemory, Place, Refusal, Rule};
use std::alloc::Global;

/// The file of a class of the package: its place among the files of the list, from 1, and its name.
pub fn file_of(lines: &[FileLine], number: u32) -> (usize, &[u8])
    ensures file { result.0 ≡ (file_of 0 lines.now number).file }
    ensures name { result.1.now ≡ (file_of 0 lines.now number).name }
{
    let mut left = number;
    for (place, line) in lines.iter().enumerate() {
        if line.class_file {
            if left == 0 {
                return (place + 1, line.name.items());
            }
            left -= 1;
        }
    }
    (lines.len() + 1, b"")
}

fn refusal(
    alloc: Global,
    lines: &[FileLine],
    number: u32,
    class_name: &[u8],
) -> Result<Refusal, NoMemory>
    ensures { IfOk result (λ r. r ≡ (at_class (file_of 0 lines.now number) class_name.now).refusal) }
{
    let file = Bytes::copy_of(alloc, file_of(lines, number).1)?;
    let class = Bytes::copy_of(alloc, class_name)?;
    Ok(Refusal {
        rule: Rule(413),
        place: Place {
            file,
            class,
            member: Bytes::new(alloc),
            offset: 0,
        },
    })
}

/// The refusal of a class of the package that breaks 413, or that there is no memory to say so.
pub(crate) fn refused(alloc: Global, lines: &[FileLine], number: u32, class_name: &[u8]) -> Fault
    ensures { (result ≡ faults.Refused (at_class (file_of 0 lines.now number) class_name.now).refusal) ⊎ (result ≡ faults.NoMemory) }
{
    match refusal(alloc, lines, number, class_name) {
        Ok(refusal) => Fault::Refused(refusal),
        Err(NoMemory) => Fault::NoMemory,
    }
}
