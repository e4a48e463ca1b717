//! A broken rule of the world, by names that are lent.

ghost use Rattle.std.specs.Prelude.{◌≡◌, ◌⊎◌, ◌++◌, ◌∷◌, IfOk};
ghost use Rattle.cjc_bytes.specs.declared.fault.Fault.TheVariants as faults;
ghost use Rattle.cjc_world.specs.Working.Broken.{refusal_of, text_of};

use cjc_bytes::{Bytes, Fault, NoMemory, Place, Refusal, Rule};
use std::alloc::Global;

/// What of a class breaks a rule.
#[derive(Clone, Copy)]
pub(crate) enum Part<'w> {
    /// The class itself, or no class.
    Whole,
    /// A field: its place, its name and its descriptor.
    Field(usize, &'w [u8], &'w [u8]),
    /// A method: how many fields there are, its place, its name and its descriptor.
    Method(usize, usize, &'w [u8], &'w [u8]),
}

/// A broken rule, with the file, the class and the member that break it.
#[derive(Clone, Copy)]
pub(crate) struct Break<'w> {
    pub rule: u16,
    /// The list is 0; then the files in list order.
    pub file: usize,
    pub file_name: &'w [u8],
    /// The class's place in its file from 1, or 0 for no class.
    pub class: usize,
    pub class_name: &'w [u8],
    pub part: Part<'w>,
}

fn joined(alloc: Global, name: &[u8], between: &[u8], desc: &[u8]) -> Result<Bytes, NoMemory>
    ensures { IfOk result (λ text. text ≡ name.now ++ (between.now ++ desc.now)) }
{
    let mut text = Vec::from_slice(alloc, name)?;
    text.extend_from_slice(between)?;
    text.extend_from_slice(desc)?;
    Ok(Bytes::of(text))
}

fn text_of(alloc: Global, part: Part<'_>) -> Result<Bytes, NoMemory>
    ensures { IfOk result (λ text. text ≡ text_of part.entry) }
{
    match part {
        Part::Whole => Ok(Bytes::new(alloc)),
        Part::Field(_, name, desc) => joined(alloc, name, b":", desc),
        Part::Method(_, _, name, desc) => joined(alloc, name, b"", desc),
    }
}

fn refusal(alloc: Global, broken: Break<'_>) -> Result<Refusal, NoMemory>
    ensures { IfOk result (λ r. r ≡ refusal_of broken.entry) }
{
    let file = Bytes::copy_of(alloc, broken.file_name)?;
    let class = Bytes::copy_of(alloc, broken.class_name)?;
    let member = text_of(alloc, broken.part)?;
    Ok(Refusal {
        rule: Rule(broken.rule),
        place: Place {
            file,
            class,
            member,
            offset: 0,
        },
    })
}

/// The refusal of what is broken, or that there is no memory to say so.
pub(crate) fn refused(alloc: Global, broken: Break<'_>) -> Fault
    ensures { (result ≡ faults.Refused (refusal_of broken.entry)) ⊎ (result ≡ faults.NoMemory) }
{
    match refusal(alloc, broken) {
        Ok(refusal) => Fault::Refused(refusal),
        Err(NoMemory) => Fault::NoMemory,
    }
}
