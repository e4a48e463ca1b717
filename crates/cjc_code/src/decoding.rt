//! From the code of a method to its instructions, or the first place that breaks rule 103 or 303: cut, tested,
//! then named. What the crate is called for.

ghost use Rattle.std.specs.Prelude.{◌≡◌, ◌≤◌, ◌<◌, ◌^◌, List, length, IfOk, IfErr, Ok, Err};
ghost use Rattle.cjc_bytes.specs.Refused.{IsUnlessNoMemory};
ghost use Rattle.cjc_bytes.specs.declared.fault.Fault.TheVariants as faults;
ghost use Rattle.cjc_code.specs.declared.insn.JInsn.{JInsn as Insn};
ghost use Rattle.cjc_bytes.specs.declared.breaks.BrokenAt.{BrokenAt};
ghost use Rattle.cjc_code.specs.Decoded.{least, decoding, decoding_at, Answers, IsBroken, HasCode, refusal_of};

use crate::cutting::cut;
use crate::insn::JInsn;
use crate::named::all_named;
use crate::starts::starts;
use crate::unfit::places;
use cjc_bytes::{BrokenAt, Fault, NoMemory, Part, PlaceRef, Refusal, Row, Stop, refusal};
use cjc_classfile::{ClassTree, Code, MethodTree};
use std::alloc::Global;

/// Why the code of a method gave no instructions.
#[derive(Clone, Copy)]
pub enum DecodeError {
    /// Rule 103 or 303, and the offset from the start of the code.
    Broken(BrokenAt),
    NoMemory,
}

impl From<NoMemory> for DecodeError {
    ghost use Rattle.std.specs.Prelude.{◌≡◌};
    ghost use Rattle.cjc_code.specs.declared.decoding.DecodeError.TheVariants as errors;

    ghost from_gives = { λ _ e. e ≡ errors.NoMemory };

    fn from(_: NoMemory) -> DecodeError {
        DecodeError::NoMemory
    }
}

/// The least of some numbers.
#[tactic(auto, unfolding(crate::specs::Decoded::least))]
fn least(numbers: &[u32]) -> Option<u32>
    ensures { result ≡ least numbers.now }
{
    match numbers {
        [] => None,
        [first, more @ ..] => {
            let mut least = *first;
            for number in more {
                least = least.min(*number);
            }
            Some(least)
        }
    }
}

/// The instructions of a method's code.
#[tactic(auto, unfolding(crate::specs::Decoded::decoding, crate::specs::Unfit::unfit_code))]
fn decode_code(
    alloc: Global,
    class: &ClassTree<'_>,
    method: &MethodTree<'_>,
    code: &Code<'_>,
) -> Result<Row<JInsn>, DecodeError>
    requires desc { length method.now.desc < 2 ^ 32 }
    requires bytes { length code.now.bytes ≤ 65535 }
    ensures { Answers (decoding class.now method.now code.now) result }
{
    let cut = cut(alloc, code.bytes)?;
    let starts = starts(alloc, &cut, code.bytes.len())?;
    let places = places(alloc, class, method, code, &cut, &starts)?;
    if let Some(offset) = least(places.items()) {
        return Err(DecodeError::Broken(BrokenAt { rule: 103, offset }));
    }
    match all_named(alloc, class.pool.items(), cut.insns.items()) {
        Ok(insns) => Ok(insns),
        Err(Stop::Broken(offset)) => Err(DecodeError::Broken(BrokenAt { rule: 303, offset })),
        Err(Stop::NoMemory) => Err(DecodeError::NoMemory),
    }
}

/// The instructions of the code of a method, by its place among the methods of its class, with their offsets
/// and the names that they stand for.
///
/// # Errors
///
/// Rule 103 where the code is not a run of instructions, at the least offset where it is broken; else rule
/// 303 where an instruction is not converted, at the first such.
pub fn decode_method(
    alloc: Global,
    class: &ClassTree<'_>,
    method: u32,
) -> Result<Row<JInsn>, DecodeError>
    requires { HasCode class.now method }

    // The answer is what the code says, its instructions or the rule that it breaks, unless memory runs out.
    ensures { Answers (decoding_at class.now method) result }
{
    let method = &class.methods.items()[method as usize];
    match &method.code {
        Some(code) => decode_code(alloc, class, method, code),
        None => Ok(Row::new(alloc)),
    }
}

/// The refusal of the code of a method, by its place among the methods of its class. Its place has the file, the class,
/// the method's name and descriptor, and the offset in the code in bytes.
pub fn refusal_of(
    alloc: Global,
    file: &[u8],
    class: &ClassTree<'_>,
    method: u32,
    broken: BrokenAt,
) -> Result<Refusal, NoMemory>
    requires { method < length class.now.methods }
    ensures { IfOk result (λ r. r ≡ refusal_of file.now class.now method broken) }
{
    let method = &class.methods.items()[method as usize];
    let place = PlaceRef {
        file,
        class: class.name.items(),
        part: Part::Method(method.name.items(), method.desc.items()),
        offset: broken.offset,
    };
    refusal(alloc, broken.rule, place)
}

/// As `decode_method`, with a broken rule as the refusal of `refusal_of`.
pub fn decode(
    alloc: Global,
    file: &[u8],
    class: &ClassTree<'_>,
    method: u32,
) -> Result<Row<JInsn>, Fault>
    requires { HasCode class.now method }

    // What is decoded are the instructions of the code, and where it has some they are decoded.
    ensures found { IfOk result (λ insns. decoding_at class.now method ≡ Ok insns) }
    ensures only { (insns : List Insn) → decoding_at class.now method ≡ Ok insns → IsUnlessNoMemory result (Ok insns) }

    // A refusal is where the code breaks a rule, and where it does it is refused.
    ensures refused { IfErr result (IsBroken (decoding_at class.now method) (refusal_of file.now class.now method)) }
    ensures breaks { (b : BrokenAt) → decoding_at class.now method ≡ Err b
        → IsUnlessNoMemory result (Err (faults.Refused (refusal_of file.now class.now method b))) }
{
    match decode_method(alloc, class, method) {
        Ok(insns) => Ok(insns),
        Err(DecodeError::Broken(broken)) => {
            Err(Fault::Refused(refusal_of(alloc, file, class, method, broken)?))
        }
        Err(DecodeError::NoMemory) => Err(Fault::NoMemory),
    }
}
