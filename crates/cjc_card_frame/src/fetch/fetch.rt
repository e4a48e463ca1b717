//! The instruction at an offset of Method, decoded from its bytes (Java Card Virtual Machine Specification
//! 2.2.2, section 6.9), as the machine by token takes it before each step.

ghost use Rattle.std.specs.Prelude.{◌≡◌, ◌≤◌, ◌+◌, ◌<◌, ◌^◌, ℕ, List, option_map, slice_get, IfSome, Some};
ghost use Rattle.cjc_card_semantics.specs.Bytecode.Machine.{Fetched};
ghost use Rattle.cjc_card_semantics.specs.Machine.Loaded.{Loaded, Part};
ghost use Rattle.cjc_card_semantics.specs.Machine.Methods.{Code as CodeByToken, fetch, fetched_as, methods_begin};
ghost use Rattle.cjc_card_semantics.specs.CapRead.Decoder.Decoded.{IsAtFront, instruction_of};
ghost use Rattle.cjc_card_frame.specs.Codes.{bytes_at, insn_at};

use cjc_card_semantics::capread::decoder::{Insn, decode};

/// Where a method's code stands. Offsets are those of Method's info.
#[derive(Clone, Copy)]
pub struct Code<'a> {
    /// The bytes of all methods of its package.
    pub methods: &'a [u8],
    /// The offset of the first of these.
    pub begin: u32,
    /// The offsets where the code begins and ends.
    pub first: u32,
    pub end: u32,
}

/// The bytes from an offset on.
fn bytes_at<'a>(methods: &'a [u8], begin: usize, at: usize) -> &'a [u8]
    ensures { result.now ≡ bytes_at methods.now begin at }
{
    if at < begin || at - begin > methods.len() {
        &methods[methods.len()..]
    } else {
        &methods[at - begin..]
    }
}

/// The instruction at an offset; `None` exactly where none is that lies in the code.
pub fn insn_at<'a>(code: Code<'a>, at: usize) -> Option<Insn<'a>>
    requires { at < 2 ^ 32 }
    ensures is { option_map instruction_of result ≡ insn_at code.entry.methods.now code.entry.begin code.entry.first
        code.entry.end at }
    ensures within { IfSome result (λ i. at + i.size ≤ code.entry.end) }
    ensures front { IfSome result (λ i. (bytes : List ℕ) × IsAtFront i bytes) }
{
    if at < code.first as usize {
        return None;
    }
    let Some(insn) = decode(bytes_at(code.methods, code.begin as usize, at)) else {
        return None;
    };
    if insn.size <= code.end as usize && at <= code.end as usize - insn.size {
        Some(insn)
    } else {
        None
    }
}

/// What is fetched of a package is what these bytes say, with its operands resolved by the package's constant pool.
pub fn fetched_by_bytes()
    ensures { (l : Loaded) (code : CodeByToken) (part : Part) (at : ℕ) → slice_get l.parts code.part ≡ Some part
        → fetch l code at ≡ option_map (fetched_as l code.part part.pool at) (insn_at part.method.methods
        (methods_begin part) code.first code.end at) }
{}
