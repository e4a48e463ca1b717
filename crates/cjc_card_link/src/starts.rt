//! Methods by the offsets of their headers: where they begin, and their instructions (Java Card Virtual Machine
//! Specification 2.2.2, section 6.9).

ghost use Rattle.std.specs.Prelude.{◌≡◌, ◌≤◌, ◌+◌, ℕ, List, option_map, IfSome};
ghost use Rattle.cjc_card_semantics.specs.CapRead.Decoder.Decoded.{IsAtFront, instruction_of};
ghost use Rattle.cjc_card_semantics.specs.Machine.Methods.{fetch, fetched_as, start_of as start_by_offset};
ghost use Rattle.cjc_card_frame.specs.Kinds.{code_of, pool_of, start_of, IsDecoded};
ghost use Rattle.cjc_card_link.specs.Tables.{AreKept, loaded_of};

use crate::tables::Tables;
use cjc_card_frame::fetch::fetched_by_bytes;
use cjc_card_frame::parts::{Code, Start};
use cjc_card_semantics::capread::decoder::Insn;

impl<'a> Tables<'a> {
    /// The method of a package whose header stands at an offset.
    pub fn start(&self, part: u32, offset: u64) -> Option<Start>
        requires { AreKept self.now }
        ensures { option_map start_of result ≡ start_by_offset (loaded_of self.now) part offset }
    {
        match self.package(part) {
            Some(package) => package.start(part, offset),
            None => None,
        }
    }

    /// The instruction at an offset, where all of it lies in its method's code.
    pub fn insn_at(&self, code: Code, at: u32) -> Option<Insn<'a>>
        requires { AreKept self.now }
        ensures is { option_map (fetched_as (loaded_of self.now) code.part (pool_of (loaded_of self.now) code.part) at)
            (option_map instruction_of result) ≡ fetch (loaded_of self.now) (code_of code) at }
        ensures within { IfSome result (λ i. at + i.size ≤ code.end) }
        ensures decoded { IfSome result (λ i. IsDecoded (instruction_of i)) }
        ensures front { IfSome result (λ i. (bytes : List ℕ) × IsAtFront i bytes) }
    {
        fetched_by_bytes();
        match self.package(code.part) {
            Some(package) => package.insn_at(code, at),
            None => None,
        }
    }
}
