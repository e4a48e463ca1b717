//! The instructions at the front of bytes, one behind the other (Java Card Virtual Machine Specification 2.2.2,
//! chapter 7). Called by `cut`.

ghost use Rattle.std.specs.Prelude.{◌≡◌, ◌+◌, ◌<◌, ◌≤◌, ◌^◌, IfOk, length};
ghost use Rattle.cjc_check.specs.Codes.Working.Steps.{IsWalk, walk_of};
ghost use Rattle.cjc_check_rules.specs.Codes.{instructions};

use crate::codes::code::At;
use cjc_capread::bytes::{NoMemory, Row};
use cjc_capread::decoder::decode;
use std::alloc::Global;

/// Instructions, or the offset of the first that is cut or none.
#[derive(Drop)]
pub(crate) enum Walk<'a> {
    Whole(Row<At<'a>>),
    Ends(u32),
}

/// The instructions that so many bytes at the front are, the first at an offset.
pub(crate) fn instructions<'a>(
    alloc: Global,
    count: usize,
    first: u32,
    bytes: &'a [u8],
) -> Result<Walk<'a>, NoMemory>
    requires { 3 + first + length bytes.now < 2 ^ 32 }
    ensures is { IfOk result (λ w. walk_of w ≡ instructions count count first bytes.now) }
    ensures within { IfOk result (λ w. IsWalk count bytes.now w) }
{
    let mut insns = Row::new(alloc);
    let mut at = first;
    let mut rest = bytes;
    let mut left = count;
    while left > 0 {
        let size = left.min(rest.len());
        match decode(&rest[..size]) {
            Some(insn) => {
                insns.push(At { at, insn })?;
                at += insn.size as u32;
                rest = &rest[insn.size..];
                left -= insn.size;
            }
            None => return Ok(Walk::Ends(at)),
        }
    }
    Ok(Walk::Whole(insns))
}
