//! `MethodBody`: a method of Method as rules on frames go over it (Java Card Virtual Machine Specification 2.2.2,
//! section 6.9). Made by `listed`.

ghost use Rattle.std.specs.Prelude.{map};
ghost use Rattle.cjc_methods.specs.LowerCheck.Codes.Bodies.{IsBody, placed_of};
ghost use Rattle.cjc_verify.specs.Working.Codes.{Ascend, ats};

use cjc_capread::decoder::Header;
use cjc_capread::{ClassRef, MethodDescriptor};
use cjc_methods::check::codes::Body;

/// A method with its header and its code.
#[derive(Drop)]
pub(crate) struct MethodBody<'a, 'b> {
    pub(crate) holder: ClassRef,
    pub(crate) method: MethodDescriptor,
    pub(crate) header: Header,
    pub(crate) code: &'a Body<'b>,
    pub(crate) ghost whole: { IsBody code.now },
    pub(crate) ghost rises: { Ascend (ats (map placed_of code.now.insns)) },
}
