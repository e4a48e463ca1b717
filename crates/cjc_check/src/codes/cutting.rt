//! The methods of Method, cut by the counts of Descriptor into headers and whole instructions (Java Card
//! Virtual Machine Specification 2.2.2, section 6.9.2). Whoever tests code calls it once.

ghost use Rattle.std.specs.Prelude.{◌≡◌, ℕ, ◌+◌, ◌-◌, ◌*◌, ◌<◌, ◌≤◌, ◌∷◌, ◌^◌, IfOk, List, Result, drop, length};
ghost use Rattle.cjc_capread.specs.declared.tree.MethodDescriptor.{MethodDescriptor as Described};
ghost use Rattle.cjc_check.specs.Codes.Bodies.{IsCut, cut_of};
ghost use Rattle.cjc_check.specs.Codes.Working.Steps.{EndsAt, IsStep, followed};
ghost use Rattle.cjc_check_tables.specs.CheckIndex.Lookup.Indexed.{IsIndexed};
ghost use Rattle.cjc_check_tables.specs.CheckIndex.Lookup.Parts.{complete_of};
ghost use Rattle.cjc_check_rules.specs.Codes.{Code, codes_from, cut, instructions, where_cut_ends, with_code};
ghost use Rattle.cjc_capread.specs.Decoder.Decoded.{header_of};
ghost use Rattle.cjc_check_rules.specs.Complete.{AreSmall};
ghost use Rattle.cjc_check_rules.specs.Spots.{first};

use crate::codes::code::{Body, starts_of};
use crate::codes::methods::methods_of_all;
use crate::codes::walk::{Walk, instructions};
use cjc_capread::MethodDescriptor;
use cjc_capread::bytes::{NoMemory, Row};
use cjc_capread::decoder::{Header, method_header};
use cjc_check_rules::ComponentPlace;
use cjc_check_tables::check_index::lookup::{Names, unless};
use std::alloc::Global;

/// The tag of Method.
const METHOD: u8 = 7;

/// The codes of methods, or the offset where a method does not stand, or is cut or no whole instructions, or is
/// left over.
#[derive(Drop)]
pub enum Cutting<'a> {
    Whole(Row<Body<'a>>),
    Ends(u32),
}

/// The same of one method.
#[derive(Drop)]
enum Step<'a> {
    Whole(Body<'a>),
    Ends(u32),
}

/// The code behind a header, which begins at an offset.
fn behind_header<'a>(
    alloc: Global,
    at: u32,
    header: Header,
    count: u64,
    bytes: &'a [u8],
) -> Result<Step<'a>, NoMemory>
    requires small { 3 + at + length bytes.now < 2 ^ 32 }
    requires within { header.size ≤ length bytes.now }
    ensures is { IfOk result (λ s. (go : Result (List Code) ℕ) → with_code (header_of header) (at + header.size) count
        (instructions count count (at + header.size) (drop header.size bytes.now)) go ≡ followed s (λ b. go)) }
    ensures end { IfOk result (λ s. EndsAt (at + header.size + count) s) }
    ensures within { IfOk result (λ s. IsStep at bytes.now s) }
{
    let first = at + header.size as u32;
    match instructions(alloc, count as usize, first, &bytes[header.size..])? {
        Walk::Whole(insns) => {
            let starts = starts_of(alloc, insns.items())?;
            Ok(Step::Whole(Body {
                is_abstract: header.is_abstract,
                first,
                end: first + count as u32,
                insns,
                starts,
            }))
        }
        Walk::Ends(at) => Ok(Step::Ends(at)),
    }
}

/// The code of a method that is to begin at an offset.
fn body_at<'a>(
    alloc: Global,
    at: u32,
    method: MethodDescriptor,
    bytes: &'a [u8],
) -> Result<Step<'a>, NoMemory>
    requires { 3 + at + length bytes.now < 2 ^ 32 }
    ensures is { IfOk result (λ s. (ms : List Described) → codes_from at (method ∷ ms) bytes.now
        ≡ followed s (λ b. codes_from b.end ms (drop (b.end - at) bytes.now))) }
    ensures within { IfOk result (λ s. IsStep at bytes.now s) }
{
    if method.offset != u64::from(at) {
        return Ok(Step::Ends(at));
    }
    match method_header(bytes) {
        Some(header) => behind_header(alloc, at, header, method.bytecode_count, bytes),
        None => Ok(Step::Ends(at)),
    }
}

/// The codes of methods, the first of which is to begin at an offset.
fn codes_from<'a>(
    alloc: Global,
    from: u32,
    methods: &[MethodDescriptor],
    bytes: &'a [u8],
) -> Result<Cutting<'a>, NoMemory>
    requires { 3 + from + length bytes.now < 2 ^ 32 }
    ensures is { IfOk result (λ c. cut_of c ≡ codes_from from methods.now bytes.now) }
    ensures kept { IfOk result (λ c. IsCut c) }
{
    let mut bodies = Row::new(alloc);
    let mut at = from;
    let mut rest = bytes;
    for method in methods {
        match body_at(alloc, at, *method, rest)? {
            Step::Whole(body) => {
                rest = &rest[(body.end - at) as usize..];
                at = body.end;
                bodies.push(body)?;
            }
            Step::Ends(at) => return Ok(Cutting::Ends(at)),
        }
    }
    if rest.is_empty() {
        Ok(Cutting::Whole(bodies))
    } else {
        Ok(Cutting::Ends(at))
    }
}

/// The codes of the methods of classes.
pub fn cut<'a>(alloc: Global, names: &Names<'a>) -> Result<Cutting<'a>, NoMemory>
    requires ready { IsIndexed names.now }
    requires small { AreSmall (complete_of names.now.parts.now) }
    ensures is { IfOk result (λ c. cut_of c ≡ cut (complete_of names.now.parts.now)) }
    ensures kept { IfOk result (λ c. IsCut c) }
{
    let classes = names.parts.descriptor.classes.items();
    let methods = methods_of_all(alloc, names, classes)?;
    let handlers = names.parts.method.handlers.items();
    let from = 1 + 8 * handlers.len() as u32;
    let bytes = names.parts.method.methods.items();
    codes_from(alloc, from, methods.items(), bytes)
}

/// Where 709 is broken: where methods are cut no further.
#[tactic(auto, unfolding(cjc_check_rules::specs::Spots::first))]
pub fn whole_spot(cut: &Cutting<'_>) -> Option<ComponentPlace>
    requires { IsCut cut.now }
    ensures { result ≡ first (where_cut_ends (cut_of cut.now)) }
{
    match cut {
        Cutting::Whole(_) => None,
        Cutting::Ends(at) => unless(false, METHOD, *at),
    }
}
