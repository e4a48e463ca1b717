//! The methods of Method: under which class Descriptor lists each, its header, and its instructions (Java Card Virtual
//! Machine Specification 2.2.2, section 6.9). Made once by `verify`; what the rules on frames go over.

ghost use Rattle.std.specs.Prelude.{◌≡◌, ◌++◌, ◌-◌, drop, map, option_map, IfOk, OnOk};
ghost use Rattle.std.specs.List.{filter, flat_map};
ghost use Rattle.cjc_capread.specs.Decoder.Decoded.{header_of};
ghost use Rattle.cjc_capread.specs.MethodHeader.{method_header as header_in};
ghost use Rattle.cjc_methods.specs.LowerCheck.Codes.Bodies.{AreBodies, IsBody, IsCut, code_of, cut_of, placed_of};
ghost use Rattle.cjc_pairing.specs.CheckIndex.Lookup.Indexed.{IsIndexed};
ghost use Rattle.cjc_pairing.specs.CheckIndex.Lookup.Parts.{complete_of};
ghost use Rattle.cjc_check_rules.specs.Classes.{is_own_class};
ghost use Rattle.cjc_check_rules.specs.Codes.{all_codes, methods_begin};
ghost use Rattle.cjc_check_rules.specs.Complete.{AreSmall};
ghost use Rattle.cjc_verify.specs.Bodies.{bodies_of, body_with, header_at, listed, listed_in};
ghost use Rattle.cjc_verify.specs.Working.Bodies.{body_of, listed_where};
ghost use Rattle.cjc_verify.specs.Working.Codes.{AllAscend, Ascend, ats};

use crate::method_body::MethodBody;
use cjc_bytes::{NoMemory, Row};
use cjc_capread::decoder::{Header, method_header};
use cjc_capread::{ClassDescriptor, ClassRef, MethodDescriptor};
use cjc_card_calls::check_index::lookup::{Names, Parts, is_own_class};
use cjc_methods::check::codes::{Body, Cutting};
use std::alloc::Global;

/// A method under the class that Descriptor lists it under.
#[derive(Clone, Copy)]
pub(crate) struct Listed {
    pub(crate) holder: ClassRef,
    pub(crate) method: MethodDescriptor,
}

// ---- methods as Descriptor lists them

/// Puts methods that are listed under a class at the end.
fn put_methods(
    all: &mut Row<Listed>,
    holder: ClassRef,
    methods: &[MethodDescriptor],
) -> Result<(), NoMemory>
    ensures { OnOk result (all.new ≡ all.old ++ map (λ m. record { holder = holder; method = m }) methods.now) }
{
    for method in methods {
        all.push(Listed {
            holder,
            method: *method,
        })?;
    }
    Ok(())
}

/// Puts the methods of a class at the end, unless it is an interface.
fn put_class(
    all: &mut Row<Listed>,
    names: &Names<'_>,
    class: &ClassDescriptor,
) -> Result<(), NoMemory>
    requires { IsIndexed names.now }
    ensures { OnOk result (all.new ≡ all.old ++ listed_where names.now.parts.now.class.now class.now) }
{
    if is_own_class(names, class.this_class) {
        put_methods(all, class.this_class, class.methods.items())
    } else {
        Ok(())
    }
}

/// The methods of all classes, in the order of Method.
pub(crate) fn all_listed(alloc: Global, names: &Names<'_>) -> Result<Row<Listed>, NoMemory>
    requires { IsIndexed names.now }
    ensures { IfOk result (λ all. all ≡ listed (complete_of names.now.parts.now)) }
{
    let mut all = Row::new(alloc);
    for class in names.parts.descriptor.classes.items() {
        put_class(&mut all, names, class)?;
    }
    Ok(all)
}

// ---- methods with their code

/// The codes that were cut; none where cutting ended early.
pub(crate) fn codes_of<'a, 'b>(cutting: &'a Cutting<'b>) -> &'a [Body<'b>]
    requires { IsCut cutting.now }
    ensures is { map code_of result.now ≡ all_codes (cut_of cutting.now) }
    ensures kept { AreBodies result.now }
{
    match cutting {
        Cutting::Whole(bodies) => bodies.items(),
        Cutting::Ends(_) => &[],
    }
}

/// The bytes from an offset on.
fn bytes_from(bytes: &[u8], from: u64) -> &[u8]
    ensures { result.now ≡ drop from bytes.now }
{
    if from < bytes.len() as u64 {
        &bytes[from as usize..]
    } else {
        &[]
    }
}

/// Where methods begin, in bytes from the start of the info of Method.
fn methods_begin(parts: &Parts<'_>) -> u64
    requires { AreSmall (complete_of parts.now) }
    ensures { result ≡ methods_begin (complete_of parts.now) }
{
    1 + 8 * parts.method.handlers.items().len() as u64
}

/// The header at an offset of the info of Method.
fn header_at(parts: &Parts<'_>, offset: u64) -> Option<Header>
    requires { AreSmall (complete_of parts.now) }
    ensures { option_map header_of result ≡ header_at (complete_of parts.now) offset }
{
    let from = offset.saturating_sub(methods_begin(parts));
    method_header(bytes_from(parts.method.methods.items(), from))
}

/// Puts a method with its code at the end, where it has a header.
fn put_body<'a, 'b>(
    all: &mut Row<MethodBody<'a, 'b>>,
    parts: &Parts<'_>,
    listed: Listed,
    code: &'a Body<'b>,
) -> Result<(), NoMemory>
    requires small { AreSmall (complete_of parts.now) }
    requires whole { IsBody code.now }
    requires rises { Ascend (ats (map placed_of code.now.insns)) }
    ensures { OnOk result (map body_of all.new ≡ map body_of all.old ++ body_with listed (header_at
        (complete_of parts.now) listed.method.offset) (code_of code.now)) }
{
    match header_at(parts, listed.method.offset) {
        Some(header) => all.push(MethodBody {
            holder: listed.holder,
            method: listed.method,
            header,
            code,
        }),
        None => Ok(()),
    }
}

/// The methods of Method with their codes, as far as there are both.
#[tactic(auto, using(crate::proofs::ListedMethods::bodies_more, crate::proofs::ListedMethods::bodies_short, crate::proofs::ListedMethods::bodies_all, crate::proofs::Codes::ascends_at))]
pub(crate) fn bodies<'a, 'b>(
    alloc: Global,
    parts: &Parts<'_>,
    listed: &[Listed],
    codes: &'a [Body<'b>],
) -> Result<Row<MethodBody<'a, 'b>>, NoMemory>
    requires small { AreSmall (complete_of parts.now) }
    requires kept { AreBodies codes.now }
    requires rise { AllAscend (map code_of codes.now) }
    ensures { IfOk result (λ all. map body_of all ≡ bodies_of (complete_of parts.now) listed.now
        (map code_of codes.now)) }
{
    let mut all = Row::new(alloc);
    for (i, method) in listed.iter().enumerate() {
        if i >= codes.len() {
            return Ok(all);
        }
        put_body(&mut all, parts, *method, &codes[i])?;
    }
    Ok(all)
}
