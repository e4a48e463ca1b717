//! The methods of Method as frames are typed in them: the words of their arguments, and the handlers. Called by
//! `verify`.

ghost use Rattle.std.specs.Prelude.{◌≡◌, ◌+◌, ◌==◌, ◌&&◌, ◌<◌, ◌^◌, Some, None, if◌then◌else◌, map, not, option_map};
ghost use Rattle.std.specs.Prelude.{◌++◌, IfOk, MatchOption};
ghost use Rattle.std.specs.List.{flat_map};
ghost use Rattle.cjc_bytes.specs.Told.{break_of};
ghost use Rattle.cjc_card_acts.specs.CardTypes.{is_type_of, widths, words as words_of};
ghost use Rattle.cjc_card_acts.specs.Told.{type_told};
ghost use Rattle.cjc_methods.specs.LowerCheck.Codes.Bodies.{AllAt, IsAt, placed_of};
ghost use Rattle.cjc_check_rules.specs.Spots.{first};
ghost use Rattle.cjc_card_acts.specs.LowerFrames.Tables.{IsBrokenAt, IsUnbroken};
ghost use Rattle.cjc_verify.specs.Bodies.{catch, catches as all_catches, caught_type, frames_of, step, type_of_body};
ghost use Rattle.cjc_verify.specs.Headers.{header_spots, is_fit_header};
ghost use Rattle.cjc_verify.specs.Working.Arguments.{receiver_by};
ghost use Rattle.cjc_verify.specs.Working.Bodies.{InBodies, InBody, body_of, has_code_at, in_method};
ghost use Rattle.cjc_verify.specs.Working.Firsts.{IsFirstWhere};

use crate::acts::act;
use crate::breaks::{break_at, break_if, either};
use crate::class_types::class_type;
use crate::kinds::Kinds;
use crate::method_body::MethodBody;
use crate::named::throwable;
use crate::package::Package;
use cjc_bytes::{Break, BrokenAt, Bytes, NoMemory, Row, is_static};
use cjc_capread::decoder::Header;
use cjc_capread::{ClassRef, Handler, MethodDescriptor, PoolEntry};
use cjc_card_acts::described::type_at;
use cjc_card_acts::frames::{Catch, Given, Method, Step, first_broken};
use cjc_card_acts::types::{MemberType, ValueType, put_all_words, widths};
use cjc_card_calls::check_index::lookup::unless;
use cjc_check_rules::ComponentPlace;
use cjc_methods::check::codes::At;
use std::alloc::Global;

/// The tag of Method.
const METHOD: u8 = 7;

/// The rule on headers.
const HEADER_RULE: u16 = 727;

/// The first offset that has no place.
const TOO_FAR: u64 = 0xFFFF_FFFD;

/// The words of the arguments: the receiver of a method that is not static, and the parameters.
pub(crate) fn arguments(
    alloc: Global,
    holder: ClassRef,
    method: MethodDescriptor,
    type_: &MemberType<'_>,
) -> Result<Row<Given>, NoMemory>
    ensures { IfOk result (λ words. words ≡ receiver_by holder method ++ flat_map words_of type_.now.params) }
{
    let mut words = Row::new(alloc);
    if !is_static(u16::from(method.flags)) {
        words.push(Given::AnObject(class_type(alloc, holder)?))?;
    }
    put_all_words(alloc, &mut words, type_.params.items())?;
    Ok(words)
}

/// The type of the exceptions that a handler takes; of one that takes any the type of all.
fn caught_type(alloc: Global, pair: &Package<'_>, index: u64) -> Result<Option<Bytes>, NoMemory>
    ensures { IfOk result (λ type. type ≡ caught_type pair.now index) }
{
    if index == 0 {
        return throwable(alloc, pair);
    }
    match pair.entry(index as usize) {
        Some(PoolEntry::Classref(class)) => Ok(Some(class_type(alloc, class)?)),
        _ => Ok(None),
    }
}

/// A handler with its type.
fn catch(alloc: Global, pair: &Package<'_>, handler: &Handler) -> Result<Catch, NoMemory>
    ensures { IfOk result (λ made. made ≡ catch pair.now handler.now) }
{
    Ok(Catch {
        start: handler.start,
        length: handler.length,
        target: handler.handler,
        caught: caught_type(alloc, pair, handler.catch_index)?,
    })
}

/// The handlers of the package.
pub(crate) fn catches(alloc: Global, pair: &Package<'_>) -> Result<Row<Catch>, NoMemory>
    ensures { IfOk result (λ all. all ≡ all_catches pair.now) }
{
    let mut catches = Row::new(alloc);
    for handler in pair.parts.method.handlers.items() {
        catches.push(catch(alloc, pair, handler)?)?;
    }
    Ok(catches)
}

// ---- instructions

/// An instruction with what it takes and gives.
fn step(
    alloc: Global,
    pair: &Package<'_>,
    type_: ValueType<'_>,
    placed: &At<'_>,
) -> Result<Step, NoMemory>
    requires { IsAt placed.now }
    ensures { IfOk result (λ made. made ≡ step pair.now (type_told type_.entry) (placed_of placed.now)) }
{
    Ok(Step {
        at: placed.at,
        act: act(alloc, pair, type_, placed)?,
    })
}

/// The instructions of a method with a result.
fn steps(
    alloc: Global,
    pair: &Package<'_>,
    type_: ValueType<'_>,
    insns: &[At<'_>],
) -> Result<Row<Step>, NoMemory>
    requires { AllAt insns.now }
    ensures { IfOk result (λ all. all ≡ map (step pair.now (type_told type_.entry)) (map placed_of insns.now)) }
{
    let mut steps = Row::new(alloc);
    for placed in insns {
        steps.push(step(alloc, pair, type_, placed)?)?;
    }
    Ok(steps)
}

// ---- headers

/// Whether a header has the words of a method's arguments, with the receiver of one that is not static.
fn has_words(nargs: u8, is_static: bool, words: u64) -> bool
    ensures { result ≡ (nargs == (if is_static then 0 else 1) + words) }
{
    let nargs = u64::from(nargs);
    if is_static {
        nargs == words
    } else {
        nargs > 0 && nargs - 1 == words
    }
}

/// Whether the package's method of a header has code.
fn has_code(pair: &Package<'_>, offset: u64) -> bool
    ensures { result ≡ has_code_at pair.now offset }
{
    match pair.method_at(offset) {
        Some(known) => known.has_code,
        None => false,
    }
}

/// Whether a header has the words of the method's type, and is abstract where the package's method is.
fn is_fit_header(pair: &Package<'_>, body: &MethodBody<'_, '_>, type_: &MemberType<'_>) -> bool
    requires { type_.now ≡ type_of_body pair.now.components (body_of body.now) }
    ensures { result ≡ is_fit_header pair.now (body_of body.now) }
{
    let method = body.method;
    let header = body.header;
    let words = widths(type_.params.items());
    has_words(header.nargs, is_static(u16::from(method.flags)), words)
        && !(header.is_abstract && has_code(pair, method.offset))
}

/// 727 at a header. No memory is there for a method at an offset of 2^32 - 3 or more.
fn header_spot(
    pair: &Package<'_>,
    body: &MethodBody<'_, '_>,
    type_: &MemberType<'_>,
) -> Result<Option<ComponentPlace>, NoMemory>
    requires { type_.now ≡ type_of_body pair.now.components (body_of body.now) }
    ensures { IfOk result (λ spot. spot ≡ first (header_spots pair.now (body_of body.now))) }
{
    let offset = body.method.offset;
    if offset >= TOO_FAR {
        return Err(NoMemory);
    }
    let passes = is_fit_header(pair, body, type_);
    Ok(unless(passes, METHOD, offset as u32))
}

// ---- methods

/// The cells of the locals, the arguments counted.
fn local_count(header: Header) -> u16
    ensures { result ≡ header.nargs + header.max_locals }
{
    u16::from(header.nargs) + u16::from(header.max_locals)
}

/// The first rule that the least table of a method breaks.
fn first_in_code(
    alloc: Global,
    pair: &Package<'_>,
    catches: &[Catch],
    body: &MethodBody<'_, '_>,
    type_: &MemberType<'_>,
) -> Result<Option<BrokenAt>, NoMemory>
    requires catches { catches.now ≡ all_catches pair.now }
    requires type_ { type_.now ≡ type_of_body pair.now.components (body_of body.now) }
    ensures { IfOk result (λ broken. MatchOption broken (IsUnbroken (is_type_of pair.now.loaded) (frames_of pair.now
        (body_of body.now))) (λ b. IsBrokenAt (is_type_of pair.now.loaded) (frames_of pair.now (body_of body.now))
        b.offset b.rule)) }
{
    let header = body.header;
    let words = arguments(alloc, body.holder, body.method, type_)?;
    let steps = steps(alloc, pair, type_.result, body.code.insns.items())?;
    if steps.items().len() as u64 >= TOO_FAR {
        return Err(NoMemory);
    }
    let kinds = Kinds::new(pair.tables, pair.lines);
    let method = Method::new(
        header.max_stack,
        local_count(header),
        words.items(),
        steps.items(),
        catches,
    );
    first_broken(alloc, &kinds, &method)
}

/// The same as a broken rule. No memory is there for code at an offset of 2^32 - 3 or more.
fn as_break(broken: Option<BrokenAt>) -> Result<Option<Break<'static>>, NoMemory>
    ensures { IfOk result (λ b. option_map break_of b ≡ option_map in_method broken) }
{
    let Some(at) = broken else {
        return Ok(None);
    };
    if u64::from(at.offset) >= TOO_FAR {
        return Err(NoMemory);
    }
    let spot = ComponentPlace {
        component: METHOD,
        offset: 3 + at.offset,
    };
    Ok(Some(break_at(at.rule, spot)))
}

/// The first rule that a method breaks.
fn body_break(
    alloc: Global,
    pair: &Package<'_>,
    catches: &[Catch],
    body: &MethodBody<'_, '_>,
) -> Result<Option<Break<'static>>, NoMemory>
    requires { catches.now ≡ all_catches pair.now }
    ensures { IfOk result (λ b. IsFirstWhere (InBody pair.now (body_of body.now)) (option_map break_of b)) }
{
    let type_ = type_at(alloc, pair.parts.descriptor, body.method.type_offset)?;
    let spot = header_spot(pair, body, &type_)?;
    let broken = first_in_code(alloc, pair, catches, body, &type_)?;
    let in_code = as_break(broken)?;
    Ok(either(break_if(HEADER_RULE, spot), in_code))
}

/// The first rule that methods break.
pub(crate) fn bodies_break(
    alloc: Global,
    pair: &Package<'_>,
    bodies: &[MethodBody<'_, '_>],
) -> Result<Option<Break<'static>>, NoMemory>
    ensures { IfOk result (λ b. IsFirstWhere (InBodies pair.now (map body_of bodies.now)) (option_map break_of b)) }
{
    let catches = catches(alloc, pair)?;
    let mut first = None;
    for body in bodies {
        let broken = body_break(alloc, pair, catches.items(), body)?;
        first = either(first, broken);
    }
    Ok(first)
}
