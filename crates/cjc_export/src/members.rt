//! The fields and methods of a class in an export file, with the attributes of constants, and what breaks rule
//! 104 among them. Called by `file`; it reads them one by one from left to right.

ghost use Rattle.std.specs.Prelude.{◌≡◌, ◌<◌, ◌^◌, Bool, None, [], length};
ghost use Rattle.std.specs.Option.{option_copied};
ghost use Rattle.cjc_bytes.specs.Format.{iterated};
ghost use Rattle.cjc_bytes.specs.Found.{Finds};
ghost use Rattle.cjc_bytes.specs.Reading.{Reads};
ghost use Rattle.cjc_export.specs.Words.{broken_where};
ghost use Rattle.cjc_export.specs.Members.{grown, text_field, class_field, same_bool, as_desc, desc_at, desc_field};
ghost use Rattle.cjc_export.specs.Members.{is_constant_type, may_be_constant, constant_name_at, integer_at};
ghost use Rattle.cjc_export.specs.Members.{attribute_content, attribute, field_token_taken, no_token, where_constant};
ghost use Rattle.cjc_export.specs.Members.{field, is_unbound, method_token_taken, method_token_wrong, class_method};
ghost use Rattle.cjc_export.specs.Members.{interface_token_taken, interface_token, is_special, interface_name_at};
ghost use Rattle.cjc_export.specs.Members.{interface_method, method};

use crate::pool::{Entry, Kind, class_name_at, text_at};
use crate::tree::{ExportField, ExportMethod};
use cjc_bytes::{Bytes, Cursor, Desc, Row, Stop, is_final, is_static};
use std::alloc::Global;

/// Reads an index of the constant pool, and answers the text that it names.
#[tactic(auto, unfolding(crate::specs::Members::text_field))]
pub(crate) fn read_text<'a>(pool: &[Entry<'a>], cursor: &mut Cursor<'_>) -> Result<&'a [u8], Stop>
    ensures { Reads (λ bytes. bytes.now) (text_field pool.now) cursor.old cursor.new result }
{
    let at = cursor.at();
    let index = cursor.u2()?;
    text_at(pool, index).ok_or(Stop::Broken(at))
}

/// Reads an index of the constant pool, and answers the name of the class that it names.
#[tactic(auto, unfolding(crate::specs::Members::class_field))]
pub(crate) fn read_class<'a>(pool: &[Entry<'a>], cursor: &mut Cursor<'_>) -> Result<&'a [u8], Stop>
    ensures { Reads (λ bytes. bytes.now) (class_field pool.now) cursor.old cursor.new result }
{
    let at = cursor.at();
    let index = cursor.u2()?;
    class_name_at(pool, index).ok_or(Stop::Broken(at))
}

/// Whether an earlier field breaks its table after all.
pub(crate) fn broken_where(place: u32, is_broken: bool) -> Result<(), Stop>
    ensures { Finds (λ x. x) (broken_where place is_broken) result }
{
    if is_broken {
        Err(Stop::Broken(place))
    } else {
        Ok(())
    }
}

/// The bytes, where they are the descriptor of a method, or of a field.
fn as_desc(bytes: &[u8], of_method: bool) -> Option<&[u8]>
    requires { length bytes.now < 2 ^ 32 }
    ensures { option_copied result ≡ as_desc of_method bytes.now }
{
    match Desc::parse(bytes) {
        Ok(desc) if desc.is_method() == of_method => Some(bytes),
        _ => None,
    }
}

#[tactic(auto, unfolding(crate::specs::Members::desc_at))]
fn desc_at<'a>(pool: &[Entry<'a>], of_method: bool, index: u16) -> Option<&'a [u8]>
    ensures { option_copied result ≡ desc_at pool.now of_method index }
{
    let bytes = text_at(pool, index)?;
    as_desc(bytes, of_method)
}

#[tactic(auto, unfolding(crate::specs::Members::desc_field))]
fn read_desc<'a>(
    pool: &[Entry<'a>],
    of_method: bool,
    cursor: &mut Cursor<'_>,
) -> Result<&'a [u8], Stop>
    ensures { Reads (λ bytes. bytes.now) (desc_field pool.now of_method) cursor.old cursor.new result }
{
    let at = cursor.at();
    let index = cursor.u2()?;
    desc_at(pool, of_method, index).ok_or(Stop::Broken(at))
}

fn is_constant_type(desc: &[u8]) -> bool
    ensures { result ≡ is_constant_type desc.now }
{
    desc == b"Z".as_slice()
        || desc == b"B".as_slice()
        || desc == b"S".as_slice()
        || desc == b"I".as_slice()
}

/// Whether a field of these flags and of this descriptor is a constant where it has a ConstantValue: a static final
/// boolean, byte, short or int.
pub fn may_be_constant(flags: u16, desc: &[u8]) -> bool
    ensures { result ≡ may_be_constant flags desc.now }
{
    is_static(flags) && is_final(flags) && is_constant_type(desc)
}

#[tactic(auto, unfolding(crate::specs::Members::constant_name_at))]
fn constant_name_at(pool: &[Entry<'_>], so_far: Option<i32>, index: u16) -> Option<bool>
    ensures { result ≡ constant_name_at pool.now so_far index }
{
    let name = text_at(pool, index)?;
    let is_constant = name == b"ConstantValue".as_slice();
    if is_constant && so_far.is_some() {
        None
    } else {
        Some(is_constant)
    }
}

#[tactic(auto, unfolding(crate::specs::Members::integer_at))]
fn integer_at(pool: &[Entry<'_>], index: u16) -> Option<i32>
    ensures { result ≡ integer_at pool.now index }
{
    let entry = pool.get(usize::from(index))?;
    match entry.kind {
        Kind::Integer(n) => Some(n),
        _ => None,
    }
}

#[tactic(auto, unfolding(crate::specs::Members::attribute_content, cjc_bytes::specs::Format::u4, cjc_bytes::specs::Format::raw))]
fn read_content(
    pool: &[Entry<'_>],
    is_constant: bool,
    so_far: Option<i32>,
    cursor: &mut Cursor<'_>,
) -> Result<Option<i32>, Stop>
    ensures { Reads (λ x. x) (attribute_content pool.now is_constant so_far) cursor.old cursor.new result }
{
    let at = cursor.at();
    let length = cursor.u4()?;
    if !is_constant {
        cursor.take(length)?;
        return Ok(so_far);
    }
    if length != 2 {
        return Err(Stop::Broken(at));
    }
    let at = cursor.at();
    let index = cursor.u2()?;
    let value = integer_at(pool, index).ok_or(Stop::Broken(at))?;
    Ok(Some(value))
}

#[tactic(auto, unfolding(crate::specs::Members::attribute))]
fn read_attribute(
    pool: &[Entry<'_>],
    place: u32,
    is_wrong: bool,
    behind: u16,
    so_far: Option<i32>,
    cursor: &mut Cursor<'_>,
) -> Result<Option<i32>, Stop>
    ensures { Reads (λ x. x) (attribute pool.now place is_wrong behind so_far) cursor.old cursor.new result }
{
    let at = cursor.at();
    let index = cursor.u2()?;
    let is_constant = constant_name_at(pool, so_far, index).ok_or(Stop::Broken(at))?;
    broken_where(place, is_wrong && is_constant)?;
    read_content(pool, is_constant, so_far, cursor)
}

#[tactic(auto, using(cjc_bytes::proofs::Loops::iterated_more, cjc_bytes::proofs::Loops::iterated_stops, cjc_bytes::proofs::Loops::iterated_all))]
fn read_attributes(
    pool: &[Entry<'_>],
    place: u32,
    is_wrong: bool,
    count: u16,
    cursor: &mut Cursor<'_>,
) -> Result<Option<i32>, Stop>
    ensures { Reads (λ x. x) (iterated count (attribute pool.now place is_wrong) None) cursor.old cursor.new result }
{
    let mut so_far = None;
    for behind in (0..count).rev() {
        so_far = read_attribute(pool, place, is_wrong, behind, so_far, cursor)?;
    }
    Ok(so_far)
}

/// Whether an earlier field has this token; static fields that are no constants and instance fields are
/// numbered each by themselves.
fn field_token_taken(so_far: &[ExportField], flags: u16, token: u8) -> bool
    ensures { result ≡ field_token_taken so_far.now flags token }
{
    let is_static_field = is_static(flags);
    so_far.iter().any(|f| {
        f.token == token && is_static_field == is_static(f.flags) && f.constant.is_none()
    })
}

#[tactic(auto, unfolding(crate::specs::Members::field, cjc_bytes::specs::Format::u1, cjc_bytes::specs::Format::u2))]
fn read_field(
    alloc: Global,
    pool: &[Entry<'_>],
    so_far: &Row<ExportField>,
    cursor: &mut Cursor<'_>,
) -> Result<ExportField, Stop>
    ensures { Reads (λ f. f) (field pool.now so_far.now) cursor.old cursor.new result }
{
    let place = cursor.at();
    let token = cursor.u1()?;
    let flags = cursor.u2()?;
    let is_taken = field_token_taken(so_far.items(), flags, token);
    let has_none = token == 0xFF;
    broken_where(
        place,
        is_taken && !(has_none && is_static(flags) && is_final(flags)),
    )?;
    let name = read_text(pool, cursor)?;
    let desc = read_desc(pool, false, cursor)?;
    let may_be = may_be_constant(flags, desc);
    broken_where(place, is_taken && !(has_none && may_be))?;
    let count = cursor.u2()?;
    let value = read_attributes(pool, place, may_be && !has_none, count, cursor)?;
    let constant = if may_be { value } else { None };
    broken_where(place, is_taken && constant.is_none())?;
    Ok(ExportField {
        token,
        flags,
        name: Bytes::copy_of(alloc, name)?,
        desc: Bytes::copy_of(alloc, desc)?,
        constant,
    })
}

/// Reads so many fields of a class. Which token a field may have depends on those before it.
#[tactic(auto, using(crate::proofs::Grown::grown_more, cjc_bytes::proofs::Loops::iterated_all))]
pub(crate) fn read_fields(
    alloc: Global,
    pool: &[Entry<'_>],
    count: u16,
    cursor: &mut Cursor<'_>,
) -> Result<Row<ExportField>, Stop>
    ensures { Reads (λ fs. fs) (iterated count (grown (field pool.now)) []) cursor.old cursor.new result }
{
    let mut fields = Row::new(alloc);
    for _behind in (0..count).rev() {
        fields.push(read_field(alloc, pool, &fields, cursor)?)?;
    }
    Ok(fields)
}

/// Static methods and constructors have tokens of one kind, virtual methods of another.
fn is_unbound(flags: u16, name: &[u8]) -> bool
    ensures { result ≡ is_unbound flags name.now }
{
    is_static(flags) || name == b"<init>".as_slice()
}

/// Whether an earlier method of the kind has this token.
fn method_token_taken(so_far: &[ExportMethod], unbound: bool, token: u8) -> bool
    ensures { result ≡ method_token_taken so_far.now unbound token }
{
    so_far.iter().any(|m| m.token == token && unbound == is_unbound(m.flags, m.name.items()))
}

/// Whether a token can't be that of the next method: an earlier one has it, or it is above 127 and the method
/// virtual.
fn method_token_wrong(so_far: &[ExportMethod], unbound: bool, token: u8) -> bool
    ensures { result ≡ method_token_wrong so_far.now unbound token }
{
    method_token_taken(so_far, unbound, token) || (!unbound && token > 127)
}

#[tactic(auto, unfolding(crate::specs::Members::class_method, cjc_bytes::specs::Format::u1, cjc_bytes::specs::Format::u2))]
fn read_class_method(
    alloc: Global,
    pool: &[Entry<'_>],
    so_far: &Row<ExportMethod>,
    cursor: &mut Cursor<'_>,
) -> Result<ExportMethod, Stop>
    ensures { Reads (λ m. m) (class_method pool.now so_far.now) cursor.old cursor.new result }
{
    let place = cursor.at();
    let token = cursor.u1()?;
    let flags = cursor.u2()?;
    let earlier = so_far.items();
    broken_where(
        place,
        is_static(flags) && method_token_wrong(earlier, true, token),
    )?;
    let name = read_text(pool, cursor)?;
    broken_where(
        place,
        method_token_wrong(earlier, is_unbound(flags, name), token),
    )?;
    let desc = read_desc(pool, true, cursor)?;
    Ok(ExportMethod {
        token,
        flags,
        name: Bytes::copy_of(alloc, name)?,
        desc: Bytes::copy_of(alloc, desc)?,
    })
}

fn interface_token_taken(so_far: &[ExportMethod], token: u8) -> bool
    ensures { result ≡ interface_token_taken so_far.now token }
{
    so_far.iter().any(|m| m.token == token)
}

/// The token of a method of an interface with so many methods, where it is below that number and no earlier
/// method has it.
fn interface_token(count: u16, so_far: &[ExportMethod], token: u8) -> Option<u8>
    ensures { result ≡ interface_token count so_far.now token }
{
    if u16::from(token) < count && !interface_token_taken(so_far, token) {
        Some(token)
    } else {
        None
    }
}

/// No class that has an interface has a token for a method of such a name.
fn is_special(name: &[u8]) -> bool
    ensures { result ≡ is_special name.now }
{
    name == b"<init>".as_slice() || name == b"<clinit>".as_slice()
}

#[tactic(auto, unfolding(crate::specs::Members::interface_name_at))]
fn interface_name_at<'a>(pool: &[Entry<'a>], index: u16) -> Option<&'a [u8]>
    ensures { option_copied result ≡ interface_name_at pool.now index }
{
    let name = text_at(pool, index)?;
    if is_special(name) { None } else { Some(name) }
}

#[tactic(auto, unfolding(crate::specs::Members::interface_method, cjc_bytes::specs::Format::u2))]
fn read_interface_method(
    alloc: Global,
    pool: &[Entry<'_>],
    count: u16,
    so_far: &Row<ExportMethod>,
    cursor: &mut Cursor<'_>,
) -> Result<ExportMethod, Stop>
    ensures { Reads (λ m. m) (interface_method pool.now count so_far.now) cursor.old cursor.new result }
{
    let at = cursor.at();
    let token = cursor.u1()?;
    let token = interface_token(count, so_far.items(), token).ok_or(Stop::Broken(at))?;
    let flags = cursor.u2()?;
    let at = cursor.at();
    let index = cursor.u2()?;
    let name = interface_name_at(pool, index).ok_or(Stop::Broken(at))?;
    let desc = read_desc(pool, true, cursor)?;
    Ok(ExportMethod {
        token,
        flags,
        name: Bytes::copy_of(alloc, name)?,
        desc: Bytes::copy_of(alloc, desc)?,
    })
}

#[tactic(auto, unfolding(crate::specs::Members::method))]
fn read_method(
    alloc: Global,
    pool: &[Entry<'_>],
    of_interface: bool,
    count: u16,
    so_far: &Row<ExportMethod>,
    cursor: &mut Cursor<'_>,
) -> Result<ExportMethod, Stop>
    ensures { Reads (λ m. m) (method pool.now of_interface count so_far.now) cursor.old cursor.new result }
{
    if of_interface {
        read_interface_method(alloc, pool, count, so_far, cursor)
    } else {
        read_class_method(alloc, pool, so_far, cursor)
    }
}

/// Reads so many methods of a class or an interface. Which token a method may have depends on those before it.
#[tactic(auto, using(crate::proofs::Grown::grown_more, cjc_bytes::proofs::Loops::iterated_all))]
pub(crate) fn read_methods(
    alloc: Global,
    pool: &[Entry<'_>],
    of_interface: bool,
    count: u16,
    cursor: &mut Cursor<'_>,
) -> Result<Row<ExportMethod>, Stop>
    ensures { Reads (λ ms. ms) (iterated count (grown (method pool.now of_interface count)) []) cursor.old cursor.new
        result }
{
    let mut methods = Row::new(alloc);
    for _behind in (0..count).rev() {
        methods.push(read_method(alloc, pool, of_interface, count, &methods, cursor)?)?;
    }
    Ok(methods)
}
