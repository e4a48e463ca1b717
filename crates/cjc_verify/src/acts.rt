//! What an instruction of Method takes and gives, by its row and by what its entry of the constant pool names (Java
//! Card Virtual Machine Specification 2.2.2, chapter 7). Called by `bodies`.

ghost use Rattle.std.specs.Prelude.{◌≡◌, ◌==◌, ◌+◌, ◌||◌, List, ℕ, Option, None, Some, false, not, replicate, true};
ghost use Rattle.std.specs.Prelude.{IfOk};
ghost use Rattle.cjc_capread.specs.Decoder.Decoded.{values};
ghost use Rattle.cjc_capread.specs.declared.tree.PoolEntry.TheVariants.{Classref};
ghost use Rattle.cjc_card_acts.specs.CardTypes.{numbers_type, type_by as typed_by, types_in};
ghost use Rattle.cjc_card_acts.specs.Rows.{idle, number_words, unknown, with_number};
ghost use Rattle.cjc_card_acts.specs.Told.{row_told, type_told};
ghost use Rattle.cjc_card_acts.specs.CardFrame.Meanings.{letter_if, mode_of, use_of};
ghost use Rattle.cjc_card_acts.specs.CardSemantics.Bytecode.Meanings.{Calls, Makes};
ghost use Rattle.cjc_methods.specs.LowerCheck.Codes.Bodies.{IsAt, placed_of};
ghost use Rattle.cjc_card_acts.specs.LowerFrames.declared.acts.Act.{Act as Known};
ghost use Rattle.cjc_card_acts.specs.LowerFrames.declared.acts.Need.TheVariants.{ReferenceWord};
ghost use Rattle.cjc_verify.specs.ClassTypes.{class_type as type_of};
ghost use Rattle.cjc_verify.specs.Instructions.{act, act_by, asking, by_interface, calling_interface, calling_through};
ghost use Rattle.cjc_verify.specs.Instructions.{casting, class_in, exception_needs, jumping, last, making_numbers};
ghost use Rattle.cjc_verify.specs.Instructions.{returning, tested_type, testing, throwable, using, using_entry};
ghost use Rattle.cjc_verify.specs.Instructions.{using_some};
ghost use Rattle.cjc_verify.specs.Named.{entry_of, entry_type, interface_type, names_abstract, names_static};
ghost use Rattle.cjc_verify.specs.Pairs.{Pair};
ghost use Rattle.cjc_verify.specs.Working.Operands.{is_of_call, is_of_field};

use crate::class_types::{array_type, class_type};
use crate::members::{calling, calling_on, getting, getting_static, putting, putting_static};
use crate::named::{
    holder_of, interface_nibbles, names_abstract, names_abstract_above, names_static, names_unmade,
    throwable,
};
use crate::package::Package;
use crate::plain;
use crate::targets::put_targets;
use cjc_bytes::{Bytes, NoMemory, Row};
use cjc_capread::decoder::Operands;
use cjc_capread::{ClassRef, PoolEntry, StaticRef};
use cjc_card_acts::described::entry_type;
use cjc_card_acts::frames::{Act, Given, Need};
use cjc_card_acts::rows::{self, idle, unknown};
use cjc_card_acts::table::{OpcodeRow, row};
use cjc_card_acts::types::{
    MemberType, ValueType, is_returned_by, member_type, numbers_type, put_needs, widths,
};
use cjc_card_acts::words::{letter_needs, number_words, reference_words};
use cjc_card_calls::card_frame::opcodes::{Letter, Mode, Use};
use cjc_methods::check::codes::At;
use std::alloc::Global;

/// An array of numbers or of references is made, of the length on top.
fn making(alloc: Global, type_: Bytes) -> Result<Act, NoMemory>
    ensures { IfOk result (λ act. act ≡ making_numbers (Some type_)) }
{
    let mut act = idle(alloc);
    act.takes.push(Need::NumberWord)?;
    act.gives.push(Given::AnObject(type_))?;
    Ok(act)
}

/// An array of a type that there is not.
fn making_nothing(alloc: Global) -> Result<Act, NoMemory>
    ensures { IfOk result (λ act. act ≡ making_numbers None) }
{
    let mut act = unknown(alloc);
    act.takes.push(Need::NumberWord)?;
    act.gives.push(Given::Lost)?;
    Ok(act)
}

/// newarray.
fn making_numbers(alloc: Global, operands: Operands) -> Result<Act, NoMemory>
    ensures { IfOk result (λ act. act ≡ with_number (λ n. making_numbers (numbers_type n)) (values operands)) }
{
    let Some(number) = plain::number_of(operands) else {
        return Ok(unknown(alloc));
    };
    match numbers_type(alloc, number)? {
        Some(type_) => making(alloc, type_),
        None => making_nothing(alloc),
    }
}

/// An object of a class is made.
fn making_object(
    alloc: Global,
    pair: &Package<'_>,
    type_: &MemberType<'_>,
    class: ClassRef,
) -> Result<Act, NoMemory>
    ensures { IfOk result (λ act. act ≡ using pair.now Makes type_.now (Classref class)) }
{
    let mut act = idle(alloc);
    act.gives.push(Given::AnObject(class_type(alloc, class)?))?;
    act.misnames = names_unmade(pair, class);
    Ok(act)
}

/// A field that an entry names, read or written.
fn using_field(
    alloc: Global,
    how: Use,
    type_: &MemberType<'_>,
    entry: PoolEntry,
) -> Result<Act, NoMemory>
    ensures { (p : Pair) → is_of_field how ≡ true → IfOk result (λ act. act ≡ using p (use_of how) type_.now entry) }
{
    match (how, entry) {
        (Use::Get(this, letter), PoolEntry::InstanceFieldref { class, .. }) => {
            getting(alloc, this, letter, class, type_.result)
        }
        (Use::Put(this, letter), PoolEntry::InstanceFieldref { class, .. }) => {
            putting(alloc, this, letter, class, type_.result)
        }
        (Use::GetStatic(letter), PoolEntry::StaticFieldref(field)) => {
            getting_static(alloc, letter, field, type_.result)
        }
        (Use::PutStatic(letter), PoolEntry::StaticFieldref(field)) => {
            putting_static(alloc, letter, field, type_.result)
        }
        _ => Ok(idle(alloc)),
    }
}

/// The class of an entry.
fn class_in(entry: Option<PoolEntry>) -> Option<ClassRef>
    ensures { result ≡ class_in entry }
{
    match entry {
        Some(PoolEntry::Classref(class)) => Some(class),
        _ => None,
    }
}

/// The type that checkcast and instanceof name.
fn tested_type(
    alloc: Global,
    pair: &Package<'_>,
    number: u32,
    index: u32,
) -> Result<Option<Bytes>, NoMemory>
    ensures { IfOk result (λ type. type ≡ tested_type number (class_in (entry_of pair.now index))) }
{
    if number != 0 && number != 14 {
        return numbers_type(alloc, number);
    }
    match class_in(pair.entry(index as usize)) {
        Some(class) if number == 0 => Ok(Some(class_type(alloc, class)?)),
        Some(class) => Ok(Some(array_type(alloc, class)?)),
        None => Ok(None),
    }
}

/// A type test's type, where its operands say one.
fn type_by(alloc: Global, pair: &Package<'_>, operands: Operands) -> Result<Option<Bytes>, NoMemory>
    ensures { IfOk result (λ type. (how : Option (List ℕ) → Known) → testing pair.now how (values operands)
        ≡ how type) }
{
    match operands {
        Operands::Two(number, index) if number >= 0 && index >= 0 => {
            tested_type(alloc, pair, number as u32, index as u32)
        }
        Operands::Three(number, index, _) if number >= 0 && index >= 0 => {
            tested_type(alloc, pair, number as u32, index as u32)
        }
        _ => Ok(None),
    }
}

/// checkcast.
fn casting(alloc: Global, pair: &Package<'_>, operands: Operands) -> Result<Act, NoMemory>
    ensures { IfOk result (λ act. act ≡ testing pair.now casting (values operands)) }
{
    let type_ = type_by(alloc, pair, operands)?;
    let mut act = match type_ {
        Some(_) => idle(alloc),
        None => unknown(alloc),
    };
    act.takes.push(Need::ReferenceWord)?;
    act.gives.push(match type_ {
        Some(type_) => Given::AnObject(type_),
        None => Given::Lost,
    })?;
    Ok(act)
}

/// instanceof.
fn asking(alloc: Global, pair: &Package<'_>, operands: Operands) -> Result<Act, NoMemory>
    ensures { IfOk result (λ act. act ≡ testing pair.now asking (values operands)) }
{
    let mut act = match type_by(alloc, pair, operands)? {
        Some(_) => idle(alloc),
        None => unknown(alloc),
    };
    act.takes.push(Need::ReferenceWord)?;
    act.gives.push(Given::ANumber)?;
    Ok(act)
}

/// A jump or a switch, and whether the next instruction may follow.
fn jumping(alloc: Global, placed: &At<'_>, needs: Row<Need>, falls: bool) -> Result<Act, NoMemory>
    requires { IsAt placed.now }
    ensures { IfOk result (λ act. act ≡ jumping (placed_of placed.now) needs falls) }
{
    let mut act = idle(alloc);
    act.takes = needs;
    act.falls = falls;
    put_targets(&mut act.targets, placed)?;
    Ok(act)
}

/// athrow.
fn throwing(alloc: Global, pair: &Package<'_>) -> Result<Act, NoMemory>
    ensures { IfOk result (λ act. act ≡ last (exception_needs (throwable pair.now))) }
{
    let mut act = idle(alloc);
    let need = match throwable(alloc, pair)? {
        Some(type_) => Need::OfType(type_),
        None => Need::ReferenceWord,
    };
    act.takes.push(need)?;
    act.falls = false;
    Ok(act)
}

/// A return, where it is that of the method's result of a value of that type.
fn returning(alloc: Global, letter: Option<Letter>, type_: ValueType<'_>) -> Result<Act, NoMemory>
    ensures { IfOk result (λ act. act ≡ returning (letter_if letter) (type_told type_.entry)) }
{
    let mut act = idle(alloc);
    let is_result = is_returned_by(letter, type_);
    if is_result {
        put_needs(alloc, &mut act.takes, type_)?;
    } else if let Some(letter) = letter {
        act.takes = letter_needs(alloc, letter)?;
    }
    act.falls = false;
    act.misfits = !is_result;
    Ok(act)
}

/// jsr, ret and the reserved opcodes.
fn forbidden(alloc: Global) -> Act
    ensures { result ≡ record unknown { falls = false } }
{
    let mut act = unknown(alloc);
    act.falls = false;
    act
}

// ---- calls

/// Whether a call names a static or an abstract method.
fn misnames_special(pair: &Package<'_>, method: StaticRef) -> bool
    ensures { result ≡ (names_static pair.now method || names_abstract pair.now method) }
{
    names_static(pair, method) || names_abstract(pair, method)
}

/// Whether a call names a method that is not static, or an abstract one.
fn misnames_static(pair: &Package<'_>, method: StaticRef) -> bool
    ensures { result ≡ (not (names_static pair.now method) || names_abstract pair.now method) }
{
    !names_static(pair, method) || names_abstract(pair, method)
}

/// A method that an entry names, called.
fn calling_member(
    alloc: Global,
    pair: &Package<'_>,
    mode: Mode,
    type_: &MemberType<'_>,
    entry: PoolEntry,
) -> Result<Act, NoMemory>
    ensures { IfOk result (λ act. act ≡ using pair.now (Calls (mode_of mode)) type_.now entry) }
{
    match (mode, entry) {
        (Mode::Virtual, PoolEntry::VirtualMethodref { class, .. }) => {
            calling_on(alloc, type_, class_type(alloc, class)?, false)
        }
        (Mode::Special, PoolEntry::SuperMethodref { class, token }) => {
            let misnames = names_abstract_above(pair, class, token);
            calling_on(alloc, type_, class_type(alloc, class)?, misnames)
        }
        (Mode::Special, PoolEntry::StaticMethodref(method)) => {
            let misnames = misnames_special(pair, method);
            calling_on(alloc, type_, holder_of(alloc, pair, method)?, misnames)
        }
        (Mode::Static, PoolEntry::StaticMethodref(method)) => {
            let misnames = misnames_static(pair, method);
            calling(alloc, type_, None, misnames)
        }
        _ => Ok(idle(alloc)),
    }
}

/// What is made of the class that an entry names.
fn making_by(
    alloc: Global,
    pair: &Package<'_>,
    how: Use,
    type_: &MemberType<'_>,
    entry: PoolEntry,
) -> Result<Act, NoMemory>
    ensures { is_of_field how ≡ false → is_of_call how ≡ false → IfOk result (λ act. act ≡ using pair.now (use_of how)
        type_.now entry) }
{
    match (how, entry) {
        (Use::New, PoolEntry::Classref(class)) => making_object(alloc, pair, type_, class),
        (Use::NewReferences, PoolEntry::Classref(class)) => {
            making(alloc, array_type(alloc, class)?)
        }
        _ => Ok(idle(alloc)),
    }
}

/// What an entry names, by how it is used.
fn using(
    alloc: Global,
    pair: &Package<'_>,
    how: Use,
    type_: &MemberType<'_>,
    entry: PoolEntry,
) -> Result<Act, NoMemory>
    ensures { IfOk result (λ act. act ≡ using pair.now (use_of how) type_.now entry) }
{
    match how {
        Use::Get(_, _) => using_field(alloc, how, type_, entry),
        Use::Put(_, _) => using_field(alloc, how, type_, entry),
        Use::GetStatic(_) => using_field(alloc, how, type_, entry),
        Use::PutStatic(_) => using_field(alloc, how, type_, entry),
        Use::Call(mode) => calling_member(alloc, pair, mode, type_, entry),
        Use::New => making_by(alloc, pair, how, type_, entry),
        Use::NewReferences => making_by(alloc, pair, how, type_, entry),
    }
}

/// What the entry of an index names, by the type that Descriptor gives it.
fn using_index(alloc: Global, pair: &Package<'_>, how: Use, index: u32) -> Result<Act, NoMemory>
    ensures { IfOk result (λ act. act ≡ using_some pair.now (use_of how) (entry_type pair.now index)
        (entry_of pair.now index)) }
{
    match pair.entry(index as usize) {
        Some(entry) => {
            let type_ = entry_type(alloc, pair.parts.descriptor, index as usize)?;
            using(alloc, pair, how, &type_, entry)
        }
        None => Ok(idle(alloc)),
    }
}

/// What the entry of the operand names.
#[tactic(auto, using(crate::proofs::Operands::by_entry, crate::proofs::Operands::no_entry))]
fn using_entry(
    alloc: Global,
    pair: &Package<'_>,
    how: Use,
    operands: Operands,
) -> Result<Act, NoMemory>
    ensures { IfOk result (λ act. act ≡ using_entry pair.now (use_of how) (values operands)) }
{
    match plain::number_of(operands) {
        Some(index) => using_index(alloc, pair, how, index),
        None => Ok(idle(alloc)),
    }
}

// ---- calls of interfaces

/// Whether so many words are those of arguments and of a receiver.
fn has_words(nargs: u32, words: u64) -> bool
    ensures { result ≡ (nargs == 1 + words) }
{
    nargs > 0 && u64::from(nargs) - 1 == words
}

/// A method that is not there hands nothing on.
fn calling_nothing(alloc: Global) -> Act
    ensures { result ≡ record idle { ends = true; misnames = true } }
{
    let mut act = idle(alloc);
    act.ends = true;
    act.misnames = true;
    act
}

/// A method of an interface, by the nibbles of its type.
fn calling_nibbles(
    alloc: Global,
    class: ClassRef,
    nargs: u32,
    nibbles: &[u8],
) -> Result<Act, NoMemory>
    ensures { IfOk result (λ act. act ≡ calling_interface (type_of class) nargs (Some (typed_by
        (types_in nibbles.now)))) }
{
    let type_ = member_type(alloc, nibbles)?;
    let fits = has_words(nargs, widths(type_.params.items()));
    calling_on(alloc, &type_, class_type(alloc, class)?, !fits)
}

/// A method of an interface, by its token.
fn calling_token(
    alloc: Global,
    pair: &Package<'_>,
    class: ClassRef,
    nargs: u32,
    token: u32,
) -> Result<Act, NoMemory>
    ensures { IfOk result (λ act. act ≡ calling_interface (type_of class) nargs (interface_type pair.now class
        token)) }
{
    match interface_nibbles(alloc, pair, class, token)? {
        Some(nibbles) => calling_nibbles(alloc, class, nargs, nibbles.items()),
        None => Ok(calling_nothing(alloc)),
    }
}

/// A method of the interface that an entry names, by its token.
fn calling_entry(
    alloc: Global,
    pair: &Package<'_>,
    nargs: u32,
    index: u32,
    token: u32,
) -> Result<Act, NoMemory>
    ensures { IfOk result (λ act. act ≡ calling_through pair.now nargs token (class_in (entry_of pair.now index))) }
{
    match class_in(pair.entry(index as usize)) {
        Some(class) => calling_token(alloc, pair, class, nargs, token),
        None => Ok(calling_nothing(alloc)),
    }
}

/// invokeinterface.
fn by_interface(alloc: Global, pair: &Package<'_>, operands: Operands) -> Result<Act, NoMemory>
    ensures { IfOk result (λ act. act ≡ by_interface pair.now (values operands)) }
{
    match operands {
        Operands::Three(nargs, index, token) if nargs >= 0 && index >= 0 && token >= 0 => {
            calling_entry(alloc, pair, nargs as u32, index as u32, token as u32)
        }
        _ => Ok(idle(alloc)),
    }
}

// ---- rows

/// A jump by numbers, or a switch.
fn jumping_by_numbers(
    alloc: Global,
    placed: &At<'_>,
    words: u8,
    falls: bool,
) -> Result<Act, NoMemory>
    requires { IsAt placed.now }
    ensures { IfOk result (λ act. act ≡ jumping (placed_of placed.now) (number_words words) falls) }
{
    let needs = number_words(alloc, words)?;
    jumping(alloc, placed, needs, falls)
}

/// A jump by references.
fn jumping_by_references(alloc: Global, placed: &At<'_>, words: u8) -> Result<Act, NoMemory>
    requires { IsAt placed.now }
    ensures { IfOk result (λ act. act ≡ jumping (placed_of placed.now) (replicate words ReferenceWord) true) }
{
    let needs = reference_words(alloc, words)?;
    jumping(alloc, placed, needs, true)
}

/// What an instruction of a method with a result takes and gives, by the row of its opcode.
fn act_by(
    alloc: Global,
    pair: &Package<'_>,
    type_: ValueType<'_>,
    placed: &At<'_>,
    row: OpcodeRow,
) -> Result<Act, NoMemory>
    requires { IsAt placed.now }
    ensures { IfOk result (λ act. act ≡ act_by pair.now (type_told type_.entry) (placed_of placed.now)
        (row_told row)) }
{
    let operands = placed.insn.operands;
    match row {
        OpcodeRow::PushesNumbers(count) => plain::pushing_numbers(alloc, count),
        OpcodeRow::PushesNull => plain::pushing_null(alloc),
        OpcodeRow::Loads(letter, local) => plain::loading(alloc, letter, local, operands),
        OpcodeRow::Stores(letter, local) => plain::storing(alloc, letter, local, operands),
        OpcodeRow::Increases(letter) => plain::increasing(alloc, letter, operands),
        OpcodeRow::Pops(count) => plain::popping(alloc, count),
        OpcodeRow::Copies(count) => rows::copying(alloc, count, count),
        OpcodeRow::CopiesBelow => plain::copying_below(alloc, operands),
        OpcodeRow::Swaps => plain::swapping_by(alloc, operands),
        OpcodeRow::Calculates(taken, given) => rows::calculating(alloc, taken, given),
        OpcodeRow::LoadsItem(letter) => rows::loading_item(alloc, letter),
        OpcodeRow::StoresItem(letter) => rows::storing_item(alloc, letter),
        OpcodeRow::CountsItems => plain::counting_items(alloc),
        OpcodeRow::Throws => throwing(alloc, pair),
        OpcodeRow::JumpsByNumbers(words) => jumping_by_numbers(alloc, placed, words, true),
        OpcodeRow::JumpsByReferences(words) => jumping_by_references(alloc, placed, words),
        OpcodeRow::JumpsAlways => jumping(alloc, placed, Row::new(alloc), false),
        OpcodeRow::Switches(words) => jumping_by_numbers(alloc, placed, words, false),
        OpcodeRow::Returns(letter) => returning(alloc, letter, type_),
        OpcodeRow::Uses(how) => using_entry(alloc, pair, how, operands),
        OpcodeRow::CallsInterface => by_interface(alloc, pair, operands),
        OpcodeRow::MakesNumbers => making_numbers(alloc, operands),
        OpcodeRow::Casts => casting(alloc, pair, operands),
        OpcodeRow::Asks => asking(alloc, pair, operands),
        OpcodeRow::Forbidden => Ok(forbidden(alloc)),
    }
}

/// What an instruction of a method with a result takes and gives.
pub(crate) fn act(
    alloc: Global,
    pair: &Package<'_>,
    type_: ValueType<'_>,
    placed: &At<'_>,
) -> Result<Act, NoMemory>
    requires { IsAt placed.now }
    ensures { IfOk result (λ made. made ≡ act pair.now (type_told type_.entry) (placed_of placed.now)) }
{
    act_by(alloc, pair, type_, placed, row(placed.insn.opcode))
}
