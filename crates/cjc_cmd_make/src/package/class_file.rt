//! The bytes of a class file (Java Virtual Machine Specification, chapter 4) without interfaces, fields and attributes
//! of its own. Called by `classes`. It knows no class that is made.

ghost use Rattle.std.specs.Prelude.{◌≡◌, ◌+◌, ◌<◌, ◌^◌, ◌++◌, length, OnOk, IfOk};
ghost use Rattle.std.specs.List.{flat_map};
ghost use Rattle.cjc_cmd_make.specs.Package.ClassFile.{two, four, instruction_bytes, code_bytes, attribute_bytes};
ghost use Rattle.cjc_cmd_make.specs.Package.ClassFile.{method_bytes};
ghost use Rattle.cjc_cmd_make.specs.Package.Kept.{entry_bytes};

use crate::package::instruction::Instruction;
use cjc_cmd_convert::bytes::{Bytes, NoMemory, Out};
use std::alloc::Global;
use std::marker::Model;

/// An entry of the constant pool (section 4.4). An index of an entry counts from 1.
#[derive(Clone, Copy)]
pub(crate) enum Entry<'a> {
    /// A text.
    Utf8(&'a [u8]),
    /// The index of the name.
    Class(u16),
    /// The indices of the class, and of the name and type.
    Methodref(u16, u16),
    /// The indices of the name and of the descriptor.
    NameAndType(u16, u16),
}

/// The code of a method (section 4.7.3).
#[derive(Drop)]
pub(crate) struct Code<'a> {
    /// The index of the attribute's name, which is Code.
    pub name: u16,
    /// In words.
    pub max_stack: u16,
    /// In words.
    pub max_locals: u16,
    pub instructions: &'a [Instruction],
}

impl<'a> Model for Code<'a> {
    ghost use Rattle.cjc_cmd_make.specs.Package.Code.{CodeAttribute};

    ghost Value = { CodeAttribute };

    ghost view = { λ c. record {
      name = c.name;
      max_stack = c.max_stack;
      max_locals = c.max_locals;
      instructions = c.instructions.now;
    } };
}

/// A method (section 4.6).
#[derive(Drop)]
pub(crate) struct Method<'a> {
    pub flags: u16,
    /// The index of the name.
    pub name: u16,
    /// The index of the descriptor.
    pub desc: u16,
    pub code: Code<'a>,
}

/// The low two bytes of a number.
pub(crate) fn put_two(out: &mut Out, n: u64) -> Result<(), NoMemory>
    ensures { OnOk result (out.new ≡ out.old ++ two n) }
{
    out.put2((n % 65536) as u16)
}

/// The low four bytes of a number.
fn put_four(out: &mut Out, n: u64) -> Result<(), NoMemory>
    ensures { OnOk result (out.new ≡ out.old ++ four n) }
{
    out.put4((n % 4294967296) as u32)
}

/// An entry: its tag, and what it says.
fn put_entry(out: &mut Out, entry: Entry<'_>) -> Result<(), NoMemory>
    ensures { OnOk result (out.new ≡ out.old ++ entry_bytes entry.entry) }
{
    match entry {
        Entry::Utf8(text) => {
            out.put1(1)?;
            put_two(out, text.len() as u64)?;
            out.put_slice(text)
        }
        Entry::Class(name) => {
            out.put1(7)?;
            out.put2(name)
        }
        Entry::Methodref(owner, member) => {
            out.put1(10)?;
            out.put2(owner)?;
            out.put2(member)
        }
        Entry::NameAndType(name, desc) => {
            out.put1(12)?;
            out.put2(name)?;
            out.put2(desc)
        }
    }
}

/// Entries, one behind the other.
pub(crate) fn put_entries(out: &mut Out, entries: &[Entry<'_>]) -> Result<(), NoMemory>
    ensures { OnOk result (out.new ≡ out.old ++ flat_map entry_bytes entries.now) }
{
    for entry in entries {
        put_entry(out, *entry)?;
    }
    Ok(())
}

fn put_instruction(out: &mut Out, instruction: Instruction) -> Result<(), NoMemory>
    ensures { OnOk result (out.new ≡ out.old ++ instruction_bytes instruction) }
{
    match instruction {
        Instruction::Alone(opcode) => out.put1(opcode),
        Instruction::Followed(opcode, operand) => {
            out.put1(opcode)?;
            out.put2(operand)
        }
    }
}

/// The bytes of instructions.
fn code_bytes(alloc: Global, instructions: &[Instruction]) -> Result<Bytes, NoMemory>
    ensures { IfOk result (λ b. b ≡ code_bytes instructions.now) }
{
    let mut out = Out::new(alloc);
    for instruction in instructions {
        put_instruction(&mut out, *instruction)?;
    }
    Ok(out.finish())
}

/// What stands before the instructions' own length, where they have so many bytes.
fn put_code_front(out: &mut Out, code: &Code<'_>, length: u64) -> Result<(), NoMemory>
    requires { length < 2 ^ 63 }
    ensures { OnOk result (out.new ≡ out.old ++ (two code.now.name ++ (four (12 + length) ++ (two code.now.max_stack
        ++ two code.now.max_locals)))) }
{
    out.put2(code.name)?;
    put_four(out, 12 + length)?;
    out.put2(code.max_stack)?;
    out.put2(code.max_locals)
}

/// Instructions behind their length, no exception table and no attributes.
fn put_code_bytes(out: &mut Out, bytes: &[u8]) -> Result<(), NoMemory>
    ensures { OnOk result (out.new ≡ out.old ++ (four (length bytes.now) ++ (bytes.now ++ (two 0 ++ two 0)))) }
{
    put_four(out, bytes.len() as u64)?;
    out.put_slice(bytes)?;
    out.put4(0)
}

/// The attribute Code, of whose instructions these are the bytes.
fn put_attribute(out: &mut Out, code: &Code<'_>, bytes: &[u8]) -> Result<(), NoMemory>
    requires { bytes.now ≡ code_bytes code.now.instructions }
    ensures { OnOk result (out.new ≡ out.old ++ attribute_bytes code.now) }
{
    put_code_front(out, code, bytes.len() as u64)?;
    put_code_bytes(out, bytes)
}

/// The attribute Code, without exception table and attributes.
fn put_code(alloc: Global, out: &mut Out, code: &Code<'_>) -> Result<(), NoMemory>
    ensures { OnOk result (out.new ≡ out.old ++ attribute_bytes code.now) }
{
    let bytes = code_bytes(alloc, code.instructions)?;
    put_attribute(out, code, bytes.items())
}

/// A method with its code.
#[tactic(auto, unfolding(crate::specs::Package::ClassFile::method_bytes))]
pub(crate) fn put_method(alloc: Global, out: &mut Out, method: &Method<'_>) -> Result<(), NoMemory>
    ensures { OnOk result (out.new ≡ out.old ++ method_bytes method.now) }
{
    out.put2(method.flags)?;
    out.put2(method.name)?;
    out.put2(method.desc)?;
    out.put2(1)?;
    put_code(alloc, out, &method.code)
}
