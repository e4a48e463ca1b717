//! Instructions of test cases, written down as a name and an operand, so that a case is one line of text.

use crate::drafts::{member_id, text, token};
use cjc_bytes::NoMemory;
use cjc_code::JOp;
use std::alloc::Global;

/// An instruction that names a field.
fn field_access(alloc: Global, name: &str, operand: &str) -> Result<JOp, NoMemory> {
    let field = member_id(alloc, operand)?;
    match name {
        "getstatic" => Ok(JOp::Static { put: false, field }),
        "putstatic" => Ok(JOp::Static { put: true, field }),
        "getfield" => Ok(JOp::Field { put: false, field }),
        _ => Err(NoMemory),
    }
}

/// An instruction that names a class.
fn of_class(alloc: Global, name: &str, operand: &str) -> Result<JOp, NoMemory> {
    let class = text(alloc, operand)?;
    match name {
        "new" => Ok(JOp::New(class)),
        "anewarray" => Ok(JOp::ANewArray(class)),
        "checkcast" => Ok(JOp::CheckCast(class)),
        _ => Err(NoMemory),
    }
}

/// The opcode of a call.
fn opcode_of_call(name: &str) -> Option<u8> {
    match name {
        "invokevirtual" => Some(0xB6),
        "invokespecial" => Some(0xB7),
        "invokestatic" => Some(0xB8),
        "invokeinterface" => Some(0xB9),
        _ => None,
    }
}

fn call(alloc: Global, op: u8, operand: &str) -> Result<JOp, NoMemory> {
    Ok(JOp::Call {
        op,
        method: member_id(alloc, operand)?,
    })
}

/// The instruction that these words say: its name, and its operand where it has one.
pub(crate) fn instruction(alloc: Global, words: &str) -> Result<JOp, NoMemory> {
    let (name, operand) = crate::drafts::cut(words, " ");
    if let Some(op) = opcode_of_call(name) {
        return call(alloc, op, operand);
    }
    match name {
        "nop" => Ok(JOp::Nop),
        "iaload" => Ok(JOp::ArrayLoad(0x2E)),
        "iastore" => Ok(JOp::ArrayStore(0x4F)),
        "newarray" => Ok(JOp::NewArray(token(operand)?)),
        "getstatic" | "putstatic" | "getfield" => field_access(alloc, name, operand),
        _ => of_class(alloc, name, operand),
    }
}
