//! A report with every kind of note and thing, and the text that is printed of it.

use cjc_capwrite::bytes::{Bytes, MemberId, NoMemory, Row};
use cjc_script_text::print;
use cjc_script_text::script::{FieldValue, Note, Outcome, Report, Thing, Value};
use std::alloc::Global;
use std::test::*;

/// These bytes.
fn bytes(alloc: Global, text: &[u8]) -> Result<Bytes, NoMemory> {
    Bytes::copy_of(alloc, text)
}

/// These values.
fn values(alloc: Global, items: &[Value]) -> Result<Row<Value>, NoMemory> {
    Ok(Row::of(Vec::from_slice(alloc, items)?))
}

/// A member by its class, name and descriptor.
fn member(alloc: Global, class: &[u8], name: &[u8], desc: &[u8]) -> Result<MemberId, NoMemory> {
    Ok(MemberId {
        class: bytes(alloc, class)?,
        name: bytes(alloc, name)?,
        desc: bytes(alloc, desc)?,
    })
}

/// The balance of a wallet.
fn balance(alloc: Global, value: Value) -> Result<FieldValue, NoMemory> {
    Ok(FieldValue {
        field: member(alloc, b"p/Wallet", b"balance", b"S")?,
        value,
    })
}

/// A note of each kind.
fn notes(alloc: Global) -> Result<Row<Note>, NoMemory> {
    let mut notes = Row::new(alloc);
    let callee = member(alloc, b"q/A", b"a", b"(S)S")?;
    let args = values(alloc, &[Value::Obj(0), Value::Num(-1)])?;
    notes.push(Note::Event { callee, args })?;
    notes.push(Note::Result(None))?;
    notes.push(Note::Result(Some(Value::Num(-32768))))?;
    notes.push(Note::Result(Some(Value::Null)))?;
    let class = bytes(alloc, b"p/E")?;
    notes.push(Note::Thrown {
        class,
        object: 4294967295,
    })?;
    Ok(notes)
}

/// An array, an empty one, an object with fields and one without.
fn heap(alloc: Global) -> Result<Row<Thing>, NoMemory> {
    let mut heap = Row::new(alloc);
    let items = values(alloc, &[Value::Num(0), Value::Num(64), Value::Num(-128)])?;
    heap.push(Thing::Array {
        desc: bytes(alloc, b"[B")?,
        items,
    })?;
    heap.push(Thing::Array {
        desc: bytes(alloc, b"[Lp/A;")?,
        items: Row::new(alloc),
    })?;
    let mut fields = Row::new(alloc);
    fields.push(balance(alloc, Value::Num(30))?)?;
    fields.push(balance(alloc, Value::Obj(1))?)?;
    heap.push(Thing::Object {
        class: bytes(alloc, b"p/Wallet")?,
        fields,
    })?;
    heap.push(Thing::Object {
        class: bytes(alloc, b"q/A")?,
        fields: Row::new(alloc),
    })?;
    Ok(heap)
}

const TEXT: &str = "event q/A.a(S)S @0 -1
result void
result -32768
result null
thrown p/E @4294967295
static p/Wallet.balance:S 7
static p/Wallet.balance:S null
array @0 [B 0 64 -128
array @1 [Lp/A;
object @2 p/Wallet p/Wallet.balance:S=30 p/Wallet.balance:S=@1
object @3 q/A
done
";

#[test]
fn every_kind_of_line(rt: HostRuntime) -> Result<(), Fail> {
    let alloc = rt.alloc();
    let mut statics = Row::new(alloc);
    statics.push(balance(alloc, Value::Num(7))?)?;
    statics.push(balance(alloc, Value::Null)?)?;
    let report = Report {
        notes: notes(alloc)?,
        statics,
        heap: heap(alloc)?,
        outcome: Outcome::Done,
        spent: 5,
    };
    let text = print(alloc, &report)?;
    assert_eq!(rt; text.items(), TEXT.as_bytes());
    Ok(())
}
