//! Texts of scripts, and for each whether it is a script or where it breaks rule 105.

use cjc_bytes::{Fault, Rule};
use cjc_script::{Act, Reply, Script, Value};
use cjc_script_text::read;
use std::test::*;

/// Where the text breaks rule 105, or nothing.
fn broken_at(rt: &HostRuntime, text: &[u8]) -> Option<u32> {
    if text.len() > 100_000 {
        return None;
    }
    match read(rt.alloc(), b"script", text) {
        Ok(_) | Err(Fault::NoMemory) => None,
        Err(Fault::Refused(refusal)) => {
            let Rule(rule) = refusal.rule;
            if rule == 105 && refusal.place.file.items() == b"script".as_slice() {
                Some(refusal.place.offset)
            } else {
                None
            }
        }
    }
}

/// Whether the text is a script.
fn is_script(rt: &HostRuntime, text: &[u8]) -> bool {
    if text.len() > 100_000 {
        return false;
    }
    read(rt.alloc(), b"script", text).is_ok()
}

/// The script of the wallet: it is installed, gets 50, gives 20, and refuses to give 100.
const WALLET: &[u8] = b"# the wallet\ncall p/Wallet install([BSB)V null 0 0\ngive\r\ngive\n\n\
object javacard/framework/APDU\nsend p/Wallet process(Ljavacard/framework/APDU;)V @0 @1\n\
array [B 6\nput @2 1 48\nput @2 5 50\ngive @2\n\
send p/Wallet process(Ljavacard/framework/APDU;)V @0 @1\nput @2 1 64\nput @2 5 20\ngive @2\n\
send p/Wallet process(Ljavacard/framework/APDU;)V @0 @1\nput @2 5 100\ngive @2\n\
throw javacard/framework/ISOException";

/// The script of the wallet.
fn wallet(rt: &HostRuntime) -> Result<Script, Fail> {
    let script = read(rt.alloc(), b"script", WALLET).ok().ok_or("a script")?;
    Ok(script)
}

#[test]
fn entries_of_a_script(rt: HostRuntime) -> Result<(), Fail> {
    let script = wallet(&rt)?;
    let entries = script.entries.items();
    assert_eq!(rt; entries.len(), 4);
    assert_eq!(rt; entries[0].number, 0);
    assert!(rt; !entries[0].virtual_call && entries[1].virtual_call);
    assert_eq!(rt; entries[0].method.class.items(), b"p/Wallet".as_slice());
    assert_eq!(rt; entries[0].method.name.items(), b"install".as_slice());
    assert_eq!(rt; entries[0].method.desc.items(), b"([BSB)V".as_slice());
    assert!(rt;
        matches!(
            entries[0].args.items(),
            [Value::Null, Value::Num(0), Value::Num(0)]
        )
    );
    assert_eq!(rt;
        (entries[1].number, entries[2].number, entries[3].number),
        (3, 5, 7)
    );
    assert!(rt; matches!(entries[1].acts.items(), [Act::Object { .. }]));
    assert!(rt; matches!(entries[3].args.items(), [Value::Obj(0), Value::Obj(1)]));
    Ok(())
}

#[test]
fn answers_of_a_script(rt: HostRuntime) -> Result<(), Fail> {
    let script = wallet(&rt)?;
    let answers = script.answers.items();
    assert_eq!(rt; answers.len(), 6);
    assert_eq!(rt;
        (answers[0].number, answers[1].number, answers[5].number),
        (1, 2, 9)
    );
    assert!(rt; matches!(answers[0].reply, Reply::Give(None)));
    assert!(rt; matches!(answers[2].reply, Reply::Give(Some(Value::Obj(2)))));
    assert!(rt;
        matches!(
            answers[2].acts.items(),
            [
                Act::Array { length: 6, .. },
                Act::Put {
                    array: 2,
                    index: 1,
                    value: Value::Num(48)
                },
                Act::Put {
                    array: 2,
                    index: 5,
                    value: Value::Num(50)
                },
            ]
        )
    );
    assert!(rt;
        matches!(&answers[5].reply, Reply::Throw(class) if class.items() == b"javacard/framework/ISOException".as_slice())
    );
    Ok(())
}

/// Texts that are scripts.
const SCRIPTS: [&str; 17] = [
    "",
    "# nothing\n\n",
    "give",
    "give -0",
    "give 0000000007",
    "give -2147483648",
    "give 2147483647",
    "give @4294967295",
    "give null\r\n",
    "call p/T f()V",
    "call  p/T  f([[JLa-b;)D  1",
    "call T <init>()V @0 null -1",
    "send p/I v()S @0000000001",
    "throw java/lang/Throwable",
    "array [Z -1\narray [S 0\narray [I 2147483647\narray [Lp/A; 3\ngive",
    "object p/A\nput @0 -1 null\nput @9 0 @9\ncall p/T f()V",
    "give\n#\nthrow a",
];

/// Texts that are none, and where each breaks the rule.
const BROKEN: [(&str, u32); 48] = [
    ("jump", 0),
    ("give\njump", 5),
    ("# a line\r\n\ncall p/T f()V\nJump\ngive", 25),
    (" give", 0),
    ("give ", 0),
    (" ", 0),
    ("give\tnull", 0),
    ("Give", 0),
    ("give 1 2", 0),
    ("give -", 0),
    ("give --1", 0),
    ("give +1", 0),
    ("give 1a", 0),
    ("give 2147483648", 0),
    ("give -2147483649", 0),
    ("give 00000000007", 0),
    ("give -00000000007", 0),
    ("give @", 0),
    ("give @-1", 0),
    ("give @4294967296", 0),
    ("give @00000000001", 0),
    ("give Null", 0),
    ("give null\r", 0),
    ("call", 0),
    ("call p/T", 0),
    ("call p/T f", 0),
    ("call p/T ()V", 0),
    ("call p/T f(V", 0),
    ("call p/T f()", 0),
    ("call p/T f(V)V", 0),
    ("call p/T f()V()V", 0),
    ("call p.T f()V", 0),
    ("call p//T f()V", 0),
    ("call p/T f()V x", 0),
    ("send p/T f()V", 0),
    ("send p/T f()V null", 0),
    ("send p/T f()V 0", 0),
    ("throw", 0),
    ("throw p.A", 0),
    ("throw p/A p/A", 0),
    ("array [C 1\ngive", 0),
    ("array [[B 1\ngive", 0),
    ("array [L; 1\ngive", 0),
    ("array [Lp/A 1\ngive", 0),
    ("put 0 0 0\ngive", 0),
    ("object p/A", 0),
    ("give\n\nobject p/A\narray [B 1\n", 6),
    ("object p/A\njump", 11),
];

#[test]
fn texts_that_are_scripts(rt: HostRuntime) {
    for text in SCRIPTS {
        assert!(rt; is_script(&rt, text.as_bytes()), "{text}");
    }
}

#[test]
fn texts_that_break_the_rule(rt: HostRuntime) {
    for (text, at) in BROKEN {
        assert_eq!(rt; broken_at(&rt, text.as_bytes()), Some(at), "{text}");
    }
}
