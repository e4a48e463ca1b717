//! The script of the wallet, and the tree that is read of it.

use cjc_script_text::read;
use cjc_script_text::script::{Act, Reply, Script, Value};
use std::test::*;

/// The script of the wallet: it is installed, gets 50, gives 20, and refuses to give 100.
const WALLET: &[u8] = b"# the wallet\ncall p/Wallet install([BSB)V null 0 0\ngive\r\ngive\n\n\
object javacard/framework/APDU\nsend p/Wallet process(Ljavacard/framework/APDU;)V @0 @1\n\
array [B 6\nput @2 1 48\nput @2 5 50\ngive @2\n\
send p/Wallet process(Ljavacard/framework/APDU;)V @0 @1\nput @2 1 64\nput @2 5 20\ngive @2\n\
send p/Wallet process(Ljavacard/framework/APDU;)V @0 @1\nput @2 5 100\ngive @2\n\
throw javacard/framework/ISOException";

/// The script of the wallet.
fn wallet(rt: &HostRuntime) -> Result<Script, Fail> {
    let script = read(rt.alloc(), b"script", WALLET).ok().ok_or("a script")?;
    Ok(script)
}

#[test]
fn entries_of_a_script(rt: HostRuntime) -> Result<(), Fail> {
    let script = wallet(&rt)?;
    let entries = script.entries.items();
    assert_eq!(rt; entries.len(), 4);
    assert_eq!(rt; entries[0].number, 0);
    assert!(rt; !entries[0].virtual_call && entries[1].virtual_call);
    assert_eq!(rt; entries[0].method.class.items(), b"p/Wallet".as_slice());
    assert_eq!(rt; entries[0].method.name.items(), b"install".as_slice());
    assert_eq!(rt; entries[0].method.desc.items(), b"([BSB)V".as_slice());
    assert!(rt;
        matches!(
            entries[0].args.items(),
            [Value::Null, Value::Num(0), Value::Num(0)]
        )
    );
    assert_eq!(rt;
        (entries[1].number, entries[2].number, entries[3].number),
        (3, 5, 7)
    );
    assert!(rt; matches!(entries[1].acts.items(), [Act::Object { .. }]));
    assert!(rt; matches!(entries[3].args.items(), [Value::Obj(0), Value::Obj(1)]));
    Ok(())
}

#[test]
fn answers_of_a_script(rt: HostRuntime) -> Result<(), Fail> {
    let script = wallet(&rt)?;
    let answers = script.answers.items();
    assert_eq!(rt; answers.len(), 6);
    assert_eq!(rt;
        (answers[0].number, answers[1].number, answers[5].number),
        (1, 2, 9)
    );
    assert!(rt; matches!(answers[0].reply, Reply::Give(None)));
    assert!(rt; matches!(answers[2].reply, Reply::Give(Some(Value::Obj(2)))));
    assert!(rt;
        matches!(
            answers[2].acts.items(),
            [
                Act::Array { length: 6, .. },
                Act::Put {
                    array: 2,
                    index: 1,
                    value: Value::Num(48)
                },
                Act::Put {
                    array: 2,
                    index: 5,
                    value: Value::Num(50)
                },
            ]
        )
    );
    assert!(rt;
        matches!(&answers[5].reply, Reply::Throw(class) if class.items() == b"javacard/framework/ISOException".as_slice())
    );
    Ok(())
}
