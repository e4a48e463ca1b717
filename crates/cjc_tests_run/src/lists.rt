//! What is read of a list.

use cjc_run::bytes::{AppletLine, FileLine};
use cjc_run::list::{List, read_list};
use std::alloc::Global;
use std::test::*;

const WALLET: &[u8] = b"\
# the wallet\r\n\r\npackage com/p A000000001 1.02\napplet com/p/Wallet a0000000010F\nexport lang.exp\nclass T.class\r";

fn is_applet(line: &AppletLine) -> bool {
    line.class.items() == b"com/p/Wallet".as_slice()
        && line.aid.items() == [0xA0, 0, 0, 0, 1, 0x0F].as_slice()
}

fn is_file(line: &FileLine, class_file: bool, name: &[u8]) -> bool {
    line.class_file == class_file && line.name.items() == name
}

fn are_applets(lines: &[AppletLine]) -> bool {
    match lines {
        [line] => is_applet(line),
        _ => false,
    }
}

fn are_files(lines: &[FileLine]) -> bool {
    match lines {
        [first, second] => {
            is_file(first, false, b"lang.exp") && is_file(second, true, b"T.class\r")
        }
        _ => false,
    }
}

/// Whether a list says what the wallet's does.
fn is_wallet(list: &List) -> bool {
    list.name.items() == b"list".as_slice()
        && list.package.items() == b"com/p".as_slice()
        && list.aid.items() == [0xA0, 0, 0, 0, 1].as_slice()
        && list.major == 1
        && list.minor == 2
        && !list.ints
        && are_applets(list.applets.items())
        && are_files(list.lines.items())
}

fn reads_wallet(alloc: Global, text: &[u8]) -> bool {
    if text.len() > 100_000 {
        return false;
    }
    match read_list(alloc, b"list", text) {
        Ok(list) => is_wallet(&list),
        Err(_) => false,
    }
}

#[test]
fn one_list(rt: HostRuntime) {
    assert!(rt; reads_wallet(rt.alloc(), WALLET));
}
