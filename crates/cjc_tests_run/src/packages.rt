//! Two packages, converted, checked and run by name and by token, and one that is made from a number: each command
//! once where all is well. A paragraph's first line is `package`, the words of its folder as commands.rt says, and
//! ` = ` with the lines that `convert` prints. The lines behind it say of what was written:
//!
//! - a name and bytes, those of a file in hexadecimal digits, or `absent`;
//! - `run SCRIPT = REPORT`, both lines with `, ` between: what runs by name, and so what was written by token;
//! - any other command and ` = ` with the lines that it prints.

use crate::commands::{folder, joined, lines_of, says};
use cjc_run::bytes::{NoMemory, Row};
use cjc_run::shelf::MemShelf;
use cjc_tests_files::cases::{cut, octets, question_and_answer};
use std::alloc::Global;
use std::test::*;

const PACKAGES: &str = "\
package lang sum = Header.cap 20, Directory.cap 36, Import.cap 14, ConstantPool.cap 5, Class.cap 15, Method.cap 10, \
    StaticField.cap 13, RefLocation.cap 7, Export.cap 10, Descriptor.cap 29, p.exp 130 # a sum
Header.cap 01,00,11,DE,CA,FF,ED,02,02,02,00,01,05,A0,00,00,00,01,01,70
Directory.cap 02,00,21,00,11,00,21,00,00,00,0B,00,02,00,0C,00,07,00,0A,00,04,00,07,00,1A,00,00,00,00,00,00,00,00,01,\
    00,00
Import.cap 04,00,0B,01,00,01,07,A0,00,00,00,62,00,01
ConstantPool.cap 05,00,02,00,00
Class.cap 06,00,0C,00,00,00,80,00,00,FF,00,01,00,00,00
Method.cap 07,00,07,00,02,10,1C,04,41,78
StaticField.cap 08,00,0A,00,00,00,00,00,00,00,00,00,00
RefLocation.cap 09,00,04,00,00,00,00
Export.cap 0A,00,07,01,00,02,00,01,00,01
Descriptor.cap 0B,00,1A,01,00,01,00,02,00,00,00,00,01,00,09,00,01,00,02,00,04,00,00,00,00,00,00,02,44
check list out = ok
run call p/T f(S)S 32767 = result -32768, done
package +p/Wallet lang framework wallet = Header.cap 20, Directory.cap 36, Applet.cap 13, Import.cap 24, \
    ConstantPool.cap 33, Class.cap 17, Method.cap 92, StaticField.cap 13, RefLocation.cap 19, Descriptor.cap 87, \
    p.exp 27 # an applet with a balance
Header.cap 01,00,11,DE,CA,FF,ED,02,02,04,00,01,05,A0,00,00,00,01,01,70
Class.cap 06,00,0E,00,00,00,81,00,01,FF,00,02,01,00,00,00,15
ConstantPool.cap 05,00,1E,00,07,02,00,02,00,06,81,00,00,01,00,02,00,06,00,00,01,03,00,02,01,03,81,01,01,06,81,02,00
Method.cap 07,00,59,00,01,10,18,8C,00,01,7A,02,30,8F,00,02,3D,8C,00,03,8B,00,04,7A,04,21,19,8B,00,05,2D,1A,04,25,75,\
    00,33,00,02,00,30,00,0D,00,40,00,19,18,18,85,00,1A,08,25,41,89,00,70,22,1A,08,25,18,85,00,6F,08,11,6A,85,8D,00,\
    06,18,18,85,00,1A,08,25,43,89,00,70,08,11,6D,00,8D,00,06,7A
RefLocation.cap 09,00,10,00,05,2F,06,08,0C,06,00,07,05,06,04,03,07,2B,12
Applet.cap 03,00,0A,01,06,A0,00,00,00,01,01,00,08
Export.cap absent
check list out = ok
run call p/Wallet install([BSB)V null 0 0, give, give, object javacard/framework/APDU, \
    send p/Wallet process(Ljavacard/framework/APDU;)V @0 @1, array [B 6, put @2 1 48, put @2 5 50, give @2, \
    send p/Wallet process(Ljavacard/framework/APDU;)V @0 @1, put @2 1 64, put @2 5 20, give @2, \
    send p/Wallet process(Ljavacard/framework/APDU;)V @0 @1, put @2 5 100, give @2, \
    throw javacard/framework/ISOException = event javacard/framework/Applet.<init>()V @0, \
    event javacard/framework/Applet.register()V @0, result void, event javacard/framework/APDU.getBuffer()[B @1, \
    result void, event javacard/framework/APDU.getBuffer()[B @1, result void, \
    event javacard/framework/APDU.getBuffer()[B @1, event javacard/framework/ISOException.throwIt(S)V 27269, \
    thrown javacard/framework/ISOException @3, object @0 p/Wallet p/Wallet.balance:S=30, \
    object @1 javacard/framework/APDU, array @2 [B 0 64 0 0 0 100, object @3 javacard/framework/ISOException, done
make 7 3 = classes 3, methods 9, method bytes 100, calls 3, instructions 60 54, last 4491, agree";

/// Whether a folder with these files is converted, and that prints these lines.
fn convert(
    alloc: Global,
    shelf: &mut MemShelf,
    words: &str,
    wanted: &str,
) -> Result<bool, NoMemory> {
    *shelf = folder(alloc, words, Row::new(alloc))?;
    says(alloc, shelf, "convert list out", wanted)
}

/// Whether a script gives a report, of the class files and of the components.
fn runs_so(
    alloc: Global,
    shelf: &mut MemShelf,
    script: &str,
    report: &str,
) -> Result<bool, NoMemory> {
    let script = lines_of(alloc, script)?;
    shelf.add(b"script", script.items())?;
    let by_token = says(alloc, shelf, "card list out script 30000", report)?;
    Ok(by_token && says(alloc, shelf, "jvm list script 10000", report)?)
}

/// Whether a file was written with these bytes, or is absent.
fn is_written(alloc: Global, shelf: &MemShelf, name: &str, wanted: &str) -> Result<bool, NoMemory> {
    let name = joined(alloc, "out/", name)?;
    let bytes = shelf.get(name.items());
    if wanted == "absent" {
        return Ok(bytes.is_none());
    }
    let wanted = octets(alloc, wanted)?;
    Ok(bytes == Some(wanted.as_slice()))
}

/// Whether what a line says is so.
fn is_so(alloc: Global, shelf: &mut MemShelf, line: &str) -> Result<bool, NoMemory> {
    let (question, wanted) = question_and_answer(line);
    let (word, words) = cut(question, " ");
    match word {
        "package" => convert(alloc, shelf, words, wanted),
        "run" => runs_so(alloc, shelf, words, wanted),
        "check" | "make" => says(alloc, shelf, question, wanted),
        _ => is_written(alloc, shelf, word, words),
    }
}

/// The first line of which what it says is not so; nothing where there is none.
fn first_wrong(alloc: Global, cases: &'static str) -> &'static str {
    let mut shelf = MemShelf::new(alloc, Row::new(alloc));
    for line in cases.lines() {
        match is_so(alloc, &mut shelf, line) {
            Ok(true) => {}
            _ => return line,
        }
    }
    ""
}

#[test]
fn converts_checks_runs_and_makes(rt: HostRuntime) {
    assert_eq!(rt; first_wrong(rt.alloc(), PACKAGES), "");
}
