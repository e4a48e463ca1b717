//! Whole runs of `jvm list script N` over files in memory. A case is a class file with some bytes changed, as
//! packages.rt says, then N, the lines of the script, and the lines that are printed or the line at the end,
//! with ` : ` between and `, ` between lines.

use crate::packages::bytes_of;
use crate::words::cut;
use cjc_bytes::{Bytes, NoMemory, Out, Row};
use cjc_run::{run, status_line};
use cjc_shelf::{MemShelf, MemSink};
use std::alloc::Global;
use std::test::*;

/// What is printed, or why nothing is.
const RUNS: &str = "\
sum : 100 : call p/T f(S)S 5 : result 6, done
sum : 100 : call p/T f(S)S 32767 : result -32768, done
sum : 100 : call p/T f(S)S 1, call p/T f(S)S 2 : result 2, result 3, done
sum : 4 : call p/T f(S)S 5 : running
sum : 5 : call p/T f(S)S 5 : result 6, done
sum : 5 : call p/T f(S)S 5, call p/T f(S)S 6 : result 6, running
sum : 100 : call p/T f(S)S 40000 : unfit 0
sum : 100 : call p/T g(S)S 5 : unfit 0
sum : 100 : call p/T f(S)S 1, call p/T f(S)S : result 2, unfit 1
sum : 100 : array [S 2, put @0 1 7, call p/T f(S)S 1 : result 2, array @0 [S 0 7, done
sum : 100 : object java/lang/Object, call p/T f(S)S 1 : result 2, object @0 java/lang/Object, done
sum : 100 : array [S 2, put @0 2 7, call p/T f(S)S 1 : array @0 [S 0 0, unfit 0
sum 94:03 95:6c : 100 : call p/T f(S)S 5 : thrown java/lang/ArithmeticException @0, object @0 java/lang/ArithmeticException, done
sum 93:a7 94:00 95:00 96:00 : 100000 : call p/T f(S)S 5 : running
sum : 100 : jump : refused 105 script - - 0
sum : 100 : call p/T f(S)S 5, jump : refused 105 script - - 17
sum 95:61 : 100 : jump : refused 105 script - - 0
sum 97:00 : 100 : jump : refused 103 T.class p/T f(S)S 4
sum 95:61 : 100 : call p/T f(S)S 5 : refused 303 T.class p/T f(S)S 2
sum 85:01 : 100 : call p/T f(S)S 5 : result 6, done
sum : 3000000001 : call p/T f(S)S 5 : usage: jcconv convert LIST DIR, check LIST DIR, jvm LIST SCRIPT N, card LIST DIR SCRIPT N, make NUMBER SIZE
sum : 1e3 : call p/T f(S)S 5 : usage: jcconv convert LIST DIR, check LIST DIR, jvm LIST SCRIPT N, card LIST DIR SCRIPT N, make NUMBER SIZE
sum : 3000000000 : call p/T f(S)S 5 : result 6, done
sum 93:04 94:be : 100 : call p/T f(S)S 5 : stuck 1
broad : 100 : call p/T f(S)S 0 : thrown java/lang/NullPointerException @0, static p/T.c:S 0, object @0 java/lang/NullPointerException, done
broad : 100 : call p/T f(S)S 1 : thrown java/lang/ArrayIndexOutOfBoundsException @1, static p/T.c:S 0, array @0 [S, object @1 java/lang/ArrayIndexOutOfBoundsException, done
broad : 100 : call p/T f(S)S 2 : thrown java/lang/NegativeArraySizeException @0, static p/T.c:S 0, object @0 java/lang/NegativeArraySizeException, done
broad : 100 : call p/T f(S)S 3 : thrown java/lang/ArithmeticException @0, static p/T.c:S 0, object @0 java/lang/ArithmeticException, done
broad : 100 : call p/T f(S)S 4 : thrown java/lang/ArrayStoreException @2, static p/T.c:S 0, array @0 [Lp/T; null, object @1 java/lang/Object, object @2 java/lang/ArrayStoreException, done
broad : 100 : call p/T f(S)S 5 : thrown java/lang/ClassCastException @1, static p/T.c:S 0, object @0 java/lang/Object, object @1 java/lang/ClassCastException, done
broad : 100 : call p/T f(S)S 30, call p/T f(S)S 12 : result 30, result 42, static p/T.c:S 42, done
broad : 100 : call p/T n()Lp/T; : result @0, static p/T.c:S 0, object @0 p/T p/T.v:S=0, done
broad : 100 : call p/T n()Lp/T;, send p/T g(S)V @0 7, give 1 : result @0, event java/lang/Object.equals(Ljava/lang/Object;)Z @0 @0, result void, static p/T.c:S 0, object @0 p/T p/T.v:S=7, done
broad : 100 : call p/T n()Lp/T;, send p/T g(S)V @0 7 : result @0, event java/lang/Object.equals(Ljava/lang/Object;)Z @0 @0, static p/T.c:S 0, object @0 p/T p/T.v:S=7, waiting
broad : 100 : call p/T n()Lp/T;, send p/T g(S)V @0 7, throw java/lang/ArithmeticException : result @0, event java/lang/Object.equals(Ljava/lang/Object;)Z @0 @0, result void, static p/T.c:S 0, object @0 p/T p/T.v:S=-1, object @1 java/lang/ArithmeticException, done
broad : 100 : call p/T n()Lp/T;, send p/T g(S)V @0 7, throw java/lang/Exception : result @0, event java/lang/Object.equals(Ljava/lang/Object;)Z @0 @0, thrown java/lang/Exception @1, static p/T.c:S 0, object @0 p/T p/T.v:S=7, object @1 java/lang/Exception, done
broad : 100 : call p/T n()Lp/T;, send p/T g(S)V @0 7, give 2 : result @0, event java/lang/Object.equals(Ljava/lang/Object;)Z @0 @0, static p/T.c:S 0, object @0 p/T p/T.v:S=7, unfit 2
broad : 100 : call p/T n()Lp/T;, send p/T g(S)V @0 7, give : result @0, event java/lang/Object.equals(Ljava/lang/Object;)Z @0 @0, static p/T.c:S 0, object @0 p/T p/T.v:S=7, unfit 2
broad : 100 : call p/T n()Lp/T;, send p/T g(S)V @0 7, throw java/lang/Object : result @0, event java/lang/Object.equals(Ljava/lang/Object;)Z @0 @0, static p/T.c:S 0, object @0 p/T p/T.v:S=7, unfit 2
broad : 100 : call p/T n()Lp/T;, send p/T g(S)V @1 7 : result @0, static p/T.c:S 0, object @0 p/T p/T.v:S=0, unfit 1
broad : 100 : call p/T n()Lp/T;, send p/T h(S)V @0 7 : result @0, static p/T.c:S 0, object @0 p/T p/T.v:S=0, unfit 1
broad : 100 : object java/lang/Object, send p/T g(S)V @0 7 : static p/T.c:S 0, object @0 java/lang/Object, unfit 0
broad : 100 : array [I -1, call p/T f(S)S 30 : static p/T.c:S 0, unfit 0
broad : 100 : array [S 32768, call p/T f(S)S 30 : static p/T.c:S 0, unfit 0
broad : 100 : array [B 1, put @0 0 200, call p/T f(S)S 30 : static p/T.c:S 0, array @0 [B 0, unfit 0
broad : 100 : array [Z 2, put @0 1 1, array [I 1, put @1 0 2147483647, call p/T f(S)S 30 : result 30, static p/T.c:S 30, array @0 [Z 0 1, array @1 [I 2147483647, done
broad : 100 : array [Lp/T; 2, array [Ljava/lang/Object; 1, put @1 0 @0, call p/T f(S)S 30 : result 30, static p/T.c:S 30, array @0 [Lp/T; null null, array @1 [Ljava/lang/Object; @0, done
broad : 100 : array [Lp/T; 1, object java/lang/Object, put @0 0 @1, call p/T f(S)S 30 : static p/T.c:S 0, array @0 [Lp/T; null, object @1 java/lang/Object, unfit 0
broad : 100 : put @0 0 1, call p/T f(S)S 30 : static p/T.c:S 0, unfit 0
broad : 100 : object p/T, call p/T f(S)S 30 : static p/T.c:S 0, unfit 0
broad : 100 : object a/B, call p/T f(S)S 30 : static p/T.c:S 0, unfit 0
broad : 100 : array [La/B; 1, call p/T f(S)S 30 : static p/T.c:S 0, unfit 0
broad : 100 : call p/T n()Lp/T;, give 1 : result @0, static p/T.c:S 0, object @0 p/T p/T.v:S=0, done
broad : 100 : give 1, call p/T f(S)S 30 : result 30, static p/T.c:S 30, done
broad : 100 : call q/T f(S)S 30 : static p/T.c:S 0, unfit 0
broad : 100 : call p/T f(S)S null : static p/T.c:S 0, unfit 0
broad : 100 : call p/T f(S)S 30 30 : static p/T.c:S 0, unfit 0
broad : 100 : call p/T f(S)S -32769 : static p/T.c:S 0, unfit 0
broad : 100 : object java/lang/Object, call p/T f(S)S @0 : static p/T.c:S 0, object @0 java/lang/Object, unfit 0
broad : 100 : object java/lang/Object, put @0 0 1, call p/T f(S)S 3 : static p/T.c:S 0, object @0 java/lang/Object, unfit 0
broad : 100 : array [B 3, put @0 2 -7, call p/T h([BS)B @0 1, call p/T h([BS)B @0 2 : result -7, thrown java/lang/ArrayIndexOutOfBoundsException @1, static p/T.c:S 0, array @0 [B 0 0 -7, object @1 java/lang/ArrayIndexOutOfBoundsException, done
broad : 100 : array [B 3, call p/T h([BS)B @0 32767 : thrown java/lang/ArrayIndexOutOfBoundsException @1, static p/T.c:S 0, array @0 [B 0 0 0, object @1 java/lang/ArrayIndexOutOfBoundsException, done
broad : 100 : call p/T d(SS)S -32768 -1, call p/T d(SS)S 7 -2, call p/T d(SS)S 1 0 : result -32768, result -3, thrown java/lang/ArithmeticException @0, static p/T.c:S 0, object @0 java/lang/ArithmeticException, done
broad : 100 : call p/T r(S)S -1, call p/T r(S)S 32767, call p/T l(S)S 1, call p/T l(S)S -1 : result 4095, result 0, result 0, result 0, static p/T.c:S 0, done
asks : 100 : call p/T go()Z : event q/A.z()Z, waiting
asks : 100 : call p/T go()Z, give 2 : event q/A.z()Z, unfit 1
asks : 100 : call p/T go()Z, give 1 : event q/A.z()Z, result 1, done
asks : 0 : call p/T go()Z, give 1 : running
wallet : 10000 : call p/Wallet install([BSB)V null 0 0, give, give, object javacard/framework/APDU, send p/Wallet process(Ljavacard/framework/APDU;)V @0 @1, array [B 6, put @2 1 48, put @2 5 50, give @2, send p/Wallet process(Ljavacard/framework/APDU;)V @0 @1, put @2 1 64, put @2 5 20, give @2, send p/Wallet process(Ljavacard/framework/APDU;)V @0 @1, put @2 5 100, give @2, throw javacard/framework/ISOException : event javacard/framework/Applet.<init>()V @0, event javacard/framework/Applet.register()V @0, result void, event javacard/framework/APDU.getBuffer()[B @1, result void, event javacard/framework/APDU.getBuffer()[B @1, result void, event javacard/framework/APDU.getBuffer()[B @1, event javacard/framework/ISOException.throwIt(S)V 27269, thrown javacard/framework/ISOException @3, object @0 p/Wallet p/Wallet.balance:S=30, object @1 javacard/framework/APDU, array @2 [B 0 64 0 0 0 100, object @3 javacard/framework/ISOException, done
broad : 100 : call p/T g(S)V 7 : static p/T.c:S 0, unfit 0
broad : 100 : call p/T n()Lp/T;, send p/T f(S)S @0 7 : result @0, static p/T.c:S 0, object @0 p/T p/T.v:S=0, unfit 1
broad : 100 : call p/T n()Lp/T;, send p/T equals(Ljava/lang/Object;)Z @0 @0 : result @0, static p/T.c:S 0, object @0 p/T p/T.v:S=0, unfit 1
broad : 100 : call p/T n()Lp/T;, send java/lang/Object equals(Ljava/lang/Object;)Z @0 @0 : result @0, static p/T.c:S 0, object @0 p/T p/T.v:S=0, unfit 1
broad : 100 : call p/T n()Lp/T;, send p/T g(S)V @0 7, throw p/T : result @0, event java/lang/Object.equals(Ljava/lang/Object;)Z @0 @0, static p/T.c:S 0, object @0 p/T p/T.v:S=7, unfit 2
broad : 100 : call p/T n()Lp/T;, send p/T g(S)V @0 7, throw a/B : result @0, event java/lang/Object.equals(Ljava/lang/Object;)Z @0 @0, static p/T.c:S 0, object @0 p/T p/T.v:S=7, unfit 2
broad : 100 : call p/T n()Lp/T;, send p/T g(S)V @0 7, call p/T n()Lp/T; : result @0, event java/lang/Object.equals(Ljava/lang/Object;)Z @0 @0, static p/T.c:S 0, object @0 p/T p/T.v:S=7, waiting
broad : 100 : call p/T h([BS)B null 0 : thrown java/lang/NullPointerException @0, static p/T.c:S 0, object @0 java/lang/NullPointerException, done
broad : 100 : array [S 1, call p/T h([BS)B @0 0 : static p/T.c:S 0, array @0 [S 0, unfit 0
broad : 100 : call p/T h([BS)B @0 0 : static p/T.c:S 0, unfit 0
broad : 100 : call p/T h([BS)B 1 0 : static p/T.c:S 0, unfit 0
wallet : 100 : call p/Wallet install([BSB)V null 0 0, give 1 : event javacard/framework/Applet.<init>()V @0, object @0 p/Wallet p/Wallet.balance:S=0, unfit 1
wallet : 100 : call p/Wallet install([BSB)V null 0 0, give, give, object javacard/framework/APDU, send p/Wallet process(Ljavacard/framework/APDU;)V @0 @1, give @0 : event javacard/framework/Applet.<init>()V @0, event javacard/framework/Applet.register()V @0, result void, event javacard/framework/APDU.getBuffer()[B @1, object @0 p/Wallet p/Wallet.balance:S=0, object @1 javacard/framework/APDU, unfit 4";

/// The lines of a part of a case, each with its line feed.
fn lines_of(alloc: Global, part: &str) -> Result<Bytes, NoMemory> {
    let mut text = Out::new(alloc);
    for line in part.split(", ") {
        text.put_slice(line.as_bytes())?;
        text.put_slice(b"\n")?;
    }
    Ok(text.finish())
}

/// The list of a class.
fn list_of(class: &str) -> &'static str {
    match class {
        "asks" => "asks-list",
        "wallet" => "wallet-list",
        _ => "list",
    }
}

/// A folder with this class file, its list, and this script.
fn shelf_of(alloc: Global, class: &str, script: &str) -> Result<MemShelf, NoMemory> {
    let mut shelf = MemShelf::new(alloc, Row::new(alloc));
    let bytes = bytes_of(alloc, class)?;
    shelf.add(b"T.class", bytes.as_slice())?;
    let bytes = bytes_of(alloc, list_of(class))?;
    shelf.add(b"list", bytes.as_slice())?;
    let bytes = bytes_of(alloc, "lang")?;
    shelf.add(b"lang.exp", bytes.as_slice())?;
    let bytes = bytes_of(alloc, "q")?;
    shelf.add(b"q.exp", bytes.as_slice())?;
    let bytes = bytes_of(alloc, "framework")?;
    shelf.add(b"fw.exp", bytes.as_slice())?;
    let bytes = lines_of(alloc, script)?;
    shelf.add(b"script", bytes.items())?;
    Ok(shelf)
}

fn words_of(alloc: Global, n: &str) -> Result<Row<Bytes>, NoMemory> {
    let mut words = Row::new(alloc);
    words.push(Bytes::copy_of(alloc, b"jvm")?)?;
    words.push(Bytes::copy_of(alloc, b"list")?)?;
    words.push(Bytes::copy_of(alloc, b"script")?)?;
    words.push(Bytes::copy_of(alloc, n.as_bytes())?)?;
    Ok(words)
}

fn sink_of(alloc: Global) -> Result<MemSink, NoMemory> {
    let mut sink = MemSink::new(alloc, Row::new(alloc));
    sink.reserve()?;
    Ok(sink)
}

/// Whether these bytes are this line, whose commas are its own.
fn is_line(bytes: &[u8], line: &str) -> bool {
    match bytes {
        [front @ .., b'\n'] => front == line.as_bytes(),
        _ => false,
    }
}

/// Whether a case prints and ends as wanted.
fn is_so(alloc: Global, case: &str) -> Result<bool, NoMemory> {
    let (class, rest) = cut(case, " : ");
    let (n, rest) = cut(rest, " : ");
    let (script, wanted) = cut(rest, " : ");
    let mut shelf = shelf_of(alloc, class, script)?;
    let words = words_of(alloc, n)?;
    let mut out = sink_of(alloc)?;
    let mut errors = sink_of(alloc)?;
    let status = run(alloc, words.items(), &mut shelf, &mut out);
    if status_line(&status, &mut errors).is_err() {
        return Ok(false);
    }
    let text = lines_of(alloc, wanted)?;
    if errors.bytes().is_empty() {
        return Ok(out.bytes() == text.items());
    }
    Ok(out.bytes().is_empty() && is_line(errors.bytes(), wanted))
}

/// The first case that goes otherwise; nothing where there is none.
fn first_wrong(alloc: Global) -> &'static str {
    for case in RUNS.lines() {
        match is_so(alloc, case) {
            Ok(true) => {}
            _ => return case,
        }
    }
    ""
}

#[test]
fn prints_reports_by_name(rt: HostRuntime) {
    assert_eq!(rt; first_wrong(rt.alloc()), "");
}
