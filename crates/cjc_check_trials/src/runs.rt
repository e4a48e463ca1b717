//! Runs of `check` in memory: the files as they are or with some bytes altered, the text that is printed, and
//! the exit status.

use crate::folders::{
    CLASS, Change, DESCRIPTOR, DIRECTORY, EXPORT, FILES, HEADER, IMPORT, LANG, LIST, LOCATIONS,
    METHOD, STATICS, handled, implementing, installed, pooled, tabled,
};
use cjc_bytes::{Bytes, NoMemory, Row};
use cjc_run::{run, status_line};
use cjc_shelf::{MemShelf, MemSink};
use std::alloc::Global;
use std::test::Fail;

fn words_of(alloc: Global, words: &[&[u8]]) -> Result<Row<Bytes>, NoMemory> {
    let mut row = Row::new(alloc);
    for word in words {
        row.push(Bytes::copy_of(alloc, word)?)?;
    }
    Ok(row)
}

/// A file with the bytes from an offset on put in place of its own, and what is over put at its end; cut there
/// where there are none.
fn with_bytes(mut file: Vec<u8>, at: usize, bytes: &[u8]) -> Result<Vec<u8>, Fail> {
    if bytes.is_empty() {
        file.truncate(at);
    }
    for (i, byte) in bytes.iter().enumerate() {
        let place = at.saturating_add(i);
        if place < file.len() {
            file[place] = *byte;
        } else {
            file.push(*byte)?;
        }
    }
    Ok(file)
}

/// A file of this name with the changes that name it.
fn altered(alloc: Global, name: &[u8], bytes: &[u8], changes: &[Change]) -> Result<Vec<u8>, Fail> {
    let mut file = bytes.to_vec(alloc)?;
    for (changed, at, new) in changes {
        if *changed == name {
            file = with_bytes(file, *at, new)?;
        }
    }
    Ok(file)
}

/// Whether `check` of the folder with these changes prints this text and ends with this line.
fn ends_so(alloc: Global, changes: &[Change], text: &str, end: &str) -> Result<bool, Fail> {
    let mut shelf = MemShelf::new(alloc, Row::new(alloc));
    for (name, bytes) in &FILES {
        let file = altered(alloc, name, bytes, changes)?;
        shelf.add(name, file.as_slice())?;
    }
    let mut out = MemSink::new(alloc, Row::new(alloc));
    out.reserve()?;
    let mut errors = MemSink::new(alloc, Row::new(alloc));
    errors.reserve()?;
    let words = words_of(alloc, &[b"check", b"list", b"out"])?;
    let status = run(alloc, words.items(), &mut shelf, &mut out);
    status_line(&status, &mut errors)?;
    Ok(out.bytes() == text.as_bytes() && errors.bytes() == end.as_bytes())
}

#[test]
fn consistent_components(rt: HostRuntime) -> Result<(), Fail> {
    assert!(rt; ends_so(rt.alloc(), &[], "ok\n", "")?);
    let caught = handled(b"\x00\x0F\x01\x00\x0B\x80\x01\x00\x0E\x00\x00\x02\x10\x1C\x04\x41\x78");
    assert!(rt; ends_so(rt.alloc(), &caught, "ok\n", "")?);
    Ok(())
}

#[test]
fn one_sentence_is_false(rt: HostRuntime) -> Result<(), Fail> {
    let cases: [(Change, &str); 19] = [
        (
            (DIRECTORY, 10, b"\x0C"),
            "refused 701 Directory.cap - - 9\n",
        ),
        (
            (DIRECTORY, 33, b"\x02"),
            "refused 701 Directory.cap - - 33\n",
        ),
        // Class is absent: what speaks of other components is not tested
        (
            (DIRECTORY, 14, b"\x00"),
            "refused 701 Directory.cap - - 13\n",
        ),
        ((HEADER, 9, b"\x00"), "refused 702 Header.cap - - 9\n"),
        ((HEADER, 9, b"\x06"), "refused 702 Header.cap - - 9\n"),
        ((IMPORT, 5, b"\x02"), "refused 703 Import.cap - - 5\n"),
        // an AID of the same length is broken at its first byte that is another
        ((IMPORT, 13, b"\x7F"), "refused 703 Import.cap - - 13\n"),
        ((IMPORT, 7, b"\xA1"), "refused 703 Import.cap - - 7\n"),
        (
            (LIST, 55, b"export lang.exp\n"),
            "refused 703 Import.cap - - 3\n",
        ),
        ((CLASS, 7, b"\x01"), "refused 704 Class.cap - - 6\n"),
        ((CLASS, 6, b"\x00\x02"), "refused 705 Class.cap - - 6\n"),
        ((METHOD, 6, b"\xC0"), "refused 709 Method.cap - - 6\n"),
        // a header of four bytes, which leaves too few for the code
        ((METHOD, 4, b"\x82"), "refused 709 Method.cap - - 10\n"),
        ((METHOD, 9, b"\x00"), "refused 710 Method.cap - - 9\n"),
        // a jump into its own operand
        ((METHOD, 7, b"\x70\x01"), "refused 710 Method.cap - - 7\n"),
        (
            (METHOD, 6, b"\x7C\x00\x00"),
            "refused 711 Method.cap - - 7\n",
        ),
        ((EXPORT, 9, b"\x02"), "refused 717 Export.cap - - 8\n"),
        ((EXPORT, 5, b"\x03"), "refused 717 Export.cap - - 4\n"),
        (
            (DESCRIPTOR, 18, b"\x03"),
            "refused 718 Descriptor.cap - - 17\n",
        ),
    ];
    for (change, want) in cases {
        assert!(rt; ends_so(rt.alloc(), &[change], "", want)?, "{want}");
    }
    Ok(())
}

#[test]
fn several_files_are_altered(rt: HostRuntime) -> Result<(), Fail> {
    let cases: [(&[Change], &str); 11] = [
        // a method's last byte is not there
        (
            &[(METHOD, 2, b"\x06"), (METHOD, 9, b"")],
            "refused 701 Directory.cap - - 15\n",
        ),
        (&[(HEADER, 6, b"\xEE")], "refused 106 Header.cap - - 3\n"),
        // the handler's target is no instruction; its stop bit is 0
        (
            &handled(b"\x00\x0F\x01\x00\x0B\x80\x01\x00\x10\x00\x00\x02\x10\x1C\x04\x41\x78"),
            "refused 712 Method.cap - - 8\n",
        ),
        (
            &handled(b"\x00\x0F\x01\x00\x0B\x00\x01\x00\x0E\x00\x00\x02\x10\x1C\x04\x41\x78"),
            "refused 713 Method.cap - - 6\n",
        ),
        (
            &[
                (DIRECTORY, 20, b"\x05"),
                (LOCATIONS, 2, b"\x05\x00\x01\x07\x00\x00"),
            ],
            "refused 714 RefLocation.cap - - 3\n",
        ),
        (
            &[(DIRECTORY, 28, b"\x01"), (STATICS, 4, b"\x01")],
            "refused 716 StaticField.cap - - 3\n",
        ),
        // of several the first in the order of files, and a sentence counts as true where one that it needs is false
        (
            &[(IMPORT, 5, b"\x02"), (CLASS, 7, b"\x01")],
            "refused 703 Import.cap - - 5\n",
        ),
        (
            &[(EXPORT, 9, b"\x02"), (DESCRIPTOR, 18, b"\x03")],
            "refused 717 Export.cap - - 8\n",
        ),
        (
            &[(METHOD, 6, b"\xC0\x04\x41\x00"), (EXPORT, 5, b"\x03")],
            "refused 709 Method.cap - - 6\n",
        ),
        // files by themselves come before, export files first
        (
            &[(HEADER, 0, b"\x02"), (IMPORT, 5, b"\x02")],
            "refused 106 Header.cap - - 0\n",
        ),
        (
            &[(LANG, 0, b"\x01"), (DIRECTORY, 0, b"\x00")],
            "refused 104 lang.exp - - 0\n",
        ),
    ];
    for (changes, want) in cases {
        assert!(rt; ends_so(rt.alloc(), changes, "", want)?, "{want}");
    }
    Ok(())
}

#[test]
fn tables_maps_pools_and_applets(rt: HostRuntime) -> Result<(), Fail> {
    let fit: [&[Change]; 7] = [
        &tabled(b"\x01\x00\x00\x00\x01"),
        // a token whose method the imported superclass has
        &tabled(b"\x01\x00\x00\xFF\xFF"),
        &implementing(b"\x12", b"\x01\x01"),
        // equals of the superclass, as a method of the class and as one of its superclass; a constructor of an
        // imported class
        &pooled(b"\x03\x00\x02\x00"),
        &pooled(b"\x04\x00\x02\x00"),
        &pooled(b"\x06\x80\x00\x00"),
        &installed(b"\x00\x01"),
    ];
    for changes in fit {
        assert!(rt; ends_so(rt.alloc(), changes, "ok\n", "")?);
    }
    let cases: [(&[Change], &str); 12] = [
        (
            &tabled(b"\x01\x00\x00\x00\x05"),
            "refused 706 Class.cap - - 15\n",
        ),
        (
            &tabled(b"\x00\x00\x01\xFF\xFF"),
            "refused 706 Class.cap - - 15\n",
        ),
        // the map is too short, and its index is a token that the class has not
        (
            &implementing(b"\x11", b"\x00"),
            "refused 707 Class.cap - - 19\n",
        ),
        (
            &implementing(b"\x12", b"\x01\x02"),
            "refused 707 Class.cap - - 20\n",
        ),
        // no instance field, virtual method, method of the superclass, cell, method start or static method of
        // an imported class
        (
            &pooled(b"\x02\x00\x02\x00"),
            "refused 708 ConstantPool.cap - - 5\n",
        ),
        (
            &pooled(b"\x03\x00\x02\x01"),
            "refused 708 ConstantPool.cap - - 5\n",
        ),
        (
            &pooled(b"\x04\x00\x02\x01"),
            "refused 708 ConstantPool.cap - - 5\n",
        ),
        (
            &pooled(b"\x05\x00\x00\x00"),
            "refused 708 ConstantPool.cap - - 5\n",
        ),
        (
            &pooled(b"\x06\x00\x00\x02"),
            "refused 708 ConstantPool.cap - - 5\n",
        ),
        (
            &pooled(b"\x06\x80\x00\x05"),
            "refused 708 ConstantPool.cap - - 5\n",
        ),
        (&installed(b"\x00\x02"), "refused 715 Applet.cap - - 11\n"),
        // a method that is not static
        (
            &[
                (DIRECTORY, 8, b"\x0A"),
                (HEADER, 9, b"\x06"),
                (DIRECTORY, 34, b"\x01"),
                (DESCRIPTOR, 14, b"\x01"),
            ],
            "refused 715 Applet.cap - - 11\n",
        ),
    ];
    for (changes, want) in cases {
        assert!(rt; ends_so(rt.alloc(), changes, "", want)?, "{want}");
    }
    Ok(())
}
