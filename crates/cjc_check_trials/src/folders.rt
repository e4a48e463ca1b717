//! The components of a package with one method, made by hand, and the export file of java/lang. The tests of
//! whole runs alter them. Nothing here runs.

/// A list, its export file and the components of the package p: a class with one static method f(S)S, which
/// adds 1. No class file is read, and neither is Applet, which stands there though Directory has no size for
/// it.
pub(crate) const FILES: [(&[u8], &[u8]); 13] = [
    (
        b"list",
        b"package p A000000001 1.0\nclass T.class\nexport lang.exp\n",
    ),
    (
        b"lang.exp",
        // java/lang, AID A0000000620001, version 1.0: Object with its constructor and `equals`, which have token 0
        b"\x00\xFA\xCA\xDE\x02\x02\x00\x08\x01\x00\x09java/lang\x0D\x01\x00\x00\x00\x01\x07\xA0\x00\x00\x00\x62\x00\x01\x01\x00\x10java/lang/Object\x07\x00\x02\x01\x00\x06<init>\x01\x00\x03()V\x01\x00\x06equals\x01\x00\x15(Ljava/lang/Object;)Z\x00\x01\x01\x00\x00\x01\x00\x03\x00\x00\x00\x00\x00\x00\x02\x00\x00\x01\x00\x04\x00\x05\x00\x00\x01\x00\x06\x00\x07",
    ),
    (
        b"out/Header.cap",
        b"\x01\x00\x11\xDE\xCA\xFF\xED\x02\x02\x02\x00\x01\x05\xA0\x00\x00\x00\x01\x01p",
    ),
    (
        b"out/Directory.cap",
        b"\x02\x00\x21\x00\x11\x00\x21\x00\x00\x00\x0B\x00\x02\x00\x0C\x00\x07\x00\x0A\x00\x04\x00\x07\x00\x1A\x00\x00\x00\x00\x00\x00\x00\x00\x01\x00\x00",
    ),
    (
        b"out/Applet.cap",
        b"\x03\x00\x0A\x01\x06\xA0\x00\x00\x00\x01\x01\x00\x01",
    ),
    (
        b"out/Import.cap",
        b"\x04\x00\x0B\x01\x00\x01\x07\xA0\x00\x00\x00\x62\x00\x01",
    ),
    (b"out/ConstantPool.cap", b"\x05\x00\x02\x00\x00"),
    (
        b"out/Class.cap",
        b"\x06\x00\x0C\x00\x00\x00\x80\x00\x00\xFF\x00\x01\x00\x00\x00",
    ),
    (
        b"out/Method.cap",
        b"\x07\x00\x07\x00\x02\x10\x1C\x04\x41\x78",
    ),
    (
        b"out/StaticField.cap",
        b"\x08\x00\x0A\x00\x00\x00\x00\x00\x00\x00\x00\x00\x00",
    ),
    (b"out/RefLocation.cap", b"\x09\x00\x04\x00\x00\x00\x00"),
    (
        b"out/Export.cap",
        b"\x0A\x00\x07\x01\x00\x02\x00\x01\x00\x01",
    ),
    (
        b"out/Descriptor.cap",
        b"\x0B\x00\x1A\x01\x00\x01\x00\x02\x00\x00\x00\x00\x01\x00\x09\x00\x01\x00\x02\x00\x04\x00\x00\x00\x00\x00\x00\x02\x44",
    ),
];

/// A file by its name, an offset, and the bytes from there on; what stood behind is kept where there are fewer,
/// and cut where there are none.
pub(crate) type Change = (&'static [u8], usize, &'static [u8]);

/// The name of the list.
pub(crate) const LIST: &[u8] = b"list";

/// The name of the export file of java/lang.
pub(crate) const LANG: &[u8] = b"lang.exp";

/// The name of Header's file.
pub(crate) const HEADER: &[u8] = b"out/Header.cap";

/// The name of Directory's file.
pub(crate) const DIRECTORY: &[u8] = b"out/Directory.cap";

/// The name of Applet's file.
pub(crate) const APPLET: &[u8] = b"out/Applet.cap";

/// The name of Import's file.
pub(crate) const IMPORT: &[u8] = b"out/Import.cap";

/// The name of ConstantPool's file.
pub(crate) const POOL: &[u8] = b"out/ConstantPool.cap";

/// The name of Class's file.
pub(crate) const CLASS: &[u8] = b"out/Class.cap";

/// The name of Method's file.
pub(crate) const METHOD: &[u8] = b"out/Method.cap";

/// The name of StaticField's file.
pub(crate) const STATICS: &[u8] = b"out/StaticField.cap";

/// The name of ReferenceLocation's file.
pub(crate) const LOCATIONS: &[u8] = b"out/RefLocation.cap";

/// The name of Export's file.
pub(crate) const EXPORT: &[u8] = b"out/Export.cap";

/// The name of Descriptor's file.
pub(crate) const DESCRIPTOR: &[u8] = b"out/Descriptor.cap";

/// What gives the method a handler of its first instruction, with these bytes of the handler: the method stands
/// at 9 then, and its code at 11.
pub(crate) const fn handled(method: &'static [u8]) -> [Change; 4] {
    [
        (METHOD, 1, method),
        (DIRECTORY, 16, b"\x0F"),
        (EXPORT, 9, b"\x09"),
        (DESCRIPTOR, 16, b"\x09"),
    ]
}

/// What makes Applet one of the components, with an applet whose install offset has these two bytes.
pub(crate) const fn installed(offset: &'static [u8]) -> [Change; 4] {
    [
        (DIRECTORY, 8, b"\x0A"),
        (HEADER, 9, b"\x06"),
        (DIRECTORY, 34, b"\x01"),
        (APPLET, 11, offset),
    ]
}

/// What gives the class tables of one entry in all: the count of the public one, the base and the count of the
/// package one, and the entry.
pub(crate) const fn tabled(tables: &'static [u8]) -> [Change; 3] {
    [
        (DIRECTORY, 14, b"\x0E"),
        (CLASS, 2, b"\x0E"),
        (CLASS, 12, tables),
    ]
}

/// What puts one entry of four bytes, which is no Classref, into the pool.
pub(crate) const fn pooled(entry: &'static [u8]) -> [Change; 7] {
    [
        (DIRECTORY, 12, b"\x06"),
        (POOL, 2, b"\x06\x00\x01"),
        (POOL, 5, entry),
        (DIRECTORY, 24, b"\x1C"),
        (DESCRIPTOR, 2, b"\x1C"),
        (DESCRIPTOR, 18, b"\x04"),
        (DESCRIPTOR, 25, b"\x00\x01\x00\x04\x02\x44"),
    ]
}

/// The export file of java/lang with an interface I beside Object, which has the token 1 and one method m()V.
const WITH_INTERFACE: &[u8] =
    b"\x00\xFA\xCA\xDE\x02\x02\x00\x0B\x01\x00\x09java/lang\x0D\x01\x00\x00\x00\x01\x07\xA0\x00\x00\x00b\x00\x01\x01\x00\x10java/lang/Object\x07\x00\x02\x01\x00\x06<init>\x01\x00\x03()V\x01\x00\x06equals\x01\x00\x15(Ljava/lang/Object;)Z\x01\x00\x0Bjava/lang/I\x07\x00\x08\x01\x00\x01m\x00\x01\x02\x00\x00\x01\x00\x03\x00\x00\x00\x00\x00\x00\x02\x00\x00\x01\x00\x04\x00\x05\x00\x00\x01\x00\x06\x00\x07\x01\x06\x01\x00\x09\x00\x00\x00\x00\x00\x00\x01\x00\x04\x01\x00\x0A\x00\x05";

/// What lets the class implement java/lang/I, with this size of Class and this count and map of indices. The
/// class has the virtual token 1, by a table of one entry.
pub(crate) const fn implementing(size: &'static [u8], map: &'static [u8]) -> [Change; 9] {
    [
        (LANG, 0, WITH_INTERFACE),
        (DIRECTORY, 14, size),
        (CLASS, 2, size),
        (CLASS, 5, b"\x01"),
        (CLASS, 12, b"\x01\x00\x00\x00\x01\x80\x01"),
        (CLASS, 19, map),
        (DIRECTORY, 24, b"\x1C"),
        (DESCRIPTOR, 2, b"\x1C"),
        (
            DESCRIPTOR,
            8,
            b"\x01\x00\x00\x00\x01\x80\x01\x00\x09\x00\x01\x00\x02\x00\x04\x00\x00\x00\x00\x00\x00\x02\x44",
        ),
    ]
}
