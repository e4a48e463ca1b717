//! The component files of small packages, written down by hand. Lent to the tests; nothing here reads or writes them.

// A package p with a public class p/T and its static method f(S)S.
/// Header of version 1.0 and the AID A000000001, with ACC_EXPORT.
pub const HEADER: &[u8] =
    b"\x01\x00\x11\xDE\xCA\xFF\xED\x02\x02\x02\x00\x01\x05\xA0\x00\x00\x00\x01\x01\x70";

/// Directory with the sizes of these components, one import and no applet.
pub const DIRECTORY: &[u8] =
    b"\x02\x00\x21\x00\x11\x00\x21\x00\x00\x00\x0B\x00\x02\x00\x0C\x00\x07\x00\x0A\x00\x04\x00\x07\x00\x1A\x00\x00\x00\x00\x00\x00\x00\x00\x01\x00\x00";

/// Import of java/lang alone, in version 1.0.
pub const IMPORT: &[u8] = b"\x04\x00\x0B\x01\x00\x01\x07\xA0\x00\x00\x00\x62\x00\x01";

/// ConstantPool without entries.
pub const POOL: &[u8] = b"\x05\x00\x02\x00\x00";

/// Class with p/T, which has no tables and whose superclass is imported.
pub const CLASS: &[u8] = b"\x06\x00\x0C\x00\x00\x00\x80\x00\x00\xFF\x00\x01\x00\x00\x00";

/// Method with f, which adds 1.
pub const METHOD: &[u8] = b"\x07\x00\x07\x00\x02\x10\x1C\x04\x41\x78";

/// StaticField with an empty image.
pub const STATICS: &[u8] = b"\x08\x00\x0A\x00\x00\x00\x00\x00\x00\x00\x00\x00\x00";

/// ReferenceLocation without indices.
pub const LOCATIONS: &[u8] = b"\x09\x00\x04\x00\x00\x00\x00";

/// Export with p/T and its static method.
pub const EXPORT: &[u8] = b"\x0A\x00\x07\x01\x00\x02\x00\x01\x00\x01";

/// Descriptor with p/T, its method, and one type.
pub const DESCRIPTOR: &[u8] =
    b"\x0B\x00\x1A\x01\x00\x01\x00\x02\x00\x00\x00\x00\x01\x00\x09\x00\x01\x00\x02\x00\x04\x00\x00\x00\x00\x00\x00\x02\x44";

/// Parts of other packages: class tables, handlers, arrays and distances.
pub const OTHER_POOL: &[u8] = b"\x05\x00\x0A\x00\x02\x01\x80\x00\x00\x01\x80\x05\x00";

/// Class with a public table of two entries, the second of an imported implementation.
pub const OTHER_CLASS: &[u8] =
    b"\x06\x00\x10\x00\x00\x00\x81\x00\x00\xFF\x00\x01\x02\x00\x00\x00\x08\xFF\xFF";

/// Class whose one class has an imported interface, with a map of two indices.
pub const MAPPED_CLASS: &[u8] =
    b"\x06\x00\x11\x00\x00\x01\x80\x00\x00\xFF\x00\x01\x00\x00\x00\x80\x01\x02\x01\x02";

/// Method with two handlers, the second of which catches any exception.
pub const OTHER_METHOD: &[u8] =
    b"\x07\x00\x15\x02\x00\x15\x00\x01\x00\x17\x00\x01\x00\x13\x80\x03\x00\x1D\x00\x00\x02\x10\x1C\x78";

/// StaticField with two references, one array of three bytes, one default byte and two other bytes.
pub const OTHER_STATICS: &[u8] =
    b"\x08\x00\x12\x00\x07\x00\x02\x00\x01\x03\x00\x03\x01\x02\x03\x00\x01\x00\x02\x00\x07";

/// Two-byte indices at 10 and 310.
pub const FAR: &[u8] = b"\x09\x00\x07\x00\x00\x00\x03\x0A\xFF\x2D";
