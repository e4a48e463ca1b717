//! Components of small packages, read and written back, cut and broken, and the limits of a tree.

ghost use Rattle.std.specs.Prelude.{◌<◌, ◌^◌, length};

use crate::files::{broken_limit, files_with, infos_of};
use crate::{CapFiles, size};
use cjc_bytes::{Bytes, Fault, NoMemory, Row, Rule};
use cjc_capread::{
    CapTree, ClassEntry, ClassInfo, ClassRef, Component, ConstantPool, Descriptor, Directory,
    Export, Header, ImplementedInterface, Import, Method, ReferenceLocation, StaticField,
    TypeDescriptor, read,
};
use std::alloc::Global;
use std::process::Abort;
use std::test::Fail;

// A package p with a public class p/T and its static method f(S)S.
const HEADER: &[u8] =
    b"\x01\x00\x11\xDE\xCA\xFF\xED\x02\x02\x02\x00\x01\x05\xA0\x00\x00\x00\x01\x01\x70";

const DIRECTORY: &[u8] =
    b"\x02\x00\x21\x00\x11\x00\x21\x00\x00\x00\x0B\x00\x02\x00\x0C\x00\x07\x00\x0A\x00\x04\x00\x07\x00\x1A\x00\x00\x00\x00\x00\x00\x00\x00\x01\x00\x00";

const IMPORT: &[u8] = b"\x04\x00\x0B\x01\x00\x01\x07\xA0\x00\x00\x00\x62\x00\x01";

const POOL: &[u8] = b"\x05\x00\x02\x00\x00";

const CLASS: &[u8] = b"\x06\x00\x0C\x00\x00\x00\x80\x00\x00\xFF\x00\x01\x00\x00\x00";

const METHOD: &[u8] = b"\x07\x00\x07\x00\x02\x10\x1C\x04\x41\x78";

const STATICS: &[u8] = b"\x08\x00\x0A\x00\x00\x00\x00\x00\x00\x00\x00\x00\x00";

const LOCATIONS: &[u8] = b"\x09\x00\x04\x00\x00\x00\x00";

const EXPORT: &[u8] = b"\x0A\x00\x07\x01\x00\x02\x00\x01\x00\x01";

const DESCRIPTOR: &[u8] =
    b"\x0B\x00\x1A\x01\x00\x01\x00\x02\x00\x00\x00\x00\x01\x00\x09\x00\x01\x00\x02\x00\x04\x00\x00\x00\x00\x00\x00\x02\x44";

// The same components cut at each length, their sizes made to fit: the offset of the refusal, 255 where the
// bytes before the cut are a whole component.
const HEADER_CUTS: [u8; 20] = [
    0, 1, 1, 3, 3, 3, 3, 7, 8, 9, 10, 11, 12, 13, 13, 13, 13, 13, 18, 19,
];

const DIRECTORY_CUTS: [u8; 36] = [
    0, 1, 1, 3, 3, 5, 5, 7, 7, 9, 9, 11, 11, 13, 13, 15, 15, 17, 17, 19, 19, 21, 21, 23, 23, 25,
    25, 27, 27, 29, 29, 31, 31, 33, 34, 35,
];

const IMPORT_CUTS: [u8; 14] = [0, 1, 1, 3, 4, 5, 6, 7, 7, 7, 7, 7, 7, 7];

const POOL_CUTS: [u8; 5] = [0, 1, 1, 3, 3];

const CLASS_CUTS: [u8; 15] = [0, 1, 1, 3, 3, 255, 6, 6, 8, 9, 10, 11, 12, 13, 14];

const METHOD_CUTS: [u8; 10] = [0, 1, 1, 3, 255, 255, 255, 255, 255, 255];

const STATICS_CUTS: [u8; 13] = [0, 1, 1, 3, 3, 5, 5, 7, 7, 9, 9, 11, 11];

const LOCATIONS_CUTS: [u8; 7] = [0, 1, 1, 3, 3, 5, 5];

const EXPORT_CUTS: [u8; 10] = [0, 1, 1, 3, 4, 4, 6, 7, 8, 8];

const DESCRIPTOR_CUTS: [u8; 29] = [
    0, 1, 1, 3, 4, 5, 6, 6, 8, 9, 9, 11, 11, 13, 14, 15, 15, 17, 17, 19, 19, 21, 21, 23, 23, 25,
    25, 255, 28,
];

/// Parts of other packages: class tables, handlers, arrays and distances.
const OTHER_POOL: &[u8] = b"\x05\x00\x0A\x00\x02\x01\x80\x00\x00\x01\x80\x05\x00";

const OTHER_CLASS: &[u8] =
    b"\x06\x00\x10\x00\x00\x00\x81\x00\x00\xFF\x00\x01\x02\x00\x00\x00\x08\xFF\xFF";

const OTHER_METHOD: &[u8] =
    b"\x07\x00\x15\x02\x00\x15\x00\x01\x00\x17\x00\x01\x00\x13\x80\x03\x00\x1D\x00\x00\x02\x10\x1C\x78";

const OTHER_STATICS: &[u8] =
    b"\x08\x00\x12\x00\x07\x00\x02\x00\x01\x03\x00\x03\x01\x02\x03\x00\x01\x00\x02\x00\x07";

/// Two-byte indices at 10 and 310, and at 10 and 265.
const FAR: &[u8] = b"\x09\x00\x07\x00\x00\x00\x03\x0A\xFF\x2D";

const AT_255: &[u8] = b"\x09\x00\x07\x00\x00\x00\x03\x0A\xFF\x00";

/// What the first package's Header, Directory and Import say.
fn read_front(rt: &impl Abort, alloc: Global) -> (Header, Directory, Import) {
    let Ok(Component::Header(header)) = read(alloc, b"Header.cap", 1, HEADER) else {
        panic!(rt; "Header");
    };
    let Ok(Component::Directory(directory)) = read(alloc, b"Directory.cap", 2, DIRECTORY) else {
        panic!(rt; "Directory");
    };
    let Ok(Component::Import(import)) = read(alloc, b"Import.cap", 4, IMPORT) else {
        panic!(rt; "Import");
    };
    (header, directory, import)
}

/// What the first package's Export and Descriptor say.
fn read_back(rt: &impl Abort, alloc: Global) -> (Export, Descriptor) {
    let Ok(Component::Export(export)) = read(alloc, b"Export.cap", 10, EXPORT) else {
        panic!(rt; "Export");
    };
    let Ok(Component::Descriptor(descriptor)) = read(alloc, b"Descriptor.cap", 11, DESCRIPTOR)
    else {
        panic!(rt; "Descriptor");
    };
    (export, descriptor)
}

fn read_code(rt: &impl Abort, alloc: Global, class: &[u8], method: &[u8]) -> (ClassInfo, Method)
    requires class { length class.now < 2 ^ 32 }
    requires method { length method.now < 2 ^ 32 }
{
    let Ok(Component::Class(class)) = read(alloc, b"Class.cap", 6, class) else {
        panic!(rt; "Class");
    };
    let Ok(Component::Method(method)) = read(alloc, b"Method.cap", 7, method) else {
        panic!(rt; "Method");
    };
    (class, method)
}

fn read_constants(
    rt: &impl Abort,
    alloc: Global,
    pool: &[u8],
    statics: &[u8],
    locations: &[u8],
) -> (ConstantPool, StaticField, ReferenceLocation)
    requires pool { length pool.now < 2 ^ 32 }
    requires statics { length statics.now < 2 ^ 32 }
    requires locations { length locations.now < 2 ^ 32 }
{
    let Ok(Component::Pool(pool)) = read(alloc, b"ConstantPool.cap", 5, pool) else {
        panic!(rt; "ConstantPool");
    };
    let Ok(Component::Statics(statics)) = read(alloc, b"StaticField.cap", 8, statics) else {
        panic!(rt; "StaticField");
    };
    let Ok(Component::Locations(locations)) = read(alloc, b"RefLocation.cap", 9, locations) else {
        panic!(rt; "RefLocation");
    };
    (pool, statics, locations)
}

/// The components of a package from their files.
fn read_tree(
    rt: &impl Abort,
    alloc: Global,
    pool: &[u8],
    class: &[u8],
    method: &[u8],
    statics: &[u8],
    locations: &[u8],
) -> CapTree
    requires pool { length pool.now < 2 ^ 32 }
    requires class { length class.now < 2 ^ 32 }
    requires method { length method.now < 2 ^ 32 }
    requires statics { length statics.now < 2 ^ 32 }
    requires locations { length locations.now < 2 ^ 32 }
{
    let (header, directory, import) = read_front(rt, alloc);
    let (pool, statics, locations) = read_constants(rt, alloc, pool, statics, locations);
    let (class, method) = read_code(rt, alloc, class, method);
    let (export, descriptor) = read_back(rt, alloc);
    CapTree {
        header,
        directory,
        applet: None,
        import: Some(import),
        pool: Some(pool),
        class: Some(class),
        method: Some(method),
        statics: Some(statics),
        locations: Some(locations),
        export: Some(export),
        descriptor: Some(descriptor),
    }
}

fn first_tree(rt: &impl Abort, alloc: Global) -> CapTree {
    read_tree(rt, alloc, POOL, CLASS, METHOD, STATICS, LOCATIONS)
}

fn written(rt: &impl Abort, alloc: Global, tree: &CapTree) -> CapFiles {
    let Ok(infos) = infos_of(alloc, tree) else {
        panic!(rt; "no memory");
    };
    let Ok(files) = files_with(alloc, tree, &infos) else {
        panic!(rt; "no memory");
    };
    files
}

#[test]
fn written_back(rt: HostRuntime) {
    let tree = first_tree(&rt, rt.alloc());
    let files = written(&rt, rt.alloc(), &tree);
    assert!(rt; files.header.items() == HEADER);
    assert!(rt; files.directory.items() == DIRECTORY);
    assert!(rt; files.applet.is_none());
    assert!(rt; files.import.items() == IMPORT);
    assert!(rt; files.pool.items() == POOL);
    assert!(rt; files.class.items() == CLASS);
    assert!(rt; files.method.items() == METHOD);
    assert!(rt; files.statics.items() == STATICS);
    assert!(rt; files.locations.items() == LOCATIONS);
    assert!(rt; files.descriptor.items() == DESCRIPTOR);
    if let Some(export) = &files.export {
        assert!(rt; export.items() == EXPORT);
    } else {
        panic!(rt; "no Export");
    }
}

#[test]
fn other_parts_written_back(rt: HostRuntime) {
    let tree = read_tree(
        &rt,
        rt.alloc(),
        OTHER_POOL,
        OTHER_CLASS,
        OTHER_METHOD,
        OTHER_STATICS,
        FAR,
    );
    let files = written(&rt, rt.alloc(), &tree);
    assert!(rt; files.pool.items() == OTHER_POOL);
    assert!(rt; files.class.items() == OTHER_CLASS);
    assert!(rt; files.method.items() == OTHER_METHOD);
    assert!(rt; files.statics.items() == OTHER_STATICS);
    assert!(rt; files.locations.items() == FAR);
}

/// Whether RefLocation with these bytes has these distances of two-byte indices, and is written back.
fn is_written_back(rt: &impl Abort, alloc: Global, bytes: &[u8], distances: &[u8]) -> bool
    requires { length bytes.now < 2 ^ 32 }
{
    let tree = read_tree(rt, alloc, POOL, CLASS, METHOD, STATICS, bytes);
    let files = written(rt, alloc, &tree);
    match &tree.locations {
        Some(locations) => {
            locations.two_byte.items() == distances && files.locations.items() == bytes
        }
        None => false,
    }
}

#[test]
fn a_distance_of_255_goes_on(rt: HostRuntime) {
    assert!(rt; is_written_back(&rt, rt.alloc(), FAR, b"\x0A\xFF\x2D"));
    assert!(rt; is_written_back(&rt, rt.alloc(), AT_255, b"\x0A\xFF\x00"));
}

/// The offset of the refusal by rule 106, 255 where there is none.
fn place_of(rt: &HostRuntime, tag: u8, bytes: &[u8]) -> Option<u32> {
    if tag < 1 || tag > 11 || bytes.len() > 1000 {
        return None;
    }
    match read(rt.alloc(), b"some.cap", tag, bytes) {
        Ok(_) => Some(255),
        Err(Fault::Refused(refusal)) => {
            let Rule(rule) = refusal.rule;
            if rule == 106 {
                Some(refusal.place.offset)
            } else {
                None
            }
        }
        Err(_) => None,
    }
}

/// The first length at which the cut component, its size item made to fit, is answered otherwise.
fn first_other_cut(rt: &HostRuntime, tag: u8, bytes: &[u8], places: &[u8]) -> Option<usize> {
    let mut cut = [0u8; 36];
    for (to, from) in cut.iter_mut().zip(bytes) {
        *to = *from;
    }
    for (n, place) in places.iter().enumerate() {
        if n > 35 {
            return Some(n);
        }
        if n > 2 {
            cut[2] = (n - 3) as u8;
        }
        if place_of(rt, tag, &cut[..n]) != Some(u32::from(*place)) {
            return Some(n);
        }
    }
    None
}

#[test]
fn cut_short(rt: HostRuntime) {
    assert_eq!(rt; first_other_cut(&rt, 1, HEADER, &HEADER_CUTS), None);
    assert_eq!(rt; first_other_cut(&rt, 2, DIRECTORY, &DIRECTORY_CUTS), None);
    assert_eq!(rt; first_other_cut(&rt, 4, IMPORT, &IMPORT_CUTS), None);
    assert_eq!(rt; first_other_cut(&rt, 5, POOL, &POOL_CUTS), None);
    assert_eq!(rt; first_other_cut(&rt, 6, CLASS, &CLASS_CUTS), None);
    assert_eq!(rt; first_other_cut(&rt, 7, METHOD, &METHOD_CUTS), None);
    assert_eq!(rt; first_other_cut(&rt, 8, STATICS, &STATICS_CUTS), None);
    assert_eq!(rt; first_other_cut(&rt, 9, LOCATIONS, &LOCATIONS_CUTS), None);
    assert_eq!(rt; first_other_cut(&rt, 10, EXPORT, &EXPORT_CUTS), None);
    assert_eq!(rt;
        first_other_cut(&rt, 11, DESCRIPTOR, &DESCRIPTOR_CUTS),
        None
    );
}

/// The offset of the refusal of a component with one byte changed.
fn changed(rt: &HostRuntime, tag: u8, bytes: &[u8], at: usize, byte: u8) -> Option<u32> {
    let mut changed = [0u8; 36];
    for (to, from) in changed.iter_mut().zip(bytes) {
        *to = *from;
    }
    if at > 35 || bytes.len() > 36 {
        return None;
    }
    changed[at] = byte;
    place_of(rt, tag, &changed[..bytes.len()])
}

/// A component, one byte of it changed, and the offset of the refusal.
const CHANGES: [(u8, &[u8], usize, u8, u32); 18] = [
    (1, HEADER, 6, 0xEE, 3), // the magic
    (1, HEADER, 7, 1, 7), // minor version of the format
    (1, HEADER, 2, 0x12, 1), // a size that does not fit
    (2, DIRECTORY, 35, 1, 35), // the number of custom components
    (2, DIRECTORY, 0, 1, 0), // the tag of another component
    (4, IMPORT, 3, 2, 14), // one package more
    (4, IMPORT, 6, 8, 7), // an AID of eight bytes
    (5, OTHER_POOL, 5, 7, 5), // no tag of a constant
    (5, OTHER_POOL, 12, 1, 12), // the byte behind a class
    (6, CLASS, 4, 1, 3), // a signature pool
    (6, OTHER_CLASS, 12, 3, 19), // three methods, and two are there
    (7, OTHER_METHOD, 3, 3, 24), // three handlers, and half of the third is there
    (8, OTHER_STATICS, 9, 6, 9), // no type of an element
    (8, STATICS, 12, 1, 13), // a byte that is not there
    (9, FAR, 6, 4, 7), // four bytes, and three are there
    (10, EXPORT, 6, 2, 10), // two methods, and one is there
    (11, DESCRIPTOR, 27, 1, 28), // one nibble, and behind it one that is not 0
    (11, DESCRIPTOR, 27, 6, 28), // three bytes of nibbles, and one is there
];

#[test]
fn first_bad_field(rt: HostRuntime) {
    for (tag, bytes, at, byte, place) in CHANGES {
        assert_eq!(rt; changed(&rt, tag, bytes, at, byte), Some(place));
    }
}

fn zeros(alloc: Global, n: usize) -> Result<Bytes, NoMemory> {
    let mut bytes = Row::new(alloc);
    for _ in 0..n {
        bytes.push(0u8)?;
    }
    Ok(bytes)
}

/// Static fields with so many bytes of info, which has ten of its own.
fn statics_of(alloc: Global, size: usize) -> Result<StaticField, NoMemory> {
    Ok(StaticField {
        image_size: 0,
        reference_count: 0,
        array_inits: Row::new(alloc),
        default_value_count: 0,
        values: zeros(alloc, size.saturating_sub(10))?,
    })
}

/// Places with so many bytes of info, which has four of its own.
fn locations_of(alloc: Global, size: usize) -> Result<ReferenceLocation, NoMemory> {
    Ok(ReferenceLocation {
        one_byte: zeros(alloc, size.saturating_sub(4))?,
        two_byte: Row::new(alloc),
    })
}

/// Classes with 32,765 bytes of info and so many more: 3,276 of ten bytes, and an interface of the last.
fn classes_of(alloc: Global, more: usize) -> Result<ClassInfo, NoMemory> {
    let mut classes = Row::new(alloc);
    for i in 0..3276 {
        let mut interfaces = Row::new(alloc);
        if i == 3275 {
            interfaces.push(ImplementedInterface {
                interface: ClassRef::Inside(0),
                index: zeros(alloc, more)?,
            })?;
        }
        classes.push(ClassEntry {
            flags: 0,
            superclass: ClassRef::Inside(0xFFFF),
            declared_instance_size: 0,
            first_reference_token: 0xFF,
            reference_count: 0,
            public_base: 0,
            package_base: 0,
            public_methods: Row::new(alloc),
            package_methods: Row::new(alloc),
            interfaces,
        })?;
    }
    Ok(ClassInfo {
        interfaces: Row::new(alloc),
        classes,
    })
}

/// Types that end at 32,764 and a last one of so many nibbles.
fn types_of(alloc: Global, nibbles: usize) -> Result<Descriptor, NoMemory> {
    let mut pool_types = Row::new(alloc);
    for _ in 0..16381 {
        pool_types.push(0u64)?;
    }
    let mut types = Row::new(alloc);
    types.push(TypeDescriptor {
        nibbles: zeros(alloc, nibbles)?,
    })?;
    Ok(Descriptor {
        classes: Row::new(alloc),
        pool_types,
        types,
    })
}

/// The limit that the tree breaks, 0 where it keeps them.
fn limit(rt: &impl Abort, alloc: Global, tree: &CapTree) -> u16 {
    let Ok(infos) = infos_of(alloc, tree) else {
        panic!(rt; "no memory");
    };
    broken_limit(&infos).unwrap_or(0)
}

#[test]
fn static_fields_at_the_limit(rt: HostRuntime) -> Result<(), Fail> {
    for (n, rule) in [(65535, 0), (65536, 416)] {
        let statics = statics_of(rt.alloc(), n)?;
        let mut tree = first_tree(&rt, rt.alloc());
        tree.statics = Some(statics);
        assert_eq!(rt; size(&tree, 8), n as u64);
        assert_eq!(rt; limit(&rt, rt.alloc(), &tree), rule);
    }
    Ok(())
}

#[test]
fn places_at_the_limit(rt: HostRuntime) -> Result<(), Fail> {
    for (n, rule) in [(65535, 0), (65536, 416)] {
        let locations = locations_of(rt.alloc(), n)?;
        let mut tree = first_tree(&rt, rt.alloc());
        tree.locations = Some(locations);
        assert_eq!(rt; size(&tree, 9), n as u64);
        assert_eq!(rt; limit(&rt, rt.alloc(), &tree), rule);
    }
    Ok(())
}

#[test]
fn classes_at_the_limit(rt: HostRuntime) -> Result<(), Fail> {
    for (n, rule) in [(2, 0), (3, 416)] {
        let class = classes_of(rt.alloc(), n)?;
        let mut tree = first_tree(&rt, rt.alloc());
        tree.class = Some(class);
        assert_eq!(rt; size(&tree, 6), 32765 + n as u64);
        assert_eq!(rt; limit(&rt, rt.alloc(), &tree), rule);
    }
    Ok(())
}

/// Types at the limit and past it, with classes that keep theirs and with classes that do not: 411 comes first.
#[test]
fn types_at_the_limit(rt: HostRuntime) -> Result<(), Fail> {
    for (nibbles, more, rule) in [(4, 2, 0), (5, 2, 411), (4, 3, 416), (5, 3, 411)] {
        let descriptor = types_of(rt.alloc(), nibbles)?;
        let class = classes_of(rt.alloc(), more)?;
        let mut tree = first_tree(&rt, rt.alloc());
        tree.descriptor = Some(descriptor);
        tree.class = Some(class);
        assert_eq!(rt; limit(&rt, rt.alloc(), &tree), rule);
    }
    Ok(())
}
