//! Trees that are written back, byte for byte, and trees at the limits of rules 411 and 416 and past them.

use crate::components::bytes::{
    CLASS, DESCRIPTOR, DIRECTORY, EXPORT, FAR, HEADER, IMPORT, LOCATIONS, METHOD, OTHER_CLASS,
    OTHER_METHOD, OTHER_POOL, OTHER_STATICS, POOL, STATICS,
};
use crate::components::trees::{
    classes_of, first_tree, locations_of, read_tree, statics_of, types_of,
};
use cjc_capwrite::bytes::{Fault, Rule};
use cjc_capwrite::capread::CapTree;
use cjc_capwrite::{CapFiles, broken_limit, files_of, size, write};
use std::alloc::Global;
use std::process::Abort;
use std::test::Fail;

fn written(rt: &impl Abort, alloc: Global, tree: &CapTree) -> CapFiles {
    let Ok(files) = files_of(alloc, tree) else {
        panic!(rt; "no memory");
    };
    files
}

/// Whether the files of what is the same in both packages are these.
fn has_front(files: &CapFiles) -> bool {
    files.header.items() == HEADER
        && files.directory.items() == DIRECTORY
        && files.applet.is_none()
        && files.import.items() == IMPORT
        && files.descriptor.items() == DESCRIPTOR
}

fn has_export(files: &CapFiles) -> bool {
    match &files.export {
        Some(export) => export.items() == EXPORT,
        None => false,
    }
}

/// Whether the files of the pool, the classes, the methods, the static fields and the places are these.
fn has_parts(
    files: &CapFiles,
    pool: &[u8],
    class: &[u8],
    method: &[u8],
    statics: &[u8],
    locations: &[u8],
) -> bool {
    files.pool.items() == pool
        && files.class.items() == class
        && files.method.items() == method
        && files.statics.items() == statics
        && files.locations.items() == locations
}

#[test]
fn written_back(rt: HostRuntime) {
    let tree = first_tree(&rt, rt.alloc());
    let files = written(&rt, rt.alloc(), &tree);
    let parts = has_parts(&files, POOL, CLASS, METHOD, STATICS, LOCATIONS);
    assert!(rt; parts && has_front(&files) && has_export(&files));
}

#[test]
fn other_parts_written_back(rt: HostRuntime) {
    let tree = read_tree(
        &rt,
        rt.alloc(),
        OTHER_POOL,
        OTHER_CLASS,
        OTHER_METHOD,
        OTHER_STATICS,
        FAR,
    );
    let files = written(&rt, rt.alloc(), &tree);
    assert!(rt;
        has_parts(
            &files,
            OTHER_POOL,
            OTHER_CLASS,
            OTHER_METHOD,
            OTHER_STATICS,
            FAR
        )
    );
}

/// The rule by which `write` refuses the list, 0 where the tree keeps its limits.
fn limit(alloc: Global, tree: &CapTree) -> u16 {
    if broken_limit(tree).is_none() || size(tree, 7) > 65535 {
        return 0;
    }
    let Err(Fault::Refused(refusal)) = write(alloc, b"list", tree) else {
        return 1;
    };
    if refusal.place.file.items() != b"list".as_slice() {
        return 1;
    }
    let Rule(rule) = refusal.rule;
    rule
}

#[test]
fn static_fields_at_the_limit(rt: HostRuntime) -> Result<(), Fail> {
    for (n, rule) in [(65535, 0), (65536, 416)] {
        let statics = statics_of(rt.alloc(), n)?;
        let mut tree = first_tree(&rt, rt.alloc());
        tree.statics = Some(statics);
        assert_eq!(rt;
            (size(&tree, 8), limit(rt.alloc(), &tree)),
            (n as u64, rule)
        );
    }
    Ok(())
}

#[test]
fn places_at_the_limit(rt: HostRuntime) -> Result<(), Fail> {
    for (n, rule) in [(65535, 0), (65536, 416)] {
        let locations = locations_of(rt.alloc(), n)?;
        let mut tree = first_tree(&rt, rt.alloc());
        tree.locations = Some(locations);
        assert_eq!(rt;
            (size(&tree, 9), limit(rt.alloc(), &tree)),
            (n as u64, rule)
        );
    }
    Ok(())
}

#[test]
fn classes_at_the_limit(rt: HostRuntime) -> Result<(), Fail> {
    for (n, rule) in [(2, 0), (3, 416)] {
        let class = classes_of(rt.alloc(), n)?;
        let mut tree = first_tree(&rt, rt.alloc());
        tree.class = Some(class);
        assert_eq!(rt;
            (size(&tree, 6), limit(rt.alloc(), &tree)),
            (32765 + n as u64, rule)
        );
    }
    Ok(())
}

/// Types at the limit and past it, with classes that keep theirs and with classes that do not: 411 comes first.
#[test]
fn types_at_the_limit(rt: HostRuntime) -> Result<(), Fail> {
    for (nibbles, more, rule) in [(4, 2, 0), (5, 2, 411), (4, 3, 416), (5, 3, 411)] {
        let descriptor = types_of(rt.alloc(), nibbles)?;
        let class = classes_of(rt.alloc(), more)?;
        let mut tree = first_tree(&rt, rt.alloc());
        tree.descriptor = Some(descriptor);
        tree.class = Some(class);
        assert_eq!(rt; limit(rt.alloc(), &tree), rule);
    }
    Ok(())
}
