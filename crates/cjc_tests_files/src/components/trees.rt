//! Trees that the tests write: those of the files of `bytes`, read, and those that stand at a limit, made.

ghost use Rattle.std.specs.Prelude.{◌<◌, ◌≤◌, ◌^◌, length};

use crate::components::bytes::{
    CLASS, DESCRIPTOR, DIRECTORY, EXPORT, HEADER, IMPORT, LOCATIONS, METHOD, POOL, STATICS,
};
use cjc_capwrite::bytes::{Bytes, NoMemory, Row};
use cjc_capwrite::capread::{
    CapTree, ClassEntry, ClassInfo, ClassRef, Component, ConstantPool, Descriptor, Directory,
    Export, Header, ImplementedInterface, Import, Method, ReferenceLocation, StaticField,
    TypeDescriptor, read,
};
use std::alloc::Global;
use std::process::Abort;

/// The component that the bytes of a file spell.
fn component(rt: &impl Abort, alloc: Global, tag: u8, bytes: &[u8]) -> Component
    requires one { (1 ≤ tag) × (tag ≤ 11) }
    requires short { length bytes.now < 2 ^ 32 }
{
    let Ok(component) = read(alloc, b"some.cap", tag, bytes) else {
        panic!(rt; "a component is refused");
    };
    component
}

/// What is there, of the component that a file is of.
fn there<T: Drop>(rt: &impl Abort, part: Option<T>) -> T {
    let Some(part) = part else {
        panic!(rt; "another component");
    };
    part
}

/// What the first package's Header, Directory and Import say.
fn read_front(rt: &impl Abort, alloc: Global) -> (Header, Directory, Import) {
    let header = there(rt, component(rt, alloc, 1, HEADER).into_header());
    let directory = there(rt, component(rt, alloc, 2, DIRECTORY).into_directory());
    let import = there(rt, component(rt, alloc, 4, IMPORT).into_import());
    (header, directory, import)
}

/// What the first package's Export and Descriptor say.
fn read_back(rt: &impl Abort, alloc: Global) -> (Export, Descriptor) {
    let export = there(rt, component(rt, alloc, 10, EXPORT).into_export());
    let descriptor = there(rt, component(rt, alloc, 11, DESCRIPTOR).into_descriptor());
    (export, descriptor)
}

fn read_code(rt: &impl Abort, alloc: Global, class: &[u8], method: &[u8]) -> (ClassInfo, Method)
    requires class { length class.now < 2 ^ 32 }
    requires method { length method.now < 2 ^ 32 }
{
    let class = there(rt, component(rt, alloc, 6, class).into_class());
    let method = there(rt, component(rt, alloc, 7, method).into_method());
    (class, method)
}

fn read_constants(
    rt: &impl Abort,
    alloc: Global,
    pool: &[u8],
    statics: &[u8],
    locations: &[u8],
) -> (ConstantPool, StaticField, ReferenceLocation)
    requires pool { length pool.now < 2 ^ 32 }
    requires statics { length statics.now < 2 ^ 32 }
    requires locations { length locations.now < 2 ^ 32 }
{
    let pool = there(rt, component(rt, alloc, 5, pool).into_pool());
    let statics = there(rt, component(rt, alloc, 8, statics).into_statics());
    let locations = there(rt, component(rt, alloc, 9, locations).into_locations());
    (pool, statics, locations)
}

/// The components of a package from their files.
pub fn read_tree(
    rt: &impl Abort,
    alloc: Global,
    pool: &[u8],
    class: &[u8],
    method: &[u8],
    statics: &[u8],
    locations: &[u8],
) -> CapTree
    requires pool { length pool.now < 2 ^ 32 }
    requires class { length class.now < 2 ^ 32 }
    requires method { length method.now < 2 ^ 32 }
    requires statics { length statics.now < 2 ^ 32 }
    requires locations { length locations.now < 2 ^ 32 }
{
    let (header, directory, import) = read_front(rt, alloc);
    let (pool, statics, locations) = read_constants(rt, alloc, pool, statics, locations);
    let (class, method) = read_code(rt, alloc, class, method);
    let (export, descriptor) = read_back(rt, alloc);
    CapTree {
        header,
        directory,
        applet: None,
        import: Some(import),
        pool: Some(pool),
        class: Some(class),
        method: Some(method),
        statics: Some(statics),
        locations: Some(locations),
        export: Some(export),
        descriptor: Some(descriptor),
    }
}

/// The components of the first package.
pub fn first_tree(rt: &impl Abort, alloc: Global) -> CapTree {
    read_tree(rt, alloc, POOL, CLASS, METHOD, STATICS, LOCATIONS)
}

fn zeros(alloc: Global, n: usize) -> Result<Bytes, NoMemory> {
    let mut bytes = Row::new(alloc);
    for _ in 0..n {
        bytes.push(0u8)?;
    }
    Ok(bytes)
}

/// Static fields with so many bytes of info, which has ten of its own.
pub fn statics_of(alloc: Global, size: usize) -> Result<StaticField, NoMemory> {
    Ok(StaticField {
        image_size: 0,
        reference_count: 0,
        array_inits: Row::new(alloc),
        default_value_count: 0,
        values: zeros(alloc, size.saturating_sub(10))?,
    })
}

/// Places with so many bytes of info, which has four of its own.
pub fn locations_of(alloc: Global, size: usize) -> Result<ReferenceLocation, NoMemory> {
    Ok(ReferenceLocation {
        one_byte: zeros(alloc, size.saturating_sub(4))?,
        two_byte: Row::new(alloc),
    })
}

/// Classes with 32,765 bytes of info and so many more: 3,276 of ten bytes, and an interface of the last.
pub fn classes_of(alloc: Global, more: usize) -> Result<ClassInfo, NoMemory> {
    let mut classes = Row::new(alloc);
    for i in 0..3276 {
        let mut interfaces = Row::new(alloc);
        if i == 3275 {
            interfaces.push(ImplementedInterface {
                interface: ClassRef::Inside(0),
                index: zeros(alloc, more)?,
            })?;
        }
        classes.push(ClassEntry {
            flags: 0,
            superclass: ClassRef::Inside(0xFFFF),
            declared_instance_size: 0,
            first_reference_token: 0xFF,
            reference_count: 0,
            public_base: 0,
            package_base: 0,
            public_methods: Row::new(alloc),
            package_methods: Row::new(alloc),
            interfaces,
        })?;
    }
    Ok(ClassInfo {
        interfaces: Row::new(alloc),
        classes,
    })
}

/// Types that end at 32,764 and a last one of so many nibbles.
pub fn types_of(alloc: Global, nibbles: usize) -> Result<Descriptor, NoMemory> {
    let mut pool_types = Row::new(alloc);
    for _ in 0..16381 {
        pool_types.push(0u64)?;
    }
    let mut types = Row::new(alloc);
    types.push(TypeDescriptor {
        nibbles: zeros(alloc, nibbles)?,
    })?;
    Ok(Descriptor {
        classes: Row::new(alloc),
        pool_types,
        types,
    })
}
