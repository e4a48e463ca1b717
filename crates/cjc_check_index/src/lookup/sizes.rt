//! The bytes of items, and of whole components, from what they say (Java Card Virtual Machine Specification
//! 2.2.2, chapter 6). The tests of all sentences use it. It knows no sentence.

ghost use Rattle.std.specs.Prelude.{◌≡◌, ◌+◌, ◌*◌, ◌<◌, ◌^◌, length, sum_by};
ghost use Rattle.cjc_check_rules.specs.Classes.{first_class};
ghost use Rattle.cjc_check_rules.specs.ClassRefs.{pool_count_at, types_begin};
ghost use Rattle.cjc_check_rules.specs.Complete.{applet_size, package_size, interface_size, map_size, class_size};
ghost use Rattle.cjc_check_rules.specs.Complete.{array_size, exported_size, described_size, type_size, header_size};
ghost use Rattle.cjc_check_rules.specs.Complete.{applets_size, import_size, pool_size, class_info_size, method_size};
ghost use Rattle.cjc_check_rules.specs.Complete.{statics_size, locations_size, export_size, descriptor_size, size_of};
ghost use Rattle.cjc_check_rules.specs.Complete.{size_items, IsSmall};

use crate::lookup::along::{Item, total};
use cjc_check_rules::capread::{
    Applet, AppletEntry, ArrayInit, CapTree, ClassDescriptor, ClassEntry, ClassInfo, ClassRef,
    ConstantPool, Descriptor, Export, ExportedClass, FieldDescriptor, Handler, Header,
    ImplementedInterface, Import, ImportedPackage, InterfaceEntry, Method, MethodDescriptor,
    PoolEntry, ReferenceLocation, StaticField, TypeDescriptor,
};

impl Item for AppletEntry {
    ghost bytes = { applet_size };

    fn size(&self) -> u32 {
        3 + self.aid.items().len() as u32
    }
}

impl Item for ImportedPackage {
    ghost bytes = { package_size };

    fn size(&self) -> u32 {
        3 + self.aid.items().len() as u32
    }
}

impl Item for InterfaceEntry {
    ghost bytes = { interface_size };

    fn size(&self) -> u32 {
        1 + 2 * self.superinterfaces.items().len() as u32
    }
}

impl Item for ImplementedInterface {
    ghost bytes = { map_size };

    fn size(&self) -> u32 {
        3 + self.index.items().len() as u32
    }
}

impl Item for ClassEntry {
    ghost bytes = { class_size };

    fn size(&self) -> u32 {
        let public = 2 * self.public_methods.items().len() as u32;
        let package = 2 * self.package_methods.items().len() as u32;
        10 + public + package + total(self.interfaces.items())
    }
}

impl Item for ArrayInit {
    ghost bytes = { array_size };

    fn size(&self) -> u32 {
        3 + self.values.items().len() as u32
    }
}

impl Item for ExportedClass {
    ghost bytes = { exported_size };

    fn size(&self) -> u32 {
        let fields = 2 * self.fields.items().len() as u32;
        4 + fields + 2 * self.methods.items().len() as u32
    }
}

impl Item for ClassDescriptor {
    ghost bytes = { described_size };

    fn size(&self) -> u32 {
        let interfaces = 2 * self.interfaces.items().len() as u32;
        let fields = 7 * self.fields.items().len() as u32;
        9 + interfaces + fields + 12 * self.methods.items().len() as u32
    }
}

impl Item for TypeDescriptor {
    ghost bytes = { type_size };

    fn size(&self) -> u32 {
        let nibbles = self.nibbles.items().len() / 2 + self.nibbles.items().len() % 2;
        1 + nibbles as u32
    }
}

impl Item for u64 {
    ghost bytes = { λ n. 2 };

    fn size(&self) -> u32 {
        2
    }
}

impl Item for u8 {
    ghost bytes = { λ n. 1 };

    fn size(&self) -> u32 {
        1
    }
}

impl Item for Handler {
    ghost bytes = { λ x. 8 };

    fn size(&self) -> u32 {
        8
    }
}

impl Item for ClassRef {
    ghost bytes = { λ x. 2 };

    fn size(&self) -> u32 {
        2
    }
}

impl Item for PoolEntry {
    ghost bytes = { λ x. 4 };

    fn size(&self) -> u32 {
        4
    }
}

impl Item for FieldDescriptor {
    ghost bytes = { λ x. 7 };

    fn size(&self) -> u32 {
        7
    }
}

impl Item for MethodDescriptor {
    ghost bytes = { λ x. 12 };

    fn size(&self) -> u32 {
        12
    }
}

/// Where the classes of Class begin, behind its interfaces.
pub fn first_class(class: &ClassInfo) -> u32
    requires { class_info_size class.now < 2 ^ 32 }
    ensures { result ≡ first_class class.now }
{
    2 + total(class.interfaces.items())
}

/// Where the number of pool entries stands in Descriptor, behind its classes.
pub fn pool_count_at(descriptor: &Descriptor) -> u32
    requires { descriptor_size descriptor.now < 2 ^ 32 }
    ensures { result ≡ pool_count_at descriptor.now }
{
    1 + total(descriptor.classes.items())
}

/// Where the types of Descriptor begin, behind an offset for each pool entry.
pub fn types_begin(descriptor: &Descriptor) -> u32
    requires { descriptor_size descriptor.now < 2 ^ 32 }
    ensures { result ≡ types_begin descriptor.now }
{
    pool_count_at(descriptor) + 2 + 2 * descriptor.pool_types.items().len() as u32
}

/// The bytes of Header.
fn header_size(header: &Header) -> u32
    requires { header_size header.now < 2 ^ 32 }
    ensures { result ≡ header_size header.now }
{
    11 + header.aid.items().len() as u32 + header.name.items().len() as u32
}

/// The bytes of Applet, 0 where it is absent.
fn applets_size(applet: &Option<Applet>) -> u32
    requires { size_of applets_size applet.now < 2 ^ 32 }
    ensures { result ≡ size_of applets_size applet.now }
{
    match applet {
        Some(applet) => 1 + total(applet.applets.items()),
        None => 0,
    }
}

/// The bytes of Import, 0 where it is absent.
fn import_size(import: &Option<Import>) -> u32
    requires { size_of import_size import.now < 2 ^ 32 }
    ensures { result ≡ size_of import_size import.now }
{
    match import {
        Some(import) => 1 + total(import.packages.items()),
        None => 0,
    }
}

/// The bytes of ConstantPool, 0 where it is absent.
fn pool_size(pool: &Option<ConstantPool>) -> u32
    requires { size_of pool_size pool.now < 2 ^ 32 }
    ensures { result ≡ size_of pool_size pool.now }
{
    match pool {
        Some(pool) => 2 + 4 * pool.entries.items().len() as u32,
        None => 0,
    }
}

/// The bytes of Class, 0 where it is absent.
fn class_info_size(class: &Option<ClassInfo>) -> u32
    requires { size_of class_info_size class.now < 2 ^ 32 }
    ensures { result ≡ size_of class_info_size class.now }
{
    match class {
        Some(class) => 2 + total(class.interfaces.items()) + total(class.classes.items()),
        None => 0,
    }
}

/// The bytes of Method, 0 where it is absent.
fn method_size(method: &Option<Method>) -> u32
    requires { size_of method_size method.now < 2 ^ 32 }
    ensures { result ≡ size_of method_size method.now }
{
    match method {
        Some(method) => {
            let handlers = 8 * method.handlers.items().len() as u32;
            1 + handlers + method.methods.items().len() as u32
        }
        None => 0,
    }
}

/// The bytes of StaticField, 0 where it is absent.
fn statics_size(statics: &Option<StaticField>) -> u32
    requires { size_of statics_size statics.now < 2 ^ 32 }
    ensures { result ≡ size_of statics_size statics.now }
{
    match statics {
        Some(statics) => {
            let arrays = total(statics.array_inits.items());
            10 + arrays + statics.values.items().len() as u32
        }
        None => 0,
    }
}

/// The bytes of ReferenceLocation, 0 where it is absent.
fn locations_size(locations: &Option<ReferenceLocation>) -> u32
    requires { size_of locations_size locations.now < 2 ^ 32 }
    ensures { result ≡ size_of locations_size locations.now }
{
    match locations {
        Some(locations) => {
            let one_byte = locations.one_byte.items().len() as u32;
            4 + one_byte + locations.two_byte.items().len() as u32
        }
        None => 0,
    }
}

/// The bytes of Export, 0 where it is absent.
fn export_size(export: &Option<Export>) -> u32
    requires { size_of export_size export.now < 2 ^ 32 }
    ensures { result ≡ size_of export_size export.now }
{
    match export {
        Some(export) => 1 + total(export.classes.items()),
        None => 0,
    }
}

/// The bytes of Descriptor, 0 where it is absent.
fn descriptor_size(descriptor: &Option<Descriptor>) -> u32
    requires { size_of descriptor_size descriptor.now < 2 ^ 32 }
    ensures { result ≡ size_of descriptor_size descriptor.now }
{
    match descriptor {
        Some(descriptor) => {
            let classes = total(descriptor.classes.items());
            let offsets = 2 * descriptor.pool_types.items().len() as u32;
            3 + classes + offsets + total(descriptor.types.items())
        }
        None => 0,
    }
}

/// The bytes of the component of each tag from 1 to 12, 0 where it is absent; Debug always is.
pub fn size_items(tree: &CapTree) -> [u32; 12]
    requires { IsSmall tree.now }
    ensures { result ≡ size_items tree.now }
{
    [
        header_size(&tree.header),
        33,
        applets_size(&tree.applet),
        import_size(&tree.import),
        pool_size(&tree.pool),
        class_info_size(&tree.class),
        method_size(&tree.method),
        statics_size(&tree.statics),
        locations_size(&tree.locations),
        export_size(&tree.export),
        descriptor_size(&tree.descriptor),
        0,
    ]
}
