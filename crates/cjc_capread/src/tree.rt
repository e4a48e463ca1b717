//! What the components of a CAP file say, each as a tree of its items in their order (Java Card Virtual
//! Machine Specification 2.2.2, chapter 6). Tags, sizes, lengths of lists and items whose value is fixed are
//! left out. A two-byte number is held as a `u64`, so that a tree can be made before its limits are tested.

ghost use Rattle.std.specs.Prelude.{◌≡◌};

use cjc_bytes::{Bytes, Row};

/// A class or interface (class_ref, section 6.1).
#[derive(Clone, Copy)]
pub enum ClassRef {
    /// Of this package: the offset of its class info or interface info in bytes from the start of the info
    /// of Class, below 0x8000.
    Inside(u64),
    /// Of an imported package: the package's token, at most 127, and the class's token.
    Outside { package: u8, class: u8 },
}

/// A static field or static method, or a constructor (section 6.7.3).
#[derive(Clone, Copy)]
pub enum StaticRef {
    /// Of this package: for a field the offset of its cell in the static field image in bytes, for a method
    /// the offset of its header in bytes from the start of the info of Method.
    Inside(u64),
    /// Of an imported package: the package's token, at most 127, the class's token and the member's own.
    Outside { package: u8, class: u8, token: u8 },
}

/// The package itself (section 6.3).
#[derive(Drop)]
pub struct Header {
    /// ACC_INT 1, ACC_EXPORT 2, ACC_APPLET 4.
    pub flags: u8,
    pub minor: u8,
    pub major: u8,
    pub aid: Bytes,
    /// The package's name, its parts joined by `/`; no bytes where the file has none.
    pub name: Bytes,
}

/// The sizes of the components (section 6.4).
#[derive(Drop)]
pub struct Directory {
    /// Of each tag from 1 to 12 the size item of its component, 0 where it is absent.
    pub component_sizes: Row<u64>,
    /// The size of the static field image in bytes.
    pub image_size: u64,
    pub array_init_count: u64,
    /// The sum of the byte counts of the arrays.
    pub array_init_size: u64,
    pub import_count: u8,
    pub applet_count: u8,
}

/// The applets of the package (section 6.5).
#[derive(Drop)]
pub struct Applet {
    pub applets: Row<AppletEntry>,
}

/// An applet (section 6.5).
#[derive(Drop)]
pub struct AppletEntry {
    pub aid: Bytes,
    /// The offset of the header of its install method, in bytes from the start of the info of Method.
    pub install_method: u64,
}

/// The packages that this one imports, by package token (section 6.6).
#[derive(Drop)]
pub struct Import {
    pub packages: Row<ImportedPackage>,
}

/// An imported package (section 6.6).
#[derive(Drop)]
pub struct ImportedPackage {
    pub minor: u8,
    pub major: u8,
    pub aid: Bytes,
}

/// What the instructions name, by index (section 6.7).
#[derive(Drop)]
pub struct ConstantPool {
    pub entries: Row<PoolEntry>,
}

/// An entry of the constant pool (section 6.7).
#[derive(Clone, Copy)]
pub enum PoolEntry {
    Classref(ClassRef),
    InstanceFieldref { class: ClassRef, token: u8 },
    VirtualMethodref { class: ClassRef, token: u8 },
    SuperMethodref { class: ClassRef, token: u8 },
    StaticFieldref(StaticRef),
    StaticMethodref(StaticRef),
}

/// The interfaces and classes of the package (section 6.8).
#[derive(Drop)]
pub struct ClassInfo {
    pub interfaces: Row<InterfaceEntry>,
    pub classes: Row<ClassEntry>,
}

/// An interface (interface_info, section 6.8.1).
#[derive(Drop)]
pub struct InterfaceEntry {
    /// A nibble: INTERFACE 8, which is set, and SHAREABLE 4.
    pub flags: u8,
    pub superinterfaces: Row<ClassRef>,
}

/// A class (class_info, section 6.8.2).
#[derive(Drop)]
pub struct ClassEntry {
    /// A nibble: INTERFACE 8, which is not set, and SHAREABLE 4.
    pub flags: u8,
    pub superclass: ClassRef,
    /// The cells of the instance fields that it declares.
    pub declared_instance_size: u8,
    /// The token of its first reference field, 0xFF where it has none.
    pub first_reference_token: u8,
    pub reference_count: u8,
    /// The token of the public table's first entry.
    pub public_base: u8,
    /// The token of the package table's first entry.
    pub package_base: u8,
    /// The offset of each method's header in Method, 0xFFFF where the implementation is imported.
    pub public_methods: Row<u64>,
    /// The offset of each method's header in Method.
    pub package_methods: Row<u64>,
    pub interfaces: Row<ImplementedInterface>,
}

/// How a class implements an interface (implemented_interface_info, section 6.8.2).
#[derive(Drop)]
pub struct ImplementedInterface {
    pub interface: ClassRef,
    /// For each interface method token the token of the virtual method.
    pub index: Bytes,
}

/// The handlers and methods of the package (section 6.9).
#[derive(Drop)]
pub struct Method {
    pub handlers: Row<Handler>,
    /// The headers and bytecodes of all methods, one after the other.
    pub methods: Bytes,
}

/// An exception handler; its places are bytes from the start of the info of Method (section 6.9.1).
#[derive(Clone, Copy)]
pub struct Handler {
    pub start: u64,
    /// Whether no later handler covers a part of this one's range.
    pub stop: bool,
    /// The length of its range in bytes, below 0x8000.
    pub length: u64,
    pub handler: u64,
    /// The index of a Classref, 0 for any exception.
    pub catch_index: u64,
}

/// The static field image (section 6.10). Its cells are arrays, then null references, then primitives that
/// are 0, then the other primitives.
#[derive(Drop)]
pub struct StaticField {
    /// In bytes.
    pub image_size: u64,
    /// The cells of references, arrays counted.
    pub reference_count: u64,
    pub array_inits: Row<ArrayInit>,
    /// In bytes.
    pub default_value_count: u64,
    /// The bytes of the primitives that are not 0.
    pub values: Bytes,
}

/// An array that a static field holds at the start (section 6.10).
#[derive(Drop)]
pub struct ArrayInit {
    /// Of an element: boolean 2, byte 3, short 4, int 5.
    pub type_: u8,
    /// The bytes of all elements.
    pub values: Bytes,
}

/// Where in Method the indices into the constant pool stand (section 6.11). Each byte is the distance from
/// the place before, the first from the start of Method's info; 255 adds 255 and goes on.
#[derive(Drop)]
pub struct ReferenceLocation {
    /// Of the one-byte indices.
    pub one_byte: Bytes,
    /// Of the two-byte indices.
    pub two_byte: Bytes,
}

/// What other packages can use, by class token (section 6.12).
#[derive(Drop)]
pub struct Export {
    pub classes: Row<ExportedClass>,
}

/// An exported class (section 6.12).
#[derive(Drop)]
pub struct ExportedClass {
    /// The offset in bytes from the start of the info of Class.
    pub class_offset: u64,
    /// By token the offset of each cell in the static field image.
    pub fields: Row<u64>,
    /// By token the offset of each method's header in Method.
    pub methods: Row<u64>,
}

/// The classes, their members and all types (section 6.13). An offset of a type counts bytes from the start
/// of the number of pool entries.
#[derive(Drop)]
pub struct Descriptor {
    pub classes: Row<ClassDescriptor>,
    /// Of each pool entry the offset of its type, 0xFFFF for a Classref.
    pub pool_types: Row<u64>,
    pub types: Row<TypeDescriptor>,
}

/// A class or interface (section 6.13.1).
#[derive(Drop)]
pub struct ClassDescriptor {
    /// 0xFF where it is not exported.
    pub token: u8,
    /// Public 0x01, final 0x10, interface 0x40, abstract 0x80.
    pub flags: u8,
    pub this_class: ClassRef,
    pub interfaces: Row<ClassRef>,
    pub fields: Row<FieldDescriptor>,
    pub methods: Row<MethodDescriptor>,
}

/// A field (section 6.13.2).
#[derive(Clone, Copy)]
pub struct FieldDescriptor {
    /// 0xFF where it has none.
    pub token: u8,
    /// Public 0x01, private 0x02, protected 0x04, static 0x08, final 0x10.
    pub flags: u8,
    /// `Static` exactly where the flag static is set.
    pub place: FieldPlace,
    pub type_: FieldType,
}

/// Where a field is (section 6.13.2).
#[derive(Clone, Copy)]
pub enum FieldPlace {
    /// The offset of its cell in the static field image in bytes.
    Static(u64),
    Instance { class: ClassRef, token: u8 },
}

/// The type of a field (section 6.13.2).
#[derive(Clone, Copy)]
pub enum FieldType {
    Boolean,
    Byte,
    Short,
    Int,
    /// The offset of the descriptor of a reference type, below 0x8000.
    Described(u64),
}

/// A method (section 6.13.3).
#[derive(Clone, Copy)]
pub struct MethodDescriptor {
    /// 0xFF where it has none.
    pub token: u8,
    /// Those of a field, abstract 0x40 and constructor 0x80.
    pub flags: u8,
    /// The offset of its header in Method, 0 for a method of an interface.
    pub offset: u64,
    pub type_offset: u64,
    /// The bytes of its code, without its header.
    pub bytecode_count: u64,
    pub handler_count: u64,
    /// The index of its first handler, 0 where it has none.
    pub first_handler: u64,
}

/// A type, or the parameters and the result of a method (section 6.13.4): nibbles, each below 16.
#[derive(Drop)]
pub struct TypeDescriptor {
    pub nibbles: Bytes,
}

/// What one component says.
pub enum Component {
    Header(Header),
    Directory(Directory),
    Applet(Applet),
    Import(Import),
    Pool(ConstantPool),
    Class(ClassInfo),
    Method(Method),
    Statics(StaticField),
    Locations(ReferenceLocation),
    Export(Export),
    Descriptor(Descriptor),
}

impl Drop for Component {
    fn drop(self) {
        match self {
            Component::Header(_part) => {}
            Component::Directory(_part) => {}
            Component::Applet(_part) => {}
            Component::Import(_part) => {}
            Component::Pool(_part) => {}
            Component::Class(_part) => {}
            Component::Method(_part) => {}
            Component::Statics(_part) => {}
            Component::Locations(_part) => {}
            Component::Export(_part) => {}
            Component::Descriptor(_part) => {}
        }
    }
}

impl Component {
    ghost use Rattle.cjc_capread.specs.Kinds.{header_of, directory_of, applet_of, import_of, pool_of, class_of};
    ghost use Rattle.cjc_capread.specs.Kinds.{method_of, statics_of, locations_of, export_of, descriptor_of};

    /// What it says, where it is a Header.
    pub fn into_header(self) -> Option<Header>
        ensures { result ≡ header_of self }
    {
        match self {
            Component::Header(part) => Some(part),
            _ => None,
        }
    }

    /// What it says, where it is a Directory.
    pub fn into_directory(self) -> Option<Directory>
        ensures { result ≡ directory_of self }
    {
        match self {
            Component::Directory(part) => Some(part),
            _ => None,
        }
    }

    /// What it says, where it is an Applet.
    pub fn into_applet(self) -> Option<Applet>
        ensures { result ≡ applet_of self }
    {
        match self {
            Component::Applet(part) => Some(part),
            _ => None,
        }
    }

    /// What it says, where it is an Import.
    pub fn into_import(self) -> Option<Import>
        ensures { result ≡ import_of self }
    {
        match self {
            Component::Import(part) => Some(part),
            _ => None,
        }
    }

    /// What it says, where it is a ConstantPool.
    pub fn into_pool(self) -> Option<ConstantPool>
        ensures { result ≡ pool_of self }
    {
        match self {
            Component::Pool(part) => Some(part),
            _ => None,
        }
    }

    /// What it says, where it is a Class.
    pub fn into_class(self) -> Option<ClassInfo>
        ensures { result ≡ class_of self }
    {
        match self {
            Component::Class(part) => Some(part),
            _ => None,
        }
    }

    /// What it says, where it is a Method.
    pub fn into_method(self) -> Option<Method>
        ensures { result ≡ method_of self }
    {
        match self {
            Component::Method(part) => Some(part),
            _ => None,
        }
    }

    /// What it says, where it is a StaticField.
    pub fn into_statics(self) -> Option<StaticField>
        ensures { result ≡ statics_of self }
    {
        match self {
            Component::Statics(part) => Some(part),
            _ => None,
        }
    }

    /// What it says, where it is a ReferenceLocation.
    pub fn into_locations(self) -> Option<ReferenceLocation>
        ensures { result ≡ locations_of self }
    {
        match self {
            Component::Locations(part) => Some(part),
            _ => None,
        }
    }

    /// What it says, where it is an Export.
    pub fn into_export(self) -> Option<Export>
        ensures { result ≡ export_of self }
    {
        match self {
            Component::Export(part) => Some(part),
            _ => None,
        }
    }

    /// What it says, where it is a Descriptor.
    pub fn into_descriptor(self) -> Option<Descriptor>
        ensures { result ≡ descriptor_of self }
    {
        match self {
            Component::Descriptor(part) => Some(part),
            _ => None,
        }
    }
}

/// What the components of a package say, absent ones `None`.
pub struct CapTree {
    pub header: Header,
    pub directory: Directory,
    pub applet: Option<Applet>,
    pub import: Option<Import>,
    pub pool: Option<ConstantPool>,
    pub class: Option<ClassInfo>,
    pub method: Option<Method>,
    pub statics: Option<StaticField>,
    pub locations: Option<ReferenceLocation>,
    pub export: Option<Export>,
    pub descriptor: Option<Descriptor>,
}

impl Drop for CapTree {
    fn drop(self) {
        let CapTree {
            header: _header,
            directory: _directory,
            applet: _applet,
            import: _import,
            pool: _pool,
            class: _class,
            method: _method,
            statics: _statics,
            locations: _locations,
            export: _export,
            descriptor: _descriptor,
        } = self;
    }
}
