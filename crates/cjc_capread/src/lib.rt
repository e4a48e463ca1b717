//! The components of a CAP file: what they say, as trees, and which bytes spell them.
#![tactic(auto)]

// Lower crates, for those above.
/// What crates above take of cjc_bytes.
pub mod bytes {
    pub use cjc_bytes::{
        Break, Bytes, Fault, FileKey, NoMemory, Out, Part, PlaceRef, Row, RulePlace, answer, first,
        has, is_static, refused,
    };
}

pub mod card;
mod class;
mod component;
pub mod decoder;
mod descriptor;
mod export;
mod instruction;
mod method;
mod opcode;
mod package;
mod parts;
mod pool;
mod statics;
mod tree;

pub use component::{read, readings};
pub use instruction::{headers_go_by_two_flags, what_is_written_is_decoded};
pub use opcode::{OpInfo, op};
pub use tree::{
    Applet, AppletEntry, ArrayInit, CapTree, ClassDescriptor, ClassEntry, ClassInfo, ClassRef,
    Component, ConstantPool, Descriptor, Directory, Export, ExportedClass, FieldDescriptor,
    FieldPlace, FieldType, Handler, Header, ImplementedInterface, Import, ImportedPackage,
    InterfaceEntry, Method, MethodDescriptor, PoolEntry, ReferenceLocation, StaticField, StaticRef,
    TypeDescriptor,
};
