//! Component trees as the files of a CAP file, their sizes, and the limits that a tree breaks. It knows nothing
//! of how a tree was made.
#![tactic(auto)]

// Lower crates, for those above.
/// What crates above take of cjc_capread.
pub mod capread {
    pub use cjc_capread::{
        Applet, AppletEntry, ArrayInit, CapTree, ClassDescriptor, ClassEntry, ClassInfo, ClassRef,
        ConstantPool, Descriptor, Directory, Export, ExportedClass, FieldDescriptor, FieldPlace,
        FieldType, Header, ImplementedInterface, Import, ImportedPackage, InterfaceEntry, Method,
        MethodDescriptor, PoolEntry, ReferenceLocation, StaticField, StaticRef, TypeDescriptor,
        readings,
    };
}

mod class;
mod descriptor;
mod export;
mod files;
mod limits;
mod method;
mod package;
mod parts;
mod pool;
mod sizes;
mod statics;

pub use files::{CapFiles, files_of, write};
pub use limits::broken_limit;
pub use sizes::size;
