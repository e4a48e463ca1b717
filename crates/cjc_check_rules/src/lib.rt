//! What consistent components are: the sentences that the components of a package and the export files that it
//! imports make true together, each as the list of the places where it is broken, and their laws. Nothing here
//! runs.
#![tactic(auto)]

// Lower crates, for those above.
/// What crates above take of bytes.
pub mod bytes {
    pub use cjc_export::bytes::{Bytes, NoMemory, Row, is_interface, is_private, is_static};
}

/// What crates above take of cjc_export.
pub mod export_file {
    pub use cjc_export::{ExportClass, ExportField, ExportMethod, ExportTree, read};
}

/// What crates above take of cjc_capread.
pub mod capread {
    pub use cjc_capread::{
        Applet, AppletEntry, ArrayInit, CapTree, ClassDescriptor, ClassEntry, ClassInfo, ClassRef,
        ConstantPool, Descriptor, Export, ExportedClass, FieldDescriptor, Handler, Header,
        ImplementedInterface, Import, ImportedPackage, InterfaceEntry, Method, MethodDescriptor,
        PoolEntry, ReferenceLocation, StaticField, TypeDescriptor,
    };
}

mod laws;
mod spot;
mod worked;

pub use laws::{consistent_where_unbroken, first_places};
pub use spot::ComponentPlace;
pub use worked::{example_is_consistent, worked_codes_are_cut, worked_items_are_found};
