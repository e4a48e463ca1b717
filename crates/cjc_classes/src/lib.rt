//! The components that follow from the class files and the tokens alone: Header, Directory, Applet, Import, Class,
//! StaticField and Descriptor, and the entries of ConstantPool.
#![tactic(auto)]

// Lower crates, for those above.
/// What crates above take of cjc_bytes.
pub mod bytes {
    pub use cjc_bytes::{
        Break, Bytes, Fault, FileKey, MemberId, NoMemory, Part, PlaceRef, Row, RulePlace, answer,
        is_interface, is_static,
    };
}

/// What crates above take of list.
pub mod list {
    pub use cjc_components::list::List;
}

/// What crates above take of classfile.
pub mod classfile {
    pub use cjc_world::classfile::{ClassTree, FieldTree, MethodTree};
}

/// What crates above take of bytecode.
pub mod bytecode {
    pub use cjc_components::bytecode::jvm;
}

/// What crates above take of export_file.
pub mod export_file {
    pub use cjc_world::export_file::write;
}

/// What crates above take of script.
pub mod script {
    pub use cjc_components::script::{Note, Report, Value};
}

/// What crates above take of capread.
pub mod capread {
    pub use cjc_components::capread::{
        CapTree, ClassRef, ConstantPool, Descriptor, Directory, Export, Header, Method,
        ReferenceLocation, readings,
    };
}

/// What crates above take of capwrite.
pub mod capwrite {
    pub use cjc_components::capwrite::{CapFiles, broken_limit, size, write};
}

/// What crates above take of cjc_world.
pub mod world {
    pub use cjc_world::{Found, Known, StaticImage, ValueCell, World};
}

/// What crates above take of class_order.
pub mod class_order {
    pub use cjc_components::class_order::classes;
}

/// What crates above take of subset.
pub mod subset {
    pub use cjc_components::subset::is_int_desc;
}

/// What crates above take of cjc_tokens.
pub mod tokens {
    pub use cjc_tokens::{Slot, Tokens, interface_methods};
}

/// What crates above take of vtable.
pub mod vtable {
    pub use cjc_components::vtable::{ClassTable, ClassTables, tables};
}

/// What crates above take of check_rules.
pub mod check_rules {
    pub use cjc_components::check_rules::consistent_where_unbroken;
}

/// What crates above take of ncode.
pub mod ncode {
    pub use cjc_components::ncode::{NMethod, PoolKey};
}

/// What crates above take of layout.
pub mod layout {
    pub use cjc_components::layout::Layout;
}

pub mod class_info;
pub mod descriptor;
pub mod directory;
pub mod key_tokens;
pub mod pool_entries;
pub mod type_info;
