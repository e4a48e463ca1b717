//! The components and the export file of a package, each as it is written: trees over the list, the class files
//! and export files, tokens, class tables, the static image, and narrow code with its layout. The converter
//! says by them what it writes. They know no rule that a package breaks, and not how code is chosen. Nothing
//! here runs.
#![tactic(auto)]

// Lower crates, for those above.
/// What crates above take of cjc_list.
pub mod list {
    pub use cjc_list::List;
}

/// What crates above take of bytecode.
pub mod bytecode {
    pub use cjc_vtable::bytecode::jvm;
}

/// What crates above take of script.
pub mod script {
    pub use cjc_narrow::script::{Note, Report, Script, Value};
}

/// What crates above take of capread.
pub mod capread {
    pub use cjc_capwrite::capread::{
        Applet, AppletEntry, ArrayInit, CapTree, ClassDescriptor, ClassEntry, ClassInfo, ClassRef,
        ConstantPool, Descriptor, Directory, Export, ExportedClass, FieldDescriptor, FieldPlace,
        FieldType, Header, ImplementedInterface, Import, ImportedPackage, InterfaceEntry, Method,
        MethodDescriptor, PoolEntry, ReferenceLocation, StaticField, StaticRef, TypeDescriptor,
        readings,
    };
}

/// What crates above take of cjc_capwrite.
pub mod capwrite {
    pub use cjc_capwrite::{CapFiles, broken_limit, size, write};
}

/// What crates above take of class_order.
pub mod class_order {
    pub use cjc_vtable::class_order::{classes, supers};
}

/// What crates above take of subset.
pub mod subset {
    pub use cjc_vtable::subset::is_int_desc;
}

/// What crates above take of tokens.
pub mod tokens {
    pub use cjc_vtable::tokens::{Slot, Tokens, interface_methods};
}

/// What crates above take of cjc_vtable.
pub mod vtable {
    pub use cjc_vtable::{ClassTable, ClassTables, InterfaceMap, tables};
}

/// What crates above take of cjc_check_rules.
pub mod check_rules {
    pub use cjc_check_rules::consistent_where_unbroken;
}

/// What crates above take of ncode.
pub mod ncode {
    pub use cjc_narrow::ncode::{NMethod, PoolKey};
}

/// What crates above take of layout.
pub mod layout {
    pub use cjc_emit::layout::{
        Handler, Layout, lay, layouts_are_laid_out, order_changes_no_search,
    };
}

/// What crates above take of cjc_emit.
pub mod emit {
    pub use cjc_emit::{MethodBytes, PoolLookup, emit};
}

pub mod paired;

ghost use Rattle.std.specs.Prelude.{◌≡◌, map, length};
ghost use Rattle.cjc_capwrite.specs.Size.{info_of};
ghost use Rattle.cjc_components.specs.Package.{Package};
ghost use Rattle.cjc_components.specs.Components.{tags, components_of};

/// Directory has the size of each component, its own counted.
pub fn directory_has_sizes()
    ensures { (p : Package) → let t = components_of p in let d = t.directory in d.component_sizes
        ≡ map (λ tag. length (info_of t tag)) tags }
{}
