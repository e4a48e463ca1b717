//! The size items of components, before any limit: what `limits` asks, and what a Directory is filled with before its
//! package is written. A size past the greatest number counts as that. It takes no memory and writes nothing.

ghost use Rattle.std.specs.Prelude.{◌≡◌, ◌+◌, ◌*◌, ◌<◌, length};
ghost use Rattle.std.specs.List.{flat_map};
ghost use Rattle.cjc_capwrite.specs.Size.{capped, info_of};
ghost use Rattle.cjc_capwrite.specs.Package.{header_bytes, directory_bytes, applet_entry_bytes, applet_bytes};
ghost use Rattle.cjc_capwrite.specs.Package.{imported_package_bytes, import_bytes};
ghost use Rattle.cjc_capwrite.specs.Pool.{pool_bytes};
ghost use Rattle.cjc_capwrite.specs.Class.{interface_bytes, implemented_bytes, class_entry_bytes, class_info_bytes};
ghost use Rattle.cjc_capwrite.specs.Method.{method_bytes};
ghost use Rattle.cjc_capwrite.specs.Statics.{array_init_bytes, static_field_bytes, reference_location_bytes};
ghost use Rattle.cjc_capwrite.specs.Export.{exported_class_bytes, export_bytes};
ghost use Rattle.cjc_capwrite.specs.Descriptor.{class_descriptor_bytes, type_bytes, types_bytes, descriptor_bytes};
ghost use Rattle.cjc_capwrite.specs.Files.{part};

use cjc_capread::{
    Applet, AppletEntry, ArrayInit, CapTree, ClassDescriptor, ClassEntry, ClassInfo, ConstantPool,
    Descriptor, Directory, Export, ExportedClass, Header, ImplementedInterface, Import,
    ImportedPackage, InterfaceEntry, Method, ReferenceLocation, StaticField, TypeDescriptor,
};

/// So many items of so many bytes behind these.
fn behind<T>(size: u64, each: u64, items: &[T]) -> u64
    requires { each < 256 }
    ensures { result ≡ capped (size + each * length items.now) }
{
    size.saturating_add(each.saturating_mul(items.len() as u64))
}

#[tactic(auto, using(crate::proofs::Lengths::header_length))]
fn header_size(header: &Header) -> u64
    ensures { result ≡ capped (length (header_bytes header.now)) }
{
    behind(behind(11, 1, header.aid.items()), 1, header.name.items())
}

#[tactic(auto, using(crate::proofs::Lengths::directory_length))]
fn directory_size(directory: &Directory) -> u64
    ensures { result ≡ capped (length (directory_bytes directory.now)) }
{
    behind(9, 2, directory.component_sizes.items())
}

#[tactic(auto, using(crate::proofs::Lengths::applet_entry_length))]
fn applet_entry_size(entry: &AppletEntry) -> u64
    ensures { result ≡ capped (length (applet_entry_bytes entry.now)) }
{
    behind(3, 1, entry.aid.items())
}

#[tactic(auto, using(crate::proofs::Lengths::sizes_step))]
fn applets_size(applets: &[AppletEntry]) -> u64
    ensures { result ≡ capped (length (flat_map applet_entry_bytes applets.now)) }
{
    let mut size: u64 = 0;
    for entry in applets {
        size = size.saturating_add(applet_entry_size(entry));
    }
    size
}

#[tactic(auto, using(crate::proofs::Lengths::applet_length))]
fn applet_size(applet: &Applet) -> u64
    ensures { result ≡ capped (length (applet_bytes applet.now)) }
{
    applets_size(applet.applets.items()).saturating_add(1)
}

#[tactic(auto, using(crate::proofs::Lengths::imported_package_length))]
fn package_size(imported: &ImportedPackage) -> u64
    ensures { result ≡ capped (length (imported_package_bytes imported.now)) }
{
    behind(3, 1, imported.aid.items())
}

#[tactic(auto, using(crate::proofs::Lengths::sizes_step))]
fn packages_size(packages: &[ImportedPackage]) -> u64
    ensures { result ≡ capped (length (flat_map imported_package_bytes packages.now)) }
{
    let mut size: u64 = 0;
    for imported in packages {
        size = size.saturating_add(package_size(imported));
    }
    size
}

#[tactic(auto, using(crate::proofs::Lengths::import_length))]
fn import_size(import: &Import) -> u64
    ensures { result ≡ capped (length (import_bytes import.now)) }
{
    packages_size(import.packages.items()).saturating_add(1)
}

#[tactic(auto, using(crate::proofs::Lengths::pool_length))]
fn pool_size(pool: &ConstantPool) -> u64
    ensures { result ≡ capped (length (pool_bytes pool.now)) }
{
    behind(2, 4, pool.entries.items())
}

#[tactic(auto, using(crate::proofs::Lengths::interface_length))]
fn interface_size(interface: &InterfaceEntry) -> u64
    ensures { result ≡ capped (length (interface_bytes interface.now)) }
{
    behind(1, 2, interface.superinterfaces.items())
}

#[tactic(auto, using(crate::proofs::Lengths::sizes_step))]
fn interfaces_size(interfaces: &[InterfaceEntry]) -> u64
    ensures { result ≡ capped (length (flat_map interface_bytes interfaces.now)) }
{
    let mut size: u64 = 0;
    for interface in interfaces {
        size = size.saturating_add(interface_size(interface));
    }
    size
}

#[tactic(auto, using(crate::proofs::Lengths::implemented_length))]
fn implemented_size(implemented: &ImplementedInterface) -> u64
    ensures { result ≡ capped (length (implemented_bytes implemented.now)) }
{
    behind(3, 1, implemented.index.items())
}

#[tactic(auto, using(crate::proofs::Lengths::sizes_step))]
fn implemented_interfaces_size(interfaces: &[ImplementedInterface]) -> u64
    ensures { result ≡ capped (length (flat_map implemented_bytes interfaces.now)) }
{
    let mut size: u64 = 0;
    for implemented in interfaces {
        size = size.saturating_add(implemented_size(implemented));
    }
    size
}

#[tactic(auto, using(crate::proofs::Lengths::class_entry_length))]
fn class_entry_size(class: &ClassEntry) -> u64
    ensures { result ≡ capped (length (class_entry_bytes class.now)) }
{
    let tables = behind(
        behind(10, 2, class.public_methods.items()),
        2,
        class.package_methods.items(),
    );
    tables.saturating_add(implemented_interfaces_size(class.interfaces.items()))
}

#[tactic(auto, using(crate::proofs::Lengths::sizes_step))]
fn classes_size(classes: &[ClassEntry]) -> u64
    ensures { result ≡ capped (length (flat_map class_entry_bytes classes.now)) }
{
    let mut size: u64 = 0;
    for class in classes {
        size = size.saturating_add(class_entry_size(class));
    }
    size
}

#[tactic(auto, using(crate::proofs::Lengths::class_info_length))]
fn class_info_size(info: &ClassInfo) -> u64
    ensures { result ≡ capped (length (class_info_bytes info.now)) }
{
    let interfaces = interfaces_size(info.interfaces.items()).saturating_add(2);
    interfaces.saturating_add(classes_size(info.classes.items()))
}

#[tactic(auto, using(crate::proofs::Lengths::method_length))]
fn method_size(method: &Method) -> u64
    ensures { result ≡ capped (length (method_bytes method.now)) }
{
    behind(
        behind(1, 8, method.handlers.items()),
        1,
        method.methods.items(),
    )
}

#[tactic(auto, using(crate::proofs::Lengths::array_init_length))]
fn array_init_size(array: &ArrayInit) -> u64
    ensures { result ≡ capped (length (array_init_bytes array.now)) }
{
    behind(3, 1, array.values.items())
}

#[tactic(auto, using(crate::proofs::Lengths::sizes_step))]
fn array_inits_size(arrays: &[ArrayInit]) -> u64
    ensures { result ≡ capped (length (flat_map array_init_bytes arrays.now)) }
{
    let mut size: u64 = 0;
    for array in arrays {
        size = size.saturating_add(array_init_size(array));
    }
    size
}

#[tactic(auto, using(crate::proofs::Lengths::static_field_length))]
fn static_field_size(image: &StaticField) -> u64
    ensures { result ≡ capped (length (static_field_bytes image.now)) }
{
    behind(
        array_inits_size(image.array_inits.items()).saturating_add(10),
        1,
        image.values.items(),
    )
}

#[tactic(auto, using(crate::proofs::Lengths::locations_length))]
fn locations_size(locations: &ReferenceLocation) -> u64
    ensures { result ≡ capped (length (reference_location_bytes locations.now)) }
{
    behind(
        behind(4, 1, locations.one_byte.items()),
        1,
        locations.two_byte.items(),
    )
}

#[tactic(auto, using(crate::proofs::Lengths::exported_class_length))]
fn exported_class_size(class: &ExportedClass) -> u64
    ensures { result ≡ capped (length (exported_class_bytes class.now)) }
{
    behind(behind(4, 2, class.fields.items()), 2, class.methods.items())
}

#[tactic(auto, using(crate::proofs::Lengths::sizes_step))]
fn exported_classes_size(classes: &[ExportedClass]) -> u64
    ensures { result ≡ capped (length (flat_map exported_class_bytes classes.now)) }
{
    let mut size: u64 = 0;
    for class in classes {
        size = size.saturating_add(exported_class_size(class));
    }
    size
}

#[tactic(auto, using(crate::proofs::Lengths::export_length))]
fn export_size(export: &Export) -> u64
    ensures { result ≡ capped (length (export_bytes export.now)) }
{
    exported_classes_size(export.classes.items()).saturating_add(1)
}

#[tactic(auto, using(crate::proofs::Lengths::class_descriptor_length))]
fn class_descriptor_size(class: &ClassDescriptor) -> u64
    ensures { result ≡ capped (length (class_descriptor_bytes class.now)) }
{
    let members = behind(
        behind(9, 7, class.fields.items()),
        12,
        class.methods.items(),
    );
    behind(members, 2, class.interfaces.items())
}

#[tactic(auto, using(crate::proofs::Lengths::sizes_step))]
fn class_descriptors_size(classes: &[ClassDescriptor]) -> u64
    ensures { result ≡ capped (length (flat_map class_descriptor_bytes classes.now)) }
{
    let mut size: u64 = 0;
    for class in classes {
        size = size.saturating_add(class_descriptor_size(class));
    }
    size
}

#[tactic(auto, using(crate::proofs::Lengths::type_length))]
fn type_size(descriptor: &TypeDescriptor) -> u64
    ensures { result ≡ capped (length (type_bytes descriptor.now)) }
{
    let count = descriptor.nibbles.items().len() as u64;
    count / 2 + count % 2 + 1
}

#[tactic(auto, using(crate::proofs::Lengths::sizes_step))]
fn types_size(types: &[TypeDescriptor]) -> u64
    ensures { result ≡ capped (length (flat_map type_bytes types.now)) }
{
    let mut size: u64 = 0;
    for descriptor in types {
        size = size.saturating_add(type_size(descriptor));
    }
    size
}

/// The part in which types have offsets.
#[tactic(auto, using(crate::proofs::Lengths::types_length))]
pub(crate) fn types_part_size(descriptor: &Descriptor) -> u64
    ensures { result ≡ capped (length (types_bytes descriptor.now)) }
{
    behind(2, 2, descriptor.pool_types.items()).saturating_add(types_size(descriptor.types.items()))
}

#[tactic(auto, using(crate::proofs::Lengths::descriptor_length))]
fn descriptor_size(descriptor: &Descriptor) -> u64
    ensures { result ≡ capped (length (descriptor_bytes descriptor.now)) }
{
    let classes = class_descriptors_size(descriptor.classes.items()).saturating_add(1);
    classes.saturating_add(types_part_size(descriptor))
}

fn applet_part(applet: &Option<Applet>) -> u64
    ensures { result ≡ capped (length (part applet_bytes applet.now)) }
{
    match applet {
        Some(applet) => applet_size(applet),
        None => 0,
    }
}

fn import_part(import: &Option<Import>) -> u64
    ensures { result ≡ capped (length (part import_bytes import.now)) }
{
    match import {
        Some(import) => import_size(import),
        None => 0,
    }
}

fn pool_part(pool: &Option<ConstantPool>) -> u64
    ensures { result ≡ capped (length (part pool_bytes pool.now)) }
{
    match pool {
        Some(pool) => pool_size(pool),
        None => 0,
    }
}

fn class_part(class: &Option<ClassInfo>) -> u64
    ensures { result ≡ capped (length (part class_info_bytes class.now)) }
{
    match class {
        Some(class) => class_info_size(class),
        None => 0,
    }
}

fn method_part(method: &Option<Method>) -> u64
    ensures { result ≡ capped (length (part method_bytes method.now)) }
{
    match method {
        Some(method) => method_size(method),
        None => 0,
    }
}

fn statics_part(image: &Option<StaticField>) -> u64
    ensures { result ≡ capped (length (part static_field_bytes image.now)) }
{
    match image {
        Some(image) => static_field_size(image),
        None => 0,
    }
}

fn locations_part(locations: &Option<ReferenceLocation>) -> u64
    ensures { result ≡ capped (length (part reference_location_bytes locations.now)) }
{
    match locations {
        Some(locations) => locations_size(locations),
        None => 0,
    }
}

fn export_part(export: &Option<Export>) -> u64
    ensures { result ≡ capped (length (part export_bytes export.now)) }
{
    match export {
        Some(export) => export_size(export),
        None => 0,
    }
}

fn descriptor_part(descriptor: &Option<Descriptor>) -> u64
    ensures { result ≡ capped (length (part descriptor_bytes descriptor.now)) }
{
    match descriptor {
        Some(descriptor) => descriptor_size(descriptor),
        None => 0,
    }
}

/// The size item that the component of this tag has when it is written, before any limit; 0 where it is
/// absent. Takes no memory.
pub fn size(tree: &CapTree, tag: u8) -> u64
    ensures { result ≡ capped (length (info_of tree.now tag)) }
{
    match tag {
        1 => header_size(&tree.header),
        2 => directory_size(&tree.directory),
        3 => applet_part(&tree.applet),
        4 => import_part(&tree.import),
        5 => pool_part(&tree.pool),
        6 => class_part(&tree.class),
        7 => method_part(&tree.method),
        8 => statics_part(&tree.statics),
        9 => locations_part(&tree.locations),
        10 => export_part(&tree.export),
        11 => descriptor_part(&tree.descriptor),
        _ => 0,
    }
}
