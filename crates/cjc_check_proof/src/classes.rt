//! That what is written for the classes of a package is consistent, one law a sentence or a part of one: class_refs,
//! superclasses, tables, maps, install methods, Export and Descriptor. The converter's promise rests on them. Nothing
//! here runs.
ghost use Rattle.std.specs.Prelude.{◌≡◌, ◌==◌, ◌≤◌, ◌+◌, false, true, ℕ, List, length, slice_get, None, Some, []};
ghost use Rattle.cjc_capread.specs.declared.tree.ClassEntry.{ClassEntry};
ghost use Rattle.cjc_capread.specs.declared.tree.Descriptor.{Descriptor};
ghost use Rattle.cjc_capread.specs.declared.tree.ImplementedInterface.{ImplementedInterface};
ghost use Rattle.cjc_check_rules.specs.Spots.{along, in_info, unless};
ghost use Rattle.cjc_check_rules.specs.Complete.{class_info_size, described_size};
ghost use Rattle.cjc_check_rules.specs.ClassRefs.{class_ref_spots, pool_count_at, super_spots};
ghost use Rattle.cjc_check_rules.specs.Tables.{is_long_enough, table_spots};
ghost use Rattle.cjc_check_rules.specs.Statics.{install_spots};
ghost use Rattle.cjc_check_rules.specs.Exports.{export_spots};
ghost use Rattle.cjc_check_rules.specs.Described.{all_ascend, descriptor_spots, types_in_class, types_in_pool};
ghost use Rattle.cjc_components.specs.Package.{Package, world};
ghost use Rattle.cjc_components.specs.Class.{class_info};
ghost use Rattle.cjc_world.specs.Order.{class_order};
ghost use Rattle.cjc_token_proof.specs.Components.Methods.{HasMethods};
ghost use Rattle.cjc_token_proof.specs.Components.OwnNames.{HaveOwnNames};
ghost use Rattle.cjc_token_proof.specs.Components.Whole.{exports_of, whole};
ghost use Rattle.cjc_components.specs.Limits.{has_far_types, has_large_component};
ghost use Rattle.cjc_components.specs.Names.{class_ref, pool_entries};
ghost use Rattle.cjc_components.specs.Descriptor.{descriptor};
ghost use Rattle.cjc_token_proof.specs.Tables.Sound.{AreTyped, IsSound};
ghost use Rattle.cjc_check_proof.specs.Classes.Premises.{HaveInstalls, HasNearTypes, HasShortMethods, HasShortRefs};
ghost use Rattle.cjc_check_proof.specs.Classes.Premises.{ImportsAreWhole, InterfacesAreUnbound, KeysAreKnown};
ghost use Rattle.cjc_check_proof.specs.Classes.Premises.{TypesAreKnown};

use cjc_token_proof::components::{descriptor_classes_are_in_order, named_classes_are_there};
use cjc_world::lookup_laws;

/// Each class_ref inside is the start of a class or interface, and each one outside a class of its export file, in type
/// descriptors too.
pub fn class_refs_are_there()
    ensures { (list : List ℕ) (p : Package) → IsSound list p.files → KeysAreKnown p → TypesAreKnown p → HasShortRefs p
        → class_ref_spots (whole p) (exports_of p) ≡ [] }
{
    named_classes_are_there();
}

/// Superclasses are classes, and stand earlier where they are of the package; interfaces are interfaces.
pub fn superclasses_are_classes()
    ensures { (list : List ℕ) (p : Package) → IsSound list p.files → super_spots (whole p) (exports_of p) ≡ [] }
{}

/// The entries of tables are starts of methods, or 0xFFFF in a public table where some superclass is imported.
pub fn table_entries_are_method_starts()
    ensures { (list : List ℕ) (p : Package) → IsSound list p.files → HasMethods p → HasShortMethods p
        → table_spots (whole p) ≡ [] }
{}

/// An imported interface has the methods that its export file lists, each once.
pub fn imported_interfaces_are_whole()
    ensures { (list : List ℕ) (p : Package) → IsSound list p.files → ImportsAreWhole p }
{}

/// Each map of an interface has an index for each token that Descriptor gives a method of it, or, of an imported one,
/// for each method that its export file lists.
pub fn maps_are_long_enough()
    ensures { (list : List ℕ) (p : Package) → IsSound list p.files → ImportsAreWhole p
        → (j k : ℕ) (x : ClassEntry) (m : ImplementedInterface)
        → (let info = class_info (class_ref p) p in slice_get info.classes j ≡ Some x)
        → slice_get x.interfaces k ≡ Some m
        → is_long_enough (whole p) (exports_of p) m.interface (length m.index) ≡ true }
{}

/// The offsets of install methods are starts of static methods.
pub fn install_methods_are_static()
    ensures { (list : List ℕ) (p : Package) → IsSound list p.files → HasMethods p → HaveInstalls p
        → install_spots (whole p) ≡ [] }
{
    lookup_laws();
}

/// Descriptor has a type for each entry of the constant pool: none for a class, and the start of a type descriptor for
/// a member.
pub fn pool_entries_have_types()
    ensures count { (p : Package)
        → (let d = descriptor p in
        unless (length d.pool_types == length (pool_entries p)) (in_info 11 (pool_count_at d))) ≡ [] }
    ensures each { (p : Package) → HasNearTypes p
        → (let d = descriptor p in types_in_pool d (pool_count_at d + 2) d.pool_types (pool_entries p)) ≡ [] }
{}

/// The types of fields and methods in Descriptor are starts of type descriptors.
pub fn members_have_types()
    ensures { (p : Package) → AreTyped p.files
        → (let d = descriptor p in along described_size (types_in_class d) 1 d.classes) ≡ [] }
{}

/// Descriptor has the methods of classes in the order of Method, each once: their offsets ascend.
pub fn methods_are_described_in_order()
    ensures { (p : Package) → HaveOwnNames (class_order (world p)) → HasMethods p
        → (let d = descriptor p in all_ascend (class_info (class_ref p) p) None 1 d.classes) ≡ [] }
{}

/// Descriptor has each class and interface once, in the order of Class, and each method of a class once, in the order
/// of Method; its types are there.
pub fn descriptor_describes_what_is_there()
    ensures { (p : Package) → HaveOwnNames (class_order (world p)) → HasMethods p → AreTyped p.files → HasNearTypes p
        → descriptor_spots (whole p) ≡ [] }
{
    descriptor_classes_are_in_order();
    pool_entries_have_types();
    members_have_types();
    methods_are_described_in_order();
}

/// The offsets of Export are starts of classes, cells and static methods, in the order of the tokens that Descriptor
/// gives them.
pub fn exports_are_described()
    ensures { (list : List ℕ) (p : Package) → IsSound list p.files → HasMethods p → InterfacesAreUnbound p
        → export_spots (whole p) ≡ [] }
{}

/// Where neither 411 nor 416 is broken, types have offsets up to 32,767, and so have the infos of Class.
pub fn limits_are_kept()
    ensures types { (p : Package) → has_far_types p ≡ false → HasNearTypes p }
    ensures classes { (p : Package) → has_large_component p ≡ false
        → class_info_size (class_info (class_ref p) p) ≤ 32767 }
{}
