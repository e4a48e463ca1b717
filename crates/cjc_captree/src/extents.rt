//! Where each method of a package stands, by the number of its class and by its place there: made once, so that
//! whoever writes Class, Descriptor, Applet, Export and ConstantPool finds it without a search. It knows no
//! token and no byte.
ghost use Rattle.std.specs.Prelude.{◌≡◌, ◌≤◌, ◌<◌, ◌+◌, ℕ, List, Some, false, length, map};
ghost use Rattle.cjc_exported.specs.World.Classes.{Class, all_classes, class_at};
ghost use Rattle.cjc_exported.specs.World.Lookup.{member_at};
ghost use Rattle.cjc_exported.specs.World.Order.{method_order};
ghost use Rattle.cjc_exported.specs.Components.Methods.{method_offset};
ghost use Rattle.cjc_exported.specs.Components.Package.{Package, world};
ghost use Rattle.cjc_methods.specs.Ready.{AreOrdered};
ghost use Rattle.cjc_classes.specs.ClassInfo.Entries.{AreOffsets};
ghost use Rattle.cjc_exported.specs.ExportFile.Offsets.{offset_at};
ghost use Rattle.cjc_classes.specs.Descriptor.Made.{extents_of};

mod offsets;
mod rows;
mod table;

pub use offsets::method_offsets;
pub use table::extents;

/// The offsets in what `extents` gives are those of the package's methods, as whoever writes Class, Applet,
/// ConstantPool and Export asks: where its methods are those of its files in the order of Method.
pub fn offsets_are_of_the_package()
    ensures all { (p : Package) (order : List ℕ) → AreOrdered p.files order → map (λ m. m.member) p.methods
        ≡ method_order (world p) → AreOffsets p (map (map (λ e. e.offset)) (extents_of p)) }
    ensures own { (p : Package) (n k : ℕ) (c : Class) → class_at (world p) false n ≡ Some c → length c.fields ≤ k
        → k < length c.fields + length c.methods
        → offset_at (map (map (λ e. e.offset)) (extents_of p)) n k ≡ Some (method_offset p (member_at c k)) }
{}
