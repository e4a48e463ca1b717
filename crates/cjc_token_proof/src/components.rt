//! What is written for a package is consistent: which sentences on components hold of all that the definitions
//! of components give, one law a sentence. The converter's promise rests on them. Nothing here runs.
ghost use Rattle.std.specs.Prelude.{◌≡◌, ℕ, List, [], true};
ghost use Rattle.cjc_world.specs.declared.image.StaticImage.{StaticImage as Image};
ghost use Rattle.cjc_components.specs.LowerCheckRules.Classes.{is_there};
ghost use Rattle.cjc_components.specs.LowerCheckRules.Listed.{directory_spots, flags_spots};
ghost use Rattle.cjc_components.specs.LowerCheckRules.Imports.{import_spots};
ghost use Rattle.cjc_components.specs.LowerCheckRules.Statics.{image_spots};
ghost use Rattle.cjc_components.specs.LowerCheckRules.Described.{all_starts, classes_in_order};
ghost use Rattle.cjc_world.specs.Order.{class_order};
ghost use Rattle.cjc_components.specs.Package.{Package, world};
ghost use Rattle.cjc_components.specs.Class.{class_info};
ghost use Rattle.cjc_components.specs.Names.{class_ref};
ghost use Rattle.cjc_components.specs.Descriptor.{descriptor};
ghost use Rattle.cjc_components.specs.Statics.{static_field};
ghost use Rattle.cjc_components.specs.Components.{components_of, import};
ghost use Rattle.cjc_token_proof.specs.Components.OwnNames.{HaveOwnNames};
ghost use Rattle.cjc_token_proof.specs.Components.Found.{IsFound};

/// Directory has the size of each component, and the numbers of StaticField, Import and Applet.
pub fn directory_says_what_is_there()
    ensures { (p : Package) → directory_spots (components_of p) ≡ [] }
{}

/// ACC_APPLET and ACC_EXPORT are set exactly where Applet and Export are there.
pub fn flags_say_what_is_there()
    ensures { (p : Package) → flags_spots (components_of p) ≡ [] }
{}

/// Import has the packages of the export files, in order.
pub fn imports_are_export_files()
    ensures { (p : Package) → import_spots (import p) (let files = p.files in files.exports) ≡ [] }
{}

/// The size of the static image is that of its cells, it has no more arrays than references, and arrays have
/// whole elements.
pub fn static_image_adds_up()
    ensures { (image : Image) → image_spots (static_field image) ≡ [] }
{}

/// Descriptor has each class and interface once, in the order of Class, at the start of its info: where no two
/// classes of the package have one name.
pub fn descriptor_classes_are_in_order()
    ensures { (p : Package) → HaveOwnNames (class_order (world p))
        → (let d = descriptor p in classes_in_order d.classes (all_starts (class_info (class_ref p) p))) ≡ [] }
{}

/// A class_ref to a class that some file has is the start of its info, or a class of its export file.
pub fn named_classes_are_there()
    ensures { (p : Package) (name : List ℕ) → IsFound p name
        → is_there (class_info (class_ref p) p) (let files = p.files in files.exports) (class_ref p name) ≡ true }
{}
