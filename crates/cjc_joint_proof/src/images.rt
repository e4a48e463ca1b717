//! What static fields hold at first, of several packages: each package's fields hold what they hold in the package by
//! itself, and the numbers of its arrays stand behind those of the packages before, by name and by token. Whoever
//! promises that a group runs alike cites it. It has definitions and laws alone.
ghost use Rattle.std.specs.Prelude.{◌≡◌, ◌+◌, ℕ, List, Some, flat_map, map, slice_get};
ghost use Rattle.cjc_card_semantics.specs.Bytes.declared.fault.MemberId.{MemberId};
ghost use Rattle.cjc_card_semantics.specs.Machine.Loaded.{Part};
ghost use Rattle.cjc_card_semantics.specs.Machine.Statics.{first_image, first_images};
ghost use Rattle.cjc_exported.specs.World.Files.{Files};
ghost use Rattle.cjc_exported.specs.World.declared.image.StaticImage.{StaticImage};
ghost use Rattle.cjc_link_semantics.specs.JvmSemantics.Group.{joint_classes, joint_image, package_of};
ghost use Rattle.cjc_link_semantics.specs.JvmSemantics.OnePackage.{cell_of, cells};
ghost use Rattle.cjc_joint_proof.specs.Images.{TellOwnFields, arrays_before, cell_behind, inits_before};
ghost use Rattle.cjc_joint_proof.specs.Worlds.{AreApart};

/// A static field of a class of a package holds by the joint image what it holds by the package's own, an array behind
/// those of the packages before; the static cells of all are those of each, package by package.
pub fn joint_cells_begin()
    ensures field { (group : List Files) (images : List StaticImage) → AreApart group → TellOwnFields group images
        → (q : ℕ) (p : Files) (image : StaticImage) (f : MemberId) → slice_get group q ≡ Some p
        → slice_get images q ≡ Some image → package_of f.class ≡ p.package_name
        → cell_of (joint_image images) f ≡ cell_behind (arrays_before images q) (cell_of image f) }
    ensures packages { (group : List Files) (images : List StaticImage) → AreApart group → TellOwnFields group images
        → (q : ℕ) (p : Files) (image : StaticImage) → slice_get group q ≡ Some p → slice_get images q ≡ Some image
        → cells (joint_image images) p.classes ≡ map (cell_behind (arrays_before images q)) (cells image p.classes) }
    ensures whole { (image : StaticImage) (group : List Files) → cells image (joint_classes group)
        ≡ flat_map (λ (p : Files). cells image p.classes) group }
{}

/// The image of a package of a group is the one of its StaticField component, its arrays behind those of the packages
/// before.
pub fn joint_images_begin()
    ensures { (k : ℕ) (parts : List Part) (q : ℕ) (part : Part) → slice_get parts q ≡ Some part
        → slice_get (first_images k parts) q ≡ Some (first_image (k + inits_before parts q) part.statics) }
{}
