//! What a class of a package that extends one of a library keeps where the library has a new version. It has no code
//! that runs.

ghost use Rattle.std.specs.Prelude.{◌≡◌, ℕ, Bool, false, List, [], slice_get, Some};
ghost use Rattle.cjc_compat.specs.Rules as versions;
ghost use Rattle.cjc_cmd_compat.specs.Subclasses.{AddsUnknown, ExtendsNoFinal, HasOneToken, KeepsTokens};
ghost use Rattle.cjc_cmd_compat.specs.Subclasses.{ListsNoInitialiser, with_export};
ghost use Rattle.cjc_world.specs.Bytes.AccessFlags.{is_interface};
ghost use Rattle.cjc_world.specs.ClassFile.declared.tree.ClassTree.{ClassTree};
ghost use Rattle.cjc_world.specs.Classes.{all_classes, class_named, declared};
ghost use Rattle.cjc_compat.specs.ExportFile.Writable.{IsWritable};
ghost use Rattle.cjc_compat.specs.ExportFile.declared.tree.ExportTree.{ExportTree};
ghost use Rattle.cjc_world.specs.Files.{Files};
ghost use Rattle.cjc_world.specs.Rules as world;

/// Two trees of export files, of which the new one breaks none of 741 to 745, and the files of a package among whose
/// export files the old one stands. Where the package breaks none of 201 to 204, 207 and 208, neither with the old one
/// nor with the new one in its place, each class of the package that is no interface has the same tokens of virtual
/// methods with both: provided that the new version adds nothing that the package knows of, that the package extends no
/// final class of the old one, which lists no virtual method `<clinit>`, and that the export files above a class give
/// each method that the package declares one token.
pub fn subclasses_keep_tokens()
    ensures { (name list : List ℕ) (old new : ExportTree) (files : Files) (place : ℕ)
        → IsWritable old → IsWritable new → versions.breaks name old new ≡ []
        → slice_get files.exports place ≡ Some old → world.breaks list files ≡ []
        → world.breaks list (with_export files place new) ≡ [] → AddsUnknown files old new
        → ExtendsNoFinal files old → ListsNoInitialiser old → HasOneToken files
        → (applets : Bool) (n : ℕ) (c : ClassTree) → slice_get files.classes n ≡ Some c
        → class_named (all_classes files) c.name ≡ Some (declared n c) → is_interface c.flags ≡ false
        → KeepsTokens applets files (with_export files place new) n c }
{}
