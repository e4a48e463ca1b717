//! The classes of several packages together: each class file of a package is found there by its name and by its
//! number, and its package by its name; so is each class of an export file from outside; and no other class is there.
//! Whoever promises that a group runs alike cites it. It has definitions and laws alone, and knows no instruction.
ghost use Rattle.std.specs.Prelude.{◌≡◌, ◌+◌, ℕ, List, Some, None, slice_get, true, false};
ghost use Rattle.cjc_exported.specs.ClassFile.declared.tree.ClassTree.{ClassTree};
ghost use Rattle.cjc_card_semantics.specs.ExportFile.declared.tree.ExportClass.{ExportClass};
ghost use Rattle.cjc_exported.specs.World.Classes.{all_classes, class_at, class_named, declared, imported};
ghost use Rattle.cjc_exported.specs.World.Files.{Files};
ghost use Rattle.cjc_link_semantics.specs.JvmSemantics.Group.{files_of_class, joint};
ghost use Rattle.cjc_joint_proof.specs.Sound.{AreSound};
ghost use Rattle.cjc_joint_proof.specs.Worlds.{AreApart, AreApartFromOutside, IsListed, IsOwn, before};
ghost use Rattle.cjc_joint_proof.specs.Worlds.{outside_classes};

/// The joint world has each class file of each package, by its name and by its number behind the class files of the
/// packages before, and each class of an export file from outside; it has no other class.
pub fn classes_are_found()
    ensures own { (group : List Files) → AreApart group → (i k : ℕ) (p : Files) (c : ClassTree) → IsOwn group i k p c
        → class_named (all_classes (joint group)) c.name ≡ Some (declared (before group i + k) c) }
    ensures own_number { (group : List Files) (i k : ℕ) (p : Files) (c : ClassTree) → IsOwn group i k p c
        → class_at (all_classes (joint group)) false (before group i + k) ≡ Some (declared (before group i + k) c) }
    ensures outside { (group : List Files) → AreApart group → AreApartFromOutside group → (n : ℕ) (d : ExportClass)
        → slice_get (outside_classes group) n ≡ Some d
        → class_named (all_classes (joint group)) d.name ≡ Some (imported n d) }
    ensures outside_number { (group : List Files) (n : ℕ) (d : ExportClass)
        → slice_get (outside_classes group) n ≡ Some d
        → class_at (all_classes (joint group)) true n ≡ Some (imported n d) }
    ensures no_other { (group : List Files) (x : List ℕ)
        → ((i k : ℕ) (p : Files) (c : ClassTree) → IsOwn group i k p c → c.name ≡ x → ⊥)
        → ((n : ℕ) (d : ExportClass) → slice_get (outside_classes group) n ≡ Some d → d.name ≡ x → ⊥)
        → class_named (all_classes (joint group)) x ≡ None }
{}

/// The package of a class that asks is the one that has its class file.
pub fn askers_are_found()
    ensures { (group : List Files) → AreApart group → (i k : ℕ) (p : Files) (c : ClassTree) → IsOwn group i k p c
        → files_of_class group c.name ≡ Some p }
{}

/// Packages that break no rule of classes and names, and whose names differ, have no class of one name, and the list of
/// each names its class files.
pub fn sound_packages_are_apart()
    ensures apart { (group : List Files) → AreSound group → AreApart group }
    ensures listed { (group : List Files) → AreSound group → (i k : ℕ) (p : Files) (c : ClassTree)
        → IsOwn group i k p c → IsListed p k c }
{}
