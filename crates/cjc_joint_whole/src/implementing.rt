//! That packages which break no rule together have code for package-visible abstract methods of superclasses in other
//! packages. It has a law alone.
ghost use Rattle.std.specs.Prelude.{◌≤◌, List, length};
ghost use Rattle.cjc_components.specs.Package.{Package};
ghost use Rattle.cjc_joint_proof.specs.JointPackages.{files_together};
ghost use Rattle.cjc_joint_theorem.specs.Ordered.{AreOrdered};
ghost use Rattle.cjc_joint_whole.specs.Linking.{KeepGroupRules};
ghost use Rattle.cjc_joint_whole.specs.Whole.{AreImplemented};
ghost use Rattle.cjc_jvm_semantics.specs.Group.{joint_classes};

/// Where packages break no rule together, their classes are in order and they have no more class files than a group may
/// have: on a class that is not abstract each package-visible abstract method of a superclass in another package has code
/// in that package (735).
pub fn grouped_packages_are_implemented()
    ensures { (packages : List Package) → KeepGroupRules packages → AreOrdered (files_together packages)
        → length (joint_classes (files_together packages)) ≤ 16384 → AreImplemented (files_together packages) }
{}
