//! What the class files of several packages keep together that each keeps by itself. It has laws alone.
ghost use Rattle.std.specs.Prelude.{◌≡◌, ℕ, List, Some, true, false, slice_get};
ghost use Rattle.cjc_bytes.specs.AccessFlags.{is_abstract, is_interface, is_private, is_static};
ghost use Rattle.cjc_world.specs.ClassFile.Code.{CodeTree};
ghost use Rattle.cjc_world.specs.ClassFile.declared.tree.ClassTree.{ClassTree};
ghost use Rattle.cjc_world.specs.ClassFile.declared.tree.FieldTree.{FieldTree};
ghost use Rattle.cjc_world.specs.ClassFile.declared.tree.MethodTree.{MethodTree};
ghost use Rattle.cjc_world.specs.Classes.{Class, class_at, class_named, declared};
ghost use Rattle.cjc_world.specs.Files.{Files};
ghost use Rattle.cjc_jvm_semantics.specs.OnePackage.{is_constructor};
ghost use Rattle.cjc_jvm_semantics.specs.Group.{joint};
ghost use Rattle.cjc_token_proof.specs.LowerWorldProof.Calls.Solid.{IsSolid, IsOwn};
ghost use Rattle.cjc_joint_theorem.specs.Together.Homes.{joint_world};

/// A class that a name finds in the joint world is the one of its number; one that is not imported is that of the class
/// file of its number.
pub fn joint_names_find_numbers()
    ensures numbered { (group : List Files) (x : List ℕ) (c : Class) → class_named (joint_world group) x ≡ Some c
        → class_at (joint_world group) c.is_imported c.number ≡ Some c }
    ensures own { (group : List Files) (x : List ℕ) (c : Class) → class_named (joint_world group) x ≡ Some c
        → c.is_imported ≡ false → (t : ClassTree)
        × (slice_get (let j = joint group in j.classes) c.number ≡ Some t) × (c ≡ declared c.number t) }
{}

/// Where each package keeps it, methods of all that are not abstract have code, abstract ones are neither static nor
/// private nor constructors, and fields of interfaces are static.
pub fn joint_members_keep_rules()
    ensures coded { (group : List Files) → ((q : ℕ) (p : Files) → slice_get group q ≡ Some p → IsSolid p)
        → (class : ClassTree) (method : MethodTree) → IsOwn (joint group) class method
        → is_abstract method.flags ≡ false → (tree : CodeTree) × (method.code ≡ Some tree) }
    ensures bound { (group : List Files) → ((q : ℕ) (p : Files) → slice_get group q ≡ Some p → IsSolid p)
        → (class : ClassTree) (method : MethodTree) → IsOwn (joint group) class method
        → is_abstract method.flags ≡ true
        → (is_static method.flags ≡ false) × (is_private method.flags ≡ false)
        × (is_constructor method.name ≡ false) }
    ensures fields { (group : List Files) → ((q : ℕ) (p : Files) → slice_get group q ≡ Some p → IsSolid p)
        → (n k : ℕ) (class : ClassTree) (f : FieldTree) → slice_get (let j = joint group in j.classes) n ≡ Some class
        → slice_get class.fields k ≡ Some f → is_interface class.flags ≡ true → is_static f.flags ≡ true }
{}
