//! The classes of several packages together are in order where those of each package are: superclasses are classes and
//! interfaces are interfaces, and java/lang/Object stands above each class. It has definitions and laws alone.
ghost use Rattle.std.specs.Prelude.{◌≡◌, ℕ, List, Option, Some, true, false, slice_get};
ghost use Rattle.cjc_bytes.specs.AccessFlags.{is_interface, is_static};
ghost use Rattle.cjc_bytes.specs.declared.fault.MemberId.{MemberId};
ghost use Rattle.cjc_world.specs.ClassFile.declared.tree.ClassTree.{ClassTree};
ghost use Rattle.cjc_world.specs.ClassFile.declared.tree.FieldTree.{FieldTree};
ghost use Rattle.cjc_world.specs.declared.found.Found.{Found};
ghost use Rattle.cjc_world.specs.Classes.{Class, all_classes, class_named, field_of_class};
ghost use Rattle.cjc_world.specs.Files.{Files};
ghost use Rattle.cjc_world.specs.Lookup.{first, object, receiver};
ghost use Rattle.cjc_world.specs.Subtype.{starts};
ghost use Rattle.cjc_world.specs.Supertypes.{line};
ghost use Rattle.cjc_world.specs.Upwards.{Below, Has, IsOrdered};
ghost use Rattle.cjc_jvm_semantics.specs.Group.{find_exposed, is_exposed, is_open, is_package_visible, own_where};
ghost use Rattle.cjc_jvm_semantics.specs.Group.{own_within, package_of, selection_for};
ghost use Rattle.cjc_jvm_semantics.specs.OnePackage.{ResolvedMember, member_of, object_fields};
ghost use Rattle.cjc_joint_proof.specs.Worlds.{IsOwn, before, found_in};
ghost use Rattle.cjc_joint_theorem.specs.Lines.{Begins, Moves};
ghost use Rattle.cjc_joint_theorem.specs.Ordered.{AreOrdered};
ghost use Rattle.cjc_joint_theorem.specs.Together.Homes.{joint_world};

/// Packages each of which has its classes in order have them in order together, where export files say the kinds of
/// their classes, and those from outside list classes and interfaces of outside as what they are. No class has the name
/// of an array where none of a package has it.
pub fn joint_worlds_are_ordered()
    ensures ordered { (group : List Files) → AreOrdered group → IsOrdered (joint_world group) }
    ensures plain { (group : List Files) → AreOrdered group
        → ((q : ℕ) (p : Files) → slice_get group q ≡ Some p → (x : List ℕ) (c : Class)
        → class_named (all_classes p) x ≡ Some c → starts 91 x ≡ false)
        → (x : List ℕ) (c : Class) → class_named (joint_world group) x ≡ Some c → starts 91 x ≡ false }
{}

/// In the joint world the search of a class of a package and its superclasses goes through the same class files of the
/// package as in its own world, and goes on at the same first imported class.
pub fn searches_begin_alike()
    ensures { (group : List Files) → AreOrdered group → (q : ℕ) (p : Files) → slice_get group q ≡ Some p
        → (own : Class → Option Found) → Moves own → (x : List ℕ) (c : Class)
        → class_named (all_classes p) x ≡ Some c → Begins group q p own x }
{}

/// So what a package finds in its own class files is found in the joint world: a public or protected method that a
/// class declares or inherits, and what is selected on a class, whether the method that is called is package-visible
/// or not.
pub fn own_methods_are_selected()
    ensures exposed { (group : List Files) → AreOrdered group → (q : ℕ) (p : Files) → slice_get group q ≡ Some p
        → (x : List ℕ) (c : Class) → class_named (all_classes p) x ≡ Some c → (id : MemberId) (f : Found)
        → first (own_where is_exposed id.name id.desc) (line (all_classes p) x) ≡ Some f → f.imported ≡ false
        → find_exposed (joint_world group) x id ≡ Some (found_in (before group q) f) }
    ensures opened { (group : List Files) → AreOrdered group → (q : ℕ) (p : Files) → slice_get group q ≡ Some p
        → (hit : ResolvedMember) → is_package_visible hit.flags ≡ false → (x : List ℕ) (c : Class)
        → class_named (all_classes p) (receiver x) ≡ Some c → (id : MemberId) (f : Found)
        → first (own_where is_open id.name id.desc) (line (all_classes p) (receiver x)) ≡ Some f
        → f.imported ≡ false
        → selection_for (joint_world group) hit x id ≡ Some (found_in (before group q) f) }
    ensures hidden { (group : List Files) → AreOrdered group → (q : ℕ) (p : Files) → slice_get group q ≡ Some p
        → (hit : ResolvedMember) → is_package_visible hit.flags ≡ true → (x : List ℕ) (c : Class)
        → class_named (all_classes p) (receiver x) ≡ Some c → (id : MemberId) (f : Found)
        → first (own_within (package_of (let owner = hit.owner in owner.name)) id.name id.desc)
        (line (all_classes p) (receiver x)) ≡ Some f → f.imported ≡ false
        → selection_for (joint_world group) hit x id ≡ Some (found_in (before group q) f) }
{}

/// An object of a class of a package has in the joint world each field of objects that the class or a superclass
/// declares, whichever package that is of. No imported class is of a class of the group, and no array is.
pub fn joint_objects_have_fields()
    ensures fields { (group : List Files) → AreOrdered group → (q k : ℕ) (p : Files) (t : ClassTree)
        → IsOwn group q k p t → is_interface t.flags ≡ false → (i : ℕ) (f : FieldTree)
        → slice_get t.fields i ≡ Some f → is_static f.flags ≡ false → (x : List ℕ) (c : Class)
        → class_named (joint_world group) x ≡ Some c → is_interface c.flags ≡ false
        → Below (joint_world group) x t.name
        → Has (member_of t.name (field_of_class f)) (object_fields (joint_world group) x) }
    ensures own { (group : List Files) → AreOrdered group → (q k : ℕ) (p : Files) (t : ClassTree)
        → IsOwn group q k p t → is_interface t.flags ≡ false → (x : List ℕ) (c : Class)
        → class_named (joint_world group) x ≡ Some c → Below (joint_world group) x t.name → c.is_imported ≡ false }
    ensures arrays { (group : List Files) → AreOrdered group → (q k : ℕ) (p : Files) (t : ClassTree)
        → IsOwn group q k p t → is_interface t.flags ≡ false → Below (joint_world group) object t.name → ⊥ }
{}
