//! Members of class files of a package by itself, and in the joint world of a group: what a look-up finds in a class
//! file of the package is there with the same code, flags and constant. Whoever promises that a group runs alike cites
//! it. It has definitions and laws alone.
ghost use Rattle.std.specs.Prelude.{◌≡◌, ◌+◌, ℕ, ℤ, Bool, List, Some, false, option_map, slice_get};
ghost use Rattle.cjc_card_semantics.specs.Bytes.declared.fault.MemberId.{MemberId};
ghost use Rattle.cjc_exported.specs.ClassFile.declared.tree.ClassTree.{ClassTree};
ghost use Rattle.cjc_card_semantics.specs.ExportFile.declared.tree.ExportClass.{ExportClass};
ghost use Rattle.cjc_exported.specs.World.Classes.{all_classes, declared, imported};
ghost use Rattle.cjc_link_semantics.specs.JvmSemantics.Linked.{Constant};
ghost use Rattle.cjc_exported.specs.World.Files.{Files};
ghost use Rattle.cjc_exported.specs.World.Lookup.{find_field, find_method, own_field, own_method};
ghost use Rattle.cjc_exported.specs.World.declared.found.Found.{Found};
ghost use Rattle.cjc_link_semantics.specs.JvmSemantics.Group.{call_from, field_from, joint, joint_method};
ghost use Rattle.cjc_link_semantics.specs.JvmSemantics.Group.{selection_for};
ghost use Rattle.cjc_link_semantics.specs.JvmSemantics.OnePackage.{ResolvedMember, call_by, constant_at, entry_named};
ghost use Rattle.cjc_link_semantics.specs.JvmSemantics.OnePackage.{field_hit};
ghost use Rattle.cjc_link_semantics.specs.JvmSemantics.OnePackage.{field_named, method_at, method_hit};
ghost use Rattle.cjc_joint_proof.specs.Worlds.{AreApart, AreApartFromOutside, IsForeign, IsListed, IsOwn, before};
ghost use Rattle.cjc_joint_proof.specs.Worlds.{found_at, found_in, hit_at, hit_in, outside_classes, own_member};

/// A class declares in the joint world what it declares in its package, each member at its place.
pub fn own_members_move()
    ensures methods { (n k : ℕ) (c : ClassTree) (selecting : Bool) (name desc : List ℕ)
        → own_method selecting name desc (declared (n + k) c)
        ≡ option_map (found_in n) (own_method selecting name desc (declared k c)) }
    ensures fields { (n k : ℕ) (c : ClassTree) (name desc : List ℕ)
        → own_field name desc (declared (n + k) c) ≡ option_map (found_in n) (own_field name desc (declared k c)) }
{}

/// A member of a class file is in the joint world the method with the same code, or the field with the same constant,
/// and has the same flags.
pub fn members_stay()
    ensures methods { (group : List Files) (i k : ℕ) (p : Files) (c : ClassTree) → IsOwn group i k p c → (m : ℕ)
        → method_at (joint group) (own_member (before group i + k) m) ≡ method_at p (own_member k m) }
    ensures constants { (group : List Files) (i k : ℕ) (p : Files) (c : ClassTree) → IsOwn group i k p c → (m : ℕ)
        → constant_at (joint group) (own_member (before group i + k) m) ≡ constant_at p (own_member k m) }
    ensures method_hits { (group : List Files) (i k : ℕ) (p : Files) (c : ClassTree) → IsOwn group i k p c
        → IsListed p k c → (m : ℕ) → method_hit (all_classes (joint group)) (own_member (before group i + k) m)
        ≡ option_map (hit_in (before group i)) (method_hit (all_classes p) (own_member k m)) }
    ensures field_hits { (group : List Files) (i k : ℕ) (p : Files) (c : ClassTree) → IsOwn group i k p c
        → IsListed p k c → (m : ℕ) → field_hit (all_classes (joint group)) (own_member (before group i + k) m)
        ≡ option_map (hit_in (before group i)) (field_hit (all_classes p) (own_member k m)) }
{}

/// A static method that a script calls by a class of a package is the one that it calls of the package by itself.
pub fn entries_stay()
    ensures { (group : List Files) (i k : ℕ) (p : Files) (c : ClassTree) → IsOwn group i k p c → AreApart group
        → IsListed p k c → (id : MemberId) → id.class ≡ c.name
        → entry_named (joint group) (all_classes (joint group)) id ≡ entry_named p (all_classes p) id }
{}

/// A field that code names and that is found in a class file of its package is in the group what it is in the package
/// by itself: the same constant, static field, or field of objects. A method that is found there is in the group that
/// very method, and what calls it is a call of it.
pub fn own_members_resolve()
    ensures fields { (group : List Files) → AreApart group → (i k : ℕ) (p : Files) (c : ClassTree) → IsOwn group i k p c
        → IsListed p k c → (id : MemberId) (f : Found) → own_field id.name id.desc (declared k c) ≡ Some f
        → find_field (all_classes p) id.class id.name id.desc ≡ Some f
        → field_from (joint group) (all_classes (joint group)) id p ≡ field_named p (all_classes p) id }
    ensures methods { (group : List Files) → AreApart group → (i k : ℕ) (p : Files) (c : ClassTree)
        → IsOwn group i k p c → IsListed p k c → (id : MemberId) (f : Found)
        → own_method false id.name id.desc (declared k c) ≡ Some f
        → joint_method (all_classes (joint group)) (declared k c) id ≡ Some (found_in (before group i) f) }
    ensures calls { (group : List Files) → AreApart group → (i k : ℕ) (p : Files) (c : ClassTree) → IsOwn group i k p c
        → IsListed p k c → (id : MemberId) (f : Found) → own_method false id.name id.desc (declared k c) ≡ Some f
        → find_method (all_classes p) id.class id.name id.desc ≡ Some f → (hit : ResolvedMember)
        → method_hit (all_classes p) f ≡ Some hit → (holder : List ℕ) (op : ℕ)
        → call_from (joint group) (all_classes (joint group)) holder op id p
        ≡ call_by (joint group) (all_classes (joint group)) (selection_for (all_classes (joint group))
        (hit_in (before group i) hit)) holder op id (found_in (before group i) f) (hit_in (before group i) hit) }
{}

/// A method that code names and that is found in a class of an export file from outside is in the group that very
/// method, of the class as the group keeps it, and what calls it is a call of it. A constant that code names, whoever
/// declares it, is its value.
pub fn foreign_members_resolve()
    ensures methods { (group : List Files) → AreApart group → AreApartFromOutside group → (n k : ℕ) (p : Files)
        (e : ExportClass) → slice_get (outside_classes group) n ≡ Some e → IsForeign p k e → (id : MemberId) (f : Found)
        → own_method false id.name id.desc (imported k e) ≡ Some f
        → joint_method (all_classes (joint group)) (imported k e) id ≡ Some (found_at n f) }
    ensures calls { (group : List Files) → AreApart group → AreApartFromOutside group → (n k : ℕ) (p : Files)
        (e : ExportClass) → slice_get (outside_classes group) n ≡ Some e → IsForeign p k e → (id : MemberId) (f : Found)
        → own_method false id.name id.desc (imported k e) ≡ Some f
        → find_method (all_classes p) id.class id.name id.desc ≡ Some f → (hit : ResolvedMember)
        → method_hit (all_classes p) f ≡ Some hit → (holder : List ℕ) (op : ℕ)
        → call_from (joint group) (all_classes (joint group)) holder op id p
        ≡ call_by (joint group) (all_classes (joint group)) (selection_for (all_classes (joint group)) (hit_at n hit))
        holder op id (found_at n f) (hit_at n hit) }
    ensures constants_alone { (p : Files) (id : MemberId) (f : Found) (hit : ResolvedMember) (z : ℤ)
        → find_field (all_classes p) id.class id.name id.desc ≡ Some f → field_hit (all_classes p) f ≡ Some hit
        → constant_at p f ≡ Some z → field_named p (all_classes p) id ≡ Some (Constant z) }
    ensures constants { (group : List Files) (p : Files) (id : MemberId) (f : Found) (hit : ResolvedMember) (z : ℤ)
        → find_field (all_classes p) id.class id.name id.desc ≡ Some f → field_hit (all_classes p) f ≡ Some hit
        → constant_at p f ≡ Some z
        → field_from (joint group) (all_classes (joint group)) id p ≡ Some (Constant z) }
{}
