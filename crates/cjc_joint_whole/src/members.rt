//! What packages that break no rule keep together: their classes are in order, what an invokespecial takes as its
//! receiver is of the class that it takes in the joint world, and the fields, objects and methods that code names are
//! there, but for methods that are selected. It has laws alone.
ghost use Rattle.std.specs.Prelude.{◌≡◌, ℕ, List, Some, false, slice_get};
ghost use Rattle.cjc_bytes.specs.AccessFlags.{is_abstract, is_interface};
ghost use Rattle.cjc_bytes.specs.declared.fault.MemberId.{MemberId};
ghost use Rattle.cjc_jvm_semantics.specs.Group.{is_open, joint_image, own_where, run_group};
ghost use Rattle.cjc_jvm_semantics.specs.OnePackage.{ResolvedMember, is_initialiser, method_hit};
ghost use Rattle.cjc_joint_proof.specs.JointCode.{run as run_in_packages};
ghost use Rattle.cjc_joint_proof.specs.JointNames.{joint_labels, joint_named};
ghost use Rattle.cjc_joint_theorem.specs.Members.{AreMembers, AreScripted, Member, StandTogether};
ghost use Rattle.cjc_joint_theorem.specs.Members.{files_of, homes_of, images_of, tables_of};
ghost use Rattle.cjc_joint_theorem.specs.Ordered.{AreOrdered};
ghost use Rattle.cjc_joint_theorem.specs.Together.Calls.{IsStaticIn};
ghost use Rattle.cjc_joint_theorem.specs.Together.Homes.{joint_world, own_codes};
ghost use Rattle.cjc_joint_whole.specs.Told.{IsToldAbove};
ghost use Rattle.cjc_joint_whole.specs.Whole.{AreWhole, SelectionsStand};
ghost use Rattle.cjc_narrow_proof.specs.Runs.Calls.{IsStaticOn};
ghost use Rattle.cjc_token_proof.specs.CardSemantics.Bytecode.Runs.{Agree};
ghost use Rattle.cjc_token_proof.specs.Script.declared.script.Script.{Script};
ghost use Rattle.cjc_vtable.specs.Calls.{is_special};
ghost use Rattle.cjc_world.specs.ClassFile.declared.tree.ClassTree.{ClassTree};
ghost use Rattle.cjc_world.specs.Lookup.{first};
ghost use Rattle.cjc_world.specs.Supertypes.{line};
ghost use Rattle.cjc_world.specs.declared.found.Found.{Found};

/// Packages that break no rule are members of a group, each of which was converted, and their classes are in order
/// together.
pub fn whole_members_are_members()
    ensures members { (members : List Member) → AreWhole members → AreMembers members }
    ensures ordered { (members : List Member) → AreWhole members → AreOrdered (files_of members) }
{}

/// A static method that code of a package calls, which a class file of the package declares, one of a package before
/// that it imports, or a class from outside, stands for itself in the joint world. It is begun there by the tables of
/// the package that declares it; one of a class from outside makes an event there.
pub fn static_calls_stand()
    ensures { (members : List Member) → AreWhole members → (q : ℕ) (p : Member) → slice_get members q ≡ Some p
        → (id : MemberId) → IsStaticOn p.files p.tables id
        → IsStaticIn (files_of members) (homes_of members) (tables_of members) p.files id }
{}

/// What their code names of fields, static fields and classes of objects, and of static methods, constructors and
/// private methods, stands for what the joint world has, and each object that may be the receiver of a field there has
/// it.
pub fn names_stand_together()
    ensures { (members : List Member) → AreWhole members → SelectionsStand members → StandTogether members }
{}

/// What the search of a class and its superclasses in the joint world gives of public and protected methods, where it is
/// of a class file, selection in the own world of the class's package gives with the same flags. So on a class of which
/// objects may be it is no abstract method.
pub fn opened_methods_have_code()
    ensures { (members : List Member) → AreWhole members → (id : MemberId)
        → is_special (record { name = id.name; desc = id.desc }) ≡ false → is_initialiser id.name ≡ false
        → (f : Found) (h : ResolvedMember) → f.imported ≡ false
        → method_hit (joint_world (files_of members)) f ≡ Some h
        → (q : ℕ) (p : Member) → slice_get members q ≡ Some p → (k : ℕ) (t : ClassTree)
        → (let files = p.files in slice_get files.classes k ≡ Some t)
        → is_interface t.flags ≡ false → is_abstract t.flags ≡ false
        → first (own_where is_open id.name id.desc) (line (joint_world (files_of members)) t.name) ≡ Some f
        → is_abstract h.flags ≡ false }
{}

/// Where what stands above classes and interfaces is told, the methods that code selects by invokevirtual and
/// invokeinterface, and by invokespecial above the class that holds the code, stand for what the joint world has,
/// whichever class or interface declares them.
pub fn told_methods_are_selected()
    ensures { (members : List Member) → AreWhole members → IsToldAbove members → SelectionsStand members }
{}

/// Each method that scripts name is one of a class file of a package, with code that is begun by the tables of that
/// package, or the group has none for it.
pub fn scripts_name_methods()
    ensures { (members : List Member) → AreWhole members → AreScripted members }
{}

/// So for every script the joint run by name and that of their narrow code agree, where what stands above classes and
/// interfaces is told.
pub fn whole_members_run_together()
    ensures { (members : List Member) (first : Member) → slice_get members 0 ≡ Some first → AreWhole members
        → IsToldAbove members → (script : Script)
        → (let codes = own_codes (homes_of members) (tables_of members) in
        Agree 2 (λ n. run_group (files_of members) (images_of members) script n)
        (λ n. run_in_packages (joint_named (files_of members) (joint_image (images_of members)) codes)
        (joint_labels (files_of members) codes) script n)) }
{}
