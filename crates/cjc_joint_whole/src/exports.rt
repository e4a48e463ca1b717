//! What the export file of a package lists of static methods and constructors, as other packages of a group use it:
//! each is a method that the package declares, which Export has under the same token; and what it lists of virtual methods:
//! what the class means by each token. It has laws alone.
ghost use Rattle.std.specs.Prelude.{◌≡◌, ℕ, List, [], Some, false, slice_get, true};
ghost use Rattle.cjc_bytes.specs.AccessFlags.{is_interface};
ghost use Rattle.cjc_bytes.specs.declared.fault.MemberId.{MemberId};
ghost use Rattle.cjc_bytes.specs.declared.settings.Settings.{Settings};
ghost use Rattle.cjc_components.specs.Bytecode.declared.method_code.MethodCode.{MethodCode};
ghost use Rattle.cjc_components.specs.ExportFile.{export_class, export_of, method_meant};
ghost use Rattle.cjc_components.specs.Exports.{exported_classes};
ghost use Rattle.cjc_components.specs.Methods.{method_offset};
ghost use Rattle.cjc_components.specs.Names.{member_token};
ghost use Rattle.cjc_components.specs.Package.{Package, world};
ghost use Rattle.cjc_jvm_semantics.specs.Group.{is_of_group};
ghost use Rattle.cjc_jvm_semantics.specs.OnePackage.{ResolvedMember, is_initialiser, method_hit};
ghost use Rattle.cjc_joint_proof.specs.JointCalled.{NamesOutsideMethod, NamesSharedMethod};
ghost use Rattle.cjc_joint_proof.specs.JointFixed.{ExportsMethod};
ghost use Rattle.cjc_joint_proof.specs.JointPackages.{AreLinked, files_together};
ghost use Rattle.cjc_joint_proof.specs.Loading.{ListsMethods};
ghost use Rattle.cjc_shape_proof.specs.LowerJudge.declared.judged.Judged.{Judged};
ghost use Rattle.cjc_shape_proof.specs.Written.Checked.{IsChecked};
ghost use Rattle.cjc_shape_proof.specs.Written.Converted.{IsConverted};
ghost use Rattle.cjc_shape_proof.specs.Written.Entries.{UnboundAreOwn};
ghost use Rattle.cjc_token_proof.specs.Calls.Reaching.{BeginsAtOffsets};
ghost use Rattle.cjc_token_proof.specs.List.Listed.{ListTree};
ghost use Rattle.cjc_token_proof.specs.Subset.Checks.{check_breaks};
ghost use Rattle.cjc_token_proof.specs.Tables.Infos.{HasEntry};
ghost use Rattle.cjc_token_proof.specs.Tables.Loading.{naming};
ghost use Rattle.cjc_token_proof.specs.Tables.Sound.{IsSound};
ghost use Rattle.cjc_token_proof.specs.WrittenCalls.Standing.{place};
ghost use Rattle.cjc_token_proof.specs.CardSemantics.Machine.Operations.{unbound_of};
ghost use Rattle.cjc_joint_whole.specs.Entries.{MeantAreListed, VirtualAreOwn};
ghost use Rattle.cjc_joint_whole.specs.Whole.{IsBound};
ghost use Rattle.cjc_tokens.specs.Lines.{line_at, line_of};
ghost use Rattle.cjc_tokens.specs.Members.{is_shown, is_virtual, signature_of};
ghost use Rattle.cjc_tokens.specs.Slots.{row, slots, token};
ghost use Rattle.cjc_vtable.specs.Laws.{KeepsRules, TokensAreOnce};
ghost use Rattle.cjc_world.specs.Classes.{Class, Member, class_named};
ghost use Rattle.cjc_world.specs.ExportFile.declared.tree.ExportClass.{ExportClass};
ghost use Rattle.cjc_world.specs.ExportFile.declared.tree.ExportMethod.{ExportMethod};
ghost use Rattle.cjc_world.specs.Lookup.{own_method};
ghost use Rattle.cjc_world.specs.Supertypes.{IsAcyclic};
ghost use Rattle.cjc_world.specs.Upwards.{IsOrdered};
ghost use Rattle.cjc_world.specs.declared.found.Found.{Found};

use cjc_shape_proof::writing::unbound_entries_are_own;
use cjc_shape_proof::written::converted_classes_keep_rules;
use cjc_theorem::alike::converted_packages_are_laid_out;
use cjc_vtable::package_laws;

/// Where the static methods and constructors that an export file lists are those that the classes of the package
/// declare, Export has each by its token; and one that another package finds by its token is a public or protected
/// method of the class, of the same name, descriptor and flags, at the place of the token.
pub fn export_files_list_methods()
    ensures lists { (p : Package) → UnboundAreOwn p → ListsMethods p }
    ensures exports { (p : Package) → UnboundAreOwn p → (asker : Package) (entry : ExportClass) (c : Class)
        → slice_get (exported_classes p) entry.token ≡ Some c → export_class p c ≡ entry → is_interface c.flags ≡ false
        → (id : MemberId) (f : Found) (m : ExportMethod)
        → unbound_of entry.methods (member_token asker (Some f)) ≡ Some m → m.name ≡ id.name → m.desc ≡ id.desc
        → ((hit : ResolvedMember) → method_hit (world asker) f ≡ Some hit → hit.flags ≡ m.flags)
        → ExportsMethod asker p entry id f }
{}

/// So it is with the export file that a converted package writes.
pub fn converted_packages_list_methods()
    ensures entries { (list : ListTree) (files : List (List ℕ)) (judged : Judged) (p : Package)
        → IsConverted list files judged p → UnboundAreOwn p }
    ensures lists { (list : ListTree) (files : List (List ℕ)) (judged : Judged) (p : Package)
        → IsConverted list files judged p → ListsMethods p }
{
    converted_classes_keep_rules();
    converted_packages_are_laid_out();
    unbound_entries_are_own();
}

/// The virtual methods that the export file of a package lists of a class are those that the class means by their
/// tokens, with their names, descriptors and flags, whether it declares, got or inherits them; and each public or
/// protected one that it means by a token is listed under it.
pub fn export_files_list_virtual_methods()
    ensures own { (list : List ℕ) (p : Package) (codes : List MethodCode) (settings : Settings)
        → IsSound list p.files → check_breaks list p.files codes settings ≡ [] → IsOrdered (world p)
        → KeepsRules (world p) → VirtualAreOwn p }
    ensures all { (list : List ℕ) (p : Package) (codes : List MethodCode) (settings : Settings)
        → IsSound list p.files → check_breaks list p.files codes settings ≡ [] → IsOrdered (world p)
        → KeepsRules (world p) → MeantAreListed p }
{}

/// So it is with the export file of a package that breaks no rule of its files, whichever of its methods are in int mode.
pub fn checked_packages_list_virtual_methods()
    ensures own { (list : ListTree) (codes : List MethodCode) (p : Package) → IsChecked list codes p
        → VirtualAreOwn p }
    ensures all { (list : ListTree) (codes : List MethodCode) (p : Package) → IsChecked list codes p
        → MeantAreListed p }
{
    package_laws();
}

/// And with that which a converted package writes.
pub fn converted_packages_list_virtual_methods()
    ensures own { (list : ListTree) (files : List (List ℕ)) (judged : Judged) (p : Package)
        → IsConverted list files judged p → VirtualAreOwn p }
    ensures all { (list : ListTree) (files : List (List ℕ)) (judged : Judged) (p : Package)
        → IsConverted list files judged p → MeantAreListed p }
{
    converted_classes_keep_rules();
}

/// Virtual tokens that a package reads of a class which another package of the group exports are those that the class has
/// there; and it reads each public or protected method that the class means by a token, under that token.
pub fn imported_tokens_are_the_exporters()
    ensures listed { (packages : List Package) → AreLinked packages → (q r : ℕ) (p e : Package)
        → slice_get packages q ≡ Some p → slice_get packages r ≡ Some e → (x : List ℕ) (c : Class)
        → class_named (world p) x ≡ Some c → c.is_imported ≡ true → is_interface c.flags ≡ false
        → (h : HasEntry p c) → h.tree ≡ export_of e → VirtualAreOwn e → (i : ℕ) (m : Member)
        → slice_get c.methods i ≡ Some m → is_virtual m ≡ true
        → token (slots (line_of (world e) x)) (signature_of m) ≡ Some m.token }
    ensures meant { (packages : List Package) → AreLinked packages → (q r : ℕ) (p e : Package)
        → slice_get packages q ≡ Some p → slice_get packages r ≡ Some e → (x : List ℕ) (c : Class)
        → class_named (world p) x ≡ Some c → c.is_imported ≡ true → is_interface c.flags ≡ false
        → (h : HasEntry p c) → h.tree ≡ export_of e → MeantAreListed e → TokensAreOnce (world p) → (k : Class)
        → class_named (world e) x ≡ Some k → (t : ℕ) (f : Found) (m : Member)
        → slice_get (row (line_at (world e) k)) t ≡ Some (Some f) → method_meant (world e) f ≡ Some m
        → is_shown m ≡ true → token (slots (line_of (world p) x)) (signature_of m) ≡ Some t }
{}

/// A static method or constructor that code of a package names by an imported class is the entry that its token means:
/// of a class from outside, and of one of another package of the group, where it is the method that the class declares.
pub fn imported_methods_are_named()
    ensures outside { (packages : List Package) → AreLinked packages → (list : List ℕ) (p : Package)
        → IsSound list p.files → IsAcyclic (world p) → (id : MemberId) (c : Class)
        → class_named (world p) id.class ≡ Some c → c.is_imported ≡ true → is_interface c.flags ≡ false
        → (h : HasEntry p c) (f : Found) → own_method false id.name id.desc c ≡ Some f
        → is_initialiser id.name ≡ false → IsBound c f
        → is_of_group (files_together packages) (let t = h.tree in t.name) ≡ false
        → NamesOutsideMethod packages p id }
    ensures shared { (packages : List Package) → AreLinked packages → (list : List ℕ) (p : Package)
        → IsSound list p.files → IsAcyclic (world p) → (id : MemberId) (c : Class)
        → class_named (world p) id.class ≡ Some c → c.is_imported ≡ true → is_interface c.flags ≡ false
        → (h : HasEntry p c) (f : Found) → own_method false id.name id.desc c ≡ Some f
        → is_initialiser id.name ≡ false → IsBound c f
        → (r : ℕ) (e : Package) → slice_get packages r ≡ Some e → h.tree ≡ export_of e → UnboundAreOwn e
        → BeginsAtOffsets e.files (world e) (naming e) (method_offset e) (place e) → (d : Class)
        → (let x = h.entry in slice_get (exported_classes e) x.token ≡ Some d)
        → (let x = h.entry in export_class e d ≡ x)
        → is_interface d.flags ≡ false → NamesSharedMethod packages p id }
{}
