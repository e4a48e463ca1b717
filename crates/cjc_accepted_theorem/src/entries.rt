//! Entries of the constant pool: each names a member of its key's descriptor.
ghost use Rattle.std.specs.Prelude.{◌≡◌, ℕ, false, List, Some};
ghost use Rattle.cjc_verified_proof.specs.Bytes.AccessFlags.{is_interface};
ghost use Rattle.cjc_verified_proof.specs.Bytes.declared.fault.MemberId.{MemberId};
ghost use Rattle.cjc_theorem.specs.CheckProof.Code.Members.{IsOwnCell};
ghost use Rattle.cjc_verified_proof.specs.ClassFile.declared.tree.ClassTree.{ClassTree};
ghost use Rattle.cjc_verified_proof.specs.Bytecode.declared.insn.JOp.TheVariants as jop;
ghost use Rattle.cjc_verified_proof.specs.Components.Names.{names};
ghost use Rattle.cjc_verified_proof.specs.Components.Package.{Package, world};
ghost use Rattle.cjc_verified_proof.specs.Narrow.Rows.Resolved.{resolved_method};
ghost use Rattle.cjc_accepted_proof.specs.NarrowProof.Laws.Unbroken.{IsInsnOf};
ghost use Rattle.cjc_verified_proof.specs.NCode.Lowering.Naming.{entry_of};
ghost use Rattle.cjc_verified_proof.specs.NCode.declared.narrow.PoolKey.TheVariants as keys;
ghost use Rattle.cjc_theorem.specs.LowerJudge.declared.judged.Judged.{Judged};
ghost use Rattle.cjc_verified_proof.specs.TokenProof.Components.OwnNames.{HaveOwnNames};
ghost use Rattle.cjc_verified_proof.specs.List.Listed.{ListTree};
ghost use Rattle.cjc_verified_proof.specs.Verify.Named.{named_desc};
ghost use Rattle.cjc_verified_proof.specs.World.Classes.{Class, class_named};
ghost use Rattle.cjc_verified_proof.specs.World.Order.{class_order};
ghost use Rattle.cjc_accepted_proof.specs.Carded.{EntriesAreNamed};
ghost use Rattle.cjc_accepted_proof.specs.Written.{written_pair};
ghost use Rattle.cjc_accepted_theorem.specs.Readable.{IsReadable};

use cjc_theorem::alike::{calls_have_opcodes, super_calls_are_named, virtual_calls_are_named};
use cjc_theorem::shape_proof::written::static_images_fit;
use cjc_theorem::vtable::slot_laws::tokens_mean_methods;
use cjc_theorem::vtable::{dispatch_laws, token_laws};
use cjc_verified_proof::token_proof::tables::static_fields_are_told;
use cjc_verified_proof::world::lookup_laws;

/// The entry of a static field of the package names the field of its descriptor: no other has a cell where its own
/// stands.
pub fn static_fields_are_named()
    ensures { (p : Package) → HaveOwnNames (class_order (world p)) → (f : MemberId) → IsOwnCell p f
        → named_desc (written_pair p) (entry_of (names p) (keys.StaticField f)) ≡ Some f.desc }
{}

/// The entry of a method that code calls, by the class that declares it, names the method of its descriptor, where that
/// is a class of the package: no other method begins where its own header stands.
pub fn own_methods_are_named()
    ensures { (list : ListTree) (files : List (List ℕ)) (judged : Judged) (p : Package)
        → IsReadable list files judged p
        → (class : ClassTree) (op : ℕ) (id : MemberId) → IsInsnOf p.files judged.codes class (jop.Call op id)
        → (c : Class) → (let m = resolved_method (world p) id in class_named (world p) m.class ≡ Some c)
        → c.is_imported ≡ false → is_interface c.flags ≡ false
        → named_desc (written_pair p) (entry_of (names p) (keys.StaticMethod (resolved_method (world p) id)))
        ≡ Some id.desc }
{}

/// So each entry of a converted package's pool names a member of its key's descriptor: a field, a static method, a
/// constructor or a private method by the class that declares it, a virtual method and one of a superclass by a token
/// that means one of its descriptor.
pub fn converted_packages_have_named_entries()
    ensures { (list : ListTree) (files : List (List ℕ)) (judged : Judged) (p : Package)
        → IsReadable list files judged p → EntriesAreNamed p }
{
    calls_have_opcodes();
    dispatch_laws();
    lookup_laws();
    static_fields_are_told();
    static_images_fit();
    super_calls_are_named();
    token_laws();
    tokens_mean_methods();
    virtual_calls_are_named();
}
