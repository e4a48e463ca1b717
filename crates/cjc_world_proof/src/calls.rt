//! Which methods calls and scripts reach, in packages whose classes have code for what they declare and
//! inherit. Definitions and laws alone: nothing here runs.
ghost use Rattle.std.specs.Prelude.{◌≡◌, List, ℕ, Some, false, slice_get, true};
ghost use Rattle.cjc_bytes.specs.AccessFlags.{is_interface, is_static};
ghost use Rattle.cjc_bytes.specs.declared.fault.MemberId.{MemberId};
ghost use Rattle.cjc_jvm_semantics.specs.Linked.{Callee, Method};
ghost use Rattle.cjc_jvm_semantics.specs.OnePackage.{entry_named, is_initialiser, member_of, object_fields, select_in};
ghost use Rattle.cjc_jvm_semantics.specs.OnePackage.{selected_from, sent_named};
ghost use Rattle.cjc_world_proof.specs.Calls.Solid.{IsSolid};
ghost use Rattle.cjc_world_proof.specs.Calls.Targets.{IsOwnCode, IsReceiver, IsSentTo, IsTarget};
ghost use Rattle.cjc_world.specs.Upwards.{Below, Has, OnLine};
ghost use Rattle.cjc_world.specs.Classes.{Class, Member as ClassMember, all_classes, class_named};
ghost use Rattle.cjc_world.specs.Files.{Files};
ghost use Rattle.cjc_world.specs.Lookup.{is_selectable, receiver};

/// A method that a script calls is a static one of the package, with code; one that it sends to an object has a
/// receiver, of whose class the object is.
pub fn scripts_begin_own_methods()
    ensures called { (files : Files) → IsSolid files → (id : MemberId) (m : Method)
        → entry_named files (all_classes files) id ≡ Some m → (code : IsOwnCode files id m)
        × (is_static (let k = code.method in k.flags) ≡ true) }
    ensures sent { (files : Files) → IsSolid files → (type : List ℕ) → IsReceiver (all_classes files) (receiver type)
        → (id : MemberId) (m : Method) → sent_named files (all_classes files) type id ≡ Some m
        → IsSentTo files (receiver type) id m }
{}

/// Where a class stands above a receiver and declares a method that can be selected, selection on the receiver
/// reaches a method of the package with code, of a class that it is of, or an imported one; unless the class is
/// an interface and the receiver's is imported.
pub fn selection_reaches_code()
    ensures { (files : Files) → IsSolid files → (type : List ℕ) (r : IsReceiver (all_classes files) (receiver type))
        (id : MemberId) → is_initialiser id.name ≡ false → (d : Class) (i : ℕ) (m : ClassMember)
        → Below (all_classes files) (receiver type) d.name → class_named (all_classes files) d.name ≡ Some d
        → slice_get d.methods i ≡ Some m → m.name ≡ id.name → m.desc ≡ id.desc → is_selectable m.flags ≡ true
        → (is_interface d.flags ≡ true → (let c = r.class in c.is_imported) ≡ false)
        → (callee : Callee) × (selected_from files (all_classes files) (select_in (all_classes files)) type id
        ≡ Some callee) × IsTarget files id (λ t k. (is_static k.flags ≡ false)
        × Below (all_classes files) (receiver type) t.name) callee }
{}

/// An object has each field of objects that its class or a superclass in the package declares.
pub fn objects_have_their_fields()
    ensures { (files : Files) → IsSolid files → (x : List ℕ) (d : Class) (i : ℕ) (m : ClassMember)
        → OnLine (all_classes files) x d → d.is_imported ≡ false → slice_get d.fields i ≡ Some m
        → is_static m.flags ≡ false → Has (member_of d.name m) (object_fields (all_classes files) x) }
{}
