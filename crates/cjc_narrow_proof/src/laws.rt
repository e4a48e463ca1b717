//! What a package keeps that breaks no rule of names, types and limits, as far as narrow code rests on it: what
//! code and class files name is found. Definitions and laws alone, for whoever promises that what was converted
//! behaves as its class files. It knows no token and no component.
ghost use Rattle.std.specs.List.{Contains};
ghost use Rattle.std.specs.Prelude.{◌≡◌, ◌<◌, ◌≤◌, ◌^◌, ℕ, Bool, List, Some, false, length, slice_get, true};
ghost use Rattle.cjc_bytes.specs.Descriptor.{IsClassName, Parts};
ghost use Rattle.cjc_bytes.specs.Spots.{desc_of};
ghost use Rattle.cjc_bytes.specs.declared.fault.MemberId.{MemberId as Member};
ghost use Rattle.cjc_bytes.specs.declared.settings.Settings.{Settings};
ghost use Rattle.cjc_code.specs.ClassFile.Code.{CodeTree};
ghost use Rattle.cjc_code.specs.ClassFile.declared.tree.Catch.{Catch};
ghost use Rattle.cjc_code.specs.ClassFile.declared.tree.ClassTree.{ClassTree};
ghost use Rattle.cjc_code.specs.ClassFile.declared.tree.MethodTree.{MethodTree};
ghost use Rattle.cjc_jvm_semantics.specs.OnePackage.{ResolvedMember, is_initialiser, made_of, method_hit};
ghost use Rattle.cjc_jvm_semantics.specs.OnePackage.{object_fields};
ghost use Rattle.cjc_jvm_semantics.specs.Linked.{Method};
ghost use Rattle.cjc_code.specs.declared.insn.JOp.TheVariants as jop;
ghost use Rattle.cjc_code.specs.declared.method_code.MethodCode.{MethodCode};
ghost use Rattle.cjc_narrow.specs.Rows.Package.{flags_of};
ghost use Rattle.cjc_narrow.specs.Rows.Resolved.{method_found};
ghost use Rattle.cjc_narrow_proof.specs.Runs.Converted.{IsConverted};
ghost use Rattle.cjc_narrow_proof.specs.Runs.Tables.{HasTables, Tables};
ghost use Rattle.cjc_narrow_proof.specs.Runs.Types.{IsThere};
ghost use Rattle.cjc_script.specs.Sorts.{Shape, shape_named};
ghost use Rattle.cjc_narrow_proof.specs.Tables.Calls.{IsWordDesc};
ghost use Rattle.cjc_types.specs.Flow.{arguments, body_of};
ghost use Rattle.cjc_types.specs.Tables.{IsMethodOf};
ghost use Rattle.cjc_world.specs.Classes.{Class, all_classes, class_named, declared};
ghost use Rattle.cjc_world.specs.Lookup.{find_field, find_method};
ghost use Rattle.cjc_world.specs.declared.found.Found.{Found};
ghost use Rattle.cjc_world.specs.declared.image.StaticImage.{StaticImage};
ghost use Rattle.cjc_world.specs.Files.{Files};
ghost use Rattle.cjc_narrow_proof.specs.Laws.Calls.{CallFits};
ghost use Rattle.cjc_narrow_proof.specs.Laws.Left.{HasLeast, IsLeft};
ghost use Rattle.cjc_narrow_proof.specs.Laws.Unbroken.{AreSpelt, IsInsnOf, IsUnbroken, KeepsNames};

/// A class of the package is the first of its name, and a look-up of a method's own name finds a method with its flags.
pub fn own_names_are_found()
    ensures classes { (list : List ℕ) (files : Files) (codes : List MethodCode) (settings : Settings)
        → KeepsNames list files codes settings
        → (n : ℕ) (class : ClassTree) → slice_get files.classes n ≡ Some class
        → class_named (all_classes files) class.name ≡ Some (declared n class) }
    ensures methods { (list : List ℕ) (files : Files) (codes : List MethodCode) (settings : Settings)
        → KeepsNames list files codes settings
        → (n k : ℕ) (class : ClassTree) (method : MethodTree) → slice_get files.classes n ≡ Some class
        → slice_get class.methods k ≡ Some method
        → flags_of (method_found (all_classes files) (record {
          class = class.name;
          name = method.name;
          desc = method.desc;
        })) ≡ method.flags }
{}

/// The name of each class of the package, and with it each name that a look-up finds, is one of a class, where
/// those of the package and of the classes in export files are.
pub fn class_names_are_spelt()
    ensures own { (list : List ℕ) (files : Files) (codes : List MethodCode) (settings : Settings)
        → KeepsNames list files codes settings → AreSpelt files
        → (n : ℕ) (class : ClassTree) → slice_get files.classes n ≡ Some class → IsClassName class.name }
    ensures found { (list : List ℕ) (files : Files) (codes : List MethodCode) (settings : Settings)
        → KeepsNames list files codes settings → AreSpelt files
        → (name : List ℕ) (c : Class) → class_named (all_classes files) name ≡ Some c → IsClassName name }
{}

/// The handlers of each method catch classes that are there, and their names are ones of classes.
pub fn handlers_catch_classes()
    ensures { (list : List ℕ) (files : Files) (codes : List MethodCode) (settings : Settings)
        → KeepsNames list files codes settings → AreSpelt files
        → (code : MethodCode) (class : ClassTree) (method : MethodTree) (tree : CodeTree)
        → IsMethodOf files code class method tree → Contains codes code
        → (c : Catch) (name : List ℕ) → Contains tree.catches c → c.class ≡ Some name → IsClassName name }
{}

/// The locals of each method have room for its receiver and its parameters.
pub fn parameters_have_locals()
    ensures { (files : Files) (code : MethodCode) (class : ClassTree) (method : MethodTree) (tree : CodeTree)
        → IsMethodOf files code class method tree → length method.desc < 2 ^ 32
        → length (arguments (body_of class method tree code.insns)) ≤ tree.max_locals }
{}

/// What instructions name is there: the class of an anewarray; the class of a new, of which objects are made;
/// and the class of a field or method, from which a look-up finds it.
pub fn instructions_name_what_is_there()
    ensures arrays { (list : List ℕ) (files : Files) (codes : List MethodCode) (settings : Settings)
        → KeepsNames list files codes settings → (class : ClassTree) (name : List ℕ)
        → IsInsnOf files codes class (jop.ANewArray name) → (c : Class) × (class_named (all_classes files) name
        ≡ Some c) }
    ensures objects { (list : List ℕ) (files : Files) (codes : List MethodCode) (settings : Settings)
        → KeepsNames list files codes settings → (class : ClassTree) (name : List ℕ)
        → IsInsnOf files codes class (jop.New name) → made_of (all_classes files) name
        ≡ Some (object_fields (all_classes files) name) }
    ensures fields { (list : List ℕ) (files : Files) (codes : List MethodCode) (settings : Settings)
        → KeepsNames list files codes settings → (class : ClassTree) (put : Bool) (id : Member)
        → IsInsnOf files codes class (jop.Field put id) → (c : Class) × (f : Found)
        × (class_named (all_classes files) id.class ≡ Some c) × (find_field (all_classes files) id.class id.name id.desc
        ≡ Some f) }
    ensures statics { (list : List ℕ) (files : Files) (codes : List MethodCode) (settings : Settings)
        → KeepsNames list files codes settings → (class : ClassTree) (put : Bool) (id : Member)
        → IsInsnOf files codes class (jop.Static put id) → (c : Class) × (f : Found)
        × (class_named (all_classes files) id.class ≡ Some c) × (find_field (all_classes files) id.class id.name id.desc
        ≡ Some f) }
    ensures methods { (list : List ℕ) (files : Files) (codes : List MethodCode) (settings : Settings)
        → KeepsNames list files codes settings → (class : ClassTree) (op : ℕ) (id : Member)
        → IsInsnOf files codes class (jop.Call op id) → (c : Class) × (f : Found)
        × (class_named (all_classes files) id.class ≡ Some c)
        × (find_method (all_classes files) id.class id.name id.desc ≡ Some f) }
{}

/// The types of each method of the package that is written, and of each that its code calls, are one word each.
pub fn methods_have_word_types()
    ensures own { (list : List ℕ) (files : Files) (codes : List MethodCode) (settings : Settings)
        → IsUnbroken list files codes settings → (code : MethodCode) (class : ClassTree) (method : MethodTree)
        (tree : CodeTree) → IsMethodOf files code class method tree → Contains codes code
        → is_initialiser method.name ≡ false → (d : Parts) → length method.desc < 2 ^ 32
        → desc_of method.desc ≡ Some d → d.is_method ≡ true → IsWordDesc method.desc }
    ensures called { (list : List ℕ) (files : Files) (codes : List MethodCode) (settings : Settings)
        → IsUnbroken list files codes settings → (class : ClassTree) (op : ℕ) (id : Member)
        → IsInsnOf files codes class (jop.Call op id)
        → (d : Parts) → length id.desc < 2 ^ 32 → desc_of id.desc ≡ Some d → d.is_method ≡ true → IsWordDesc id.desc }
{}

/// A method of a package that breaks no rule has, with its least tables, all that whole runs ask of a method.
/// So such a package is one whose narrow code runs as its class files, where the machine's own exceptions are
/// imported, what instructions and scripts name is in the class files and export files, and what the image says
/// is of sound types.
pub fn unbroken_packages_are_converted()
    ensures methods { (list : List ℕ) (files : Files) (codes : List MethodCode) (settings : Settings)
        → IsUnbroken list files codes settings → AreSpelt files
        → (tables : Tables) (m : Method) → HasLeast files codes tables m → HasTables files tables m }
    ensures whole { (list : List ℕ) (files : Files) (codes : List MethodCode) (settings : Settings)
        → IsUnbroken list files codes settings → AreSpelt files
        → (image : StaticImage) (near : List Member) (tables : Tables) → IsLeft files image near codes tables
        → IsConverted files image near tables }
{}

/// A method that a look-up finds is a class's, and a call fits the method that it names: by its name, and by
/// whether that is static and can be selected.
pub fn calls_fit_their_methods()
    ensures found { (list : List ℕ) (files : Files) (codes : List MethodCode) (settings : Settings)
        → KeepsNames list files codes settings → (class name desc : List ℕ) (f : Found)
        → find_method (all_classes files) class name desc ≡ Some f → (h : ResolvedMember)
        × (method_hit (all_classes files) f ≡ Some h) }
    ensures calls { (list : List ℕ) (files : Files) (codes : List MethodCode) (settings : Settings)
        → KeepsNames list files codes settings → (class : ClassTree) (op : ℕ) (id : Member)
        → IsInsnOf files codes class (jop.Call op id)
        → (f : Found) (h : ResolvedMember) → find_method (all_classes files) id.class id.name id.desc ≡ Some f
        → method_hit (all_classes files) f ≡ Some h → CallFits op id.name h.flags }
{}

/// What a checkcast or an instanceof names is a class or an array of one dimension, and the class that it names
/// is there.
pub fn casts_name_types()
    ensures casts { (list : List ℕ) (files : Files) (codes : List MethodCode) (settings : Settings)
        → KeepsNames list files codes settings → AreSpelt files → (class : ClassTree) (name : List ℕ)
        → IsInsnOf files codes class (jop.CheckCast name) → (kind : Shape (List ℕ)) × (shape_named name ≡ Some kind)
        × IsThere (all_classes files) kind }
    ensures tests { (list : List ℕ) (files : Files) (codes : List MethodCode) (settings : Settings)
        → KeepsNames list files codes settings → AreSpelt files → (class : ClassTree) (name : List ℕ)
        → IsInsnOf files codes class (jop.InstanceOf name) → (kind : Shape (List ℕ)) × (shape_named name ≡ Some kind)
        × IsThere (all_classes files) kind }
{}
