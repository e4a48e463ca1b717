//! What the machine by name does at the instructions of initialisers is what the static image says of them.
//! Definitions and laws alone: nothing here runs.
ghost use Rattle.std.specs.Prelude.{◌≡◌, ℕ, List, [], ◌∷◌, ◌++◌, length, map, slice_get, true, Option, Some};
ghost use Rattle.cjc_bytes.specs.declared.fault.MemberId.{MemberId};
ghost use Rattle.cjc_world.specs.ClassFile.declared.tree.ClassTree.{ClassTree};
ghost use Rattle.cjc_clinit.specs.Bytecode.declared.insn.JOp.{JOp};
ghost use Rattle.cjc_clinit.specs.Bytecode.declared.insn.JOp.TheVariants as jop;
ghost use Rattle.cjc_jvm_semantics.specs.LowerScript.declared.value.Value.{Value};
ghost use Rattle.cjc_world.specs.declared.image.StaticImage.{StaticImage};
ghost use Rattle.cjc_world.specs.Files.{Files};
ghost use Rattle.cjc_jvm_semantics.specs.ByName.{linked};
ghost use Rattle.cjc_jvm_semantics.specs.Effects.{Store, is_same_kind, value_in};
ghost use Rattle.cjc_jvm_semantics.specs.Linked.{Linked, Method, Static};
ghost use Rattle.cjc_clinit.specs.declared.stage.Held.{Held as Content};
ghost use Rattle.cjc_clinit.specs.Fields.{Contents};
ghost use Rattle.cjc_clinit.specs.Initialiser.{Initialises, Makes, Put, nothing_in, ops_of};
ghost use Rattle.cjc_clinit.specs.Bytecode.declared.method_code.MethodCode.{MethodCode};
ghost use Rattle.cjc_jvm_semantics.specs.OnePackage.{cells, static_array};
ghost use Rattle.cjc_world.specs.declared.image.ArrayCell.{ArrayCell};
ghost use Rattle.cjc_clinit.specs.Image.{AreInitialised, IsImage};
ghost use Rattle.cjc_world_proof.specs.Initialisers.Values.{AllHold, AreApart, StandOnce};
ghost use Rattle.cjc_world_proof.specs.Initialisers.Packages.{AllHaveCells, AllReturn, HaveRoom, HaveTypes};
ghost use Rattle.cjc_world_proof.specs.Initialisers.Packages.{first_store};
ghost use Rattle.cjc_world_proof.specs.Initialisers.Initialisers.{HasCells, Returns, store_after};
ghost use Rattle.cjc_world_proof.specs.Initialisers.Statements.{HaveRoomFor, Reaches, ops_from, store_with, value_by};

/// For every record of look-ups: from the first instruction of a statement, with an empty stack, the machine by
/// name comes behind its putstatic with an empty stack again, where the field has a cell of the kind of what is
/// put and the method has room for its operands. The statement's array stands last in the heap, and the field
/// holds it, the number or null.
pub fn statements_run()
    ensures { (l : Linked) (m : Method) (locals : List (Option Value)) (at : ℕ) (made ops : List JOp)
        (contents : Contents) (id field : MemberId) (old : Value) (store : Store)
        → HaveRoomFor m.max_stack made → Makes made contents → ops_from m at ≡ made ++ (jop.Static true id ∷ ops)
        → l.field (let here = m.id in here.class) id ≡ Some (Static field)
        → value_in store.statics field ≡ Some old → is_same_kind old (value_by (length store.heap) contents) ≡ true
        → (later : ℕ) × Reaches l m locals at [] store later [] (store_with store field contents)
        × (ops_from m later ≡ ops) }
{}

/// For the look-ups of one package: the machine by name, at the first instruction of an initialiser by its
/// grammar, comes to the return, with each array that it makes behind the earlier ones in the heap and each
/// field holding what is put into it, where the class's static fields have cells of their kinds and the method
/// has room for its operands. The cells of every class keep their kinds.
pub fn initialisers_run()
    ensures { (files : Files) (image : StaticImage) (number : ℕ) (c : ClassTree) (m : Method)
        (locals : List (Option Value)) (before after : List Content) (puts : List Put) (store : Store)
        → slice_get files.classes number ≡ Some c → (let here = m.id in here.class) ≡ c.name
        → HaveRoomFor m.max_stack (ops_of m.insns) → Initialises files number c before (ops_of m.insns) puts after
        → HasCells c store.statics
        → Returns (linked files image) m locals 0 store (store_after c store puts) × ((d : ClassTree)
        → HasCells d store.statics → HasCells d (let later = store_after c store puts in later.statics)) }
{}

/// For each package whose initialisers are of the form: the machine by name, started without arrays and with
/// each static field at its ConstantValue, 0 or null, runs each initialiser to its return, one after the other,
/// and the heap is then the static image's arrays in their order. Each static field still has its cell, of its
/// kind.
pub fn packages_run()
    ensures { (files : Files) (image : StaticImage) (codes : List MethodCode) → HaveTypes files → HaveRoom files codes
        → IsImage files codes image
        → (later : Store) × AllReturn files (linked files image) (first_store files.classes) codes later
        × (later.heap ≡ map static_array image.arrays) × AllHaveCells files later.statics }
{}

/// Where further no two classes have one name, no two fields of a class one name and descriptor, and each
/// class's initialiser stands once among the codes: after all initialisers each static field holds what was put
/// into it, of which the static image is made: the number, null, or its own array among those in the heap, and
/// where nothing was put its ConstantValue, 0 or null.
pub fn values_run()
    ensures { (files : Files) (image : StaticImage) (codes : List MethodCode) (arrays : List ArrayCell)
        (fields : List (List Content)) → HaveTypes files → HaveRoom files codes → StandOnce files codes → AreApart files
        → AreInitialised files (map nothing_in files.classes) codes arrays fields
        → (later : Store) × AllReturn files (linked files image) (first_store files.classes) codes later
        × (later.heap ≡ map static_array arrays) × AllHold files fields arrays later.statics }
{}

/// Where further no two classes have one name, no two fields of a class one name and descriptor, and each
/// class's initialiser stands once among the codes: after all initialisers the heap and the static cells are
/// those with which the machine by name starts by the static image, the arrays in their order and the cells in
/// the order of the classes and their fields.
pub fn images_are_reached()
    ensures { (files : Files) (image : StaticImage) (codes : List MethodCode) → HaveTypes files → HaveRoom files codes
        → StandOnce files codes → AreApart files → IsImage files codes image
        → (later : Store) × AllReturn files (linked files image) (first_store files.classes) codes later
        × (later.heap ≡ map static_array image.arrays) × (later.statics ≡ cells image files.classes) }
{}

/// What is put is told of each field of each class, so that `values_run` speaks of each static field.
pub fn each_field_is_told()
    ensures { (files : Files) (codes : List MethodCode) (arrays : List ArrayCell) (fields : List (List Content))
        → AreInitialised files (map nothing_in files.classes) codes arrays fields
        → (n : ℕ) (c : ClassTree) → slice_get files.classes n ≡ Some c → (told : List Content)
        × (slice_get fields n ≡ Some told) × (length told ≡ length c.fields) }
{}
