//! What the components of a package say by token of its classes, objects, static fields and names is what its class
//! files and export files say by name. Whoever promises that components run as narrow code cites it. It has
//! definitions and laws alone, and knows no instruction.
ghost use Rattle.std.specs.Prelude.{◌≡◌, ℕ, Bool, List, [], ◌∷◌, map, Some, None, slice_get, true, false};
ghost use Rattle.cjc_world.specs.ClassFile.declared.tree.ClassTree.{ClassTree};
ghost use Rattle.cjc_world.specs.ClassFile.declared.tree.FieldTree.{FieldTree};
ghost use Rattle.cjc_bytes.specs.declared.fault.MemberId.{MemberId};
ghost use Rattle.cjc_world_proof.specs.Bytecode.declared.method_code.MethodCode.{MethodCode};
ghost use Rattle.cjc_world.specs.Classes.{Class, class_named};
ghost use Rattle.cjc_world.specs.Files.{Files};
ghost use Rattle.cjc_world.specs.Order.{class_order};
ghost use Rattle.cjc_world_proof.specs.Subset.Checks.{check_breaks};
ghost use Rattle.cjc_bytes.specs.declared.settings.Settings.{Settings};
ghost use Rattle.cjc_components.specs.LowerCheckRules.Complete.{complete};
ghost use Rattle.cjc_tokens.specs.Fields.{instance_token, is_instance};
ghost use Rattle.cjc_world_proof.specs.LowerClinit.Image.{IsImage, field_id};
ghost use Rattle.cjc_world_proof.specs.Initialisers.Values.{StandOnce};
ghost use Rattle.cjc_jvm_semantics.specs.Linked.{Method};
ghost use Rattle.cjc_ncode.specs.ByLabel.{Callee, Named};
ghost use Rattle.cjc_ncode.specs.declared.narrow.NMethod.{NMethod};
ghost use Rattle.cjc_components.specs.LowerNarrow.Rows.Package.{first_memory, named};
ghost use Rattle.cjc_card_semantics.specs.Bytecode.Renaming.{heap_object_as, memory_as};
ghost use Rattle.cjc_card_semantics.specs.Machine.Statics.{first_arrays, first_memory as first_on_card};
ghost use Rattle.cjc_ncode.specs.Lowering.Agreement.{IsKnownCall, KnownNames, Memories, TablesAgree, known_by};
ghost use Rattle.cjc_ncode.specs.Lowering.ByPlace.{Methods};
ghost use Rattle.cjc_ncode.specs.Lowering.Naming.{Naming};
ghost use Rattle.cjc_ncode.specs.Lowering.Placed.{Placed};
ghost use Rattle.cjc_token_proof.specs.ByToken.Cells.{HasCells, cell_offset, image_of};
ghost use Rattle.cjc_token_proof.specs.ByToken.Classes.{memories, tests};
ghost use Rattle.cjc_token_proof.specs.ByToken.Names.{HasLang, NamesAgree, SaysNames};
ghost use Rattle.cjc_token_proof.specs.ByToken.Objects.{HasObjects, slots_of};
ghost use Rattle.cjc_token_proof.specs.ByToken.Supers.{KindsAgree, SaysKinds};
ghost use Rattle.cjc_components.specs.Package.{Package, world};
ghost use Rattle.cjc_components.specs.Components.{components_of};
ghost use Rattle.cjc_components.specs.Names.{class_at, field_token};
ghost use Rattle.cjc_components.specs.Statics.{cell_offset as written_offset};
ghost use Rattle.cjc_token_proof.specs.Components.OwnNames.{HaveOwnNames};
ghost use Rattle.cjc_token_proof.specs.Tables.Infos.{HasEntry, HasInfo, HasNone};
ghost use Rattle.cjc_token_proof.specs.Tables.Kept.{KeepsRules};
ghost use Rattle.cjc_token_proof.specs.Tables.Known.{known_names, may_hold, may_name, order_of, statics_of};
ghost use Rattle.cjc_token_proof.specs.Tables.Loading.{components, loaded, naming, part};
ghost use Rattle.cjc_token_proof.specs.Tables.Sound.{AreFieldDescs, AreTyped, IsSound};
ghost use Rattle.cjc_token_proof.specs.Tables.Tables.{CallTablesAgree, ClassTablesAgree};

/// What is loaded is what is written for a package: none of its components is absent.
pub fn components_are_complete()
    ensures { (p : Package) → complete (components_of p) ≡ Some (components p) }
{}

/// Each class of the package and of its export files keeps the rules of classes and names, and is the one that its
/// name finds. No two classes in the order of Class have one name.
pub fn classes_keep_rules()
    ensures rules { (list : List ℕ) (p : Package) → IsSound list p.files → (x : List ℕ) (c : Class)
        → class_named (world p) x ≡ Some c → KeepsRules (let files = p.files in files.package_name) (world p) c }
    ensures order { (list : List ℕ) (p : Package) → IsSound list p.files → HaveOwnNames (class_order (world p)) }
{}

/// A class of the package is on the card as an info, with the names of the class; a class of an export file as an
/// entry of the first file that has its name, by its token there; and a name that no file has is no class on the
/// card.
pub fn names_are_placed()
    ensures own { (list : List ℕ) (p : Package) → IsSound list p.files → (x : List ℕ) (c : Class)
        → class_named (world p) x ≡ Some c → c.is_imported ≡ false → HasInfo p c }
    ensures file { (list : List ℕ) (p : Package) → IsSound list p.files → (x : List ℕ) (c : Class)
        → class_named (world p) x ≡ Some c → c.is_imported ≡ true → HasEntry p c }
    ensures none { (list : List ℕ) (p : Package) → IsSound list p.files → (x : List ℕ) → class_named (world p) x ≡ None
        → HasNone p x }
{}

/// Class infos and export files say what stands above each class, so that a type is of another by token exactly
/// where it is a subtype by name; and they name each class, with the exceptions of the machine's own, so that names
/// stand for the same on the card.
pub fn classes_are_told()
    ensures kinds { (list : List ℕ) (p : Package) → IsSound list p.files → SaysKinds (world p) (naming p) }
    ensures subtypes { (list : List ℕ) (p : Package) → IsSound list p.files → KindsAgree (world p) (naming p) }
    ensures names { (list : List ℕ) (p : Package) → IsSound list p.files → SaysNames (world p) (naming p) (part p) }
    ensures language { (list : List ℕ) (p : Package) → IsSound list p.files → HasLang (world p) }
    ensures agree { (list : List ℕ) (p : Package) → IsSound list p.files → NamesAgree (world p) (naming p) }
{}

/// Where 301 is not broken, each field whose descriptor is a field's is of a type that values have.
pub fn fields_are_typed()
    ensures { (list : List ℕ) (files : Files) (codes : List MethodCode) (settings : Settings) → AreFieldDescs files
        → check_breaks list files codes settings ≡ [] → AreTyped files }
{}

/// An instance field has the token that its class gives it, and an object of a class has by token the fields that
/// it has by name.
pub fn objects_are_told()
    ensures tokens { (list : List ℕ) (p : Package) → IsSound list p.files → (n i : ℕ) (t : ClassTree) (f : FieldTree)
        → slice_get (let files = p.files in files.classes) n ≡ Some t → slice_get t.fields i ≡ Some f
        → is_instance f ≡ true → field_token p (field_id t.name f) ≡ instance_token t.fields i f }
    ensures objects { (list : List ℕ) (p : Package) → IsSound list p.files → AreTyped p.files
        → (x : List ℕ) (fields : List MemberId) → may_hold (world p) x fields ≡ true
        → HasObjects (naming p) (may_name (world p)) x fields }
{}

/// Each static field has its cell in the static image, references before numbers, and stands at the offset of its
/// cell.
pub fn static_fields_are_told()
    ensures cells { (list : List ℕ) (p : Package) (codes : List MethodCode) → IsSound list p.files → AreTyped p.files
        → IsImage p.files codes p.image → StandOnce p.files codes
        → HasCells (order_of p.image) (statics_of (let files = p.files in files.classes)) }
    ensures offsets { (list : List ℕ) (p : Package) (codes : List MethodCode) → IsSound list p.files → AreTyped p.files
        → IsImage p.files codes p.image → StandOnce p.files codes → (f : MemberId) → written_offset p.image f
        ≡ cell_offset (order_of p.image) f }
{}

/// Memory before the first entry is the same by name and by token: the arrays of the static image, and what its cells
/// hold.
pub fn memories_begin_alike()
    ensures arrays { (p : Package) (codes : List MethodCode) → IsImage p.files codes p.image
        → (let l = loaded p in first_arrays l.parts) ≡ map (heap_object_as (class_at p) (slots_of (naming p)))
        (let m = first_memory p.files p.image in m.heap) }
    ensures memory { (list : List ℕ) (p : Package) (codes : List MethodCode) → IsSound list p.files → AreTyped p.files
        → IsImage p.files codes p.image → StandOnce p.files codes → first_on_card (loaded p) ≡ memory_as (class_at p)
        (slots_of (naming p)) (λ cells. image_of (order_of p.image) cells ∷ []) (first_memory p.files p.image) }
{}

/// All that the run of narrow code by label and the run of components by token ask of classes, objects, static
/// fields, names and reports is the same, for the names that a package may have: of what `TablesAgree` asks only
/// operations and calls are left, and that whatever is there is of java/lang/Object.
pub fn class_tables_agree()
    ensures { (list : List ℕ) (p : Package) (codes : List MethodCode) (call : Callee → Bool) (code : Method → NMethod)
        → IsSound list p.files → AreTyped p.files → IsImage p.files codes p.image → StandOnce p.files codes
        → ClassTablesAgree (naming p) (memories (naming p) (known_names call p)) (named p.files p.image code)
        (known_by (tests (known_names call p))) }
{}

/// Whoever shows the rest, of operations, of calls and of java/lang/Object, has all that the law of whole runs asks of
/// tables.
pub fn tables_agree_by_parts()
    ensures { (n : Naming) (placed : List Placed) (memories : Memories) (l : Named) (methods : Methods)
        (known : KnownNames) → ClassTablesAgree n memories l (known_by known)
        → CallTablesAgree n placed memories l methods (known_by known) (IsKnownCall known)
        → TablesAgree n placed memories l methods (known_by known) (IsKnownCall known) }
{}
