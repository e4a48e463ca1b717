//! A package's narrow code by name and label, and its components by token and offset, do the same: what names
//! of fields, static fields, classes and methods are by the class files is what their cells, slots, class infos
//! and tokens are on the card. Whoever writes components cites it. It has definitions and laws alone, and does
//! not know how a table, a layout or code was made.
ghost use Rattle.std.specs.Prelude.{◌≡◌, ◌↔◌, ℕ, true, Bool, List};
ghost use Rattle.cjc_bytes.specs.declared.fault.MemberId.{MemberId};
ghost use Rattle.cjc_card_semantics.specs.Machine.Classes.{Class, is_kind_of};
ghost use Rattle.cjc_card_semantics.specs.Machine.Loaded.{Loaded, Part};
ghost use Rattle.cjc_card_semantics.specs.Bytecode.Renaming.{AreAlike};
ghost use Rattle.cjc_world.specs.Classes.{Class as WorldClass};
ghost use Rattle.cjc_card_semantics.specs.Machine.ByToken.{classes as by_token};
ghost use Rattle.cjc_ncode.specs.ByLabel.{Named, classes as by_name};
ghost use Rattle.cjc_ncode.specs.Lowering.Agreement.{known_by};
ghost use Rattle.cjc_ncode.specs.Lowering.Naming.{Naming, field};
ghost use Rattle.cjc_token_proof.specs.ByToken.Above.{IsAtOrAbove};
ghost use Rattle.cjc_token_proof.specs.ByToken.Cells.{CellsAgree, HasCells, Order};
ghost use Rattle.cjc_token_proof.specs.ByToken.Classes.{Names, SaysClasses, memories, tests};
ghost use Rattle.cjc_token_proof.specs.ByToken.Names.{HasLang, NamesAgree, NamesStand, SaysNames};
ghost use Rattle.cjc_token_proof.specs.ByToken.Objects.{HasObjects, ObjectsAgree};
ghost use Rattle.cjc_token_proof.specs.ByToken.Supers.{KindsAgree, SaysKinds, SaysSteps};

/// What instructions and reports ask of static fields is the same by name and in the static field image, whose
/// cells are references and numbers behind them, each field's once: each letter reads and puts what the field
/// holds.
pub fn static_fields_agree()
    ensures { (o : Order) (all : List MemberId) → HasCells o all → CellsAgree o all }
{}

/// What instructions and reports ask of an object is the same by name and by token, where its class and
/// superclasses declare its fields: each field's slot has what the field holds, a new object's too, and a
/// report shows the fields by the names of the class infos.
pub fn objects_agree()
    ensures { (n : Naming) (may_name : MemberId → Bool) (c : List ℕ) (fields : List MemberId)
        → HasObjects n may_name c fields → ObjectsAgree n may_name c fields }
{}

/// A class is told as a kind of another exactly where that one is the class or stands above it, over what class
/// infos and export files list: the steps of going upwards are enough in every group.
pub fn kinds_are_told()
    ensures { (l : Loaded) (c d : Class) → (is_kind_of l c d ≡ true) ↔ IsAtOrAbove l c d }
{}

/// All that instructions ask of classes, objects and static fields is the same by name and by token, for names
/// that code and objects may have, where class infos, their names and the static field image say what the
/// look-ups find.
pub fn classes_are_alike()
    ensures { (n : Naming) (l : Named) (names : Names) → SaysClasses n l names
        → (let m = memories n names in AreAlike (known_by (tests names)) n.class (field n) m.slots n.cell m.statics
        (by_name l) (by_token n.loaded)) }
{}

/// A type is of another by token exactly where it is a subtype by the class files and export files, for classes
/// that some file has: a class info's class_refs are those of what stands above its class, and arrays are
/// java/lang/Object and what stands above it.
pub fn kinds_are_subtypes()
    ensures { (w : List WorldClass) (n : Naming) → SaysKinds w n → KindsAgree w n }
{}

/// The same of the classes of several packages and export files together, where each step upwards by name is one
/// on the card, and each step there goes upwards by name.
pub fn steps_are_subtypes()
    ensures { (w : List WorldClass) (n : Naming) → SaysSteps w n → KindsAgree w n }
{}

/// Names of scripts, of exceptions and of reports stand for the same by the files and on the card, where the
/// names of class infos and of export files are those of the package that is loaded alone: classes, imported
/// classes that are no interfaces, subclasses of Throwable, the exceptions of the machine's own, and what a
/// report calls a class.
pub fn names_agree()
    ensures { (w : List WorldClass) (n : Naming) (part : Part) → SaysNames w n part → HasLang w → KindsAgree w n
        → NamesAgree w n }
{}

/// The same of the classes of several packages and export files together, where each name means its class.
pub fn standing_names_agree()
    ensures { (w : List WorldClass) (n : Naming) → NamesStand w n → HasLang w → KindsAgree w n → NamesAgree w n }
{}
