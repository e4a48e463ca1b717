//! Names of scripts and reports on the card, in a group: a class of a package by its name, and a static method that a
//! script calls by it. Whoever promises that a group runs alike cites it. It has laws alone.
ghost use Rattle.std.specs.Prelude.{◌≡◌, ℕ, List, None, Some, option_map, slice_get};
ghost use Rattle.cjc_card_semantics.specs.Bytes.declared.fault.MemberId.{MemberId};
ghost use Rattle.cjc_card_semantics.specs.Machine.Calls.{called};
ghost use Rattle.cjc_card_semantics.specs.ExportFile.declared.tree.ExportTree.{ExportTree};
ghost use Rattle.cjc_card_semantics.specs.Machine.Classes.{External, Own, class_named, external_named};
ghost use Rattle.cjc_card_semantics.specs.Machine.Classes.{name_of, number_named};
ghost use Rattle.cjc_card_semantics.specs.Machine.Classes.{offset_of, token_named};
ghost use Rattle.cjc_card_semantics.specs.Machine.Loaded.{Loaded, Part};
ghost use Rattle.cjc_joint_proof.specs.Parts.{IsPart, start_in};

/// A name that one package alone has for an info is that class; a name that none has is looked up in the export files,
/// and where one file alone has it, it is that file's class.
pub fn names_are_classes()
    ensures inside { (l : Loaded) (q : ℕ) (part : Part) (x : List ℕ) (n offset : ℕ) → slice_get l.parts q ≡ Some part
        → number_named part.classes x ≡ Some n → offset_of part n ≡ Some offset
        → ((r : ℕ) (other : Part) → slice_get l.parts r ≡ Some other → (r ≡ q → ⊥)
        → number_named other.classes x ≡ None) → class_named l x ≡ Some (Own q offset) }
    ensures outside { (l : Loaded) (x : List ℕ)
        → ((r : ℕ) (other : Part) → slice_get l.parts r ≡ Some other → number_named other.classes x ≡ None)
        → class_named l x ≡ external_named l x }
    ensures files { (l : Loaded) (j : ℕ) (t : ExportTree) (x : List ℕ) (token : ℕ) → slice_get l.trees j ≡ Some t
        → token_named t.classes x ≡ Some token
        → ((r : ℕ) (u : ExportTree) → slice_get l.trees r ≡ Some u → (r ≡ j → ⊥)
        → token_named u.classes x ≡ None) → external_named l x ≡ Some (External j token) }
{}

/// A class of a package has the name that it has by itself, and a static method that a script calls by it begins as it
/// does there, in the code of the package's place.
pub fn scripts_name_the_same()
    ensures classes { (alone group : Loaded) (q : ℕ) → IsPart alone group q → (offset : ℕ)
        → name_of group (Own q offset) ≡ name_of alone (Own 0 offset) }
    ensures methods { (alone group : Loaded) (q : ℕ) → IsPart alone group q → (id : MemberId) (offset : ℕ)
        → class_named group id.class ≡ Some (Own q offset) → class_named alone id.class ≡ Some (Own 0 offset)
        → called group id ≡ option_map (start_in q) (called alone id) }
{}
