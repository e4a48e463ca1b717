//! What the components of a package say of what is its own they say in every group: its class infos and their names,
//! its methods, and what its class_refs mean. Whoever promises that a group runs alike cites it. It has definitions and
//! laws alone, and does not know how components came to be.
ghost use Rattle.std.specs.Prelude.{◌≡◌, ℕ, option_and_then, option_map};
ghost use Rattle.cjc_card_semantics.specs.Bytes.declared.fault.MemberId.{MemberId};
ghost use Rattle.cjc_card_semantics.specs.CapRead.declared.tree.ClassRef.{ClassRef};
ghost use Rattle.cjc_card_semantics.specs.Machine.Calls.{declared};
ghost use Rattle.cjc_card_semantics.specs.Machine.Classes.{Own, class_of, info_of, names_of, superclass};
ghost use Rattle.cjc_card_semantics.specs.Machine.Loaded.{Loaded};
ghost use Rattle.cjc_card_semantics.specs.Machine.Methods.{start_of};
ghost use Rattle.cjc_joint_proof.specs.Parts.{HasNoOther, IsPart, class_in, described_in, start_in};

/// The class info at an offset of a package, and the names of its class, are those that the package has by itself.
pub fn infos_stay()
    ensures infos { (alone group : Loaded) (q : ℕ) → IsPart alone group q → (offset : ℕ)
        → info_of group q offset ≡ info_of alone 0 offset }
    ensures names { (alone group : Loaded) (q : ℕ) → IsPart alone group q → (offset : ℕ)
        → names_of group q offset ≡ names_of alone 0 offset }
{}

/// A class_ref of a package means in the group what the group has for the class that it means by itself, and so does
/// the superclass of a class.
pub fn class_refs_agree()
    ensures refs { (alone group : Loaded) (q : ℕ) → IsPart alone group q → HasNoOther alone group q → (r : ClassRef)
        → class_of group q r ≡ option_and_then (class_in group q) (class_of alone 0 r) }
    ensures superclass { (alone group : Loaded) (q : ℕ) → IsPart alone group q → HasNoOther alone group q
        → (offset : ℕ) → superclass group q offset ≡ option_and_then (class_in group q) (superclass alone 0 offset) }
{}

/// The method at an offset of a package begins as it does by itself, in the code of the package's place; and what
/// Descriptor says of a method by its name stays.
pub fn methods_stay()
    ensures starts { (alone group : Loaded) (q : ℕ) → IsPart alone group q → (offset : ℕ)
        → start_of group q offset ≡ option_map (start_in q) (start_of alone 0 offset) }
    ensures declared { (alone group : Loaded) (q : ℕ) → IsPart alone group q → (offset : ℕ) (id : MemberId)
        → declared group (Own q offset) id ≡ option_map (described_in q) (declared alone (Own 0 offset) id) }
{}
