//! What a group that breaks none of 731 to 735 keeps, that what it breaks is told once, and groups made by hand.

ghost use Rattle.std.specs.Prelude.{◌≡◌, List, [], ◌∷◌, ◌++◌, codes};
ghost use Rattle.cjc_bytes.specs.Breaks.{Among, Break};
ghost use Rattle.cjc_group.specs.Agree.{Agree};
ghost use Rattle.cjc_group.specs.Members.{Member};
ghost use Rattle.cjc_group.specs.Missing.{missing};
ghost use Rattle.cjc_group.specs.Rules.{breaks};
ghost use Rattle.cjc_group.specs.Worked.{app, app_over, at_app, at_lib, at_low, lang, lib, lib_tree, low_over, mid};
ghost use Rattle.cjc_group.specs.Worked.{mid_tree, missing_refusals, open_lib, other_lang, rebuilt, refusals, resting};
ghost use Rattle.cjc_group.specs.Worked.{top, top_tree};

/// Where no rule is broken, what packages import of one another is what is written for them, and what they import from
/// outside is the same for all.
pub fn packages_agree()
    ensures { (group : List Member) → breaks group ≡ [] → Agree group }
{}

/// Where a rule is broken tells what is told of it: breaks of one rank have one refusal.
pub fn one_refusal()
    ensures together { (group : List Member) (a b : Break) → Among a (breaks group) → Among b (breaks group)
        → a.rank ≡ b.rank → a.refusal ≡ b.refusal }
    ensures missing { (group : List Member) (a b : Break) → Among a (missing group) → Among b (missing group)
        → a.rank ≡ b.rank → a.refusal ≡ b.refusal }
{}

/// A library and a package over it: in their order; with the library rebuilt so that a token moved; the other way
/// round; the library twice; with another java/lang; with a package from outside below a class of the library; and
/// with a method that only the library could implement. A class over an interface whose own package it imports alone,
/// and over that of the interface above it too.
pub fn groups_are_tested()
    ensures agreeing { refusals (lib ∷ app ∷ []) ≡ [] }
    ensures rebuilt { refusals (rebuilt ∷ app ∷ []) ≡ at_app 731 [] }
    ensures later { refusals (app ∷ lib ∷ []) ≡ at_app 732 [] }
    ensures resting { refusals (lib ∷ app_over (lang ∷ lib_tree ∷ resting ∷ []) ∷ []) ≡ at_app 732 [] }
    ensures twice { refusals (lib ∷ lib ∷ []) ≡ at_lib 733 }
    ensures differing { refusals (lib ∷ app_over (other_lang ∷ lib_tree ∷ []) ∷ []) ≡ at_app 734 [] }
    ensures left_open { refusals (open_lib ∷ app ∷ []) ≡ at_app 735 (codes "app/M") }
    ensures missing { missing_refusals (top ∷ mid ∷ low_over (lang ∷ mid_tree ∷ []) ∷ []) ≡ at_low 203 }
    ensures known { missing_refusals (top ∷ mid ∷ low_over (lang ∷ mid_tree ∷ top_tree ∷ []) ∷ []) ≡ [] }
{}
