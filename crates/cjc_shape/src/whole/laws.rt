//! What holds of each package that breaks no rule of its files. For proofs.

ghost use Rattle.std.specs.Prelude.{◌≡◌, ℕ, List, map};
ghost use Rattle.cjc_components.specs.Package.{Package, codes};
ghost use Rattle.cjc_judge.specs.declared.judged.Judged.{Judged};
ghost use Rattle.cjc_list.specs.Listed.{ListTree};
ghost use Rattle.cjc_shape.specs.declared.prepared.preparing.Prepared.{Prepared as Parts};
ghost use Rattle.cjc_shape.specs.Prepared.{IsPrepared, IsSound};
ghost use Rattle.cjc_shape.specs.Whole.Conversion.{IsDraft, IsPackageOf};

/// A list and its files have a package by the narrow code of its methods, and it is settled by them: its world,
/// its methods and their code are those that writing starts from.
pub fn one_draft()
    ensures some { (list : ListTree) (files : List (List ℕ)) (judged : Judged) → IsSound list files judged
        → (p : Package) × IsDraft list files p }
    ensures world { (list : ListTree) (files : List (List ℕ)) (judged : Judged) → IsSound list files judged
        → (p : Package) → IsDraft list files p → p.files ≡ judged.world }
    ensures members { (list : ListTree) (files : List (List ℕ)) (judged : Judged) → IsSound list files judged
        → (made : Parts) → IsPrepared list judged made → (p : Package) → IsDraft list files p
        → map (λ m. m.member) p.methods ≡ made.methods }
    ensures narrow { (list : ListTree) (files : List (List ℕ)) (judged : Judged) → IsSound list files judged
        → (made : Parts) → IsPrepared list judged made → (p : Package) → IsDraft list files p → codes p ≡ made.codes }
{}

/// A list and its files have one package at most, and the first of the rules 417, 311, 414 and 415 that it
/// breaks is their refusal where they break no other.
pub fn one_package()
    ensures { (list : ListTree) (files : List (List ℕ)) (judged : Judged) → IsSound list files judged → (p q : Package)
        → IsPackageOf list files p → IsPackageOf list files q → p ≡ q }
{}
