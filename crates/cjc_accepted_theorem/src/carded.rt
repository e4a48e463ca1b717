//! Types: the card has values of all types of a converted package.
ghost use Rattle.std.specs.Prelude.{ℕ, List};
ghost use Rattle.cjc_verified_proof.specs.Components.Package.{Package};
ghost use Rattle.cjc_theorem.specs.LowerJudge.declared.judged.Judged.{Judged};
ghost use Rattle.cjc_verified_proof.specs.List.Listed.{ListTree};
ghost use Rattle.cjc_accepted_proof.specs.Carded.{HasCardTypes};
ghost use Rattle.cjc_accepted_theorem.specs.Readable.{IsReadable};

use cjc_theorem::alike::calls_have_opcodes;

/// The card has values of the types of all fields and methods of a converted package, of the methods that its abstract
/// classes get, and of the members that its pool names.
pub fn converted_packages_have_card_types()
    ensures { (list : ListTree) (files : List (List ℕ)) (judged : Judged) (p : Package)
        → IsReadable list files judged p → HasCardTypes p }
{
    calls_have_opcodes();
}
