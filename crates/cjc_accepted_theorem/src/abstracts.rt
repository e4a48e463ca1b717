//! Abstract methods: no class of which objects are made has one for a token.
ghost use Rattle.std.specs.Prelude.{ℕ, List};
ghost use Rattle.cjc_verified_proof.specs.Components.Package.{Package};
ghost use Rattle.cjc_theorem.specs.LowerJudge.declared.judged.Judged.{Judged};
ghost use Rattle.cjc_verified_proof.specs.List.Listed.{ListTree};
ghost use Rattle.cjc_accepted_proof.specs.Accepted.{HasNoAbstract};
ghost use Rattle.cjc_accepted_theorem.specs.Readable.{IsReadable};

use crate::headers::converted_methods_begin;
use cjc_theorem::vtable::slot_laws::tokens_mean_methods;
use cjc_theorem::vtable::{dispatch_laws, token_laws};
use cjc_verified_proof::token_proof::calls::dispatch_agrees;
use cjc_verified_proof::world::lookup_laws;

/// No class of a converted package of which objects are made has an abstract method for one of its tokens: selection by
/// name gives what each of them means, and that is none of an abstract method.
pub fn converted_packages_have_no_abstract_methods()
    ensures { (list : ListTree) (files : List (List ℕ)) (judged : Judged) (p : Package)
        → IsReadable list files judged p → HasNoAbstract p }
{
    converted_methods_begin();
    dispatch_agrees();
    dispatch_laws();
    lookup_laws();
    token_laws();
    tokens_mean_methods();
}
