//! What holds of each package that breaks no rule of its files. Whoever writes one cites it.

ghost use Rattle.std.specs.Prelude.{◌≡◌, ℕ, List, []};
ghost use Rattle.cjc_judge.specs.declared.judged.Judged.{Judged};
ghost use Rattle.cjc_judge.specs.Rules.{has_applets, settings_of};
ghost use Rattle.cjc_shape.specs.Judged.Tested.{IsTested};
ghost use Rattle.cjc_methods.specs.List.Listed.{ListTree};
ghost use Rattle.cjc_methods.specs.Ready.{AreReady};
ghost use Rattle.cjc_narrow_proof.specs.Laws.Unbroken.{IsUnbroken, NoneWorksOnInt};
ghost use Rattle.cjc_methods.specs.Tokens.Rules.{FewCells, FewExported, token_breaks};
ghost use Rattle.cjc_shape.specs.Prepared.{IsSound};
ghost use Rattle.cjc_shape.specs.Whole.Conversion.{AreShort};

/// A package that breaks no rule was tested for limits and types, and breaks nothing of names and limits: so
/// its methods are decoded, can be selected where they don't work on int, and laid out, few classes are exported and
/// few cells declared (401 and 406), and all have tokens (413). Where no method that is written is in int mode, none
/// works on int.
pub fn sound_packages_are_ready()
    ensures tested { (list : ListTree) (files : List (List ℕ)) (judged : Judged) → IsSound list files judged
        → IsTested list files judged }
    ensures unbroken { (list : ListTree) (files : List (List ℕ)) (judged : Judged) → IsSound list files judged
        → NoneWorksOnInt judged.world judged.codes
        → IsUnbroken list.name judged.world judged.codes (settings_of list) }
    ensures free { (list : ListTree) (files : List (List ℕ)) (judged : Judged) → IsSound list files judged
        → AreShort list.ints judged.world → NoneWorksOnInt judged.world judged.codes }
    ensures ready { (list : ListTree) (files : List (List ℕ)) (judged : Judged) → IsSound list files judged
        → AreReady judged.world judged.codes judged.types }
    ensures exported { (list : ListTree) (files : List (List ℕ)) (judged : Judged) → IsSound list files judged
        → FewExported (has_applets list) judged.world }
    ensures cells { (list : ListTree) (files : List (List ℕ)) (judged : Judged) → IsSound list files judged
        → FewCells judged.world }
    ensures tokens { (list : ListTree) (files : List (List ℕ)) (judged : Judged) → IsSound list files judged
        → token_breaks (has_applets list) judged.world ≡ [] }
{}
