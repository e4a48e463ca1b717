//! Look-up, selection, subtypes, added methods and the tokens of fields in packages made by hand: it shows on rows
//! that their definitions mean what they are to, also where no command does. Nothing here runs.
ghost use Rattle.std.specs.Prelude.{◌≡◌, [], ◌∷◌, Some, None, codes};
ghost use Rattle.cjc_examples.specs.Hierarchy.LookUp.{field_rows, fields_found, method_rows, methods_found};
ghost use Rattle.cjc_examples.specs.Hierarchy.LookUp.{selected_rows, methods_selected, wanted};
ghost use Rattle.cjc_examples.specs.Hierarchy.LookUp.{are_subtypes, are_to_be_subtypes};
ghost use Rattle.cjc_examples.specs.Hierarchy.Adding.{names_added};
ghost use Rattle.cjc_examples.specs.Hierarchy.Tokens.{tokens_of_fields, fields_of_tokens, tokens_of_members};
ghost use Rattle.cjc_examples.specs.Hierarchy.Tokens.{public_methods, package_methods};
ghost use Rattle.cjc_examples.specs.Hierarchy.Drafts.{declared, listed};

/// Fields and methods by name, methods by selection, and types that are subtypes.
pub fn members_are_looked_up()
    ensures fields { fields_found ≡ wanted field_rows }
    ensures methods { methods_found ≡ wanted method_rows }
    ensures selected { methods_selected ≡ wanted selected_rows }
    ensures subtypes { are_subtypes ≡ are_to_be_subtypes }
{}

/// An interface gets none; an abstract class those that it does not declare, past a static and a private method of its
/// own, an imported interface's by token; and below it one more that it did not get.
pub fn methods_are_added()
    ensures interface { names_added 1 ≡ [] }
    ensures of_its_interfaces { names_added 3 ≡ codes "b" ∷ codes "c" ∷ codes "first" ∷ codes "second" ∷ [] }
    ensures beside_what_the_superclass_got { names_added 4 ≡ codes "d" ∷ [] }
    ensures not_abstract { names_added 5 ≡ [] }
    ensures private { names_added 6 ≡ codes "a" ∷ codes "b" ∷ [] }
{}

/// An int has two tokens, of which the second is that of no field.
pub fn fields_stand_in_groups()
    ensures tokens { tokens_of_fields ≡ Some 6 ∷ Some 4 ∷ Some 0 ∷ Some 5 ∷ Some 1 ∷ Some 0 ∷ None ∷ Some 1 ∷ None
        ∷ Some 2 ∷ Some 3 ∷ [] }
    ensures fields { fields_of_tokens ≡ Some 2 ∷ Some 4 ∷ None ∷ Some 10 ∷ Some 1 ∷ Some 3 ∷ Some 0 ∷ None ∷ [] }
{}

/// A package-visible method has a token apart from the public ones. One of an imported class uses up its token among
/// those, and is overridden by nothing.
pub fn package_visible_methods_have_tokens()
    ensures tokens { tokens_of_members ≡ (Some 1 ∷ Some 128 ∷ Some 2 ∷ Some 129 ∷ []) ∷ (Some 130 ∷ Some 128 ∷ Some 3
        ∷ []) ∷ (Some 3 ∷ Some 128 ∷ []) ∷ [] }
    ensures public { public_methods ≡ listed 1 0 ∷ listed 1 1 ∷ None ∷ declared 2 0 ∷ [] }
    ensures hidden { package_methods ≡ declared 2 1 ∷ [] }
{}
