//! The components that are written for a package behave like its class files.

ghost use Rattle.std.specs.Prelude.{List, [], ◌∷◌};
ghost use Rattle.cjc_classfile.specs.declared.tree.ClassTree.{ClassTree as Tree};
ghost use Rattle.cjc_export.specs.declared.tree.ExportTree.{ExportTree};
ghost use Rattle.cjc_export.specs.Tokens.{HaveOwnTokens};
ghost use Rattle.cjc_convert.specs.FirstForm.{PackageLine, IsFirstForm};
ghost use Rattle.cjc_convert.specs.Converted.{converted};
ghost use Rattle.cjc_convert.specs.BehaveAlike.{BehaveAlike};

/// A package of the first form and the components that are written for it behave alike, for every script. Of
/// the export files it is known that each class has a token of its own.
#[tactic(auto, using(crate::proofs::BehavesAlike::form_behaves_alike))]
pub fn first_form_behaves_alike()
    ensures { (line : PackageLine) (tree : Tree) (form : IsFirstForm line tree) (exports : List ExportTree) → HaveOwnTokens exports → BehaveAlike (tree ∷ []) exports (converted line tree form) }
{}
