//! The components that are written for a package behave like its class files.

ghost use Rattle.std.specs.Prelude.{List, [], ◌∷◌};
ghost use Rattle.cjc_classfile.specs.declared.tree.ClassTree.{ClassTree as Tree};
ghost use Rattle.cjc_export.specs.declared.tree.ExportClass.{ExportClass};
ghost use Rattle.cjc_export.specs.declared.tree.ExportTree.{ExportTree};
ghost use Rattle.cjc_export.specs.Tokens.{HaveOwnTokens};
ghost use Rattle.cjc_first.specs.FirstForm.{PackageLine, IsFirstForm};
ghost use Rattle.cjc_first.specs.Converted.{converted};
ghost use Rattle.cjc_first.specs.BehaveAlike.{BehaveAlike};

/// A package of the first form and the components that are written for it behave alike, for every script and
/// whatever the export file says of the superclass. Of the export files that the machines go by it is known that
/// each class has a token of its own.
#[tactic(auto, using(crate::proofs::BehavesAlike::form_behaves_alike))]
pub fn first_form_behaves_alike()
    ensures { (line : PackageLine) (tree : Tree) (form : IsFirstForm line tree) (lang : ExportTree) (root : ExportClass) (exports : List ExportTree) → HaveOwnTokens exports → BehaveAlike (tree ∷ []) exports (converted line lang root tree form) }
{}
