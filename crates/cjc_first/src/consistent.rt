//! The components that are written for a package are consistent.

ghost use Rattle.std.specs.Prelude.{[], ◌∷◌};
ghost use Rattle.cjc_first.specs.Sentences.Consistent.{Consistent};
ghost use Rattle.cjc_classfile.specs.declared.tree.ClassTree.{ClassTree as Tree};
ghost use Rattle.cjc_first.specs.Above.{IsRoot};
ghost use Rattle.cjc_first.specs.Converted.{converted};
ghost use Rattle.cjc_first.specs.FirstForm.{PackageLine, IsFirstForm};
ghost use Rattle.cjc_export.specs.Tokens.{HaveOwnTokens};
ghost use Rattle.cjc_export.specs.declared.tree.ExportClass.{ExportClass};
ghost use Rattle.cjc_export.specs.declared.tree.ExportTree.{ExportTree};

/// The components of a package of the first form are consistent with the export file whose java/lang/Object is the
/// superclass.
pub fn first_form_is_consistent()
    ensures { (line : PackageLine) (tree : Tree) (form : IsFirstForm line tree) (lang : ExportTree) (root : ExportClass) → IsRoot lang root → HaveOwnTokens (lang ∷ []) → Consistent (converted line lang root tree form) (lang ∷ []) }
{}
