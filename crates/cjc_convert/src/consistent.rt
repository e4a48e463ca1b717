//! The components that are written for a package are consistent.

ghost use Rattle.std.specs.Prelude.{[], ◌∷◌};
ghost use Rattle.cjc_bytes.specs.Format.{FileSpells};
ghost use Rattle.cjc_check.specs.Consistent.{Consistent};
ghost use Rattle.cjc_classfile.specs.declared.tree.ClassTree.{ClassTree as Tree};
ghost use Rattle.cjc_convert.specs.Converted.{converted};
ghost use Rattle.cjc_convert.specs.FirstForm.{PackageLine, IsFirstForm};
ghost use Rattle.cjc_convert.specs.declared.lang.TheConstants.{LANG};
ghost use Rattle.cjc_export.specs.ExportFile.{export_file};
ghost use Rattle.cjc_export.specs.declared.tree.ExportTree.{ExportTree};

/// The export file of java/lang spells an export tree, and the components of a package of the first form are consistent with it.
pub fn first_form_is_consistent()
    ensures spelt { (lang : ExportTree) × FileSpells export_file lang LANG }
    ensures consistent { (line : PackageLine) (tree : Tree) (form : IsFirstForm line tree) (lang : ExportTree) → FileSpells export_file lang LANG → Consistent (converted line tree form) (lang ∷ []) }
{}
