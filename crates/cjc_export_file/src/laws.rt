//! What holds of an export file that is written, where the package keeps to the rules. Whoever writes it stands on this.

ghost use Rattle.std.specs.Prelude.{◌<◌, length};
ghost use Rattle.cjc_tokens.specs.Rules.{FewExported};
ghost use Rattle.cjc_components.specs.ExportFile.{export_of};
ghost use Rattle.cjc_components.specs.Package.{Package, has_applets};

/// Where 401 is not broken one byte counts the classes.
pub fn few_classes()
    ensures { (p : Package) → FewExported (has_applets p) p.files → (let t = export_of p in length t.classes < 256) }
{}
