//! What holds of an export file that is written, where the package keeps to the rules. Whoever writes it stands
//! on this.

ghost use Rattle.std.specs.Prelude.{◌≡◌, ◌<◌, ℕ, length, slice_get, Some};
ghost use Rattle.cjc_world.specs.ExportFile.declared.tree.ExportClass.{ExportClass as Exported};
ghost use Rattle.cjc_components.specs.LowerTokens.Rules.{FewExported};
ghost use Rattle.cjc_components.specs.ExportFile.{export_of};
ghost use Rattle.cjc_components.specs.Package.{Package, has_applets};

/// Where 401 is not broken one byte counts the classes.
pub fn few_classes()
    ensures { (p : Package) → FewExported (has_applets p) p.files → (let t = export_of p in length t.classes < 256) }
{}

/// The token of a class is its place, so each class has its own.
pub fn tokens_are_places()
    ensures { (p : Package) (k : ℕ) (c : Exported) → (let t = export_of p in slice_get t.classes k ≡ Some c)
        → c.token ≡ k }
{}
