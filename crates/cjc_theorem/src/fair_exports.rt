//! What the rules of a package leave of its export files, and what the premise on them, said of them alone, gives in
//! the world of any package that breaks no rule of classes and names. For whoever promises that what was converted
//! behaves as its class files. It has a definition and laws alone; nothing here runs.
ghost use Rattle.std.specs.Prelude.{◌≡◌, ℕ, List, [], ◌∷◌};
ghost use Rattle.cjc_bytes.specs.declared.settings.Settings.{Settings};
ghost use Rattle.cjc_components.specs.Bytecode.declared.method_code.MethodCode.{MethodCode};
ghost use Rattle.cjc_components.specs.Package.{Package, world};
ghost use Rattle.cjc_theorem.specs.FairExports.Fair.{ExportsAreFair};
ghost use Rattle.cjc_theorem.specs.FairExports.Worked.{framework, lang, q};
ghost use Rattle.cjc_shape_proof.specs.WorldProof.Files.{ExportsAreSound};
ghost use Rattle.cjc_token_proof.specs.Tables.Sound.{IsSound};
ghost use Rattle.cjc_vtable.specs.Kept.{ExportsAgree};
ghost use Rattle.cjc_world.specs.Files.{Files};
ghost use Rattle.cjc_shape_proof.specs.Written.Converted.{ExportsArePlain};
ghost use Rattle.cjc_token_proof.specs.Subset.Checks.{check_breaks};
ghost use Rattle.cjc_token_proof.specs.WrittenSends.Sends.{ExportsSend};

/// Where a package of read files breaks none of 201 to 204, 207 and 208, and none of the rules of the card's language
/// and of limits that are told of files alone, its export files say of their classes and methods all that is asked of
/// them where they stand among the files of the package. Where they are fair, they do not contradict one another there.
pub fn fair_exports_are_sound()
    ensures sound { (list : List ℕ) (files : Files) (codes : List MethodCode) (settings : Settings) → IsSound list files
        → check_breaks list files codes settings ≡ [] → ExportsAreSound files }
    ensures plain { (list : List ℕ) (files : Files) (codes : List MethodCode) (settings : Settings)
        → check_breaks list files codes settings ≡ [] → ExportsArePlain files }
    ensures agree { (list : List ℕ) (p : Package) → IsSound list p.files
        → (let files = p.files in ExportsAreFair files.exports) → ExportsAgree (world p) }
    ensures send { (list : List ℕ) (p : Package) (codes : List MethodCode) (settings : Settings) → IsSound list p.files
        → check_breaks list p.files codes settings ≡ [] → ExportsSend p }
{}

/// Export files made by hand are fair: java/lang by itself, and with a package and javacard/framework beside
/// it, which has an interface whose first method has token 0, and a class that implements it.
pub fn worked_export_files_are_fair()
    ensures alone { ExportsAreFair (lang ∷ []) }
    ensures together { ExportsAreFair (lang ∷ q ∷ framework ∷ []) }
{}
