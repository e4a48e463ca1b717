//! That the class files of a made package are class files by the definition of their reader, with the trees
//! that they are meant to have, and its export file an export file; and the first numbers and texts of package
//! 7. Laws alone: no code calls them.
ghost use Rattle.std.specs.Prelude.{◌≡◌, ◌++◌, ◌∷◌, [], ℕ, codes};
ghost use Rattle.cjc_cmd_card.specs.Bytes.Format.{FileSpells};
ghost use Rattle.cjc_cmd_card.specs.ClassFile.ClassFile as Reader;
ghost use Rattle.cjc_cmd_card.specs.ExportFile.ExportFile.{export_file};
ghost use Rattle.cjc_cmd_make.specs.Package.ClassFile.{file_bytes};
ghost use Rattle.cjc_cmd_make.specs.Package.Classes.{class_with};
ghost use Rattle.cjc_cmd_make.specs.Package.Lang.{lang_file};
ghost use Rattle.cjc_cmd_make.specs.Package.Numbers.{addend, mask};
ghost use Rattle.cjc_cmd_make.specs.Package.Texts.{list_text, script_text};
ghost use Rattle.cjc_cmd_make.specs.Laws.ClassTrees.{class_tree};
ghost use Rattle.cjc_cmd_make.specs.Laws.LangTree.{lang_tree};

/// The files of the first two classes, whatever their numbers, spell the class trees that are meant: one extends
/// java/lang/Object, the other the one before.
pub fn first_classes_spell_their_trees()
    ensures first { (a b : ℕ) → FileSpells Reader.class_file (class_tree (codes "gen/p/C0") (codes "java/lang/Object") a
        b) (file_bytes (class_with 0 a b)) }
    ensures second { (a b : ℕ) → FileSpells Reader.class_file (class_tree (codes "gen/p/C1") (codes "gen/p/C0") a b)
        (file_bytes (class_with 1 a b)) }
{}

/// The export file of java/lang spells its tree.
pub fn lang_spells_its_tree()
    ensures { FileSpells export_file lang_tree lang_file }
{}

/// The numbers of the first two classes of package 7, and its list and script where it has two.
pub fn package_seven()
    ensures numbers { addend 7 0 ∷ mask 7 0 ∷ addend 7 1 ∷ mask 7 1 ∷ [] ≡ 29988 ∷ 5085 ∷ 20570 ∷ 16347 ∷ [] }
    ensures list { list_text 2 ≡ codes "package gen/p A000000003 1.0" ++ 10 ∷ [] ++ codes "export lang.exp" ++ 10 ∷ []
        ++ codes "class C0.class" ++ 10 ∷ [] ++ codes "class C1.class" ++ 10 ∷ [] }
    ensures script { script_text 2 ≡ codes "call gen/p/C0 f(S)S 0" ++ 10 ∷ [] ++ codes "call gen/p/C1 f(S)S 1"
        ++ 10 ∷ [] }
{}
