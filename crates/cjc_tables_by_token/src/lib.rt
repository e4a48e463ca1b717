//! What the components of a package say by token of its classes, objects, static fields and names is what its class files and
//! export files say by name: where the infos of classes stand and which class each class_ref names. Whoever promises that components
//! run as narrow code cites it. It has definitions and laws alone, and knows no instruction.
#![tactic(auto)]

ghost use Rattle.std.specs.Prelude.{◌≡◌, ℕ, List, Some, None, true, false};
ghost use Rattle.cjc_world.specs.Classes.{Class, class_named};
ghost use Rattle.cjc_world.specs.Order.{class_order};
ghost use Rattle.cjc_sentences.specs.Complete.{complete};
ghost use Rattle.cjc_components.specs.Package.{Package, world};
ghost use Rattle.cjc_components.specs.Components.{components_of};
ghost use Rattle.cjc_component_laws.specs.OwnNames.{HaveOwnNames};
ghost use Rattle.cjc_tables_by_token.specs.Infos.{HasEntry, HasInfo, HasNone};
ghost use Rattle.cjc_tables_by_token.specs.Kept.{KeepsRules};
ghost use Rattle.cjc_tables_by_token.specs.Loading.{components};
ghost use Rattle.cjc_tables_by_token.specs.Sound.{IsSound};

/// What is loaded is what is written for a package: none of its components is absent.
pub fn components_are_complete()
    ensures { (p : Package) → complete (components_of p) ≡ Some (components p) }
{}

/// Each class of the package and of its export files keeps the rules of classes and names, and is the one that its name finds. No two
/// classes in the order of Class have one name.
pub fn classes_keep_rules()
    ensures rules { (list : List ℕ) (p : Package) → IsSound list p.files → (x : List ℕ) (c : Class) → class_named (world p) x ≡ Some c → KeepsRules (let files = p.files in files.package_name) (world p) c }
    ensures order { (list : List ℕ) (p : Package) → IsSound list p.files → HaveOwnNames (class_order (world p)) }
{}

/// A class of the package is on the card as an info, with the names of the class; a class of an export file as an entry of the first file
/// that has its name, by its token there; and a name that no file has is no class on the card.
pub fn names_are_placed()
    ensures own { (list : List ℕ) (p : Package) → IsSound list p.files → (x : List ℕ) (c : Class) → class_named (world p) x ≡ Some c → c.is_imported ≡ false → HasInfo p c }
    ensures file { (list : List ℕ) (p : Package) → IsSound list p.files → (x : List ℕ) (c : Class) → class_named (world p) x ≡ Some c → c.is_imported ≡ true → HasEntry p c }
    ensures none { (list : List ℕ) (p : Package) → IsSound list p.files → (x : List ℕ) → class_named (world p) x ≡ None → HasNone p x }
{}
