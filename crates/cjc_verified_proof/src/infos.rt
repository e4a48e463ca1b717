//! Class infos: they are those of the package's classes, and name and order them as the files do. It has laws alone,
//! for whoever proves that components which break no rule are never stuck.
ghost use Rattle.std.specs.Prelude.{◌≡◌, ℕ, Bool, List, length, nat_lt};
ghost use Rattle.cjc_check_rules.specs.Complete.{Complete};
ghost use Rattle.cjc_verify.specs.List.Listed.{ListTree};
ghost use Rattle.cjc_world.specs.declared.image.StaticImage.{StaticImage};
ghost use Rattle.cjc_world.specs.Classes.{all_classes};
ghost use Rattle.cjc_world.specs.Files.{Files};
ghost use Rattle.cjc_components.specs.Paired.Pairs.{ArePaired};
ghost use Rattle.cjc_token_proof.specs.ByToken.Supers.{SaysKinds};
ghost use Rattle.cjc_token_proof.specs.Tables.Sound.{IsSound};
ghost use Rattle.cjc_verify.specs.Pairs.{pair_of};
ghost use Rattle.cjc_verify.specs.Verified.{IsVerified};
ghost use Rattle.cjc_verified_proof.specs.ClassInfos.{wanted_infos};
ghost use Rattle.cjc_verified_proof.specs.Dispatching.{naming_of, package_of};

/// Class has the infos of the package, with its tables and with the offsets that Descriptor gives its methods, where
/// there are as many as classes and no rule of the type checker is broken.
pub fn class_infos_are_the_packages()
    ensures { (name : List ℕ) (applets : Bool) (files : Files) (image : StaticImage) (c : Complete) → IsSound name files
        → ArePaired files image c → IsVerified (pair_of applets files image c)
        → c.class ≡ wanted_infos (pair_of applets files image c) }
{}

/// Then components and export files name each class, and say what stands above it, as the class files and export files
/// do.
pub fn classes_are_named()
    ensures { (name : List ℕ) (list : ListTree) (files : Files) (image : StaticImage) (c : Complete)
        → IsSound name files
        → ArePaired files image c → IsVerified (pair_of (nat_lt 0 (length list.applets)) files image c)
        → SaysKinds (all_classes files) (naming_of (pair_of (nat_lt 0 (length list.applets)) files image c)
        (package_of list files image)) }
{}
