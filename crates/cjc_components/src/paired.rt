//! Components together with the class files that they are run with: which numbers of classes, methods and
//! static cells must be the same in both, and the names by which a run by token is reported. Whoever runs
//! components goes by them. They know no rule that class files break, and not how components are made.
ghost use Rattle.std.specs.Prelude.{◌≡◌, List, length, true};
ghost use Rattle.cjc_components.specs.Paired.Pairs.{pair_breaks};
ghost use Rattle.cjc_check_rules.specs.Complete.{Complete};
ghost use Rattle.cjc_clinit.specs.World.declared.image.StaticImage.{StaticImage};
ghost use Rattle.cjc_clinit.specs.World.Files.{Files};
ghost use Rattle.std.specs.Prelude.{◌≤◌};

/// At most one place is told.
pub fn one_place_is_told()
    ensures { (files : Files) (image : StaticImage) (c : Complete) → length (pair_breaks files image c) ≤ 1 }
{}
