//! What holds of the order of the classes of a package, for every caller. Nothing here runs.

ghost use Rattle.std.specs.Prelude.{◌≡◌, Bool, map, Some};
ghost use Rattle.cjc_world.specs.Classes.{all_classes};
ghost use Rattle.cjc_world.specs.Files.{Files};
ghost use Rattle.cjc_world.specs.Order.{in_order};
ghost use Rattle.cjc_order.specs.Classes.Numbers.{declared_at};

/// Each class of the order is the one of the package that has its number.
#[tactic(auto, using(crate::proofs::ClassesLaws::Declared::order_declared))]
pub fn order_laws()
    ensures { (files : Files) (i : Bool) → map Some (in_order (all_classes files) i)
        ≡ map (λ c. declared_at files.classes c.number) (in_order (all_classes files) i) }
{}
