//! What judging and laying out promise of a converted package is what others ask of one. For whoever writes it,
//! and whoever promises something of what is written. It has laws alone; nothing here runs.

ghost use Rattle.std.specs.Prelude.{◌≡◌, [], ℕ, All, List, map, false, Some};
ghost use Rattle.cjc_classes.specs.ClassOrder.Classes.Numbers.{IsOfKind, declared_at};
ghost use Rattle.cjc_components.specs.Limits.{form_breaks, of_methods};
ghost use Rattle.cjc_components.specs.Package.{Package, codes, tokens, world};
ghost use Rattle.cjc_shape.specs.LowerJudge.declared.judged.Judged.{Judged};
ghost use Rattle.cjc_classes.specs.List.Listed.{ListTree};
ghost use Rattle.cjc_shape.specs.LowerMethods.Component.Emittable.{AreEmittable};
ghost use Rattle.cjc_shape.specs.LowerMethods.Ready.{AreOrdered};
ghost use Rattle.cjc_shape.specs.Pool.Pool.{IsPool, PoolView};
ghost use Rattle.cjc_shape.specs.Prepared.{IsSound};
ghost use Rattle.cjc_shape.specs.LowerIntPackage.Limits.{word_breaks_by_modes};
ghost use Rattle.cjc_shape.specs.Whole.Conversion.{IsPackageByModesOf};
ghost use Rattle.cjc_world.specs.Classes.{all_classes};
ghost use Rattle.cjc_world.specs.Order.{in_order, method_order};

use cjc_shape::judged::pooled_methods_are_emittable;

/// Each method of a package that breaks no rule of its files, nor 417, 311, 414 and 415, can be emitted by the pool
/// that its methods need, whichever of them are in int mode, with the names that its components have: indices are
/// places in the pool, and the token of a method of an interface is its place among the interface's methods.
pub fn converted_methods_are_emittable()
    ensures { (list : ListTree) (files : List (List ℕ)) (judged : Judged) → IsSound list files judged
        → (p : Package) (whole : IsPackageByModesOf list files p)
        → of_methods p (word_breaks_by_modes whole.tables p) ≡ [] → form_breaks p ≡ []
        → (pool : PoolView) → IsPool judged.world (tokens p) (codes p) pool → AreEmittable p pool }
{
    pooled_methods_are_emittable();
}

/// The numbers that are answered for the order of Class are those of such a package's classes in that order,
/// and its methods are those of its files in the order of Method: so its extents give the offsets of its
/// methods.
pub fn converted_classes_are_ordered()
    ensures ordered { (list : ListTree) (files : List (List ℕ)) (judged : Judged) → IsSound list files judged
        → (p : Package) → IsPackageByModesOf list files p
        → (order : List ℕ) → map Some (in_order (all_classes judged.world) false)
        ≡ map (declared_at (let w = judged.world in w.classes)) order → All (IsOfKind judged.world false) order
        → AreOrdered p.files order }
    ensures members { (list : ListTree) (files : List (List ℕ)) (judged : Judged) → IsSound list files judged
        → (p : Package) → IsPackageByModesOf list files p → map (λ m. m.member) p.methods ≡ method_order (world p) }
{}
