//! Laws over methods with their layouts, for whoever converts a package. Nothing here runs.

ghost use Rattle.std.specs.Prelude.{◌≡◌, List, map};
ghost use Rattle.cjc_components.specs.Bytecode.declared.method_code.MethodCode.{MethodCode};
ghost use Rattle.cjc_pool.specs.List.Listed.{ListTree};
ghost use Rattle.cjc_world.specs.declared.found.Found.{Found};
ghost use Rattle.cjc_world.specs.declared.image.StaticImage.{StaticImage};
ghost use Rattle.cjc_world.specs.Classes.{all_classes};
ghost use Rattle.cjc_world.specs.Files.{Files};
ghost use Rattle.cjc_world.specs.Order.{method_order};
ghost use Rattle.cjc_pool.specs.Clinit.Image.{IsImage};
ghost use Rattle.cjc_pool.specs.NCode.declared.narrow.NMethod.{NMethod};
ghost use Rattle.cjc_pool.specs.NCode.PoolOrder.{pool_order};
ghost use Rattle.cjc_narrow.specs.Rows.Selected.{near_fields};
ghost use Rattle.cjc_int_package.specs.Modes.{Tables};
ghost use Rattle.cjc_int_package.specs.Written.{IsPackageByModes, code_by_mode_at};
ghost use Rattle.cjc_methods.specs.Layouts.Laid.{AreOf, laid_methods};
ghost use Rattle.cjc_methods.specs.declared.layouts.laid.Methods.{Methods};

/// With a list and a static image, methods that are laid out are a package: where they are the methods of its
/// files in the order of Method, and the code of each is selected by its mode and by its own pool.
pub fn methods_are_of_a_package()
    ensures package { (list : ListTree) (files : Files) (insns : List MethodCode) (image : StaticImage)
        → IsImage files insns image
        → (t : Tables) (members : List Found) → members ≡ method_order (all_classes files)
        → (narrow : List NMethod) → narrow ≡ map (code_by_mode_at files (near_fields (pool_order narrow)) t) members
        → (m : Methods) → AreOf files members narrow m → IsPackageByModes list files insns t (record {
          list = list;
          files = files;
          image = image;
          methods = laid_methods m;
        }) }
    ensures parts { (files : Files) (members : List Found) (narrow : List NMethod) (m : Methods)
        → AreOf files members narrow m
        → (map (λ x. x.member) (laid_methods m) ≡ members) × (map (λ x. x.code) (laid_methods m) ≡ narrow) }
{}
