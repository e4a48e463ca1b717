//! The static image: it has a cell for each static field of the package, and arrays fill cells of their own types
//! alone. It has laws alone, for whoever proves that components which break no rule are never stuck.
ghost use Rattle.std.specs.Prelude.{◌≤◌, Bool, length};
ghost use Rattle.cjc_check_rules.specs.Complete.{Complete};
ghost use Rattle.cjc_world.specs.declared.image.StaticImage.{StaticImage};
ghost use Rattle.cjc_world.specs.Files.{Files};
ghost use Rattle.cjc_components.specs.Paired.Pairs.{ArePaired};
ghost use Rattle.cjc_verify.specs.Pairs.{pair_of};
ghost use Rattle.cjc_verify.specs.Verified.{IsVerified};
ghost use Rattle.cjc_verify_proof.specs.Memories.{ImageFits};
ghost use Rattle.cjc_verified_proof.specs.PackageTypes.{HasSorts, field_types};

/// The static image has a cell for each static field of a package, as wide as its type, where the numbers of cells are
/// the package's, there are no more arrays than references, and no rule of the type checker is broken.
pub fn images_have_cells()
    ensures { (applets : Bool) (files : Files) (image : StaticImage) (c : Complete) → HasSorts image
        → ArePaired files image c → (let s = c.statics in length s.array_inits ≤ s.reference_count)
        → IsVerified (pair_of applets files image c)
        → (let p = pair_of applets files image c in ImageFits p.loaded (field_types p) c.statics) }
{}
