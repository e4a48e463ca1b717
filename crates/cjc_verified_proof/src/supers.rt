//! Superclasses and interfaces: what a class_ref of a class info may name. It has laws alone, for whoever proves that
//! components which break no rule are never stuck.
ghost use Rattle.std.specs.Prelude.{◌≡◌, Bool, []};
ghost use Rattle.cjc_check_rules.specs.ClassRefs.{super_spots};
ghost use Rattle.cjc_check_rules.specs.Complete.{Complete};
ghost use Rattle.cjc_world.specs.declared.image.StaticImage.{StaticImage};
ghost use Rattle.cjc_world.specs.Files.{Files};
ghost use Rattle.cjc_verify.specs.Pairs.{pair_of};
ghost use Rattle.cjc_verify_proof.specs.Memories.{SupersStand};
ghost use Rattle.cjc_verified_proof.specs.PackageTypes.{HasNoObject};

/// Superclasses stand before their classes, what is listed as an interface is one, and no class of the package stands
/// above an imported one, where 705 is not broken.
pub fn supers_stand_before()
    ensures { (applets : Bool) (files : Files) (image : StaticImage) (c : Complete) → super_spots c files.exports ≡ []
        → (let p = pair_of applets files image c in HasNoObject p.loaded → SupersStand p.loaded) }
{}
