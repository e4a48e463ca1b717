//! Class: its infos are those of the package's classes.
ghost use Rattle.std.specs.Prelude.{◌≡◌, []};
ghost use Rattle.cjc_verify.specs.Components.Package.{Package};
ghost use Rattle.cjc_check_proof.specs.TokenProof.Components.Methods.{HasMethods};
ghost use Rattle.cjc_verify.specs.Infos.{all_info_spots, all_table_spots};
ghost use Rattle.cjc_accepted_proof.specs.Written.{written_pair};

/// The infos that are written for a package have the flags, the superclasses, the interfaces and the items on instance
/// fields of its classes, and their bases, counts, tables and maps, where the entries of tables are the starts of the
/// methods that Descriptor gives.
pub fn infos_are_of_their_classes()
    ensures heads { (p : Package) → HasMethods p → all_info_spots (written_pair p) ≡ [] }
    ensures tables { (p : Package) → HasMethods p → all_table_spots (written_pair p) ≡ [] }
{}
