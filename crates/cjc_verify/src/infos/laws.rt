//! The rules over Class as differences from what the package wants.

ghost use Rattle.std.specs.Prelude.{◌≡◌, map};
ghost use Rattle.cjc_world.specs.Classes.{Class};
ghost use Rattle.cjc_world.specs.Order.{class_order};
ghost use Rattle.cjc_verify.specs.Abstracts.{all_abstract_beside};
ghost use Rattle.cjc_verify.specs.Infos.{all_abstract_spots, all_info_spots, all_table_spots};
ghost use Rattle.cjc_verify.specs.Named.{is_unmade};
ghost use Rattle.cjc_verify.specs.Pairs.{Pair, world};
ghost use Rattle.cjc_verify.specs.Wanted.{all_beside, all_tables_beside};
ghost use Rattle.cjc_verify.specs.WantedInfos.{wanted_infos};

/// Where Class is not what its package says, it differs from what is wanted.
pub(crate) fn infos_beside_wanted()
    ensures tables { (p : Pair) → all_table_spots p ≡ all_tables_beside p.components.class (wanted_infos p) }
    ensures abstracts { (p : Pair) → all_abstract_spots p ≡ all_abstract_beside p p.components.class
        (map (λ (c : Class). is_unmade c.flags) (class_order (world p))) }
    ensures infos { (p : Pair) → all_info_spots p ≡ all_beside p.components.class (wanted_infos p) }
{}
