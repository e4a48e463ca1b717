//! A worked package: which sentences are false of it and where, by computation. It has no code that runs.

ghost use Rattle.std.specs.Prelude.{◌≡◌, [], ◌∷◌, map, pos, true, false};
ghost use Rattle.cjc_check_rules.specs.Consistent.{Consistent};
ghost use Rattle.cjc_check_rules.specs.Example.{example, with_applet, altered, altered_at, small, changed, changed_at};
ghost use Rattle.cjc_check_rules.specs.Example.{lang, broken, starts_of, jumps_of, tokens_at, two_handlers};
ghost use Rattle.cjc_check_rules.specs.Handlers.{stops_from, targets_from};
ghost use Rattle.cjc_check_rules.specs.Locations.{distances, catch_places};

/// The example is consistent with java/lang, also with an applet, and each alteration breaks one sentence of it at
/// one place. So it is with a smaller package, where some changes break more.
#[tactic(auto, unfolding(crate::specs::Spots::along, crate::specs::Spots::beside, crate::specs::Spots::numbered, crate::specs::Spots::placed, crate::specs::ClassRefs::in_nibbles, crate::specs::Tables::leaves, crate::specs::Members::has_token, crate::specs::Codes::instructions, crate::specs::Codes::codes_from, crate::specs::Instructions::in_code, crate::specs::Handlers::targets_from, crate::specs::Handlers::stops_from, crate::specs::Locations::catch_places, crate::specs::Locations::distances, crate::specs::Described::methods_ascend, crate::specs::Described::all_ascend, cjc_export::specs::Supers::upwards_from, cjc_capread::specs::Opcodes::form, cjc_capread::specs::Opcodes::forms))]
pub fn example_is_consistent()
    ensures consistent { Consistent example (lang ∷ []) }
    ensures with_applet { broken (with_applet 29) (lang ∷ []) ≡ [] }
    ensures altered { map (λ cap. broken cap (lang ∷ [])) altered ≡ altered_at }
    ensures small { broken small (lang ∷ []) ≡ [] }
    ensures changed { map (λ cap. broken cap (lang ∷ [])) changed ≡ changed_at }
{}

/// Places 10 and 310, and 10 and 265, as distances. The instructions and jumps of a lookup switch that gives 1,
/// 2 or 0; one whose matches do not ascend is no instruction, and neither is a table whose high match is below
/// its low one.
#[tactic(auto, unfolding(crate::specs::Spots::along, crate::specs::Spots::beside, crate::specs::Spots::numbered, crate::specs::Spots::placed, crate::specs::ClassRefs::in_nibbles, crate::specs::Tables::leaves, crate::specs::Members::has_token, crate::specs::Codes::instructions, crate::specs::Codes::codes_from, crate::specs::Instructions::in_code, crate::specs::Handlers::targets_from, crate::specs::Handlers::stops_from, crate::specs::Locations::catch_places, crate::specs::Locations::distances, crate::specs::Described::methods_ascend, crate::specs::Described::all_ascend, cjc_export::specs::Supers::upwards_from, cjc_capread::specs::Opcodes::form, cjc_capread::specs::Opcodes::forms))]
pub fn worked_codes_are_cut()
    ensures far { distances 0 (10 ∷ 310 ∷ []) ≡ 0x0A ∷ 0xFF ∷ 0x2D ∷ [] }
    ensures just { distances 0 (10 ∷ 265 ∷ []) ≡ 0x0A ∷ 0xFF ∷ 0x00 ∷ [] }
    ensures starts { starts_of (0x1C ∷ 0x75 ∷ 0 ∷ 13 ∷ 0 ∷ 1 ∷ 0 ∷ 5 ∷ 0 ∷ 9 ∷ 4 ∷ 0x78 ∷ 5 ∷ 0x78 ∷ 3 ∷ 0x78 ∷ []) ≡ 0
        ∷ 1 ∷ 10 ∷ 11 ∷ 12 ∷ 13 ∷ 14 ∷ 15 ∷ [] }
    ensures jumps { jumps_of (0x1C ∷ 0x75 ∷ 0 ∷ 13 ∷ 0 ∷ 1 ∷ 0 ∷ 5 ∷ 0 ∷ 9 ∷ 4 ∷ 0x78 ∷ 5 ∷ 0x78 ∷ 3 ∷ 0x78 ∷ [])
        ≡ pos 13 ∷ pos 9 ∷ [] }
    ensures table { jumps_of (0x73 ∷ 0 ∷ 11 ∷ 0 ∷ 4 ∷ 0 ∷ 5 ∷ 0 ∷ 12 ∷ 0 ∷ 13 ∷ []) ≡ pos 11 ∷ pos 12 ∷ pos 13 ∷ [] }
    ensures falling { starts_of (0x75 ∷ 0 ∷ 12 ∷ 0 ∷ 2 ∷ 0 ∷ 5 ∷ 0 ∷ 12 ∷ 0 ∷ 5 ∷ 0 ∷ 12 ∷ []) ≡ [] }
    ensures crossed { starts_of (0x73 ∷ 0 ∷ 9 ∷ 0 ∷ 5 ∷ 0 ∷ 4 ∷ 0 ∷ 9 ∷ []) ≡ [] }
    ensures cut_short { starts_of (0x8B ∷ 0 ∷ []) ≡ [] }
{}

/// Tokens are found upwards, an imported implementation counted; a token of the package table has its high bit
/// set. Two handlers whose ranges meet: the stop bit of the first is 0, and only its catch index has a place.
#[tactic(auto, unfolding(crate::specs::Spots::along, crate::specs::Spots::beside, crate::specs::Spots::numbered, crate::specs::Spots::placed, crate::specs::ClassRefs::in_nibbles, crate::specs::Tables::leaves, crate::specs::Members::has_token, crate::specs::Codes::instructions, crate::specs::Codes::codes_from, crate::specs::Instructions::in_code, crate::specs::Handlers::targets_from, crate::specs::Handlers::stops_from, crate::specs::Locations::catch_places, crate::specs::Locations::distances, crate::specs::Described::methods_ascend, crate::specs::Described::all_ascend, cjc_export::specs::Supers::upwards_from, cjc_capread::specs::Opcodes::form, cjc_capread::specs::Opcodes::forms))]
pub fn worked_items_are_found()
    ensures class { tokens_at 2 (0 ∷ 1 ∷ 2 ∷ 3 ∷ 0x80 ∷ 0x81 ∷ []) ≡ true ∷ true ∷ true ∷ false ∷ true ∷ false ∷ [] }
    ensures subclass { tokens_at 18 (0 ∷ 1 ∷ 2 ∷ 3 ∷ 0x80 ∷ 0x81 ∷ []) ≡ true ∷ true ∷ true ∷ false ∷ true ∷ false
        ∷ [] }
    ensures order { targets_from 0 1 (two_handlers false) ≡ [] }
    ensures stops { stops_from 1 (two_handlers false) ≡ [] }
    ensures no_stop { stops_from 1 (two_handlers true) ≡ record { component = 7; offset = 6 } ∷ [] }
    ensures places { distances 0 (catch_places 1 (two_handlers false)) ≡ 7 ∷ [] }
{}
