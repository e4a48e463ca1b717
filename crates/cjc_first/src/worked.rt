//! A worked package: which sentences are false of it, by computation.

ghost use Rattle.std.specs.Prelude.{◌≡◌, [], ◌∷◌, map, pos, true, false};
ghost use Rattle.cjc_capread.specs.declared.tree.ClassRef.TheVariants.{Inside as inside, Outside as outside};
ghost use Rattle.cjc_first.specs.Sentences.ClassRefs.{in_nibbles};
ghost use Rattle.cjc_first.specs.Sentences.Consistent.{Consistent};
ghost use Rattle.cjc_first.specs.Sentences.Example.{example, with_applet, altered, lang, broken, starts_of, jumps_of, tokens_at, two_handlers};
ghost use Rattle.cjc_first.specs.Sentences.Handlers.{do_not_fall, stop_bits};
ghost use Rattle.cjc_first.specs.Sentences.Locations.{distances, catch_places};

/// The example is consistent with java/lang, also with an applet, and each alteration breaks one sentence of it.
pub fn example_is_consistent()
    ensures consistent { Consistent example (lang ∷ []) }
    ensures with_applet { broken (with_applet 29) (lang ∷ []) ≡ [] }
    ensures altered { map (λ cap. broken cap (lang ∷ [])) altered ≡ (701 ∷ []) ∷ (702 ∷ []) ∷ (703 ∷ []) ∷ (704 ∷ []) ∷ (705 ∷ []) ∷ (706 ∷ []) ∷ (707 ∷ []) ∷ (708 ∷ []) ∷ (709 ∷ []) ∷ (710 ∷ []) ∷ (711 ∷ []) ∷ (712 ∷ []) ∷ (713 ∷ []) ∷ (714 ∷ []) ∷ (715 ∷ []) ∷ (716 ∷ []) ∷ (717 ∷ []) ∷ (718 ∷ []) ∷ [] }
{}

/// Places 10 and 310, and 10 and 265, as distances. The instructions and jumps of a lookup switch that gives 1, 2 or 0; one
/// whose matches do not ascend is no instruction, and neither is a table whose high match is below its low one.
pub fn worked_codes_are_cut()
    ensures far { distances 0 (10 ∷ 310 ∷ []) ≡ 0x0A ∷ 0xFF ∷ 0x2D ∷ [] }
    ensures just { distances 0 (10 ∷ 265 ∷ []) ≡ 0x0A ∷ 0xFF ∷ 0x00 ∷ [] }
    ensures starts { starts_of (0x1C ∷ 0x75 ∷ 0 ∷ 13 ∷ 0 ∷ 1 ∷ 0 ∷ 5 ∷ 0 ∷ 9 ∷ 4 ∷ 0x78 ∷ 5 ∷ 0x78 ∷ 3 ∷ 0x78 ∷ []) ≡ 0 ∷ 1 ∷ 10 ∷ 11 ∷ 12 ∷ 13 ∷ 14 ∷ 15 ∷ [] }
    ensures jumps { jumps_of (0x1C ∷ 0x75 ∷ 0 ∷ 13 ∷ 0 ∷ 1 ∷ 0 ∷ 5 ∷ 0 ∷ 9 ∷ 4 ∷ 0x78 ∷ 5 ∷ 0x78 ∷ 3 ∷ 0x78 ∷ []) ≡ pos 13 ∷ pos 9 ∷ [] }
    ensures table { jumps_of (0x73 ∷ 0 ∷ 11 ∷ 0 ∷ 4 ∷ 0 ∷ 5 ∷ 0 ∷ 12 ∷ 0 ∷ 13 ∷ []) ≡ pos 11 ∷ pos 12 ∷ pos 13 ∷ [] }
    ensures falling { starts_of (0x75 ∷ 0 ∷ 12 ∷ 0 ∷ 2 ∷ 0 ∷ 5 ∷ 0 ∷ 12 ∷ 0 ∷ 5 ∷ 0 ∷ 12 ∷ []) ≡ [] }
    ensures crossed { starts_of (0x73 ∷ 0 ∷ 9 ∷ 0 ∷ 5 ∷ 0 ∷ 4 ∷ 0 ∷ 9 ∷ []) ≡ [] }
    ensures cut_short { starts_of (0x8B ∷ 0 ∷ []) ≡ [] }
{}

/// Tokens are found upwards, an imported implementation counted; a token of the package table has its high bit set. Class references
/// in types. Two handlers whose ranges meet: the stop bit of the first is 0, and only its catch index has a place.
pub fn worked_items_are_found()
    ensures class { tokens_at 2 (0 ∷ 1 ∷ 2 ∷ 3 ∷ 0x80 ∷ 0x81 ∷ []) ≡ true ∷ true ∷ true ∷ false ∷ true ∷ false ∷ [] }
    ensures subclass { tokens_at 18 (0 ∷ 1 ∷ 2 ∷ 3 ∷ 0x80 ∷ 0x81 ∷ []) ≡ true ∷ true ∷ true ∷ false ∷ true ∷ false ∷ [] }
    ensures types { in_nibbles (4 ∷ 6 ∷ 0 ∷ 0 ∷ 0 ∷ 2 ∷ 0xE ∷ 8 ∷ 0 ∷ 0 ∷ 4 ∷ 1 ∷ []) ≡ inside 2 ∷ outside 0 4 ∷ [] }
    ensures order { do_not_fall (two_handlers false) ≡ true }
    ensures stops { stop_bits (two_handlers false) ≡ true }
    ensures no_stop { stop_bits (two_handlers true) ≡ false }
    ensures places { distances 0 (catch_places 1 (two_handlers false)) ≡ 7 ∷ [] }
{}
