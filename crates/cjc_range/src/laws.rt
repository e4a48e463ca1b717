//! Laws of the rows, for whoever builds tables of ranges on them. The functions do nothing: each stands
//! for the laws that its contract names.

ghost use Rattle.std.specs.Prelude.{◌≡◌, ◌<◌, ◌≤◌, ◌^◌, ℤ, pos, neg_ℤ, ◌+ℤ◌, ◌-ℤ◌, ◌*ℤ◌, int_div, int_rem};
ghost use Rattle.std.specs.Int.{w32, int_shr, int_bit_and, int_bit_or, int_bit_xor};
ghost use Rattle.cjc_range.specs.Span.{Span, Holds, Within, IsWord, width};
ghost use Rattle.cjc_range.specs.Words.{wide, low_word, low_byte, shift_distance, unsigned_shift};
ghost use Rattle.cjc_range.specs.Rows.{add_row, sub_row, mul_row, neg_row, div_row, rem_row, join_row, to_byte_row};
ghost use Rattle.cjc_range.specs.Rows.{to_short_row, shl_row, shr_row, ushr_row, IsOrRow, IsAndRow, or_row, and_row};
ghost use Rattle.cjc_range.specs.Landmarks.{round_row, IsRounded};
ghost use Rattle.cjc_range.specs.Laws.{IsMonotone, IsMonotoneAlone, GivesWords, GivesWordsAlone, IsFunctionOf};
ghost use Rattle.cjc_range.specs.Laws.{HoldsResults, HoldsResultsAlone, HoldsResultsButZero};

/// Operands inside wider operands give a result inside the wider result, for every operation.
pub fn intervals_are_monotone()
    ensures add { IsMonotone add_row }
    ensures sub { IsMonotone sub_row }
    ensures mul { IsMonotone mul_row }
    ensures div { IsMonotone div_row }
    ensures rem { IsMonotone rem_row }
    ensures neg { IsMonotoneAlone neg_row }
    ensures shl { IsMonotone shl_row }
    ensures shr { IsMonotone shr_row }
    ensures ushr { IsMonotone ushr_row }
    ensures and { IsMonotone and_row }
    ensures or_xor { IsMonotone or_row }
    ensures to_byte { IsMonotoneAlone to_byte_row }
    ensures to_short { IsMonotoneAlone to_short_row }
    ensures join { IsMonotone join_row }
    ensures round { IsMonotoneAlone round_row }
    ensures fits { (s t range : Span) → Within s t → Within t range → Within s range }
{}

/// Intervals of numbers of 32 bits give intervals of numbers of 32 bits, none empty.
pub fn rows_stay_words()
    ensures add { GivesWords add_row }
    ensures sub { GivesWords sub_row }
    ensures mul { GivesWords mul_row }
    ensures div { GivesWords div_row }
    ensures rem { GivesWords rem_row }
    ensures neg { GivesWordsAlone neg_row }
    ensures shl { GivesWords shl_row }
    ensures shr { GivesWords shr_row }
    ensures ushr { GivesWords ushr_row }
    ensures and { GivesWords and_row }
    ensures or_xor { GivesWords or_row }
    ensures to_byte { GivesWordsAlone to_byte_row }
    ensures to_short { GivesWordsAlone to_short_row }
    ensures join { GivesWords join_row }
    ensures round { GivesWordsAlone round_row }
{}

/// The rows of bits, which are relations, allow one result each, and name it as a function.
pub fn bit_rows_are_functions()
    ensures and { IsFunctionOf IsAndRow and_row }
    ensures or_xor { IsFunctionOf IsOrRow or_row }
{}

/// Each row holds what the machine's operation gives, in 32 bits, on numbers that its operands hold.
pub fn rows_hold_values()
    ensures add { HoldsResults add_row (λ x y. wide (x +ℤ y)) }
    ensures sub { HoldsResults sub_row (λ x y. wide (x -ℤ y)) }
    ensures mul { HoldsResults mul_row (λ x y. wide (x *ℤ y)) }
    ensures div { HoldsResultsButZero div_row (λ x y. wide (int_div x y)) }
    ensures rem { HoldsResultsButZero rem_row (λ x y. int_rem x y) }
    ensures neg { HoldsResultsAlone neg_row (λ x. wide (neg_ℤ x)) }
    ensures shl { HoldsResults shl_row (λ x y. wide (x *ℤ pos (2 ^ shift_distance y))) }
    ensures shr { HoldsResults shr_row (λ x y. int_shr x (shift_distance y)) }
    ensures ushr { HoldsResults ushr_row (λ x y. unsigned_shift x (shift_distance y)) }
    ensures and { HoldsResults and_row (λ x y. int_bit_and w32 x y) }
    ensures or { HoldsResults or_row (λ x y. int_bit_or w32 x y) }
    ensures xor { HoldsResults or_row (λ x y. int_bit_xor w32 x y) }
    ensures to_byte { HoldsResultsAlone to_byte_row low_byte }
    ensures to_short { HoldsResultsAlone to_short_row low_word }
    ensures round { HoldsResultsAlone round_row (λ x. x) }
{}

/// A wider interval holds more, and one that holds all that another holds is wider.
pub fn wider_holds_more()
    ensures wider { (s t : Span) (x : ℤ) → Within s t → Holds s x → Holds t x }
    ensures only { (s t : Span) → IsWord s → ((x : ℤ) → Holds s x → Holds t x) → Within s t }
{}

/// Intervals of numbers of 32 bits are ordered by what they hold, two have a least one above both, and the width
/// grows with the order, to 2^32 - 1 at most: what a dataflow problem asks of its states.
pub fn intervals_are_a_lattice()
    ensures reflexive { (s : Span) → Within s s }
    ensures transitive { (s t u : Span) → Within s t → Within t u → Within s u }
    ensures equal { (s t : Span) → Within s t → Within t s → s ≡ t }
    ensures own_join { GivesWords join_row }
    ensures above_left { (s t : Span) → Within s (join_row s t) }
    ensures above_right { (s t : Span) → Within t (join_row s t) }
    ensures least { (s t u : Span) → Within s u → Within t u → Within (join_row s t) u }
    ensures ranked { (s t : Span) → IsWord s → Within s t → width s ≤ width t }
    ensures rises { (s t : Span) → IsWord s → Within s t → width t ≤ width s → Within t s }
    ensures bounded { (s : Span) → IsWord s → width s < 2 ^ 32 }
{}

/// Rounding moves the ends outwards to the nearest landmarks, and rounding again changes nothing.
pub fn rounding_is_outwards()
    ensures nearest { (s : Span) → IsWord s → IsRounded s (round_row s) }
    ensures again { (s : Span) → IsWord s → round_row (round_row s) ≡ round_row s }
{}
