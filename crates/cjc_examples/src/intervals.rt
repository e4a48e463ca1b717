//! The table of intervals at chosen ends, worked out outside: it shows on rows that the definitions of the operations
//! mean what they are to. Nothing here runs.
ghost use Rattle.std.specs.Prelude.{◌≡◌};
ghost use Rattle.cjc_code.specs.Range.Rows.{add_row, sub_row, mul_row, div_row, rem_row, join_row, neg_row};
ghost use Rattle.cjc_code.specs.Range.Rows.{to_byte_row};
ghost use Rattle.cjc_code.specs.Range.Rows.{to_short_row, shl_row, shr_row, ushr_row, and_row, or_row};
ghost use Rattle.cjc_code.specs.Range.Landmarks.{round_row};
ghost use Rattle.cjc_examples.specs.Intervals as rows;
ghost use Rattle.cjc_examples.specs.Intervals.{given_of_one, given_of_two, wanted_of_one, wanted_of_two};

/// Sums, differences, products, quotients, rests and opposites.
pub fn calculations_have_their_rows()
    ensures sums { given_of_two add_row rows.sums ≡ wanted_of_two rows.sums }
    ensures differences { given_of_two sub_row rows.differences ≡ wanted_of_two rows.differences }
    ensures products { given_of_two mul_row rows.products ≡ wanted_of_two rows.products }
    ensures quotients { given_of_two div_row rows.quotients ≡ wanted_of_two rows.quotients }
    ensures rests { given_of_two rem_row rows.rests ≡ wanted_of_two rows.rests }
    ensures opposites { given_of_one neg_row rows.opposites ≡ wanted_of_one rows.opposites }
{}

/// Shifts, by the low five bits of their distance.
pub fn shifts_have_their_rows()
    ensures shifts_up { given_of_two shl_row rows.shifts_up ≡ wanted_of_two rows.shifts_up }
    ensures shifts_down { given_of_two shr_row rows.shifts_down ≡ wanted_of_two rows.shifts_down }
    ensures unsigned_shifts { given_of_two ushr_row rows.unsigned_shifts ≡ wanted_of_two rows.unsigned_shifts }
{}

/// Bits: `xor` has the row of `or`.
pub fn bits_have_their_rows()
    ensures conjunctions { given_of_two and_row rows.conjunctions ≡ wanted_of_two rows.conjunctions }
    ensures disjunctions { given_of_two or_row rows.disjunctions ≡ wanted_of_two rows.disjunctions }
    ensures exclusive { given_of_two or_row rows.exclusive ≡ wanted_of_two rows.exclusive }
{}

/// Casts, joins, and the landmarks to which ends are rounded.
pub fn casts_and_joins_have_their_rows()
    ensures bytes { given_of_one to_byte_row rows.bytes ≡ wanted_of_one rows.bytes }
    ensures shorts { given_of_one to_short_row rows.shorts ≡ wanted_of_one rows.shorts }
    ensures joins { given_of_two join_row rows.joins ≡ wanted_of_two rows.joins }
    ensures rounded { given_of_one round_row rows.rounded ≡ wanted_of_one rows.rounded }
{}
