//! The landmarks, to which the ends of intervals are rounded where ways meet, so that a table of ranges
//! is found in few steps.

ghost use Rattle.std.specs.Prelude.{◌≡◌, int_le, reverse};
ghost use Rattle.std.specs.List.{find};
ghost use Rattle.cjc_range.specs.Landmarks.{landmarks, landmark_above, landmark_below};

/// The landmarks, ascending.
const LANDMARKS: [i32; 12] = [
    i32::MIN,
    -65536,
    -32768,
    -128,
    -1,
    0,
    1,
    127,
    255,
    32767,
    65535,
    i32::MAX,
];

/// The nearest landmark that is not below a number.
pub fn landmark_above(end: i32) -> i32
    ensures { result ≡ landmark_above end }
{
    first_above(end).unwrap_or(i32::MAX)
}

/// The nearest landmark that is not above a number.
pub fn landmark_below(end: i32) -> i32
    ensures { result ≡ landmark_below end }
{
    last_below(end).unwrap_or(i32::MIN)
}

fn first_above(end: i32) -> Option<i32>
    ensures { result ≡ find (λ m. int_le end m) landmarks }
{
    LANDMARKS.iter().copied().find(|landmark| end <= *landmark)
}

fn last_below(end: i32) -> Option<i32>
    ensures { result ≡ find (λ m. int_le m end) (reverse landmarks) }
{
    LANDMARKS
        .iter()
        .rev()
        .copied()
        .find(|landmark| *landmark <= end)
}
