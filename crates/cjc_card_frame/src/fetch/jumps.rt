//! The offset to which a jump of so many bytes leads in Method, as the machine by token jumps.

ghost use Rattle.std.specs.Prelude.{◌≡◌, ◌<◌, ◌^◌};
ghost use Rattle.cjc_card_semantics.specs.Machine.Operations.{moved};

/// So far from an offset, and no further down than 0.
pub fn moved(at: usize, far: i32) -> usize
    requires { at < 2 ^ 32 }
    ensures { result ≡ moved at far }
{
    if far >= 0 {
        at + far as usize
    } else {
        at.saturating_sub(far.unsigned_abs() as usize)
    }
}
