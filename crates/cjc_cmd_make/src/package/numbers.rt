//! The numbers that a package is made from. Called by `made`. It knows no class.

ghost use Rattle.std.specs.Prelude.{◌≡◌};
ghost use Rattle.cjc_cmd_make.specs.Package.Numbers.{number_behind, operand_of};

/// The number behind one in the sequence.
pub(crate) fn number_behind(x: u16) -> u16
    ensures { result ≡ number_behind x }
{
    ((25173 * u32::from(x) + 13849) % 65536) as u16
}

/// A number from 1000 to 30999.
pub(crate) fn operand_of(x: u16) -> u16
    ensures { result ≡ operand_of x }
{
    1000 + x % 30000
}
