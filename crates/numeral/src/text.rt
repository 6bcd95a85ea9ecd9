// A job number from text.
ghost use Rattle.std.specs.Prelude.{◌≡◌};
ghost use Rattle.numeral.specs.Numerals.{parsed};

use super::base::Base;
use super::digits::number;
use super::fault::NumeralFault;

/// The number that the text writes: decimal digits, or `0x` and hexadecimal digits of either case.
pub fn parse(text: &str) -> Result<u64, NumeralFault>
    ensures { result ≡ parsed text.now }
{
    match text.strip_prefix("0x") {
        Some(digits) => number(Base::Hexadecimal, digits.as_bytes()),
        None => number(Base::Decimal, text.as_bytes()),
    }
}
