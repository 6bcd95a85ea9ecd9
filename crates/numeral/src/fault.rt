// Why a text is refused as a job number.
ghost use Rattle.std.specs.Prelude.{Some};
ghost use Rattle.numeral.specs.Faults.{message};

use std::fmt;

/// Why a text is refused as a job number.
#[derive(Clone, Copy, Debug, PartialEq, Eq)]
pub enum NumeralFault {
    /// No digit, or a character that is no digit of the base.
    NotANumber,
    /// Digits of a number that 64 bits do not hold.
    TooLarge,
}

impl fmt::Display for NumeralFault {
    ghost output = { λ x. Some (message x) };

    fn fmt<W: fmt::Write>(&self, f: &mut fmt::Formatter<W>) -> fmt::Result {
        f.write_str(match self {
            NumeralFault::NotANumber => {
                "not a number: decimal digits, or 0x and hexadecimal digits"
            }
            NumeralFault::TooLarge => "too large: a job number is below 2^64",
        })
    }
}
