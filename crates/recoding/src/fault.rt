// Why a number or a pair is refused.
ghost use Rattle.std.specs.Prelude.{Some};
ghost use Rattle.recoding.specs.Faults.{fault_number, fault_text};

use refusal::Refusal;
use std::fmt;

/// Why a number or a pair is refused.
#[derive(Clone, Copy, Debug, PartialEq, Eq)]
pub enum NumberFault {
    /// The job number is 0.
    Zero,
    /// A base and a digit that are none of the ten pairs.
    NotPair,
}

impl Refusal for NumberFault {
    ghost shown_as = { fault_number };

    fn number(self) -> u32 {
        match self {
            NumberFault::Zero => 52,
            NumberFault::NotPair => 53,
        }
    }
}

impl fmt::Display for NumberFault {
    ghost output = { λ e. Some (fault_text e) };

    fn fmt<W: fmt::Write>(&self, f: &mut fmt::Formatter<W>) -> fmt::Result {
        f.write_str(match self {
            NumberFault::Zero => "a job number is at least 1",
            NumberFault::NotPair => "not one of the ten pairs",
        })
    }
}
