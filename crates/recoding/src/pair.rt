// The ten pairs of a base and a digit.
ghost use Rattle.std.specs.Prelude.{◌≡◌, Some, pos, MatchResult};
ghost use Rattle.recoding.specs.Pairs.{base_of, digit_of, HasParts, pair_text};
ghost use Rattle.recoding.specs.declared.fault.NumberFault.TheVariants.{NotPair};

use super::fault::NumberFault;
use std::fmt;

/// A base of 2, 3 or 5 and a digit below it; a variant is named by both, the base first.
#[derive(Clone, Copy, Debug, PartialEq, Eq)]
pub enum Pair {
    TwoZero,
    TwoOne,
    ThreeZero,
    ThreeOne,
    ThreeTwo,
    FiveZero,
    FiveOne,
    FiveTwo,
    FiveThree,
    FiveFour,
}

impl Pair {
    /// The pair of a base and a digit, which is refused if it is none of the ten.
    pub fn new(base: u32, digit: i32) -> Result<Pair, NumberFault>
        ensures { MatchResult result (λ p. HasParts p base digit) (λ e. (e ≡ NotPair) × ((p : Pair) → HasParts p base digit → ⊥)) }
    {
        match (base, digit) {
            (2, 0) => Ok(Pair::TwoZero),
            (2, 1) => Ok(Pair::TwoOne),
            (3, 0) => Ok(Pair::ThreeZero),
            (3, 1) => Ok(Pair::ThreeOne),
            (3, 2) => Ok(Pair::ThreeTwo),
            (5, 0) => Ok(Pair::FiveZero),
            (5, 1) => Ok(Pair::FiveOne),
            (5, 2) => Ok(Pair::FiveTwo),
            (5, 3) => Ok(Pair::FiveThree),
            (5, 4) => Ok(Pair::FiveFour),
            _ => Err(NumberFault::NotPair),
        }
    }

    /// The base: 2, 3 or 5.
    pub fn base(self) -> u32
        ensures { result ≡ base_of self }
    {
        match self {
            Pair::TwoZero | Pair::TwoOne => 2,
            Pair::ThreeZero | Pair::ThreeOne | Pair::ThreeTwo => 3,
            Pair::FiveZero | Pair::FiveOne | Pair::FiveTwo | Pair::FiveThree | Pair::FiveFour => 5,
        }
    }

    /// The digit, from 0 up to the base less 1.
    pub fn digit(self) -> i32
        ensures { result ≡ pos (digit_of self) }
    {
        match self {
            Pair::TwoZero | Pair::ThreeZero | Pair::FiveZero => 0,
            Pair::TwoOne | Pair::ThreeOne | Pair::FiveOne => 1,
            Pair::ThreeTwo | Pair::FiveTwo => 2,
            Pair::FiveThree => 3,
            Pair::FiveFour => 4,
        }
    }
}

impl fmt::Display for Pair {
    ghost output = { λ p. Some (pair_text p) };

    fn fmt<W: fmt::Write>(&self, f: &mut fmt::Formatter<W>) -> fmt::Result {
        let (base, digit) = (self.base(), self.digit());
        write!(f, "({base},{digit})")
    }
}
