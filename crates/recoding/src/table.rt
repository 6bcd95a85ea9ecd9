// The division table: for each remainder modulo 30 the pair that a number with that remainder is divided by.
ghost use Rattle.std.specs.Prelude.{◌≡◌};
ghost use Rattle.recoding.specs.Tables.{table_of_thirty, Fitting};
ghost use Rattle.recoding.specs.Divisions.{EveryFittingTableDivides};

use super::pair::Pair;

const DIVISION_TABLE: [Pair; 30] = [
    Pair::TwoZero, // 0
    Pair::FiveOne,
    Pair::TwoZero,
    Pair::ThreeZero,
    Pair::TwoZero,
    Pair::FiveZero, // 5
    Pair::TwoZero,
    Pair::ThreeOne,
    Pair::TwoZero,
    Pair::ThreeZero,
    Pair::TwoZero, // 10
    Pair::ThreeTwo,
    Pair::TwoZero,
    Pair::TwoOne,
    Pair::TwoZero,
    Pair::ThreeZero, // 15
    Pair::TwoZero,
    Pair::FiveTwo,
    Pair::TwoZero,
    Pair::ThreeOne,
    Pair::TwoZero, // 20
    Pair::ThreeZero,
    Pair::TwoZero,
    Pair::FiveThree,
    Pair::TwoZero,
    Pair::FiveZero, // 25
    Pair::TwoZero,
    Pair::ThreeZero,
    Pair::TwoZero,
    Pair::FiveFour,
];

/// The thirty entries, by remainder.
#[tactic(auto, using(crate::proofs::Fit::thirty_fit, crate::proofs::AnyTable::every_fitting))]
pub fn division_table() -> [Pair; 30]
    ensures value { result ≡ table_of_thirty }
    ensures fits { Fitting result }
    ensures every_table { EveryFittingTableDivides }
{
    DIVISION_TABLE
}

// A table that fits for division. Its type says so, and no function has to ask for it.
#[derive(Clone, Copy)]
pub(crate) struct Table {
    pub(crate) entries: [Pair; 30],
    ghost fits: { Fitting entries },
}

impl Table {
    pub(crate) fn in_use() -> Self
        ensures { result.entries ≡ table_of_thirty }
    {
        Table {
            entries: division_table(),
        }
    }
}
