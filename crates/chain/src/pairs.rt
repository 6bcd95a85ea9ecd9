// The steps of each of the ten pairs: T holds the value, P the power so far, Q is free.
ghost use Rattle.std.specs.Prelude.{◌≡◌};
ghost use Rattle.chain.specs.Chains.{pair_steps, PairSteps};

use recoding::Pair;
use steps::Register::{P, Q, T};
use steps::Step;

// Steps by kind and registers a and b.
pub(crate) const COPY_T_P: Step = Step::Copy { from: T, to: P };

const COPY_P_Q: Step = Step::Copy { from: P, to: Q };

const SQUARE_P: Step = Step::Square(P);

const SQUARE_Q: Step = Step::Square(Q);

const MUL_P_T: Step = Step::Multiply { into: P, by: T };

const MUL_Q_T: Step = Step::Multiply { into: Q, by: T };

const MUL_P_Q: Step = Step::Multiply { into: P, by: Q };

const MUL_Q_P: Step = Step::Multiply { into: Q, by: P };

const GATHER_P_Q: Step = Step::Gather { into: P, from: Q };

// The table of steps, held against the definition row by row; what the steps do is a fact about the definition.
fn listed_steps(pair: Pair) -> &'static [Step]
    ensures { result.now ≡ pair_steps pair }
{
    match pair {
        Pair::TwoZero => &[SQUARE_P],
        Pair::TwoOne => &[SQUARE_P, MUL_P_T],
        Pair::ThreeZero => &[COPY_P_Q, SQUARE_Q, GATHER_P_Q],
        Pair::ThreeOne => &[COPY_P_Q, SQUARE_Q, GATHER_P_Q, MUL_P_T],
        Pair::ThreeTwo => &[COPY_P_Q, MUL_Q_T, SQUARE_Q, GATHER_P_Q],
        Pair::FiveZero => &[COPY_P_Q, SQUARE_Q, SQUARE_Q, GATHER_P_Q],
        Pair::FiveOne => &[COPY_P_Q, SQUARE_Q, SQUARE_Q, GATHER_P_Q, MUL_P_T],
        Pair::FiveTwo => &[COPY_P_Q, SQUARE_Q, MUL_Q_T, SQUARE_Q, GATHER_P_Q],
        Pair::FiveThree => &[COPY_P_Q, MUL_Q_T, MUL_P_Q, MUL_Q_P, GATHER_P_Q],
        Pair::FiveFour => &[COPY_P_Q, MUL_Q_T, SQUARE_Q, SQUARE_Q, GATHER_P_Q],
    }
}

/// The steps that turn P into P to the power of the base, joined with T to the power of the digit.
#[tactic(auto, using(crate::proofs::Rows::pair_does))]
pub fn steps_of_pair(pair: Pair) -> &'static [Step]
    ensures { PairSteps pair result.now }
{
    listed_steps(pair)
}
