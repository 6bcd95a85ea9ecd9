// Steps laid into a caller's memory of words. The memory is the logger's own, so nothing is allocated.
ghost use Rattle.std.specs.Prelude.{◌≡◌, ◌≤◌, map, length};
ghost use Rattle.steps.specs.Words.{encoded};
ghost use Rattle.chain.specs.Chains.{reads_T, release, number_steps};
ghost use Rattle.chain.specs.Laid.{LaysPair, LaysNumber};

use super::fault::ChainFault;
use super::pairs::{COPY_T_P, steps_of_pair};
use recoding::{Pair, divide};
use steps::{Register, Step};

// Whether a step takes T's value and leaves it.
fn reads_t(step: Step) -> bool
    ensures { result ≡ reads_T step }
{
    matches!(
        step,
        Step::Copy {
            from: Register::T,
            ..
        } | Step::Multiply {
            by: Register::T,
            ..
        }
    )
}

// The step itself if a later one reads T; else, if it reads T, the step that releases T too.
fn release_unless(later: bool, step: Step) -> Step
    ensures { result ≡ release later step }
{
    match step {
        Step::Copy {
            from: Register::T,
            to,
        } if !later => Step::Move {
            from: Register::T,
            to,
        },
        Step::Multiply {
            into,
            by: Register::T,
        } if !later => Step::Gather {
            into,
            from: Register::T,
        },
        _ => step,
    }
}

// The number of steps of a number with these pairs.
fn step_count(pairs: &[Pair]) -> usize
    requires { length pairs.now ≤ 63 }
    ensures { result ≡ length (number_steps pairs.now) }
{
    1 + pairs
        .iter()
        .map(|pair| steps_of_pair(*pair).len())
        .sum::<usize>()
}

// Lays the steps of a number with these pairs into as many words, from the last back to the first.
fn lay_pairs(pairs: &[Pair], words: &mut [u32])
    requires { length words.old ≡ length (number_steps pairs.now) }
    ensures { words.new ≡ map encoded (number_steps pairs.now) }
{
    let backwards = pairs
        .iter()
        .flat_map(|pair| steps_of_pair(*pair).iter().rev())
        .chain(&[COPY_T_P]);
    // Whether a step laid so far reads T; these are the later ones of the plan.
    let mut reads = false;
    for (place, step) in (0..words.len()).rev().zip(backwards) {
        words[place] = u32::from(release_unless(reads, *step));
        reads |= reads_t(*step);
    }
}

/// Lays the steps of a pair at the front of the memory and answers how many they are.
pub fn lay_pair(pair: Pair, words: &mut [u32]) -> Result<usize, ChainFault>
    ensures { LaysPair pair words.old words.new result }
{
    let steps = steps_of_pair(pair);
    let count = steps.len();
    if words.len() < count {
        return Err(ChainFault::Capacity);
    }
    // By place, since of a zip over `iter_mut` a proof does not learn what the words then hold.
    for (place, step) in steps.iter().enumerate() {
        words[place] = u32::from(*step);
    }
    Ok(count)
}

/// Lays the steps of a job number at the front of the memory and answers how many they are.
#[tactic(auto, using(crate::proofs::Memory::number_laid))]
pub fn lay_number(number: u64, words: &mut [u32]) -> Result<usize, ChainFault>
    ensures { LaysNumber number words.old words.new result }
{
    let division = divide(number)?;
    let pairs = division.pairs();
    let count = step_count(pairs);
    if count > words.len() {
        return Err(ChainFault::Capacity);
    }
    lay_pairs(pairs, &mut words[..count]);
    Ok(count)
}
