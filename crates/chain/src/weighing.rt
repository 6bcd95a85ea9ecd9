// Weighing a plan: the power of one starting register that it leaves in one end register.
ghost use Rattle.steps.specs.Sets.{members};
ghost use Rattle.chain.specs.Weights.{Weighs, WeighsNumber};

use steps::{Register, RegisterSet, WalkFault, walk};

/// The entry of the table of a plan in the row of an end register and the column of a starting register,
/// found by walking the steps. It is 0 for a start register that is empty at the start or an end register that is
/// empty at the end. Refused as `walk` refuses.
#[tactic(auto, using(crate::proofs::Weights::weighs_number))]
pub fn weigh(
    start: RegisterSet,
    words: &[u32],
    end_register: Register,
    start_register: Register,
) -> Result<u64, WalkFault>
    ensures entry { Weighs (members start) words.now end_register start_register result }
    ensures number { WeighsNumber (members start) words.now end_register start_register result }
{
    let column = walk(start, start_register, words)?;
    Ok(column.get(end_register))
}
