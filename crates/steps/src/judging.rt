// Step words judged one after the other, from a start set.
ghost use Rattle.std.specs.Prelude.{◌≡◌, Ok, Err, MatchResult};
ghost use Rattle.steps.specs.Sets.{members};
ghost use Rattle.steps.specs.Plans.{stepped, Judges};

use super::counting::count;
use super::fault::{StepAt, StepFault};
use super::judgement::Judgement;
use super::register_set::RegisterSet;
use super::step::Step;

// The full registers after the step of a word.
pub(crate) fn step_word(full: RegisterSet, word: u32) -> Result<RegisterSet, StepFault>
    ensures { MatchResult result (λ s. stepped (members full) word ≡ Ok (members s)) (λ e. stepped (members full) word ≡ Err e) }
{
    Ok(Step::try_from(word)?.apply(full)?)
}

/// Whether the words are steps that fit from the start set: this set, what they leave full and their counts, or the
/// first fault.
pub fn judge(start: RegisterSet, words: &[u32]) -> Result<Judgement, StepAt>
    ensures { Judges (members start) words.now result }
{
    let mut full = start;
    for (place, word) in words.iter().enumerate() {
        full = step_word(full, *word).map_err(|fault| StepAt { place, fault })?;
    }
    Ok(Judgement {
        start,
        full,
        counts: count(words),
    })
}
