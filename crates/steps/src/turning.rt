// A list of steps turned round: reversed, and each step transposed.
ghost use Rattle.std.specs.Prelude.{◌≡◌, ◌+◌, ◌^◌, ◌<◌, ◌≤◌, map, reverse};
ghost use Rattle.steps.specs.Sets.{members, size};
ghost use Rattle.steps.specs.Plans.{word_transposed, Turns};

use super::fault::StepAt;
use super::judgement::Judgement;
use super::judging::judge;
use super::register_set::RegisterSet;
use super::step::{Counts, Step};

// The word of the transposed step; a word that is no step stays.
fn transpose_word(word: u32) -> u32
    ensures { result ≡ word_transposed word }
{
    Step::try_from(word).map_or(word, |step| u32::from(step.transpose()))
}

// Reverses the words and transposes each.
fn turn_words(words: &mut [u32])
    ensures { words.new ≡ map word_transposed (reverse words.old) }
{
    words.reverse();
    for word in words.iter_mut() {
        *word = transpose_word(*word);
    }
}

// The multiplications of turned steps: more by the registers that were full at the end, less by those full at the start.
fn turned_multiplications(multiplications: usize, full: RegisterSet, start: RegisterSet) -> usize
    requires low { size (members start) ≤ multiplications + size (members full) }
    requires high { multiplications + size (members full) < 2 ^ 64 + size (members start) }
    ensures { result + size (members start) ≡ multiplications + size (members full) }
{
    let (more, less) = (usize::from(full.len()), usize::from(start.len()));
    if more >= less {
        multiplications + (more - less)
    } else {
        multiplications - (less - more)
    }
}

/// Turns the words of a list of steps that fits from the start set, and answers what is then found of them; other words
/// are refused and stay.
pub fn turn(start: RegisterSet, words: &mut [u32]) -> Result<Judgement, StepAt>
    ensures { Turns (members start) words.old words.new result }
{
    let judgement = judge(start, words)?;
    turn_words(words);
    let Judgement { full, counts, .. } = judgement;
    Ok(Judgement {
        start: full,
        full: start,
        counts: Counts {
            multiplications: turned_multiplications(counts.multiplications, full, start),
            ..counts
        },
    })
}
