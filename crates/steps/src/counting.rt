// Squarings and multiplications among step words.
ghost use Rattle.std.specs.Prelude.{◌≡◌, ◌≤◌, [], ◌∷◌};
ghost use Rattle.steps.specs.Steps.{counts_of};
ghost use Rattle.steps.specs.Plans.{steps_in};

use super::step::{Counts, Step};

// What one word counts.
fn count_word(word: u32) -> Counts
    ensures value { result ≡ counts_of (steps_in (word ∷ [])) }
    ensures bound { (result.squarings ≤ 1) × (result.multiplications ≤ 1) }
{
    let (squarings, multiplications) = match Step::try_from(word) {
        Ok(Step::Square(_)) => (1, 0),
        Ok(Step::Multiply { .. } | Step::Gather { .. }) => (0, 1),
        _ => (0, 0),
    };
    Counts {
        squarings,
        multiplications,
    }
}

/// How many of the words are square steps, and how many multiply or gather steps; a word that is no step counts nothing.
pub fn count(words: &[u32]) -> Counts
    ensures { result ≡ counts_of (steps_in words.now) }
{
    let mut squarings: usize = 0;
    let mut multiplications: usize = 0;
    for word in words {
        let one = count_word(*word);
        squarings += one.squarings;
        multiplications += one.multiplications;
    }
    Counts {
        squarings,
        multiplications,
    }
}
