// One column of the table of a list of steps, found by walking the steps.
ghost use Rattle.std.specs.Prelude.{◌≡◌, ◌+◌, ◌^◌, ◌≤◌, true, [], ◌∷◌, Ok, MatchOption};
ghost use Rattle.std.specs.List.{list_any};
ghost use Rattle.steps.specs.Registers.{at, put};
ghost use Rattle.steps.specs.Sets.{members};
ghost use Rattle.steps.specs.Steps.{lawful, inverts};
ghost use Rattle.steps.specs.Words.{decoded};
ghost use Rattle.steps.specs.Columns.{opened, Grows};
ghost use Rattle.steps.specs.Plans.{steps_in, Walks};

use super::fault::WalkFault;
use super::judging::judge;
use super::register::{Register, Registers};
use super::register_set::RegisterSet;
use super::step::Step;

// Whether a word is an invert step.
fn is_invert(word: u32) -> bool
    ensures { result ≡ inverts (steps_in (word ∷ [])) }
{
    matches!(Step::try_from(word), Ok(Step::Invert(_)))
}

// Whether one of the words is.
fn has_invert(words: &[u32]) -> bool
    ensures { result ≡ list_any (λ w. inverts (steps_in (w ∷ []))) words.now }
{
    words.iter().any(|word| is_invert(*word))
}

// The column of a starting register before the first step.
fn opening_entries(start: RegisterSet, column: Register) -> Registers<u64>
    ensures { result ≡ opened (members start) column }
{
    let mut entries = Registers::default();
    if start.contains(column) {
        entries.set(column, 1);
    }
    entries
}

// The entries with that of `by` added at `into`; none where 64 bits do not hold the sum.
fn added(mut entries: Registers<u64>, into: Register, by: Register) -> Option<Registers<u64>>
    ensures { MatchOption result (2 ^ 64 ≤ at entries into + at entries by) (λ v. v ≡ put entries into (at entries into + at entries by)) }
{
    let sum = entries.get(into).checked_add(entries.get(by))?;
    entries.set(into, sum);
    Some(entries)
}

// The entries after a step that does not invert; none where one is 2^64 or more.
fn entries_after(step: Step, mut entries: Registers<u64>) -> Option<Registers<u64>>
    requires { lawful step ≡ true }
    ensures { Grows step entries result }
{
    match step {
        Step::Copy { from, to } => entries.set(to, entries.get(from)),
        Step::Move { from, to } => {
            entries.set(to, entries.get(from));
            entries.set(from, 0);
        }
        Step::Swap { low, high } => {
            let (x, y) = (entries.get(low), entries.get(high));
            entries.set(high, x);
            entries.set(low, y);
        }
        // Not met: `walk` has refused it.
        Step::Invert(_) => {}
        Step::Square(a) => entries = added(entries, a, a)?,
        Step::Multiply { into, by } => entries = added(entries, into, by)?,
        Step::Gather { into, from } => {
            entries = added(entries, into, from)?;
            entries.set(from, 0);
        }
    }
    Some(entries)
}

// The same for the step of a word.
fn entries_after_word(word: u32, entries: Registers<u64>) -> Option<Registers<u64>>
    ensures { (s : Step) → decoded word ≡ Ok s → Grows s entries result }
{
    match Step::try_from(word) {
        Ok(step) => entries_after(step, entries),
        // Not met: `walk` has judged the words.
        Err(_) => Some(entries),
    }
}

/// The entries of a starting register's column, one for each end register. Refused, in this order: words that are
/// no plan from the start set, an invert step, and an entry that 64 bits do not hold after some step.
pub fn walk(
    start: RegisterSet,
    column: Register,
    words: &[u32],
) -> Result<Registers<u64>, WalkFault>
    ensures { Walks (members start) column words.now result }
{
    let _ = judge(start, words)?;
    if has_invert(words) {
        return Err(WalkFault::Inverts);
    }
    let mut entries = opening_entries(start, column);
    for word in words {
        entries = entries_after_word(*word, entries).ok_or(WalkFault::Overflow)?;
    }
    Ok(entries)
}
