// Division of a job number into its pairs.
ghost use Rattle.std.specs.Prelude.{◌≡◌, ◌<◌, ◌≤◌, MatchOption, MatchResult};
ghost use Rattle.recoding.specs.declared.fault.NumberFault.TheVariants.{Zero};
ghost use Rattle.recoding.specs.Tables.{table_of_thirty};
ghost use Rattle.recoding.specs.Divisions.{DividesOnce, Recoded, found_by};

use super::division::Division;
use super::fault::NumberFault;
use super::pair::Pair;
use super::table::Table;

impl Table {
    // One division of a number: the pair and what is left; none for 0 and 1.
    fn divide_once(&self, number: u64) -> Option<(Pair, u64)>
        ensures { MatchOption result (number ≤ 1) (λ x. DividesOnce self.now.entries number x.0 x.1) }
    {
        if number <= 1 {
            return None;
        }
        let pair = self.entries[(number % 30) as usize];
        // A digit is never below 0, and a table that fits leaves no remainder.
        let rest = (number - pair.digit() as u64) / u64::from(pair.base());
        Some((pair, rest))
    }

    // The pairs of a job number, from one division after the other down to 1; 0 has none.
    fn divide(&self, number: u64) -> Result<Division, NumberFault>
        ensures { MatchResult result (λ d. Recoded self.now.entries number (found_by d)) (λ e. (e ≡ Zero) × (number ≡ 0)) }
    {
        if number == 0 {
            return Err(NumberFault::Zero);
        }
        let mut pairs = [Pair::TwoZero; 63];
        let mut rest = number;
        for (count, slot) in pairs.iter_mut().enumerate() {
            let Some((pair, next)) = self.divide_once(rest) else {
                return Ok(Division { pairs, count });
            };
            *slot = pair;
            rest = next;
        }
        // All places are taken: a number of 64 bits has no more pairs.
        Ok(Division {
            pairs,
            count: pairs.len(),
        })
    }
}

/// One division of a number by the table: the pair and what is left; none for 0 and 1, which are not divided.
pub fn divide_once(number: u64) -> Option<(Pair, u64)>
    ensures { MatchOption result (number ≤ 1) (λ x. DividesOnce table_of_thirty number x.0 x.1) }
{
    Table::in_use().divide_once(number)
}

/// The pairs of a job number by the table; 0 has none.
pub fn divide(number: u64) -> Result<Division, NumberFault>
    ensures { MatchResult result (λ d. Recoded table_of_thirty number (found_by d)) (λ e. (e ≡ Zero) × (number ≡ 0)) }
{
    Table::in_use().divide(number)
}
