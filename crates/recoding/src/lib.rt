// Job numbers in a mixed base: pairs of a base and a digit, the division table, and the division of a number into its pairs.
#![tactic(auto)]

mod dividing;
mod division;
mod fault;
mod pair;
mod table;
#[cfg(test)]
mod tests;

pub use dividing::{divide, divide_once};
pub use division::Division;
pub use fault::NumberFault;
pub use pair::Pair;
pub use table::division_table;
