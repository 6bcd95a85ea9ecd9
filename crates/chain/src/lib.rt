// Addition chains: the steps for a pair and for a job number, laid into a caller's memory of words.
#![tactic(auto)]

mod fault;
mod laying;
mod pairs;
#[cfg(test)]
mod tests;
mod weighing;

pub use fault::ChainFault;
pub use laying::{lay_number, lay_pair};
pub use pairs::steps_of_pair;
pub use weighing::weigh;
