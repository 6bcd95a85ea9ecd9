// Steps of a three-register unit: registers, sets of them, step words, and lists of steps with what they do.
#![tactic(auto)]

mod counting;
mod effect;
mod fault;
mod judgement;
mod judging;
mod register;
mod register_set;
mod sets;
mod step;
#[cfg(test)]
mod tests;
mod text;
mod turning;
mod walking;
mod word;

pub use counting::count;
pub use fault::{NotASet, RegisterFault, StepAt, StepFault, WalkFault, WordFault};
pub use judgement::Judgement;
pub use judging::judge;
pub use register::{Register, Registers};
pub use register_set::RegisterSet;
pub use step::{Counts, Kind, Step};
pub use turning::turn;
pub use walking::walk;
