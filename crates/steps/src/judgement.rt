// What is found of a list of steps that fits.
use super::register_set::RegisterSet;
use super::step::Counts;

/// The start set of a list of steps, what the steps leave full, and their counts.
#[derive(Clone, Copy, Debug, PartialEq, Eq)]
pub struct Judgement {
    pub start: RegisterSet,
    pub full: RegisterSet,
    pub counts: Counts,
}
