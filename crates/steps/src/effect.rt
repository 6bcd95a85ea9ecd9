// What a step needs of the full registers and what it leaves full.
ghost use Rattle.std.specs.Prelude.{◌≡◌, Ok, Err, MatchResult};
ghost use Rattle.steps.specs.Sets.{members};
ghost use Rattle.steps.specs.Fullness.{after};

use super::fault::RegisterFault;
use super::register_set::RegisterSet;
use super::step::Step;

impl Step {
    /// The full registers after the step, or why they do not allow it: a register that has to be full is looked at first.
    pub fn apply(self, full: RegisterSet) -> Result<RegisterSet, RegisterFault>
        ensures { MatchResult result (λ s. after self (members full) ≡ Ok (members s)) (λ e. after self (members full) ≡ Err e) }
    {
        let (a, b) = self.registers();
        if !full.contains(a) {
            return Err(RegisterFault::Empty);
        }
        match self {
            Step::Copy { .. } | Step::Move { .. } if full.contains(b) => Err(RegisterFault::Full),
            Step::Copy { to, .. } => Ok(full.with(to)),
            Step::Move { from, to } => Ok(full.with(to).without(from)),
            _ if !full.contains(b) => Err(RegisterFault::Empty),
            Step::Gather { from, .. } => Ok(full.without(from)),
            _ => Ok(full),
        }
    }
}
