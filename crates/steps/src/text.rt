// Steps as text.
ghost use Rattle.std.specs.Prelude.{Some};
ghost use Rattle.steps.specs.Texts.{register_text, step_text};

use super::register::Register;
use super::step::Step;
use std::fmt;

impl fmt::Display for Register {
    ghost output = { λ r. Some (register_text r) };

    fn fmt<W: fmt::Write>(&self, f: &mut fmt::Formatter<W>) -> fmt::Result {
        f.write_str(match self {
            Register::T => "T",
            Register::P => "P",
            Register::Q => "Q",
        })
    }
}

impl fmt::Display for Step {
    ghost output = { λ s. Some (step_text s) };

    fn fmt<W: fmt::Write>(&self, f: &mut fmt::Formatter<W>) -> fmt::Result {
        match self {
            Step::Copy { from, to } => write!(f, "copy {from} to {to}"),
            Step::Move { from, to } => write!(f, "move {from} to {to}"),
            Step::Swap { low, high } => write!(f, "swap {low} and {high}"),
            Step::Invert(a) => write!(f, "invert {a}"),
            Step::Square(a) => write!(f, "square {a}"),
            Step::Multiply { into, by } => write!(f, "multiply {into} by {by}"),
            Step::Gather { into, from } => write!(f, "gather {from} into {into}"),
        }
    }
}
