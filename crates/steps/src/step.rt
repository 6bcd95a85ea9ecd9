// Steps: seven kinds, each on one register or two.
ghost use Rattle.std.specs.Prelude.{◌≡◌, if◌then◌else◌, Some, None};
ghost use Rattle.steps.specs.Steps.{kind_of, first_register, second_register, step_of, allowed, lawful, transposed};

use super::register::Register;

/// What a step does.
#[derive(Clone, Copy, Debug, PartialEq, Eq)]
pub enum Kind {
    Copy,
    Move,
    Swap,
    Invert,
    Square,
    Multiply,
    Gather,
}

/// A kind with its registers.
#[derive(Clone, Copy, Debug, PartialEq, Eq)]
pub enum Step {
    /// `to`, which is empty, gets the value of `from`.
    Copy { from: Register, to: Register },
    /// The same, and `from` is emptied.
    Move { from: Register, to: Register },
    /// Two full registers change values.
    Swap { low: Register, high: Register },
    /// A register gets its inverse.
    Invert(Register),
    /// A register gets its value joined with itself.
    Square(Register),
    /// `into` gets its value joined with that of `by`.
    Multiply { into: Register, by: Register },
    /// The same, and `from` is emptied.
    Gather { into: Register, from: Register },
}

/// How many steps square and how many multiply: a gather is a multiplication too.
#[derive(Clone, Copy, Debug, PartialEq, Eq)]
pub struct Counts {
    pub squarings: usize,
    pub multiplications: usize,
}

impl Step {
    /// The step of a kind with registers a and b, if they keep the rule of the kind.
    pub fn new(kind: Kind, a: Register, b: Register) -> Option<Step>
        ensures { result ≡ (if allowed kind a b then Some (step_of kind a b) else None) }
    {
        match kind {
            Kind::Copy if a != b => Some(Step::Copy { from: a, to: b }),
            Kind::Move if a != b => Some(Step::Move { from: a, to: b }),
            Kind::Swap if a < b => Some(Step::Swap { low: a, high: b }),
            Kind::Invert if a == b => Some(Step::Invert(a)),
            Kind::Square if a == b => Some(Step::Square(a)),
            Kind::Multiply if a != b => Some(Step::Multiply { into: a, by: b }),
            Kind::Gather if a != b => Some(Step::Gather { into: a, from: b }),
            _ => None,
        }
    }

    /// The kind.
    pub fn kind(self) -> Kind
        ensures { result ≡ kind_of self }
    {
        match self {
            Step::Copy { .. } => Kind::Copy,
            Step::Move { .. } => Kind::Move,
            Step::Swap { .. } => Kind::Swap,
            Step::Invert(_) => Kind::Invert,
            Step::Square(_) => Kind::Square,
            Step::Multiply { .. } => Kind::Multiply,
            Step::Gather { .. } => Kind::Gather,
        }
    }

    /// The registers a and b, which are the same for invert and square.
    pub fn registers(self) -> (Register, Register)
        ensures { result ≡ (first_register self, second_register self) }
    {
        match self {
            Step::Copy { from, to } | Step::Move { from, to } => (from, to),
            Step::Swap { low, high } => (low, high),
            Step::Invert(a) | Step::Square(a) => (a, a),
            Step::Multiply { into, by } => (into, by),
            Step::Gather { into, from } => (into, from),
        }
    }

    /// The transpose: copy and gather change places, move and multiply exchange their registers, the rest stay.
    pub fn transpose(self) -> Step
        ensures value { result ≡ transposed self }
        ensures twice { transposed result ≡ self }
        ensures keeps { lawful result ≡ lawful self }
    {
        match self {
            Step::Copy { from, to } => Step::Gather {
                into: from,
                from: to,
            },
            Step::Gather { into, from } => Step::Copy {
                from: into,
                to: from,
            },
            Step::Move { from, to } => Step::Move { from: to, to: from },
            Step::Multiply { into, by } => Step::Multiply { into: by, by: into },
            Step::Swap { .. } | Step::Invert(_) | Step::Square(_) => self,
        }
    }
}
