// Why a step word, a step, a walk over steps or the number of a set is refused; `Refusal` has the number that is shown.
ghost use Rattle.std.specs.Prelude.{◌≡◌};
ghost use Rattle.steps.specs.declared.fault.StepFault.TheVariants as step;
ghost use Rattle.steps.specs.declared.fault.WalkFault.TheVariants as walk;
ghost use Rattle.steps.specs.Faults.{word_number, register_number, step_number, walk_number};

use refusal::Refusal;

/// A word that is no step.
#[derive(Clone, Copy, Debug, PartialEq, Eq)]
pub enum WordFault {
    /// The kind is none of the seven.
    Kind,
    /// A register's number is above 2, or the rest of the word is not 0.
    Form,
    /// The registers break the rule of the kind.
    Rule,
}

/// A step that the full registers do not allow.
#[derive(Clone, Copy, Debug, PartialEq, Eq)]
pub enum RegisterFault {
    /// A register that has to be full is empty.
    Empty,
    /// A register that has to be empty is full.
    Full,
}

/// A fault of the word or of the registers.
#[derive(Clone, Copy, Debug, PartialEq, Eq)]
pub enum StepFault {
    Word(WordFault),
    Registers(RegisterFault),
}

/// A step's fault and the place of its word, counted from 0.
#[derive(Clone, Copy, Debug, PartialEq, Eq)]
pub struct StepAt {
    pub place: usize,
    pub fault: StepFault,
}

/// Why a column is not found by walking.
#[derive(Clone, Copy, Debug, PartialEq, Eq)]
pub enum WalkFault {
    /// A word that is no step, or does not fit.
    Step(StepAt),
    /// An invert step, whose entries may be below 0.
    Inverts,
    /// After some step an entry is 2^64 or more.
    Overflow,
}

/// A number that is no set of registers, since it is above 7.
#[derive(Clone, Copy, Debug, PartialEq, Eq)]
pub struct NotASet(pub u32);

impl From<WordFault> for StepFault {
    ghost from_gives = { λ e r. r ≡ step.Word e };

    fn from(fault: WordFault) -> StepFault {
        StepFault::Word(fault)
    }
}

impl From<RegisterFault> for StepFault {
    ghost from_gives = { λ e r. r ≡ step.Registers e };

    fn from(fault: RegisterFault) -> StepFault {
        StepFault::Registers(fault)
    }
}

impl From<StepAt> for WalkFault {
    ghost from_gives = { λ e r. r ≡ walk.Step e };

    fn from(at: StepAt) -> WalkFault {
        WalkFault::Step(at)
    }
}

impl Refusal for WordFault {
    ghost shown_as = { word_number };

    fn number(self) -> u32 {
        match self {
            WordFault::Kind => 11,
            WordFault::Form => 12,
            WordFault::Rule => 13,
        }
    }
}

impl Refusal for RegisterFault {
    ghost shown_as = { register_number };

    fn number(self) -> u32 {
        match self {
            RegisterFault::Empty => 21,
            RegisterFault::Full => 22,
        }
    }
}

impl Refusal for StepFault {
    ghost shown_as = { step_number };

    fn number(self) -> u32 {
        match self {
            StepFault::Word(fault) => fault.number(),
            StepFault::Registers(fault) => fault.number(),
        }
    }
}

impl Refusal for WalkFault {
    ghost shown_as = { walk_number };

    fn number(self) -> u32 {
        match self {
            WalkFault::Step(at) => at.fault.number(),
            WalkFault::Inverts => 71,
            WalkFault::Overflow => 73,
        }
    }
}
