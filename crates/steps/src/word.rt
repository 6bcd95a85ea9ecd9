// Step words: from the top, four bits for the kind and two for each register; the low 24 bits are clear.
// The one place that knows the layout.
ghost use Rattle.std.specs.Prelude.{◌≡◌, ◌<◌, true, IfOk, Ok};
ghost use Rattle.std.specs.Option.{ok_or};
ghost use Rattle.steps.specs.declared.fault.WordFault.TheVariants as fault;
ghost use Rattle.steps.specs.Registers.{number_of};
ghost use Rattle.steps.specs.Steps.{kind_number, lawful};
ghost use Rattle.steps.specs.Words.{encoded, kind_numbered, register_numbered, decoded};

use super::fault::WordFault;
use super::register::Register;
use super::step::{Kind, Step};

impl TryFrom<u32> for Register {
    type Error = WordFault;

    ghost try_from_gives = { λ n r. r ≡ ok_or (register_numbered n) fault.Form };

    /// The register of a number in a step word.
    fn try_from(number: u32) -> Result<Register, WordFault> {
        match number {
            0 => Ok(Register::T),
            1 => Ok(Register::P),
            2 => Ok(Register::Q),
            _ => Err(WordFault::Form),
        }
    }
}

impl From<Register> for u32 {
    ghost from_gives = { λ r n. n ≡ number_of r };

    /// The register's number in a step word.
    fn from(register: Register) -> u32
        ensures value { result ≡ number_of register }
        ensures bound { result < 3 }
    {
        match register {
            Register::T => 0,
            Register::P => 1,
            Register::Q => 2,
        }
    }
}

impl TryFrom<u32> for Kind {
    type Error = WordFault;

    ghost try_from_gives = { λ n r. r ≡ ok_or (kind_numbered n) fault.Kind };

    /// The kind of a number in a step word.
    fn try_from(number: u32) -> Result<Kind, WordFault> {
        match number {
            1 => Ok(Kind::Copy),
            2 => Ok(Kind::Move),
            3 => Ok(Kind::Swap),
            4 => Ok(Kind::Invert),
            5 => Ok(Kind::Square),
            6 => Ok(Kind::Multiply),
            7 => Ok(Kind::Gather),
            _ => Err(WordFault::Kind),
        }
    }
}

impl From<Kind> for u32 {
    ghost from_gives = { λ k n. n ≡ kind_number k };

    /// The kind's number in a step word.
    fn from(kind: Kind) -> u32
        ensures value { result ≡ kind_number kind }
        ensures bound { result < 8 }
    {
        match kind {
            Kind::Copy => 1,
            Kind::Move => 2,
            Kind::Swap => 3,
            Kind::Invert => 4,
            Kind::Square => 5,
            Kind::Multiply => 6,
            Kind::Gather => 7,
        }
    }
}

impl TryFrom<u32> for Step {
    type Error = WordFault;

    ghost try_from_gives = { λ w r. r ≡ decoded w };

    /// The step of a word.
    fn try_from(word: u32) -> Result<Step, WordFault>
        ensures value { result ≡ decoded word }
        ensures word_back { IfOk result (λ s. (encoded s ≡ word) × (lawful s ≡ true)) }
    {
        let kind = Kind::try_from(word >> 28)?;
        let a = Register::try_from((word >> 26) % 4)?;
        let b = Register::try_from((word >> 24) % 4)?;
        if word % 0x100_0000 != 0 {
            return Err(WordFault::Form);
        }
        Step::new(kind, a, b).ok_or(WordFault::Rule)
    }
}

impl From<Step> for u32 {
    ghost from_gives = { λ s w. w ≡ encoded s };

    /// The word of a step.
    fn from(step: Step) -> u32
        ensures value { result ≡ encoded step }
        ensures step_back { lawful step ≡ true → decoded result ≡ Ok step }
    {
        let (a, b) = step.registers();
        (u32::from(step.kind()) << 28) + (u32::from(a) << 26) + (u32::from(b) << 24)
    }
}
