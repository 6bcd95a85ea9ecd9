// Why no steps are laid.
ghost use Rattle.std.specs.Prelude.{◌≡◌, Some};
ghost use Rattle.chain.specs.declared.fault.ChainFault.TheVariants as chain;
ghost use Rattle.chain.specs.Faults.{chain_number, chain_text};

use recoding::NumberFault;
use refusal::Refusal;
use std::fmt;

/// Why no steps are laid.
#[derive(Clone, Copy, Debug, PartialEq, Eq)]
pub enum ChainFault {
    /// The number has no pairs.
    Number(NumberFault),
    /// The steps are more than the memory has words.
    Capacity,
}

impl From<NumberFault> for ChainFault {
    ghost from_gives = { λ e r. r ≡ chain.Number e };

    fn from(fault: NumberFault) -> ChainFault {
        ChainFault::Number(fault)
    }
}

impl Refusal for ChainFault {
    ghost shown_as = { chain_number };

    fn number(self) -> u32 {
        match self {
            ChainFault::Number(fault) => fault.number(),
            ChainFault::Capacity => 32,
        }
    }
}

impl fmt::Display for ChainFault {
    ghost output = { λ e. Some (chain_text e) };

    fn fmt<W: fmt::Write>(&self, f: &mut fmt::Formatter<W>) -> fmt::Result {
        match self {
            ChainFault::Number(fault) => write!(f, "{fault}"),
            ChainFault::Capacity => f.write_str("more steps than the memory has words"),
        }
    }
}
