// What a register set holds, and how many; the number of a set, and sets with one register more or less.
ghost use Rattle.std.specs.Prelude.{◌≡◌, ◌<◌, true, false, MatchResult};
ghost use Rattle.steps.specs.Registers.{three, at, put};
ghost use Rattle.steps.specs.Sets.{bit_of, bits_of, members, size};

use super::fault::NotASet;
use super::register::Register;
use super::register_set::RegisterSet;

// How many registers each set has, by the number of the set.
const SIZES: [u8; 8] = [0, 1, 1, 2, 1, 2, 2, 3];

// What a register adds to the number of a set.
fn bit(register: Register) -> u8
    ensures { result ≡ bit_of register }
{
    match register {
        Register::T => 1,
        Register::P => 2,
        Register::Q => 4,
    }
}

impl TryFrom<u32> for RegisterSet {
    type Error = NotASet;

    ghost try_from_gives = { λ bits r. MatchResult r (λ s. bits_of (members s) ≡ bits) (λ e. (e.0 ≡ bits) × (7 < bits)) };

    /// The set of a number: 1 for T, 2 for P and 4 for Q, added.
    fn try_from(bits: u32) -> Result<RegisterSet, NotASet> {
        if bits > 7 {
            return Err(NotASet(bits));
        }
        Ok(RegisterSet { bits: bits as u8 })
    }
}

impl From<RegisterSet> for u32 {
    ghost from_gives = { λ s bits. bits ≡ bits_of (members s) };

    /// The number of the set.
    fn from(set: RegisterSet) -> u32 {
        u32::from(set.bits)
    }
}

impl RegisterSet {
    /// The set of one register.
    pub fn only(register: Register) -> RegisterSet
        ensures { members result ≡ put (three false false false) register true }
    {
        RegisterSet {
            bits: bit(register),
        }
    }

    /// Whether the register is in the set.
    pub fn contains(self, register: Register) -> bool
        ensures { result ≡ at (members self) register }
    {
        self.bits / bit(register) % 2 == 1
    }

    /// How many registers are in the set.
    pub fn len(self) -> u8
        ensures { result ≡ size (members self) }
    {
        SIZES[self.bits as usize]
    }

    /// The set with the register in it.
    pub fn with(self, register: Register) -> RegisterSet
        ensures { members result ≡ put (members self) register true }
    {
        if self.contains(register) {
            return self;
        }
        RegisterSet {
            bits: self.bits + bit(register),
        }
    }

    /// The set with the register not in it.
    pub fn without(self, register: Register) -> RegisterSet
        ensures { members result ≡ put (members self) register false }
    {
        if !self.contains(register) {
            return self;
        }
        RegisterSet {
            bits: self.bits - bit(register),
        }
    }
}
